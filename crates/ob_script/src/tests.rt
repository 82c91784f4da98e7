use crate::{ReadError, bundle_text, command_text, read_bundle, read_command};
use ob_base::{Cause, Command, List, NewCell, Plain, Text};
use std::alloc::{AllocError, Global};
use std::test::Fail;

// Whether a fault of form is this one: a field that breaks its form goes by its name.
fn is_fault(error: &ReadError, name: &str) -> bool {
    match error {
        ReadError::NoMemory => false,
        ReadError::Refused(Cause::NotJson) => name == "NotJson",
        ReadError::Refused(Cause::UnknownCommand) => name == "UnknownCommand",
        ReadError::Refused(Cause::NumberRange) => name == "NumberRange",
        ReadError::Refused(Cause::BadShape(field)) => field.as_str() == name,
        ReadError::Refused(_) => false,
    }
}

fn command_answers(alloc: Global, line: &[u8], name: &str) -> bool {
    match read_command(alloc, line) {
        Ok(_) => name == "ok",
        Err(error) => is_fault(&error, name),
    }
}

fn bundle_answers(alloc: Global, line: &[u8], name: &str) -> bool {
    match read_bundle(alloc, line) {
        Ok(_) => name == "ok",
        Err(error) => is_fault(&error, name),
    }
}

fn push_repeated(all: &mut String, text: &str, count: usize) -> Result<(), AllocError> {
    for _ in 0..count {
        all.push_str(text)?;
    }
    Ok(())
}

#[test]
fn lines_have_a_command_or_their_first_fault(rt: HostRuntime) {
    for (line, name) in [
        ("", "NotJson"),
        ("{\"do\":\"ti", "NotJson"),
        ("{\"do\":\"tick\"} x", "NotJson"),
        ("{\"do\":\"tick\",\"x\":\"\\ud800\"}", "NotJson"),
        ("{}", "do"),
        ("[]", "do"),
        ("5", "do"),
        ("{\"do\":5}", "do"),
        ("{\"do\":\"fly\"}", "UnknownCommand"),
        ("{\"do\":\"tick\"}", "ok"),
        (" {\"other\":[1.5],\"do\":\"fly\",\"do\":\"tick\"} ", "ok"),
        ("{\"do\":\"observe\"}", "notebook"),
        (
            "{\"do\":\"observe\",\"notebook\":\"\",\"cell\":\"?\"}",
            "notebook",
        ),
        ("{\"do\":\"observe\",\"notebook\":\"m\"}", "cell"),
        (
            "{\"do\":\"observe\",\"notebook\":\"@a/b.c-d_E9\",\"cell\":\"a-b_C9\"}",
            "ok",
        ),
        (
            "{\"do\":\"observe\",\"notebook\":\"m\",\"cell\":\"a.b\"}",
            "cell",
        ),
        (
            "{\"do\":\"unobserve\",\"notebook\":\"m\",\"cell\":\"\\u00e9\"}",
            "cell",
        ),
        (
            "{\"do\":\"delete\",\"notebook\":\"m m\",\"cell\":\"c\"}",
            "notebook",
        ),
        (
            "{\"do\":\"delete\",\"notebook\":\"m\",\"cell\":\"c\"}",
            "ok",
        ),
    ] {
        assert!(rt;
            command_answers(rt.alloc(), line.as_bytes(), name),
            "{line}"
        );
    }
    assert!(rt; command_answers(rt.alloc(), &[123, 255, 125], "NotJson"));
}

#[test]
fn edits_are_read_field_by_field(rt: HostRuntime) {
    for (line, name) in [
        (
            "{\"do\":\"define\",\"notebook\":\"m\",\"cell\":\"z\",\"text\":5}",
            "text",
        ),
        (
            "{\"do\":\"define\",\"notebook\":\"m\",\"cell\":\"z\",\"text\":\"\",\"place\":1.0}",
            "place",
        ),
        (
            "{\"do\":\"define\",\"notebook\":\"m\",\"cell\":\"z\",\"text\":\"\",\"place\":1e2}",
            "place",
        ),
        (
            "{\"do\":\"define\",\"notebook\":\"m\",\"cell\":\"z\",\"text\":\"\",\"place\":-0}",
            "place",
        ),
        (
            "{\"do\":\"define\",\"notebook\":\"m\",\"cell\":\"z\",\"text\":\"\",\"place\":null}",
            "place",
        ),
        (
            "{\"do\":\"define\",\"notebook\":\"m\",\"cell\":\"z\",\"text\":\"\",\"place\":4294967296}",
            "place",
        ),
        (
            "{\"do\":\"define\",\"notebook\":\"m\",\"cell\":\"z\",\"text\":\"\",\"place\":18446744073709551616}",
            "place",
        ),
        (
            "{\"do\":\"define\",\"notebook\":\"m\",\"cell\":\"z\",\"text\":\"\",\"place\":4294967295}",
            "ok",
        ),
        (
            "{\"do\":\"define\",\"notebook\":\"m\",\"cell\":\"z\",\"text\":\"\"}",
            "ok",
        ),
        (
            "{\"do\":\"redefine\",\"notebook\":\"m\",\"cell\":\"z\"}",
            "text",
        ),
        (
            "{\"do\":\"redefine\",\"notebook\":\"m\",\"cell\":\"z\",\"text\":\"z = 1\"}",
            "ok",
        ),
        ("{\"do\":\"notebook\",\"cells\":[]}", "id"),
        ("{\"do\":\"notebook\",\"id\":\"m\"}", "cells"),
        ("{\"do\":\"notebook\",\"id\":\"m\",\"cells\":{}}", "cells"),
        ("{\"do\":\"notebook\",\"id\":\"m\",\"cells\":[5]}", "id"),
        (
            "{\"do\":\"notebook\",\"id\":\"m\",\"cells\":[{\"id\":\"c\"},{}]}",
            "text",
        ),
        (
            "{\"do\":\"notebook\",\"id\":\"m\",\"cells\":[{\"id\":\"c\",\"text\":\"\"},{}]}",
            "id",
        ),
        (
            "{\"do\":\"notebook\",\"id\":\"m\",\"cells\":[{\"id\":\"c\",\"text\":\"\"}]}",
            "ok",
        ),
    ] {
        assert!(rt;
            command_answers(rt.alloc(), line.as_bytes(), name),
            "{line}"
        );
    }
}

#[test]
fn inputs_are_plain_data(rt: HostRuntime) {
    for (line, name) in [
        (
            "{\"do\":\"input\",\"notebook\":\"m\",\"value\":1.5}",
            "cell",
        ),
        (
            "{\"do\":\"input\",\"notebook\":\"m\",\"cell\":\"c\"}",
            "value",
        ),
        (
            "{\"do\":\"input\",\"notebook\":\"m\",\"cell\":\"c\",\"value\":null}",
            "ok",
        ),
        (
            "{\"do\":\"input\",\"notebook\":\"m\",\"cell\":\"c\",\"value\":1.5}",
            "NumberRange",
        ),
        (
            "{\"do\":\"input\",\"notebook\":\"m\",\"cell\":\"c\",\"value\":1.0}",
            "NumberRange",
        ),
        (
            "{\"do\":\"input\",\"notebook\":\"m\",\"cell\":\"c\",\"value\":[{\"a\":1e2}]}",
            "NumberRange",
        ),
        (
            "{\"do\":\"input\",\"notebook\":\"m\",\"cell\":\"c\",\"value\":-0}",
            "NumberRange",
        ),
        (
            "{\"do\":\"input\",\"notebook\":\"m\",\"cell\":\"c\",\"value\":18446744073709551616}",
            "NumberRange",
        ),
        (
            "{\"do\":\"input\",\"notebook\":\"m\",\"cell\":\"c\",\"value\":9007199254740992}",
            "NumberRange",
        ),
        (
            "{\"do\":\"input\",\"notebook\":\"m\",\"cell\":\"c\",\"value\":-9007199254740992}",
            "NumberRange",
        ),
        (
            "{\"do\":\"input\",\"notebook\":\"m\",\"cell\":\"c\",\"value\":[9007199254740991,-9007199254740991]}",
            "ok",
        ),
        (
            "{\"do\":\"input\",\"notebook\":\"m\",\"cell\":\"c\",\"value\":{\"a\":[true,\"x\",{}],\"b\":null}}",
            "ok",
        ),
    ] {
        assert!(rt;
            command_answers(rt.alloc(), line.as_bytes(), name),
            "{line}"
        );
    }
}

#[test]
fn bundles_are_read_field_by_field(rt: HostRuntime) {
    for (line, name) in [
        ("", "NotJson"),
        ("[]", "version"),
        ("{\"main\":\"m\",\"notebooks\":[]}", "version"),
        ("{\"version\":2,\"main\":\"\",\"notebooks\":[]}", "version"),
        (
            "{\"version\":1.0,\"main\":\"m\",\"notebooks\":[]}",
            "version",
        ),
        ("{\"version\":1,\"main\":\"\",\"notebooks\":5}", "main"),
        ("{\"version\":1,\"main\":\"m\"}", "notebooks"),
        ("{\"version\":1,\"main\":\"m\",\"notebooks\":[[]]}", "id"),
        (
            "{\"version\":1,\"main\":\"m\",\"notebooks\":[{\"id\":\"m\",\"cells\":[]},{\"id\":\"n\"}]}",
            "cells",
        ),
        (
            "{\"version\":1,\"main\":\"m\",\"notebooks\":[{\"id\":\"m\",\"cells\":[{\"id\":\"@\"}]}]}",
            "id",
        ),
        ("{\"version\":1,\"main\":\"m\",\"notebooks\":[]}", "ok"),
        (
            "{\"version\":1,\"main\":\"m\",\"notebooks\":[{\"id\":\"m\",\"cells\":[{\"id\":\"c\",\"text\":\"c = 1\"}]}]}",
            "ok",
        ),
    ] {
        assert!(rt; bundle_answers(rt.alloc(), line.as_bytes(), name), "{line}");
    }
}

fn observe_line(alloc: Global, notebook: usize, cell: usize) -> Result<String, AllocError> {
    let mut line = String::from_str(alloc, "{\"do\":\"observe\",\"notebook\":\"")?;
    push_repeated(&mut line, "n", notebook)?;
    line.push_str("\",\"cell\":\"")?;
    push_repeated(&mut line, "c", cell)?;
    line.push_str("\"}")?;
    Ok(line)
}

#[test]
fn ids_have_at_most_100_characters(rt: HostRuntime) -> Result<(), Fail> {
    for (notebook, cell, name) in [(100, 100, "ok"), (101, 101, "notebook"), (100, 101, "cell")] {
        let line = observe_line(rt.alloc(), notebook, cell)?;
        assert!(rt;
            command_answers(rt.alloc(), line.as_bytes(), name),
            "{name}"
        );
    }
    Ok(())
}

// An input whose value has `inner`, and before and after it `open` and `close` so many times.
fn input_line(
    alloc: Global,
    (open, inner, close): (&str, &str, &str),
    (opens, closes): (usize, usize),
    end: &str,
) -> Result<String, AllocError> {
    let mut line = String::from_str(
        alloc,
        "{\"do\":\"input\",\"notebook\":\"m\",\"cell\":\"c\",\"value\":",
    )?;
    push_repeated(&mut line, open, opens)?;
    line.push_str(inner)?;
    push_repeated(&mut line, close, closes)?;
    line.push_str(end)?;
    Ok(line)
}

#[test]
fn inputs_have_limited_depth(rt: HostRuntime) -> Result<(), Fail> {
    for (parts, count, name) in [
        (("[", "", "]"), 100, "ok"),
        (("[", "", "]"), 101, "value"),
        (("{\"a\":", "0", "}"), 100, "ok"),
        (("{\"a\":", "0", "}"), 101, "value"),
    ] {
        let line = input_line(rt.alloc(), parts, (count, count), "}")?;
        assert!(rt;
            command_answers(rt.alloc(), line.as_bytes(), name),
            "{count}"
        );
    }
    Ok(())
}

#[test]
fn inputs_have_limited_texts_and_elements(rt: HostRuntime) -> Result<(), Fail> {
    for (start, piece, end, count, name) in [
        ("\"", "x", "\"}", 65_536, "ok"),
        ("\"", "x", "\"}", 65_537, "value"),
        ("\"", "\u{1f600}", "\"}", 32_768, "ok"),
        ("\"", "\u{1f600}", "\"}", 32_769, "value"),
        ("{\"", "x", "\":0}}", 65_536, "ok"),
        ("{\"", "x", "\":0}}", 65_537, "value"),
        ("[0", ",0", "]}", 49_998, "ok"),
        ("[0", ",0", "]}", 49_999, "value"),
        ("[0", ",\"\"", "]}", 24_999, "ok"),
        ("[\"\"", ",\"\"", "]}", 24_999, "value"),
    ] {
        let line = input_line(rt.alloc(), ("", start, piece), (0, count), end)?;
        assert!(rt;
            command_answers(rt.alloc(), line.as_bytes(), name),
            "{count}"
        );
    }
    Ok(())
}

#[test]
fn a_definition_has_its_fields(rt: HostRuntime) {
    let line =
        b"{\"place\":3,\"do\":\"define\",\"cell\":\"z\",\"text\":\"\\u00e9\",\"notebook\":\"m\"}";
    let Ok(
        Command::Define {
            notebook,
            cell,
            place,
        },
    ) = read_command(rt.alloc(), line)
    else {
        return assert!(rt; false);
    };
    assert_eq!(rt; notebook.as_str(), "m");
    assert_eq!(rt; cell.id.as_str(), "z");
    assert_eq!(rt; cell.text.as_str(), "\u{e9}");
    assert_eq!(rt; place, Some(3));
}

#[test]
fn a_bundle_has_its_notebooks(rt: HostRuntime) {
    let line =
        b"{\"version\":1,\"main\":\"n\",\"notebooks\":[{\"id\":\"m\",\"cells\":[]},{\"id\":\"n\",\"cells\":[{\"id\":\"c\",\"text\":\"c = 1\"}]}]}";
    let Ok(bundle) = read_bundle(rt.alloc(), line) else {
        return assert!(rt; false);
    };
    assert_eq!(rt; bundle.main.as_str(), "n");
    let [Command::Notebook { .. }, Command::Notebook { id, cells }] = bundle.notebooks.as_slice()
    else {
        return assert!(rt; false);
    };
    assert_eq!(rt; id.as_str(), "n");
    let [cell] = cells.as_slice() else {
        return assert!(rt; false);
    };
    assert_eq!(rt; cell.text.as_str(), "c = 1");
}

// An object's properties stand in the byte order of their keys, and the last of equal keys counts.
#[test]
fn an_input_has_its_properties_in_order(rt: HostRuntime) {
    let line =
        b"{\"do\":\"input\",\"notebook\":\"m\",\"cell\":\"c\",\"value\":{\"\\ud83d\\ude00\":7,\"b\":5,\"\\uffff\":1,\"b\":-6}}";
    let Ok(Command::Input { value, .. }) = read_command(rt.alloc(), line) else {
        return assert!(rt; false);
    };
    let Plain::Object(props) = value else {
        return assert!(rt; false);
    };
    let [first, second, third] = props.as_slice() else {
        return assert!(rt; false);
    };
    assert_eq!(rt; first.key.as_slice(), [98u16].as_slice());
    assert!(rt; matches!(first.value, Plain::Int(-6)));
    assert_eq!(rt; second.key.as_slice(), [0xffffu16].as_slice());
    assert_eq!(rt; third.key.as_slice(), [0xd83du16, 0xde00].as_slice());
}

fn is_rewritten(alloc: Global, line: &str, want: &str) -> bool {
    match read_command(alloc, line.as_bytes()) {
        Ok(command) => match command_text(alloc, &command) {
            Ok(text) => text.as_str() == want,
            Err(_) => false,
        },
        Err(_) => false,
    }
}

#[test]
fn commands_are_written_with_their_keys_in_order(rt: HostRuntime) {
    for (line, want) in [
        ("{ \"do\": \"tick\" }", "{\"do\":\"tick\"}"),
        (
            "{\"do\":\"unobserve\",\"notebook\":\"m\",\"cell\":\"c\"}",
            "{\"cell\":\"c\",\"do\":\"unobserve\",\"notebook\":\"m\"}",
        ),
        (
            "{\"do\":\"define\",\"notebook\":\"m\",\"cell\":\"c\",\"text\":\"\\u0061\\n\",\"place\":0}",
            "{\"cell\":\"c\",\"do\":\"define\",\"notebook\":\"m\",\"place\":0,\"text\":\"a\\n\"}",
        ),
        (
            "{\"do\":\"notebook\",\"id\":\"n\",\"cells\":[{\"text\":\"1\",\"id\":\"c\"}]}",
            "{\"cells\":[{\"id\":\"c\",\"text\":\"1\"}],\"do\":\"notebook\",\"id\":\"n\"}",
        ),
        (
            "{\"do\":\"input\",\"notebook\":\"m\",\"cell\":\"c\",\"value\":{\"b\":[-1,true],\"a\":\"\\ud83d\\ude00\"}}",
            "{\"cell\":\"c\",\"do\":\"input\",\"notebook\":\"m\",\"value\":{\"a\":\"\u{1f600}\",\"b\":[-1,true]}}",
        ),
    ] {
        assert!(rt; is_rewritten(rt.alloc(), line, want), "{line}");
    }
}

fn text(alloc: Global, text: &str) -> Result<Text, AllocError> {
    Ok(Text::from_string(String::from_str(alloc, text)?))
}

#[test]
fn a_bundle_is_written_with_its_keys_in_order(rt: HostRuntime) -> Result<(), Fail> {
    let alloc = rt.alloc();
    let mut cells = List::new(alloc);
    cells.push(NewCell {
        id: text(alloc, "c")?,
        text: text(alloc, "c = 1")?,
    })?;
    let line = bundle_text(alloc, &text(alloc, "m")?, &cells)?;
    assert_eq!(rt;
        line.as_str(),
        "{\"main\":\"m\",\"notebooks\":[{\"cells\":[{\"id\":\"c\",\"text\":\"c = 1\"}],\"id\":\"m\"}],\"version\":1}"
    );
    Ok(())
}
