ghost use Rattle.std.specs.Prelude.{◌≡◌, ◌<◌};

use crate::{
    BUILTIN_NAMES, BinaryOp, Budget, Cause, Command, Event, Label, List, LostKind, NewCell,
    PRELUDE_TEXTS, Part, PathId, Plain, PlainProp, RESERVED_WORDS, ReservedWord, Steps, Text,
    TickReport, Units,
};
use std::alloc::{AllocError, Global};
use std::marker::Brand;
use std::sync::ledger::{Blank, Ledger};
use std::test::Fail;

fn text(alloc: Global, text: &str) -> Result<Text, AllocError> {
    Ok(Text::from_string(String::from_str(alloc, text)?))
}

fn units(alloc: Global, items: &[u16]) -> Result<Units, AllocError> {
    Ok(Units::from_vec(Vec::from_slice(alloc, items)?))
}

#[test]
fn lists_keep_their_items(rt: HostRuntime) -> Result<(), Fail> {
    let alloc = rt.alloc();
    let mut list = List::from_slice(alloc, &[1u8, 2, 3])?;
    list.push(4)?;
    assert_eq!(rt; list.len(), 4);
    list.set(0, 9);
    assert_eq!(rt; list.remove(1), 2);
    assert_eq!(rt; list.pop(), Some(4));
    assert_eq!(rt; list.get(1).copied(), Some(3));
    assert_eq!(rt; list.get(2).copied(), None);
    assert!(rt; !list.is_empty());
    assert_eq!(rt; list.into_vec().as_slice(), [9u8, 3].as_slice());
    assert!(rt; List::<u8>::new(alloc).is_empty());
    let mut units = Units::new(alloc);
    units.push(0xd83d)?;
    assert_eq!(rt;
        units.copy(alloc)?.into_vec().as_slice(),
        [0xd83du16].as_slice()
    );
    Ok(())
}

// An array of an object and of each other kind of plain data.
fn sample(alloc: Global) -> Result<Plain, Fail> {
    let mut props = List::new(alloc);
    props.push(PlainProp {
        key: units(alloc, &[107])?,
        value: Plain::Int(-5),
    })?;
    let mut items = List::new(alloc);
    items.push(Plain::Undefined)?;
    items.push(Plain::Null)?;
    items.push(Plain::Bool(true))?;
    items.push(Plain::Text(units(alloc, &[104, 105])?))?;
    items.push(Plain::Object(props))?;
    Ok(Plain::Array(items))
}

#[test]
fn plain_data_is_copied_whole(rt: HostRuntime) -> Result<(), Fail> {
    let alloc = rt.alloc();
    let plain = sample(alloc)?;
    let copy = plain.copy(alloc)?;
    let Plain::Array(items) = copy else {
        return Ok(assert!(rt; false));
    };
    assert_eq!(rt; items.len(), 5);
    assert!(rt; matches!(items.get(2), Some(Plain::Bool(true))));
    let Some(Plain::Object(props)) = items.get(4) else {
        return Ok(assert!(rt; false));
    };
    let Some(prop) = props.get(0) else {
        return Ok(assert!(rt; false));
    };
    let prop = prop.copy(alloc)?;
    assert_eq!(rt; prop.key.as_slice(), [107u16].as_slice());
    assert!(rt; matches!(prop.value, Plain::Int(-5)));
    Ok(())
}

fn cell(alloc: Global) -> Result<NewCell, AllocError> {
    Ok(NewCell {
        id: text(alloc, "c")?,
        text: text(alloc, "c = 1")?,
    })
}

// A command of each word, by its place in the table of commands.
fn command(alloc: Global, word: u8) -> Result<Command, Fail> {
    let notebook = text(alloc, "main")?;
    let name = text(alloc, "c")?;
    match word {
        0 => {
            let mut cells = List::new(alloc);
            cells.push(cell(alloc)?)?;
            Ok(Command::Notebook {
                id: notebook,
                cells,
            })
        }
        1 => Ok(Command::Define {
            notebook,
            cell: cell(alloc)?,
            place: Some(3),
        }),
        2 => Ok(Command::Redefine {
            notebook,
            cell: cell(alloc)?,
        }),
        3 => Ok(Command::Delete {
            notebook,
            cell: name,
        }),
        4 => Ok(Command::Input {
            notebook,
            cell: name,
            value: Plain::Null,
        }),
        5 => Ok(Command::Observe {
            notebook,
            cell: name,
        }),
        6 => Ok(Command::Unobserve {
            notebook,
            cell: name,
        }),
        _ => Ok(Command::Tick),
    }
}

fn copy_command(alloc: Global, word: u8) -> Result<(), Fail> {
    let source = command(alloc, word)?;
    let _copy = source.copy(alloc)?;
    Ok(())
}

#[test]
fn commands_are_copied(rt: HostRuntime) -> Result<(), Fail> {
    let alloc = rt.alloc();
    for word in 0..8u8 {
        copy_command(alloc, word)?;
    }
    Ok(())
}

fn causes(alloc: Global) -> Result<List<Cause>, Fail> {
    let mut causes = List::new(alloc);
    causes.push(Cause::NotJson)?;
    causes.push(Cause::BadShape(text(alloc, "do")?))?;
    causes.push(Cause::UnknownCommand)?;
    causes.push(Cause::NumberRange)?;
    causes.push(Cause::NotebookExists(text(alloc, "a")?))?;
    causes.push(Cause::NoNotebook(text(alloc, "b")?))?;
    causes.push(Cause::NoCell(text(alloc, "c")?))?;
    causes.push(Cause::CellExists(text(alloc, "d")?))?;
    causes.push(Cause::BadPlace(7))?;
    causes.push(Cause::TextTooLong(65_537))?;
    causes.push(Cause::ImportMissing(units(alloc, &[0xdc00])?))?;
    causes.push(Cause::WithCycle(text(alloc, "e")?))?;
    causes.push(Cause::TooManyInstances)?;
    causes.push(Cause::TooManyVariables)?;
    causes.push(Cause::NoView)?;
    causes.push(Cause::NotBuilt)?;
    Ok(causes)
}

#[test]
fn causes_are_copied(rt: HostRuntime) -> Result<(), Fail> {
    let alloc = rt.alloc();
    for cause in causes(alloc)?.as_slice() {
        let _copy = cause.copy(alloc)?;
    }
    Ok(())
}

// An event of each kind.
fn event(alloc: Global, kind: u8) -> Result<Event, Fail> {
    let label = text(alloc, "main#a")?;
    let shown = text(alloc, "3")?;
    match kind {
        0 => Ok(Event::Invalidate { label, run: 1 }),
        1 => Ok(Event::Hook {
            label,
            run: 1,
            hook: 2,
            failure: shown,
        }),
        2 => Ok(Event::Log { label, text: shown }),
        3 => Ok(Event::Run { label, run: 3 }),
        4 => Ok(Event::Step {
            label,
            run: 3,
            position: 4,
        }),
        5 => Ok(Event::End { label, run: 5 }),
        6 => Ok(Event::Lost {
            label,
            kind: LostKind::NoValue,
        }),
        7 => Ok(Event::Value { label, text: shown }),
        _ => Ok(Event::Error {
            label,
            failure: shown,
        }),
    }
}

#[test]
fn reports_are_copied(rt: HostRuntime) -> Result<(), Fail> {
    let alloc = rt.alloc();
    let mut events = List::new(alloc);
    for kind in 0..9u8 {
        events.push(event(alloc, kind)?)?;
    }
    let report = TickReport {
        number: 2,
        events,
        spent: 10,
    };
    let copy = report.copy(alloc)?;
    assert_eq!(rt; copy.events.len(), 9);
    Ok(())
}

fn count<L: Ledger>(blank: Blank) -> usize
    requires name { blank.name ≡ L.name }
    requires parts { blank.parts ≡ L.parts }
    requires some { 0 < L.parts }
{
    let mut steps = Steps::<L>::new(blank);
    steps.tick(3);
    steps.tick(4);
    size_of::<Steps<L>>()
}

#[test]
fn steps_add_up_and_take_no_bytes(rt: HostRuntime) {
    let size = count::<Brand>(Blank::new(1));
    assert_eq!(rt; size, 0);
}

#[test]
fn small_types_are_plain(rt: HostRuntime) {
    let label = Label {
        path: PathId(2),
        cell: 3,
        part: Part::Shown,
    };
    assert_eq!(rt; label, label);
    assert_ne!(rt; BinaryOp::Shr, BinaryOp::ShrUnsigned);
    assert_eq!(rt; BUILTIN_NAMES[8], "invalidation");
    assert!(rt; PRELUDE_TEXTS[6].starts_with("function (x, f) {"));
    let budget = Budget { left: 5 };
    assert_eq!(rt; budget.left, 5);
}

#[test]
fn reserved_words_are_known_by_their_spelling(rt: HostRuntime) {
    let rows = [
        ("arguments", Some(ReservedWord::Arguments)),
        ("async", Some(ReservedWord::Async)),
        ("in", Some(ReservedWord::In)),
        ("instanceof", Some(ReservedWord::Instanceof)),
        ("mutable", Some(ReservedWord::Mutable)),
        ("viewof", Some(ReservedWord::Viewof)),
        ("yield", Some(ReservedWord::Yield)),
        ("", None),
        ("as", None),
        ("from", None),
        ("of", None),
        ("If", None),
        ("ifx", None),
        ("inst", None),
        ("été", None),
    ];
    for (name, word) in rows {
        assert_eq!(rt; ReservedWord::named(name), word);
    }
    for word in &RESERVED_WORDS {
        assert_eq!(rt; ReservedWord::named(word.as_str()), Some(*word));
    }
}
