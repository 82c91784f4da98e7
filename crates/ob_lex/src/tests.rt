use crate::{LexError, Punctuator, Token, TokenKind, lex};
use ob_base::RESERVED_WORDS;
use std::alloc::{AllocError, Global};
use std::test::Fail;

// A token as a letter of its kind, what it is, and `^` where a break stands before it.
fn show(alloc: Global, out: &mut String, token: &Token) -> Result<(), AllocError> {
    if !out.is_empty() {
        out.push_str(" ")?;
    }
    if token.break_before {
        out.push_str("^")?;
    }
    match &token.kind {
        TokenKind::Name(name) => {
            out.push_str("n:")?;
            out.push_str(name.as_str())
        }
        TokenKind::Reserved(word) => {
            out.push_str("r:")?;
            out.push_str(word.as_str())
        }
        TokenKind::Number(value) => show_number(alloc, out, *value),
        TokenKind::Text(units) => show_units(alloc, out, units.as_slice()),
        TokenKind::Punctuator(mark) => out.push_str(mark.as_str()),
    }
}

fn show_number(alloc: Global, out: &mut String, value: i64) -> Result<(), AllocError> {
    let digits = value.to_string(alloc)?;
    out.push_str("#")?;
    out.push_str(digits.as_str())
}

fn show_units(alloc: Global, out: &mut String, units: &[u16]) -> Result<(), AllocError> {
    out.push_str("t")?;
    for unit in units {
        let digits = unit.to_string(alloc)?;
        out.push_str(":")?;
        out.push_str(digits.as_str())?;
    }
    Ok(())
}

fn show_span(alloc: Global, out: &mut String, token: &Token) -> Result<(), AllocError> {
    let start = token.start.to_string(alloc)?;
    let end = token.end.to_string(alloc)?;
    out.push_str("@")?;
    out.push_str(start.as_str())?;
    out.push_str("-")?;
    out.push_str(end.as_str())
}

fn shown(alloc: Global, text: &str, spans: bool) -> Result<String, AllocError> {
    if text.len() > 1000 {
        return String::from_str(alloc, "long");
    }
    match lex(alloc, text) {
        Err(LexError::Bad) => String::from_str(alloc, "Bad"),
        Err(LexError::NoMemory) => String::from_str(alloc, "NoMemory"),
        Ok(tokens) => {
            let mut out = String::new(alloc);
            for token in tokens.as_slice() {
                show(alloc, &mut out, token)?;
                if spans {
                    show_span(alloc, &mut out, token)?;
                }
            }
            Ok(out)
        }
    }
}

#[test]
fn each_punctuator_is_a_token(rt: HostRuntime) -> Result<(), Fail> {
    let marks = [
        "{", "}", "(", ")", "[", "]", ".", ";", ",", "<", ">", "<=", ">=", "==", "!=", "===",
        "!==", "+", "-", "*", "/", "%", "**", "++", "--", "<<", ">>", ">>>", "&", "|", "^", "!",
        "~", "&&", "||", "??", "?", "?.", ":", "=", "+=", "-=", "*=", "/=", "%=", "**=", "<<=",
        ">>=", ">>>=", "&=", "|=", "^=", "&&=", "||=", "??=", "=>", "...",
    ];
    for mark in marks {
        assert_eq!(rt; shown(rt.alloc(), mark, false)?.as_str(), mark);
    }
    Ok(())
}

#[test]
fn the_longest_punctuator_is_taken(rt: HostRuntime) -> Result<(), Fail> {
    let rows = [
        (">>>>=", ">>> >="),
        ("***", "** *"),
        ("???", "?? ?"),
        ("?.a", "?. n:a"),
        ("?.5", "? . #5"),
        ("..", ". ."),
        ("....", "... ."),
        ("====", "=== ="),
        ("!===", "!== ="),
        ("=>=", "=> ="),
        ("<!--", "< ! --"),
        ("+++", "++ +"),
        ("|||=", "|| |="),
        ("#", "Bad"),
        ("a @", "Bad"),
        ("`", "Bad"),
    ];
    for (text, tokens) in rows {
        assert_eq!(rt; shown(rt.alloc(), text, false)?.as_str(), tokens);
    }
    Ok(())
}

#[test]
fn numbers_are_read_by_their_base(rt: HostRuntime) -> Result<(), Fail> {
    let rows = [
        ("0", "#0"),
        ("1_000", "#1000"),
        ("9007199254740991", "#9007199254740991"),
        ("0x1fffffffffffff", "#9007199254740991"),
        ("0XfF", "#255"),
        ("0x1_f", "#31"),
        ("0b101", "#5"),
        ("0O17", "#15"),
        ("1 2", "#1 #2"),
        ("1+2", "#1 + #2"),
    ];
    for (text, tokens) in rows {
        assert_eq!(rt; shown(rt.alloc(), text, false)?.as_str(), tokens);
    }
    Ok(())
}

#[test]
fn other_numbers_are_bad(rt: HostRuntime) -> Result<(), Fail> {
    let texts = [
        "00",
        "089",
        "0_1",
        "0x_1",
        "1__0",
        "1_",
        "0b1__0",
        "1a",
        "1$",
        "1.",
        "1.5",
        "1é",
        "0x",
        "0b",
        "0b102",
        "0o8",
        "0xg",
        "9007199254740992",
        "0x20000000000000",
        "0xffffffffffffffff",
    ];
    for text in texts {
        assert_eq!(rt; shown(rt.alloc(), text, false)?.as_str(), "Bad");
    }
    Ok(())
}

#[test]
fn escapes_give_their_units(rt: HostRuntime) -> Result<(), Fail> {
    let rows = [
        ("''", "t"),
        (r#""\u{10FFFF}""#, "t:56319:57343"),
        (r"'\n\t\r\b\f\v'", "t:10:9:13:8:12:11"),
        (r"'\x41\u0042\u{0000043}'", "t:65:66:67"),
        (r"'\0\0a'", "t:0:0:97"),
        (r#"'\q\'\\"'"#, "t:113:39:92:34"),
        (r"'\ud83d\u{D800}'", "t:55357:55296"),
        ("'é😀'", "t:233:55357:56832"),
        ("'\\😀'", "t:55357:56832"),
        ("'a\\\r\nb\\\nc\\\u{2028}d'", "t:97:98:99:100"),
        ("'\u{2028}'", "t:8232"),
    ];
    for (text, tokens) in rows {
        assert_eq!(rt; shown(rt.alloc(), text, false)?.as_str(), tokens);
    }
    Ok(())
}

#[test]
fn other_escapes_are_bad(rt: HostRuntime) -> Result<(), Fail> {
    let texts = [
        r"'\u{110000}'",
        r"'\u{}'",
        r"'\u{1'",
        r"'\u004'",
        r"'\u'",
        r"'\x4'",
        r"'\xg1'",
        r"'\01'",
        r"'\1'",
        r"'\8'",
        r"'\'",
        "'",
        "'a",
        "'a\"",
        "'\n'",
        "'\r'",
        "'\\\r\n\n'",
    ];
    for text in texts {
        assert_eq!(rt; shown(rt.alloc(), text, false)?.as_str(), "Bad");
    }
    Ok(())
}

#[test]
fn comments_and_line_ends_stand_between_tokens(rt: HostRuntime) -> Result<(), Fail> {
    let rows = [
        ("", ""),
        ("// x", ""),
        ("a//b\nc", "n:a ^n:c"),
        ("//\u{2028}a", "^n:a"),
        ("/***/a/**/b", "n:a n:b"),
        ("/*\u{2029}*/a", "^n:a"),
        ("a /*\n*/ /**/ b c", "n:a ^n:b n:c"),
        ("/* /* */ a", "n:a"),
        ("/*/", "/ * /"),
        ("/* a /*", "/ * n:a / *"),
        ("a\r\nb\u{2028}c", "n:a ^n:b ^n:c"),
        ("\u{feff}a\u{a0}\u{3000}\u{2003}b", "n:a n:b"),
        ("a\u{85}b", "Bad"),
        ("a\u{200b}b", "Bad"),
    ];
    for (text, tokens) in rows {
        assert_eq!(rt; shown(rt.alloc(), text, false)?.as_str(), tokens);
    }
    Ok(())
}

#[test]
fn names_have_xid_characters(rt: HostRuntime) -> Result<(), Fail> {
    let rows = [
        ("$_1", "n:$_1"),
        ("名前 ℙ a·b", "n:名前 n:ℙ n:a·b"),
        ("e\u{301}", "n:e\u{301}"),
        ("\u{301}e", "Bad"),
        ("a\u{200d}b", "n:a\u{200d}b"),
        ("a\u{200e}b", "Bad"),
        (r"\u0061", "Bad"),
        (
            "as from of get set If ifx",
            "n:as n:from n:of n:get n:set n:If n:ifx",
        ),
        ("if in mutable viewof", "r:if r:in r:mutable r:viewof"),
    ];
    for (text, tokens) in rows {
        assert_eq!(rt; shown(rt.alloc(), text, false)?.as_str(), tokens);
    }
    Ok(())
}

#[test]
fn each_reserved_word_is_a_token(rt: HostRuntime) -> Result<(), Fail> {
    for word in &RESERVED_WORDS {
        let mut token = String::from_str(rt.alloc(), "r:")?;
        token.push_str(word.as_str())?;
        assert_eq!(rt;
            shown(rt.alloc(), word.as_str(), false)?.as_str(),
            token.as_str()
        );
    }
    assert_eq!(rt; Punctuator::Coalesce.as_str(), "??");
    Ok(())
}

#[test]
fn spans_are_in_bytes(rt: HostRuntime) -> Result<(), Fail> {
    let text = "a + 'é'\n/*\n*/ 12";
    let tokens = "n:a@0-1 +@2-3 t:233@4-8 ^#12@15-17";
    assert_eq!(rt; shown(rt.alloc(), text, true)?.as_str(), tokens);
    Ok(())
}

// 20,000 times `/* `, none of which begins a comment: each is two tokens.
#[test]
fn open_comments_are_searched_once(rt: HostRuntime) -> Result<(), Fail> {
    let mut text = String::new(rt.alloc());
    for _ in 0..20_000 {
        text.push_str("/* ")?;
    }
    assert_eq!(rt; text.len(), 60_000);
    assert_eq!(rt; lex(rt.alloc(), text.as_str())?.len(), 40_000);
    Ok(())
}
