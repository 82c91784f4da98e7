//! Texts at the limits of depth and of open brackets, and texts that are refused within milliseconds.

use crate::{ParseError, parse_cell};
use ob_base::NoMemory;
use std::alloc::Global;
use std::test::Fail;

// A text: something a number of times, then something else, then a third a number of times.
fn text(
    alloc: Global,
    times: usize,
    first: &str,
    middle: &str,
    last: &str,
) -> Result<String, NoMemory> {
    let mut text = String::new(alloc);
    for _ in 0..times {
        text.push_str(first)?;
    }
    text.push_str(middle)?;
    for _ in 0..times {
        text.push_str(last)?;
    }
    Ok(text)
}

// Whether such a text is read; none where it is too long to be asked.
fn is_read(
    alloc: Global,
    times: usize,
    first: &str,
    middle: &str,
    last: &str,
) -> Result<Option<bool>, NoMemory> {
    let text = text(alloc, times, first, middle, last)?;
    let text = text.as_str();
    if text.len() > 100_000 {
        return Ok(None);
    }
    match parse_cell(alloc, text) {
        Ok(_) => Ok(Some(true)),
        Err(ParseError::Syntax) => Ok(Some(false)),
        Err(ParseError::NoMemory) => Err(NoMemory),
    }
}

#[test]
fn deep_and_long_texts(rt: HostRuntime) -> Result<(), Fail> {
    let alloc = rt.alloc();
    for (times, first, middle, last, wanted) in [
        // At most 500 brackets are open at once.
        (500, "(", "1", ")", true),
        (501, "(", "1", ")", false),
        (501, "[", "", "", false),
        // Refused for its depth, behind all that it nests.
        (
            500,
            "0 ?? 0 | 0 ^ 0 & 0 === 0 < 0 << 0 + 0 * (",
            "1",
            ")",
            false,
        ),
        (500, "() => { if (0) for (;;) while (0) ", ";", "}", false),
        // Refused within milliseconds.
        (65_536, "(", "", "", false),
        (21_845, "a=>", "a", "", false),
        (30_000, "-", "", "", false),
        (20_000, "a?", "", "", false),
        (8_000, "if(a)", "", "", false),
    ] {
        let read = is_read(alloc, times, first, middle, last)?;
        assert!(rt; read == Some(wanted), "{first}");
    }
    Ok(())
}
