use crate::{LineReader, MemSource, NextLine};
use ob_base::{List, NoMemory};
use std::alloc::Global;
use std::test::Fail;

// The most answers that a test takes.
const MOST_ANSWERS: usize = 100;

/// What reading an input to its end came to: each line with a `|` behind it, then `E` at the end,
/// `L` or `I` at the limit of a line or of the input, `M` for want of memory; and how many reads
/// failed.
#[derive(Drop)]
struct Found {
    text: Vec<u8>,
    faults: usize,
}

// One more answer; whether it is the last.
fn add(answers: &mut Found, answer: NextLine) -> Result<bool, NoMemory> {
    let mark = match answer {
        NextLine::Line(line) => {
            answers.text.extend_from_slice(line.as_slice())?;
            answers.text.push(b'|')?;
            return Ok(false);
        }
        NextLine::ReadFault => {
            answers.faults = answers.faults.saturating_add(1);
            return Ok(false);
        }
        NextLine::End => b'E',
        NextLine::LineTooLong => b'L',
        NextLine::InputTooLong => b'I',
        NextLine::NoMemory => b'M',
    };
    answers.text.push(mark)?;
    Ok(true)
}

fn answers(
    alloc: Global,
    source: &mut MemSource,
    line_limit: usize,
    input_limit: u64,
) -> Result<Found, NoMemory> {
    let mut answers = Found {
        text: Vec::new(alloc),
        faults: 0,
    };
    let mut reader = LineReader::new(alloc, line_limit, input_limit)?;
    for _ in 0..MOST_ANSWERS {
        if add(&mut answers, reader.next_line(source))? {
            return Ok(answers);
        }
    }
    Ok(answers)
}

// A source of pieces of these sizes, of which one call fails.
fn source(
    alloc: Global,
    text: &[u8],
    sizes: List<usize>,
    failing: &[u64],
) -> Result<MemSource, NoMemory> {
    let sizes = if MemSource::are_sizes(sizes.as_slice()) {
        sizes
    } else {
        List::new(alloc)
    };
    Ok(MemSource::new(
        List::from_slice(alloc, text)?,
        sizes,
        List::from_slice(alloc, failing)?,
    ))
}

// So many sizes of 1.
fn ones(alloc: Global, count: usize) -> Result<List<usize>, NoMemory> {
    let mut sizes = List::new(alloc);
    for _ in 0..count {
        sizes.push(1)?;
    }
    Ok(sizes)
}

// Whether an input gives these answers whole, byte by byte, and cut in two at each place.
fn gives(
    alloc: Global,
    text: &[u8],
    line_limit: usize,
    input_limit: u64,
    wanted: &[u8],
) -> Result<bool, NoMemory> {
    let mut source_of_ones = source(alloc, text, ones(alloc, text.len())?, &[])?;
    let single = answers(alloc, &mut source_of_ones, line_limit, input_limit)?;
    let mut right = single.text.as_slice() == wanted;
    for place in 0..text.len() {
        let sizes = List::from_slice(alloc, &[place])?;
        let mut cut = source(alloc, text, sizes, &[])?;
        let found = answers(alloc, &mut cut, line_limit, input_limit)?;
        right = right && found.text.as_slice() == wanted;
    }
    Ok(right)
}

// An input, the limits of a line and of the input, and the answers.
const CASES: &[(&str, usize, u64, &str)] = &[
    ("", 5, 50, "E"),
    ("ab\ncd\n", 5, 50, "ab|cd|E"),
    ("ab\ncd", 5, 50, "ab|cd|E"),
    ("\n\na", 5, 50, "||a|E"),
    ("abc\n", 3, 50, "abc|E"),
    ("abcd\n", 3, 50, "L"),
    ("ab\nabcd", 3, 50, "ab|L"),
    ("abc", 5, 3, "abc|E"),
    ("abc\n", 5, 4, "abc|E"),
    ("abc\n", 5, 3, "I"),
    ("ab\nc\nd", 5, 6, "ab|c|d|E"),
    ("ab\nc\nd", 5, 5, "ab|c|I"),
    ("ab\nc\nd", 5, 4, "ab|I"),
    ("abcd", 3, 3, "L"),
    ("abcd", 3, 2, "I"),
    ("abcd", 2, 3, "L"),
    ("abc\n", 3, 3, "I"),
    ("\na", 0, 50, "|L"),
    ("\n", 0, 0, "I"),
    ("a", 0, 0, "L"),
];

#[test]
fn lines_are_the_same_in_any_pieces(rt: HostRuntime) -> Result<(), Fail> {
    let alloc = rt.alloc();
    for (text, line_limit, input_limit, wanted) in CASES {
        let right = gives(
            alloc,
            text.as_bytes(),
            *line_limit,
            *input_limit,
            wanted.as_bytes(),
        )?;
        assert!(rt; right, "{text}");
    }
    Ok(())
}

// `ab`, `cd` byte by byte is six reads with the one at the end.
#[test]
fn a_failed_read_loses_no_byte(rt: HostRuntime) -> Result<(), Fail> {
    let alloc = rt.alloc();
    for call in 1..8 {
        let mut failing = source(alloc, b"ab\ncd", ones(alloc, 5)?, &[call])?;
        let found = answers(alloc, &mut failing, 5, 50)?;
        assert_eq!(rt; found.text.as_slice(), b"ab|cd|E".as_slice());
        assert_eq!(rt; found.faults, if call < 7 { 1 } else { 0 });
    }
    Ok(())
}

// A line of so many bytes, and one of a byte behind it.
fn long_text(alloc: Global, len: usize) -> Result<Vec<u8>, NoMemory> {
    let mut text = vec![in alloc; b'x'; len]?;
    text.extend_from_slice(b"\ny")?;
    Ok(text)
}

// How long the first line is, and whether the second is `y` and the last.
fn first_len(
    alloc: Global,
    source: &mut MemSource,
    line_limit: usize,
) -> Result<Option<usize>, NoMemory> {
    let mut reader = LineReader::new(alloc, line_limit, 1 << 21)?;
    let NextLine::Line(first) = reader.next_line(source) else {
        return Ok(None);
    };
    let NextLine::Line(second) = reader.next_line(source) else {
        return Ok(None);
    };
    let last = matches!(reader.next_line(source), NextLine::End);
    let right = last && second.as_slice() == b"y".as_slice();
    Ok(if right { Some(first.len()) } else { None })
}

#[test]
fn lines_around_the_buffer_are_whole(rt: HostRuntime) -> Result<(), Fail> {
    let alloc = rt.alloc();
    for size in [1, 2, 65_535, 65_536, 65_537] {
        for len in [65_535, 65_536, 65_537] {
            let text = long_text(alloc, len)?;
            let sizes = List::from_slice(alloc, &[size, size])?;
            let mut cut = source(alloc, text.as_slice(), sizes, &[])?;
            assert_eq!(rt; first_len(alloc, &mut cut, 65_537)?, Some(len));
        }
    }
    Ok(())
}

#[test]
fn a_long_line_comes_byte_by_byte(rt: HostRuntime) -> Result<(), Fail> {
    let alloc = rt.alloc();
    let text = long_text(alloc, 1 << 20)?;
    let mut single = source(alloc, text.as_slice(), ones(alloc, text.len())?, &[])?;
    assert_eq!(rt; first_len(alloc, &mut single, 1 << 20)?, Some(1 << 20));
    Ok(())
}
