//! The division of a text.

ghost use Rattle.std.specs.Prelude.{◌≡◌, ◌<◌, ◌^◌, ◌++◌, chars, length, false, OnOk};
ghost use Rattle.ob_lex.specs.Characters.{bytes};
ghost use Rattle.ob_lex.specs.Closing as closing;
ghost use Rattle.ob_lex.specs.Tokens as division;
ghost use Rattle.ob_lex.specs.Reading as spec;
ghost use Rattle.ob_lex.specs.Reading.{Gives};

use crate::piece::read_piece;
use crate::scan::strip;
use crate::splits::{byte_len, is_empty};
use crate::{LexError, Piece, Token};
use ob_base::{List, NoMemory};
use std::alloc::Global;

/// The tokens of a text of fewer than 2^32 bytes.
pub fn divide(alloc: Global, text: &str) -> Result<List<Token>, LexError>
    requires { bytes (chars text.now) < 2 ^ 32 }
    ensures { Gives (λ tokens. tokens) result (spec.cut (length text.now) false 0 (chars text.now)) }
{
    let mut tokens = List::new(alloc);
    let mut rest = text;
    let mut at = 0;
    let mut breaks = false;
    let mut closes = true;
    for _turn in 0..text.len() {
        if is_empty(rest) {
            return Ok(tokens);
        }
        let (kind, more) = match read_piece(alloc, closes, rest) {
            Ok(read) => read,
            Err(error) => return Err(error),
        };
        let from = byte_len(rest);
        let to = byte_len(more);
        let end = at + (from - to) as u32;
        let after = breaks_after(&kind, breaks);
        closes = closes_after(closes, rest, &kind);
        push(&mut tokens, kind, at, end, breaks)?;
        breaks = after;
        at = end;
        rest = more;
    }
    if is_empty(rest) {
        Ok(tokens)
    } else {
        Err(LexError::Bad)
    }
}

fn push(
    tokens: &mut List<Token>,
    kind: Piece,
    start: u32,
    end: u32,
    break_before: bool,
) -> Result<(), NoMemory>
    ensures { OnOk result (tokens.new ≡ tokens.old ++ division.shown kind start end break_before) }
{
    match kind {
        Piece::WhiteSpace | Piece::LineEnd | Piece::Comment(_) => Ok(()),
        Piece::Token(kind) => tokens.push(Token {
            kind,
            start,
            end,
            break_before,
        }),
    }
}

fn breaks_after(kind: &Piece, breaks: bool) -> bool
    ensures { result ≡ division.breaks_after kind.now breaks }
{
    match kind {
        Piece::WhiteSpace => breaks,
        Piece::LineEnd => true,
        Piece::Comment(holds_line_end) => breaks || *holds_line_end,
        Piece::Token(_) => false,
    }
}

fn closes_after(closes: bool, text: &str, kind: &Piece) -> bool
    ensures { result ≡ closing.closes_after closes (chars text.now) kind.now }
{
    closes && (matches!(kind, Piece::Comment(_)) || strip(b"/*", text).is_none())
}
