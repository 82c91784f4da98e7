//! Texts in quotes.

ghost use Rattle.std.specs.Prelude.{◌≡◌, ◌≤◌, ◌++◌, chars, length, option_map, IfSome, OnOk};
ghost use Rattle.std.specs.Char.Escape.{encode_utf16};
ghost use Rattle.ob_lex.specs.Pieces.{units_of};
ghost use Rattle.ob_lex.specs.Reading as spec;
ghost use Rattle.ob_lex.specs.Reading.{Gives, IsCode};

use crate::escape::escape;
use crate::splits::split_first;
use crate::{LexError, TokenKind};
use ob_base::{NoMemory, Units};
use std::alloc::Global;

/// The text whose opening quote stands before these characters, and the rest.
pub fn quoted(alloc: Global, quote: char, after: &str) -> Result<(TokenKind, &str), LexError>
    ensures { Gives (λ p. (p.0, chars p.1.now)) result (spec.text_at quote (chars after.now)) }
{
    match inside(alloc, quote, after) {
        Ok((units, rest)) => Ok((TokenKind::Text(units), rest)),
        Err(error) => Err(error),
    }
}

/// What may stand behind an opening quote.
#[derive(Clone, Copy, Debug, PartialEq, Eq)]
pub enum Element {
    /// The closing quote.
    Closes,
    /// A character or an escape, by the code point that it gives; none where a line goes on.
    Gives(Option<u32>),
}

fn inside(alloc: Global, quote: char, text: &str) -> Result<(Units, &str), LexError>
    ensures { Gives (λ p. (p.0, chars p.1.now)) result (spec.inside (length text.now) quote (chars text.now)) }
{
    let mut units = Units::new(alloc);
    let mut rest = text;
    for _turn in 0..text.len() {
        match read_element(quote, rest) {
            None => return Err(LexError::Bad),
            Some((element, more)) => match element {
                Element::Closes => return Ok((units, more)),
                Element::Gives(code) => {
                    push_code(&mut units, code)?;
                    rest = more;
                }
            },
        }
    }
    Err(LexError::Bad)
}

#[tactic(auto, unfolding(crate::specs::Reading::element_at))]
fn read_element(quote: char, text: &str) -> Option<(Element, &str)>
    ensures value { spec.element_at quote (chars text.now) ≡ option_map (λ p. (p.0, chars p.1.now)) result }
    ensures within { IfSome result (λ p. IsCode p.0) }
{
    let (c, after) = split_first(text)?;
    if c == quote {
        Some((Element::Closes, after))
    } else if c == '\\' {
        match escape(after) {
            Some((code, rest)) => Some((Element::Gives(code), rest)),
            None => None,
        }
    } else if c == '\n' || c == '\r' {
        None
    } else {
        Some((Element::Gives(Some(c as u32)), after))
    }
}

/// Adds the UTF-16 units of a code point.
fn push_code(units: &mut Units, code: Option<u32>) -> Result<(), NoMemory>
    requires { IfSome code (λ code. code ≤ 0x10FFFF) }
    ensures { OnOk result (units.new ≡ units.old ++ units_of code) }
{
    match code {
        None => Ok(()),
        Some(code) => {
            if code < 0x1_0000 {
                units.push(code as u16)
            } else {
                let above = code - 0x1_0000;
                units.push((0xd800 + above / 0x400) as u16)?;
                units.push((0xdc00 + above % 0x400) as u16)
            }
        }
    }
}
