//! Runs and words at the front of a text.

ghost use Rattle.std.specs.Prelude.{◌≡◌, true, false, chars, drop, length, not, option_map, MatchOption};
ghost use Rattle.ob_lex.specs.Characters as characters;
ghost use Rattle.ob_lex.specs.Pieces as pieces;
ghost use Rattle.ob_lex.specs.Reading as spec;

use crate::Punctuator;
use crate::characters::{begins_with_digit, continues_name, is_line_end};
use crate::splits::split_first;

/// What stands behind the characters at the front that go on a name.
pub fn after_name(text: &str) -> &str
    ensures { chars result.now ≡ drop (spec.run characters.continues_name (chars text.now)) (chars text.now) }
{
    let mut rest = text;
    while let Some((c, after)) = split_first(rest) {
        if !continues_name(c) {
            return rest;
        }
        rest = after;
    }
    rest
}

/// The text from its first line end on.
pub fn after_line(text: &str) -> &str
    ensures { chars result.now ≡ drop (spec.run (λ c. not (characters.is_line_end c)) (chars text.now)) (chars text.now) }
{
    let mut rest = text;
    while let Some((c, after)) = split_first(rest) {
        if is_line_end(c) {
            return rest;
        }
        rest = after;
    }
    rest
}

/// What stands behind a word of ASCII, where the text begins with it.
pub fn strip<'a>(word: &[u8], text: &'a str) -> Option<&'a str>
    ensures { MatchOption result (characters.begins word.now (chars text.now) ≡ false)
        (λ rest. (characters.begins word.now (chars text.now) ≡ true) × (chars rest.now ≡ drop (length word.now) (chars text.now))) }
{
    match word {
        [] => Some(text),
        [w, ws @ ..] => match split_first(text) {
            None => None,
            Some((c, cs)) => {
                if u32::from(*w) == c as u32 {
                    strip(ws, cs)
                } else {
                    None
                }
            }
        },
    }
}

/// Whether a punctuator may stand before a text.
fn may_precede(mark: Punctuator, rest: &str) -> bool
    ensures { result ≡ pieces.may_precede mark (chars rest.now) }
{
    match mark {
        Punctuator::QuestionDot => !begins_with_digit(rest),
        _ => true,
    }
}

/// The first of the punctuators with which the text begins and that may stand there, and the rest.
pub fn first_mark<'a>(marks: &[Punctuator], text: &'a str) -> Option<(Punctuator, &'a str)>
    ensures { spec.first_mark marks.now (chars text.now) ≡ option_map (λ p. (p.0, chars p.1.now)) result }
{
    for mark in marks {
        if let Some(rest) = strip(mark.as_str().as_bytes(), text) {
            if may_precede(*mark, rest) {
                return Some((*mark, rest));
            }
        }
    }
    None
}
