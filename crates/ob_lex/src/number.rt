//! Numbers.

ghost use Rattle.std.specs.Prelude.{◌≡◌, ◌≤◌, ◌<◌, chars, option_map, IfSome};
ghost use Rattle.ob_lex.specs.Characters as characters;
ghost use Rattle.ob_base.specs.Integers.{greatest};
ghost use Rattle.ob_lex.specs.Reading as spec;
ghost use Rattle.ob_lex.specs.Reading.{Gives};

use crate::characters::{base_of, digit_of, ends_number, is_digit};
use crate::splits::split_first;
use crate::{LexError, TokenKind};
use ob_base::MAX_INTEGER;

/// The number that begins with a digit, and the rest.
#[tactic(auto, unfolding(crate::specs::Reading::number_at))]
pub fn number(first: char, after: &str) -> Result<(TokenKind, &str), LexError>
    ensures { Gives (λ p. (p.0, chars p.1.now)) result (spec.number_at first (chars after.now)) }
{
    let read = if first == '0' {
        after_zero(after)
    } else {
        first_digit(10, first, after)
    };
    match read {
        Some((value, rest)) => {
            if ends_number(rest) {
                Ok((TokenKind::Number(value as i64), rest))
            } else {
                Err(LexError::Bad)
            }
        }
        None => Err(LexError::Bad),
    }
}

fn after_zero(text: &str) -> Option<(u64, &str)>
    ensures value { spec.after_zero (chars text.now) ≡ option_map (λ p. (p.0, chars p.1.now)) result }
    ensures within { IfSome result (λ p. p.0 ≤ greatest) }
{
    match split_first(text) {
        None => Some((0, text)),
        Some((x, after)) => match base_of(x) {
            None => Some((0, text)),
            Some(base) => {
                let (d, ds) = split_first(after)?;
                first_digit(base, d, ds)
            }
        },
    }
}

fn first_digit(base: u32, first: char, after: &str) -> Option<(u64, &str)>
    requires low { 2 ≤ base }
    requires high { base ≤ 36 }
    ensures value { spec.number_digits base first (chars after.now) ≡ option_map (λ p. (p.0, chars p.1.now)) result }
    ensures within { IfSome result (λ p. p.0 ≤ greatest) }
{
    match digit_of(base, first) {
        Some(digit) => digits_from(base, u64::from(digit), after),
        None => None,
    }
}

/// The digits of the base that follow digits of a value, and single `_` between them.
fn digits_from(base: u32, first: u64, text: &str) -> Option<(u64, &str)>
    requires low { 2 ≤ base }
    requires high { base ≤ 36 }
    requires within { first ≤ greatest }
    ensures value { spec.digits_from base first (chars text.now) ≡ option_map (λ p. (p.0, chars p.1.now)) result }
    ensures within { IfSome result (λ p. p.0 ≤ greatest) }
{
    let mut value = first;
    let mut rest = text;
    while let Some((c, after)) = split_first(rest) {
        match digit_of(base, c) {
            Some(digit) => {
                value = value * u64::from(base) + u64::from(digit);
                if value > MAX_INTEGER as u64 {
                    return None;
                }
            }
            None => {
                if c != '_' || !begins_digit(base, after) {
                    return Some((value, rest));
                }
            }
        }
        rest = after;
    }
    Some((value, rest))
}

fn begins_digit(base: u32, text: &str) -> bool
    requires low { 2 ≤ base }
    requires high { base ≤ 36 }
    ensures { result ≡ spec.begins_digit base (chars text.now) }
{
    match split_first(text) {
        None => false,
        Some((c, _)) => is_digit(base, c),
    }
}
