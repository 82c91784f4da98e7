//! What stands after a backslash.

ghost use Rattle.std.specs.Prelude.{◌≡◌, ◌≤◌, ◌<◌, chars, option_map, IfSome};
ghost use Rattle.ob_lex.specs.Characters as characters;
ghost use Rattle.ob_lex.specs.Reading as spec;

use crate::characters::{begins_with_digit, digit_of, escaped, is_decimal, is_line_end};
use crate::splits::split_first;

/// The code point that an escape gives, none where a line goes on, and the rest.
#[tactic(auto, unfolding(crate::specs::Reading::escape_at))]
pub fn escape(text: &str) -> Option<(Option<u32>, &str)>
    ensures value { spec.escape_at (chars text.now) ≡ option_map (λ p. (p.0, chars p.1.now)) result }
    ensures within { IfSome result (λ p. IfSome p.0 (λ code. code ≤ 0x10FFFF)) }
{
    let (c, after) = split_first(text)?;
    if is_line_end(c) {
        Some((None, after_line_end(c, after)))
    } else if c == 'x' {
        two_digits(after)
    } else if c == 'u' {
        unicode(after)
    } else if is_decimal(c) {
        if c == '0' && !begins_with_digit(after) {
            Some((Some(0), after))
        } else {
            None
        }
    } else {
        Some((Some(escaped(c)), after))
    }
}

fn after_line_end(c: char, text: &str) -> &str
    ensures { chars result.now ≡ spec.after_line_end c (chars text.now) }
{
    match split_first(text) {
        None => text,
        Some((d, after)) => { if c == '\r' && d == '\n' { after } else { text } }
    }
}

fn hex(c: char) -> Option<u32>
    ensures value { result ≡ characters.digit_of 16 c }
    ensures within { IfSome result (λ d. d < 16) }
{
    digit_of(16, c)
}

fn two_digits(text: &str) -> Option<(Option<u32>, &str)>
    ensures value { spec.two_digits (chars text.now) ≡ option_map (λ p. (p.0, chars p.1.now)) result }
    ensures within { IfSome result (λ p. IfSome p.0 (λ code. code ≤ 0x10FFFF)) }
{
    let (a, more) = split_first(text)?;
    let (b, after) = split_first(more)?;
    let code = hex(a)? * 16 + hex(b)?;
    Some((Some(code), after))
}

fn unicode(text: &str) -> Option<(Option<u32>, &str)>
    ensures value { spec.unicode_at (chars text.now) ≡ option_map (λ p. (p.0, chars p.1.now)) result }
    ensures within { IfSome result (λ p. IfSome p.0 (λ code. code ≤ 0x10FFFF)) }
{
    let (c, after) = split_first(text)?;
    if c == '{' {
        in_braces(after)
    } else {
        four_digits(text)
    }
}

fn four_digits(text: &str) -> Option<(Option<u32>, &str)>
    ensures value { spec.four_digits (chars text.now) ≡ option_map (λ p. (p.0, chars p.1.now)) result }
    ensures within { IfSome result (λ p. IfSome p.0 (λ code. code ≤ 0x10FFFF)) }
{
    let (a, from_b) = split_first(text)?;
    let (b, from_c) = split_first(from_b)?;
    let (c, from_d) = split_first(from_c)?;
    let (d, after) = split_first(from_d)?;
    let high = hex(a)? * 16 + hex(b)?;
    let low = hex(c)? * 16 + hex(d)?;
    Some((Some(high * 256 + low), after))
}

fn in_braces(text: &str) -> Option<(Option<u32>, &str)>
    ensures value { spec.in_braces (chars text.now) ≡ option_map (λ p. (p.0, chars p.1.now)) result }
    ensures within { IfSome result (λ p. IfSome p.0 (λ code. code ≤ 0x10FFFF)) }
{
    let (d, after) = split_first(text)?;
    match hex(d) {
        Some(digit) => to_brace(digit, after),
        None => None,
    }
}

fn to_brace(first: u32, text: &str) -> Option<(Option<u32>, &str)>
    requires { first ≤ 0x10FFFF }
    ensures value { spec.to_brace first (chars text.now) ≡ option_map (λ p. (p.0, chars p.1.now)) result }
    ensures within { IfSome result (λ p. IfSome p.0 (λ code. code ≤ 0x10FFFF)) }
{
    let mut code = first;
    let mut rest = text;
    while let Some((c, after)) = split_first(rest) {
        match hex(c) {
            Some(digit) => {
                code = code * 16 + digit;
                if code > 0x10_FFFF {
                    return None;
                }
            }
            None => {
                return if c == '}' {
                    Some((Some(code), after))
                } else {
                    None
                };
            }
        }
        rest = after;
    }
    None
}
