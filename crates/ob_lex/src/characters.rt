//! What a character may be part of.

ghost use Rattle.std.specs.Prelude.{◌≡◌, ◌≤◌, ◌<◌, chars, IfSome};
ghost use Rattle.ob_lex.specs.Characters as spec;

use crate::splits::split_first;

#[tactic(auto, unfolding(crate::specs::Characters::is_white_space))]
pub fn is_white_space(c: char) -> bool
    ensures { result ≡ spec.is_white_space c }
{
    c == '\t'
        || c == '\u{b}'
        || c == '\u{c}'
        || c == ' '
        || c == '\u{a0}'
        || c == '\u{1680}'
        || (c >= '\u{2000}' && c <= '\u{200a}')
        || c == '\u{202f}'
        || c == '\u{205f}'
        || c == '\u{3000}'
        || c == '\u{feff}'
}

#[tactic(auto, unfolding(crate::specs::Characters::is_line_end))]
pub fn is_line_end(c: char) -> bool
    ensures { result ≡ spec.is_line_end c }
{
    c == '\n' || c == '\r' || c == '\u{2028}' || c == '\u{2029}'
}

#[tactic(auto, unfolding(crate::specs::Characters::starts_name))]
pub fn starts_name(c: char) -> bool
    ensures { result ≡ spec.starts_name c }
{
    c == '$' || c == '_' || unicode_ident::is_xid_start(c)
}

#[tactic(auto, unfolding(crate::specs::Characters::continues_name))]
pub fn continues_name(c: char) -> bool
    ensures { result ≡ spec.continues_name c }
{
    c == '$' || unicode_ident::is_xid_continue(c)
}

#[tactic(auto, unfolding(crate::specs::Characters::is_quote))]
pub fn is_quote(c: char) -> bool
    ensures { result ≡ spec.is_quote c }
{
    c == '"' || c == '\''
}

/// Whether a character is a digit of the base, which is at most 36.
#[tactic(auto, unfolding(crate::specs::Characters::is_digit))]
pub fn is_digit(base: u32, c: char) -> bool
    requires low { 2 ≤ base }
    requires high { base ≤ 36 }
    ensures { result ≡ spec.is_digit base c }
{
    c.is_digit(base)
}

pub fn is_decimal(c: char) -> bool
    ensures { result ≡ spec.is_digit 10 c }
{
    is_digit(10, c)
}

/// The value of a digit.
#[tactic(auto, unfolding(crate::specs::Characters::is_digit))]
pub fn digit_of(base: u32, c: char) -> Option<u32>
    requires low { 2 ≤ base }
    requires high { base ≤ 36 }
    ensures value { result ≡ spec.digit_of base c }
    ensures within { IfSome result (λ d. d < base) }
{
    c.to_digit(base)
}

/// The base of a number that begins with `0` and this character.
#[tactic(auto, unfolding(crate::specs::Characters::base_of))]
pub fn base_of(c: char) -> Option<u32>
    ensures value { result ≡ spec.base_of c }
    ensures low { IfSome result (λ base. 2 ≤ base) }
    ensures high { IfSome result (λ base. base ≤ 36) }
{
    match c {
        'x' | 'X' => Some(16),
        'o' | 'O' => Some(8),
        'b' | 'B' => Some(2),
        _ => None,
    }
}

#[tactic(auto, unfolding(crate::specs::Characters::escaped))]
pub fn escaped(c: char) -> u32
    ensures value { result ≡ spec.escaped c }
    ensures within { result ≤ 0x10FFFF }
{
    match c {
        'b' => 8,
        't' => 9,
        'n' => 10,
        'v' => 11,
        'f' => 12,
        'r' => 13,
        _ => c as u32,
    }
}

/// Whether a text begins with a decimal digit.
pub fn begins_with_digit(text: &str) -> bool
    ensures { result ≡ spec.begins_with_digit (chars text.now) }
{
    match split_first(text) {
        None => false,
        Some((first, _)) => is_decimal(first),
    }
}

/// Whether a number may end before a text.
pub fn ends_number(text: &str) -> bool
    ensures { result ≡ spec.ends_number (chars text.now) }
{
    match split_first(text) {
        None => true,
        Some((first, _)) => !(continues_name(first) || first == '.'),
    }
}
