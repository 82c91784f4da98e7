//! Texts written with escapes, and words of ASCII.
ghost use Rattle.std.specs.Prelude.{◌≡◌, ◌<◌, ◌∷◌, ◌++◌, [], string_bytes, OnOk, IsTrue};
ghost use Rattle.std.specs.List.{All, list_all};
ghost use Rattle.std.specs.Char.{encode_utf8, digit_char};
ghost use Rattle.std.specs.Char.Utf16.{is_high_surrogate, is_low_surrogate, surrogate_pair_char};
ghost use Rattle.ob_base.specs.Escapes as spec;

use crate::NoMemory;

/// Adds the units of a text: a pair of surrogates as its character, a unit below 0x20, 0x7f, a line or
/// paragraph separator and a lone surrogate as an escape, and a quote as one where the text stands in
/// quotes (ECMA-262, "String Literals").
///
/// # Errors
/// `NoMemory` where memory is short; a part may have been added then.
pub fn put_units(out: &mut String, units: &[u16], in_quotes: bool) -> Result<(), NoMemory>
    ensures { OnOk result (string_bytes out.new ≡ string_bytes out.old ++ spec.units_text in_quotes units.now) }
{
    let mut left = units;
    while let [unit, rest @ ..] = left {
        match rest {
            [next, after @ ..] if is_high(*unit) && is_low(*next) => {
                put_pair(out, *unit, *next)?;
                left = after;
            }
            _ => {
                put_unit(out, *unit, in_quotes)?;
                left = rest;
            }
        }
    }
    Ok(())
}

fn is_high(unit: u16) -> bool
    ensures { result ≡ is_high_surrogate unit }
{
    unit >= 0xD800 && unit < 0xDC00
}

fn is_low(unit: u16) -> bool
    ensures { result ≡ is_low_surrogate unit }
{
    unit >= 0xDC00 && unit < 0xE000
}

// Adds the character of a pair of surrogates.
fn put_pair(out: &mut String, high: u16, low: u16) -> Result<(), NoMemory>
    requires high { IsTrue (is_high_surrogate high) }
    requires low { IsTrue (is_low_surrogate low) }
    ensures { OnOk result (string_bytes out.new ≡ string_bytes out.old ++ encode_utf8 (surrogate_pair_char high low)) }
{
    let code = 0x1_0000 + (u32::from(high) - 0xD800) * 0x400 + (u32::from(low) - 0xDC00);
    match char::from_u32(code) {
        Some(c) => out.push(c)?,
        None => unreachable!(),
    }
    Ok(())
}

#[tactic(auto, unfolding(crate::specs::Escapes::unit_text))]
fn put_unit(out: &mut String, unit: u16, in_quotes: bool) -> Result<(), NoMemory>
    ensures { OnOk result (string_bytes out.new ≡ string_bytes out.old ++ spec.unit_text in_quotes unit) }
{
    match unit {
        34 if in_quotes => out.push_str("\\\"")?,
        92 => out.push_str("\\\\")?,
        10 => out.push_str("\\n")?,
        13 => out.push_str("\\r")?,
        9 => out.push_str("\\t")?,
        _ => put_other(out, unit)?,
    }
    Ok(())
}

fn put_other(out: &mut String, unit: u16) -> Result<(), NoMemory>
    ensures { OnOk result (string_bytes out.new ≡ string_bytes out.old ++ spec.other_text unit) }
{
    if is_hidden(unit) {
        return put_hex(out, unit);
    }
    match char::from_u32(u32::from(unit)) {
        Some(c) => out.push(c)?,
        None => unreachable!(),
    }
    Ok(())
}

fn is_hidden(unit: u16) -> bool
    ensures { result ≡ spec.is_hidden unit }
{
    unit < 0x20 || unit == 0x7F || unit == 0x2028 || unit == 0x2029 || is_high(unit) || is_low(unit)
}

fn put_hex(out: &mut String, unit: u16) -> Result<(), NoMemory>
    ensures { OnOk result (string_bytes out.new ≡ string_bytes out.old ++ spec.hex_escape unit) }
{
    out.push_str("\\u")?;
    put_digit(out, unit / 0x1000)?;
    put_digit(out, unit / 0x100 % 16)?;
    put_digit(out, unit / 0x10 % 16)?;
    put_digit(out, unit % 16)
}

fn put_digit(out: &mut String, digit: u16) -> Result<(), NoMemory>
    requires { digit < 16 }
    ensures { OnOk result (string_bytes out.new ≡ string_bytes out.old ++ digit_char digit ∷ []) }
{
    let c = if digit < 10 {
        b'0' + digit as u8
    } else {
        b'a' + (digit as u8 - 10)
    };
    out.push(c as char)?;
    Ok(())
}

/// Adds units that are characters of ASCII.
///
/// # Errors
/// `NoMemory` where memory is short; a part may have been added then.
pub fn put_ascii(out: &mut String, units: &[u16]) -> Result<(), NoMemory>
    requires { All (λ u. u < 128) units.now }
    ensures { OnOk result (string_bytes out.new ≡ string_bytes out.old ++ units.now) }
{
    for unit in units {
        out.push(*unit as u8 as char)?;
    }
    Ok(())
}

/// Whether units spell a name or a reserved word of ASCII: `$`, `_` or a letter, then also digits.
pub fn is_ascii_word(units: &[u16]) -> bool
    ensures { result ≡ spec.is_ascii_word units.now }
{
    begins_ascii_word(units) && continues_ascii_word(units)
}

fn begins_ascii_word(units: &[u16]) -> bool
    ensures { result ≡ spec.begins_ascii_word units.now }
{
    match units {
        [] => false,
        [first, ..] => starts(*first),
    }
}

fn continues_ascii_word(units: &[u16]) -> bool
    ensures { result ≡ list_all spec.continues_ascii_word units.now }
{
    units.iter().all(|unit| continues(*unit))
}

fn starts(unit: u16) -> bool
    ensures { result ≡ spec.starts_ascii_word unit }
{
    unit == 36 || unit == 95 || (65 <= unit && unit <= 90) || (97 <= unit && unit <= 122)
}

fn continues(unit: u16) -> bool
    ensures { result ≡ spec.continues_ascii_word unit }
{
    starts(unit) || (48 <= unit && unit <= 57)
}
