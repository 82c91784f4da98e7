//! Texts in quotes, and messages without.
ghost use Rattle.std.specs.Prelude.{◌≡◌, ◌++◌, take, string_bytes, OnOk};
ghost use Rattle.ob_values.specs.Inspect as spec;

use ob_base::{NoMemory, put_units};

/// The most units of a text, a key or a message that are printed.
const MAX_SHOWN_UNITS: usize = 100;

/// Adds a text in quotes, cut after 100 units.
#[tactic(auto, unfolding(ob_values::specs::Inspect::quoted))]
pub(crate) fn put_quoted(out: &mut String, units: &[u16]) -> Result<(), NoMemory>
    ensures { OnOk result (string_bytes out.new ≡ string_bytes out.old ++ spec.quoted units.now) }
{
    out.push_str("\"")?;
    put_units(out, cut(units), true)?;
    out.push_str("\"")?;
    put_dots(out, units)
}

/// Adds a message, cut after 100 units.
#[tactic(auto, unfolding(ob_values::specs::Inspect::message_text))]
pub(crate) fn put_message(out: &mut String, units: &[u16]) -> Result<(), NoMemory>
    ensures { OnOk result (string_bytes out.new ≡ string_bytes out.old ++ spec.message_text units.now) }
{
    put_units(out, cut(units), false)?;
    put_dots(out, units)
}

fn cut(units: &[u16]) -> &[u16]
    ensures { result.now ≡ take 100 units.now }
{
    if units.len() > MAX_SHOWN_UNITS {
        &units[..MAX_SHOWN_UNITS]
    } else {
        units
    }
}

fn put_dots(out: &mut String, units: &[u16]) -> Result<(), NoMemory>
    ensures { OnOk result (string_bytes out.new ≡ string_bytes out.old ++ spec.dots units.now) }
{
    if units.len() > MAX_SHOWN_UNITS {
        out.push_str("...")?;
    }
    Ok(())
}
