//! Keys of properties.
ghost use Rattle.std.specs.Prelude.{◌≡◌, ◌++◌, string_bytes, OnOk};
ghost use Rattle.ob_values.specs.Inspect as spec;

use crate::quoted::put_quoted;
use ob_base::{NoMemory, is_ascii_word, put_ascii};
use ob_items::index_of;

/// Adds a key: plain where it is an ASCII name, a reserved word or an array index of at most 100 units,
/// else in quotes.
#[tactic(auto, unfolding(ob_values::specs::Inspect::key_text), using(crate::proofs::Keys::plain_is_ascii))]
pub(crate) fn put_key(out: &mut String, units: &[u16]) -> Result<(), NoMemory>
    ensures { OnOk result (string_bytes out.new ≡ string_bytes out.old ++ spec.key_text units.now) }
{
    if is_plain_key(units) {
        return put_ascii(out, units);
    }
    put_quoted(out, units)
}

#[tactic(auto, unfolding(ob_values::specs::Inspect::is_plain_key))]
fn is_plain_key(units: &[u16]) -> bool
    ensures { result ≡ spec.is_plain_key units.now }
{
    units.len() <= 100 && (is_ascii_word(units) || index_of(units).is_some())
}
