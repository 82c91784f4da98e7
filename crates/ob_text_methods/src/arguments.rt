//! How the arguments of a call are read.
ghost use Rattle.std.specs.Prelude.{◌≡◌, ◌≤◌, ℕ, pos, negsuc, IfSome, IfNone, length};
ghost use Rattle.std.specs.Option.{option_copied};
ghost use Rattle.std.specs.List.{slice_range};
ghost use Rattle.ob_values.specs.Effects.{number_of};
ghost use Rattle.ob_values.specs.TextMethods.{pad_of};

use ob_values::{Regions, Value, text_in};

/// A value that is a number.
pub fn number_of(value: Value) -> Option<i64>
    ensures { result ≡ number_of value }
{
    match value {
        Value::Int(n) => Some(n),
        _ => None,
    }
}

/// A number from 0; none for one below.
pub fn count_of(number: i64) -> Option<usize>
    ensures some { IfSome result (λ count. number ≡ pos count) }
    ensures none { IfNone result ((k : ℕ) × (number ≡ negsuc k)) }
{
    if number < 0 {
        None
    } else {
        Some(number as usize)
    }
}

/// The units of the pad of `padStart`, by default a space; none for what is no text.
pub fn pad_of(regions: &Regions, value: Value) -> Option<&[u16]>
    ensures { option_copied result ≡ pad_of regions.now value }
{
    match value {
        Value::Undefined => Some(&[32]),
        _ => text_in(regions, value),
    }
}

/// The units from one place up to before another: none where that comes first.
pub fn range_of(units: &[u16], from: usize, to: usize) -> &[u16]
    requires { to ≤ length units.now }
    ensures { result.now ≡ slice_range units.now from to }
{
    if from < to { &units[from..to] } else { &[] }
}
