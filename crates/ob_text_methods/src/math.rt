//! The functions of `Math`.
ghost use Rattle.ob_values.specs.Sound.{pointers_of};
ghost use Rattle.std.specs.Prelude.{◌≡◌, unsigned_abs, fold, ◌∷◌, [], IfOk};
ghost use Rattle.std.specs.Int.{int_min, int_max};
ghost use Rattle.std.specs.Option.{option_map};
ghost use Rattle.std.specs.Result.{result_map_both};
ghost use Rattle.ob_values.specs.Effects.{answer_of, done_of, number_of, all_some};
ghost use Rattle.ob_values.specs.Functions.{math_min, math_max, math_abs, math_sign};
ghost use Rattle.ob_values.specs.Store.{IsOpen};

use crate::arguments::number_of;
use crate::make::given;
use ob_base::MAX_INTEGER;
use ob_values::{Done, OpError, RegionKey, Regions, Thrown, Value, argument};
use std::cmp;

/// `Math.abs(n)` (ECMA-262, "Math.abs"). It takes no memory.
///
/// # Errors
/// `Throws`, with `BadArgument` for what is no number, `OutOfRange` where the result lies outside the
/// range; `HeapFull` where the region has more than 50,000 elements.
pub fn abs(regions: &Regions, region: RegionKey, args: &[Value], left: u64) -> Result<Done, OpError>
    requires { IsOpen regions.now region }
    ensures answer { result ≡ result_map_both done_of (λ e. e) (answer_of regions.now left (math_abs regions.now region args.now)) }
    ensures plain { IfOk result (λ done. pointers_of (done.value ∷ []) ≡ []) }
{
    match number_of(argument(args, 0)) {
        Some(n) => {
            if n > MAX_INTEGER || n < -MAX_INTEGER {
                return Err(OpError::Throws(Thrown::OutOfRange));
            }
            given(regions, region, Value::Int(n.abs()), 0, left)
        }
        None => Err(OpError::Throws(Thrown::BadArgument)),
    }
}

/// `Math.sign(n)`: 1, 0 or -1 (ECMA-262, "Math.sign"). It takes no memory.
///
/// # Errors
/// `Throws`, with `BadArgument` for what is no number.
pub fn sign(
    regions: &Regions,
    region: RegionKey,
    args: &[Value],
    left: u64,
) -> Result<Done, OpError>
    requires { IsOpen regions.now region }
    ensures answer { result ≡ result_map_both done_of (λ e. e) (answer_of regions.now left (math_sign regions.now region args.now)) }
    ensures plain { IfOk result (λ done. pointers_of (done.value ∷ []) ≡ []) }
{
    match number_of(argument(args, 0)) {
        Some(n) => given(regions, region, Value::Int(n.signum()), 0, left),
        None => Err(OpError::Throws(Thrown::BadArgument)),
    }
}

// The least of a number and of values that are numbers; none where one of them is no number.
fn least_of(first: i64, values: &[Value]) -> Option<i64>
    ensures { result ≡ option_map (fold int_min first) (all_some number_of values.now) }
{
    let mut least = first;
    for value in values {
        match number_of(*value) {
            Some(number) => least = cmp::min(least, number),
            None => return None,
        }
    }
    Some(least)
}

// The greatest of a number and of values that are numbers; none where one of them is no number.
fn greatest_of(first: i64, values: &[Value]) -> Option<i64>
    ensures { result ≡ option_map (fold int_max first) (all_some number_of values.now) }
{
    let mut greatest = first;
    for value in values {
        match number_of(*value) {
            Some(number) => greatest = cmp::max(greatest, number),
            None => return None,
        }
    }
    Some(greatest)
}

/// `Math.min(n..)`: the least of one or more numbers (ECMA-262, "Math.min"). It takes no memory.
///
/// # Errors
/// `Throws`, with `BadArgument` where an argument is no number, `BadCount` where there is none;
/// `HeapFull` where the region has more than 50,000 elements already.
pub fn min(regions: &Regions, region: RegionKey, args: &[Value], left: u64) -> Result<Done, OpError>
    requires { IsOpen regions.now region }
    ensures answer { result ≡ result_map_both done_of (λ e. e) (answer_of regions.now left (math_min regions.now region args.now)) }
    ensures plain { IfOk result (λ done. pointers_of (done.value ∷ []) ≡ []) }
{
    match args {
        [] => Err(OpError::Throws(Thrown::BadCount)),
        [first, rest @ ..] => {
            let Some(first) = number_of(*first) else {
                return Err(OpError::Throws(Thrown::BadArgument));
            };
            match least_of(first, rest) {
                Some(least) => given(regions, region, Value::Int(least), 0, left),
                None => Err(OpError::Throws(Thrown::BadArgument)),
            }
        }
    }
}

/// `Math.max(n..)`: the greatest of one or more numbers (ECMA-262, "Math.max"). It takes no memory.
///
/// # Errors
/// As `min`.
pub fn max(regions: &Regions, region: RegionKey, args: &[Value], left: u64) -> Result<Done, OpError>
    requires { IsOpen regions.now region }
    ensures answer { result ≡ result_map_both done_of (λ e. e) (answer_of regions.now left (math_max regions.now region args.now)) }
    ensures plain { IfOk result (λ done. pointers_of (done.value ∷ []) ≡ []) }
{
    match args {
        [] => Err(OpError::Throws(Thrown::BadCount)),
        [first, rest @ ..] => {
            let Some(first) = number_of(*first) else {
                return Err(OpError::Throws(Thrown::BadArgument));
            };
            match greatest_of(first, rest) {
                Some(greatest) => given(regions, region, Value::Int(greatest), 0, left),
                None => Err(OpError::Throws(Thrown::BadArgument)),
            }
        }
    }
}
