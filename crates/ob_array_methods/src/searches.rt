//! What is asked of an array, and of a value whether it is one.
ghost use Rattle.std.specs.Prelude.{◌≡◌, ◌<◌, ◌^◌, ◌∷◌, [], IfOk, IfSome};
ghost use Rattle.ob_values.specs.ArrayMethods.{place_among, index_of, includes};
ghost use Rattle.ob_values.specs.Effects.{answer_of, done_of};
ghost use Rattle.ob_values.specs.ObjectFunctions.{is_array};
ghost use Rattle.ob_values.specs.Sound.{pointers_of};
ghost use Rattle.ob_values.specs.Store.{IsOpen};
ghost use Rattle.std.specs.Result.{result_map_both};

use ob_values::{
    Done, OpError, Ref, RegionKey, Regions, Value, argument, array_of, elements_of, found,
};

// The first place of an element that is the same as the value by `===`.
fn place_among(regions: &Regions, receiver: Ref, value: Value) -> Option<usize>
    ensures value { result ≡ place_among regions.now receiver value }
    ensures within { IfSome result (λ place. place < 2 ^ 63) }
{
    elements_of(regions, receiver)
        .iter()
        .position(|x| regions.same(*x, value))
}

/// The first place of the first argument among the elements by `===`, or -1 (ECMA-262,
/// "Array.prototype.indexOf"). It takes as many steps as the array has elements, and no memory.
///
/// # Errors
/// `StepsOut` exactly where these are more than `left`.
pub fn index_of(
    regions: &Regions,
    region: RegionKey,
    receiver: Ref,
    args: &[Value],
    left: u64,
) -> Result<Done, OpError>
    requires { IsOpen regions.now region }
    ensures answer { result ≡ result_map_both done_of (λ e. e) (answer_of regions.now left (index_of regions.now region receiver args.now)) }
    ensures plain { IfOk result (λ done. pointers_of (done.value ∷ []) ≡ []) }
{
    let count = elements_of(regions, receiver).len();
    regions.charge(region, 0, count, left)?;
    let value = found(place_among(regions, receiver, argument(args, 0)));
    Ok(Done {
        value,
        steps: count as u64,
    })
}

/// Whether the first argument is among the elements by `===` (ECMA-262, "Array.prototype.includes", in
/// this project's profile). It takes as many steps as the array has elements, and no memory.
///
/// # Errors
/// As `index_of`.
pub fn includes(
    regions: &Regions,
    region: RegionKey,
    receiver: Ref,
    args: &[Value],
    left: u64,
) -> Result<Done, OpError>
    requires { IsOpen regions.now region }
    ensures answer { result ≡ result_map_both done_of (λ e. e) (answer_of regions.now left (includes regions.now region receiver args.now)) }
    ensures plain { IfOk result (λ done. pointers_of (done.value ∷ []) ≡ []) }
{
    let count = elements_of(regions, receiver).len();
    regions.charge(region, 0, count, left)?;
    let is_there = place_among(regions, receiver, argument(args, 0)).is_some();
    Ok(Done {
        value: Value::Bool(is_there),
        steps: count as u64,
    })
}

/// Whether the first argument is an array (ECMA-262, "Array.isArray"). It takes no memory and no steps.
pub fn is_array(
    regions: &Regions,
    region: RegionKey,
    args: &[Value],
    left: u64,
) -> Result<Done, OpError>
    requires { IsOpen regions.now region }
    ensures answer { result ≡ result_map_both done_of (λ e. e) (answer_of regions.now left (is_array regions.now region args.now)) }
    ensures plain { IfOk result (λ done. pointers_of (done.value ∷ []) ≡ []) }
{
    regions.charge(region, 0, 0, left)?;
    let value = Value::Bool(array_of(regions, argument(args, 0)).is_some());
    Ok(Done { value, steps: 0 })
}
