//! The methods that take an element out of an array.
ghost use Rattle.std.specs.Prelude.{◌≡◌, ◌∷◌, [], IsSome, IfOk, OnErr};
ghost use Rattle.ob_items.specs.Bodies.{array_of};
ghost use Rattle.ob_values.specs.ArrayMethods.{pop, shift};
ghost use Rattle.ob_values.specs.Effects.{Leaves, answer_of, done_of};
ghost use Rattle.ob_values.specs.Fixed.{KeepsFixed};
ghost use Rattle.ob_values.specs.Operators.{AddsValue};
ghost use Rattle.ob_values.specs.Sound.{AsValue};
ghost use Rattle.ob_values.specs.Store.{read_item};
ghost use Rattle.std.specs.Result.{result_map_both};

use ob_values::{Done, OpError, Ref, Regions, Thrown, Value, elements_of};

/// Takes the last element of an array and gives it, or undefined (ECMA-262, "Array.prototype.pop"). It
/// takes no memory and no steps.
///
/// # Errors
/// `Throws` with `Frozen` exactly where the array is frozen; all is then as before.
pub fn pop(regions: &mut Regions, receiver: Ref, left: u64) -> Result<Done, OpError>
    requires { IsSome (read_item array_of regions.old receiver) }
    ensures answer { result ≡ result_map_both done_of (λ e. e) (answer_of regions.old left (pop regions.old receiver)) }
    ensures store { Leaves result (answer_of regions.old left (pop regions.old receiver)) regions.new }
    ensures err { OnErr result (regions.new ≡ regions.old) }
    ensures sound { IfOk result (λ done. AddsValue regions.old regions.new ((AsValue, receiver) ∷ []) done.value) }
    ensures fixed { KeepsFixed regions.old regions.new }
{
    if regions.is_frozen(receiver) {
        return Err(OpError::Throws(Thrown::Frozen));
    }
    regions.charge(receiver.region, 0, 0, left)?;
    match regions.remove_last(receiver) {
        Ok(last) => Ok(Done {
            value: last.unwrap_or(Value::Undefined),
            steps: 0,
        }),
        Err(_) => unreachable!(),
    }
}

/// Takes the first element of an array and gives it, or undefined (ECMA-262,
/// "Array.prototype.shift"). It takes as many steps as the array had elements, and no memory.
///
/// # Errors
/// `Throws` with `Frozen` exactly where the array is frozen, else `StepsOut` exactly where the steps
/// are more than `left`; all is then as before.
pub fn shift(regions: &mut Regions, receiver: Ref, left: u64) -> Result<Done, OpError>
    requires { IsSome (read_item array_of regions.old receiver) }
    ensures answer { result ≡ result_map_both done_of (λ e. e) (answer_of regions.old left (shift regions.old receiver)) }
    ensures store { Leaves result (answer_of regions.old left (shift regions.old receiver)) regions.new }
    ensures err { OnErr result (regions.new ≡ regions.old) }
    ensures sound { IfOk result (λ done. AddsValue regions.old regions.new ((AsValue, receiver) ∷ []) done.value) }
    ensures fixed { KeepsFixed regions.old regions.new }
{
    if regions.is_frozen(receiver) {
        return Err(OpError::Throws(Thrown::Frozen));
    }
    let count = elements_of(regions, receiver).len();
    regions.charge(receiver.region, 0, count, left)?;
    match regions.remove_index(receiver, 0) {
        Ok(first) => Ok(Done {
            value: first.unwrap_or(Value::Undefined),
            steps: count as u64,
        }),
        Err(_) => unreachable!(),
    }
}
