//! `reverse`.
ghost use Rattle.std.specs.Prelude.{◌≡◌, ◌∷◌, [], IsSome, IfOk, OnErr};
ghost use Rattle.ob_items.specs.Bodies.{array_of};
ghost use Rattle.ob_values.specs.ArrayMethods.{reverse_in_place};
ghost use Rattle.ob_values.specs.Effects.{Leaves, answer_of, done_of};
ghost use Rattle.ob_values.specs.Fixed.{KeepsFixed};
ghost use Rattle.ob_values.specs.Operators.{AddsValue};
ghost use Rattle.ob_values.specs.Sound.{AsValue};
ghost use Rattle.ob_values.specs.Store.{read_item};
ghost use Rattle.std.specs.Result.{result_map_both};

use ob_values::{Done, OpError, Ref, Regions, Thrown, Value, elements_of};

/// Puts the elements of an array in the opposite order and gives the array (ECMA-262,
/// "Array.prototype.reverse"). It takes as many steps as the array has elements, and no memory.
///
/// # Errors
/// `Throws` with `Frozen` exactly where the array is frozen, else `StepsOut` exactly where the steps
/// are more than `left`; all is then as before.
pub fn reverse(regions: &mut Regions, receiver: Ref, left: u64) -> Result<Done, OpError>
    requires { IsSome (read_item array_of regions.old receiver) }
    ensures answer { result ≡ result_map_both done_of (λ e. e) (answer_of regions.old left (reverse_in_place regions.old receiver)) }
    ensures store { Leaves result (answer_of regions.old left (reverse_in_place regions.old receiver)) regions.new }
    ensures err { OnErr result (regions.new ≡ regions.old) }
    ensures sound { IfOk result (λ done. AddsValue regions.old regions.new ((AsValue, receiver) ∷ []) done.value) }
    ensures fixed { KeepsFixed regions.old regions.new }
{
    if regions.is_frozen(receiver) {
        return Err(OpError::Throws(Thrown::Frozen));
    }
    let count = elements_of(regions, receiver).len();
    regions.charge(receiver.region, 0, count, left)?;
    match regions.reverse(receiver) {
        Ok(()) => Ok(Done {
            value: Value::Ref(receiver),
            steps: count as u64,
        }),
        Err(_) => unreachable!(),
    }
}
