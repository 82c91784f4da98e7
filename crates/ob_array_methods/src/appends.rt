//! `push`.
ghost use Rattle.std.specs.Prelude.{◌≡◌, ◌≢◌, ◌+◌, ◌≤◌, ◌∷◌, [], false, Err, IsSome, IfOk, OnOk, OnErr, fold, length};
ghost use Rattle.ob_items.specs.Bodies.{array_of};
ghost use Rattle.ob_values.specs.ArrayMethods.{appended, push};
ghost use Rattle.ob_values.specs.Effects.{Answers, Leaves, answer_of};
ghost use Rattle.ob_values.specs.Fixed.{KeepsFixed};
ghost use Rattle.ob_values.specs.Sound.{KeepsSound, pointers_of};
ghost use Rattle.ob_values.specs.Store.{elements_in, is_frozen, read_item};

use ob_base::NoMemory;
use ob_values::{Done, OpError, Ref, Regions, SetError, Thrown, Value, elements_of};

// Appends a value to an array that is not frozen, where its region has room for it.
fn append(regions: &mut Regions, receiver: Ref, value: Value) -> Result<(), NoMemory>
    requires array { IsSome (read_item array_of regions.old receiver) }
    requires thawed { is_frozen regions.old receiver ≡ false }
    requires room { elements_in regions.old receiver.region + 1 ≤ 50000 }
    ensures ok { OnOk result (regions.new ≡ appended receiver regions.old value) }
    ensures err { OnErr result (regions.new ≡ regions.old) }
    ensures array { IsSome (read_item array_of regions.new receiver) }
    ensures thawed { OnOk result (is_frozen regions.new receiver ≡ false) }
    ensures elements { OnOk result (elements_in regions.new receiver.region ≡ elements_in regions.old receiver.region + 1) }
    ensures sound { KeepsSound regions.old regions.new (pointers_of (value ∷ [])) }
    ensures fixed { KeepsFixed regions.old regions.new }
{
    let place = elements_of(regions, receiver).len();
    match regions.set_index(receiver, place as i64, value) {
        Ok(()) => Ok(()),
        Err(SetError::NoMemory) => Err(NoMemory),
        Err(SetError::Frozen) | Err(SetError::PastEnd) | Err(SetError::HeapFull) => unreachable!(),
    }
}

// Appends values to an array that is not frozen, where its region has room for them.
fn append_all(regions: &mut Regions, receiver: Ref, values: &[Value]) -> Result<(), NoMemory>
    requires array { IsSome (read_item array_of regions.old receiver) }
    requires thawed { is_frozen regions.old receiver ≡ false }
    requires room { elements_in regions.old receiver.region + length values.now ≤ 50000 }
    ensures ok { OnOk result (regions.new ≡ fold (appended receiver) regions.old values.now) }
    ensures sound { KeepsSound regions.old regions.new (pointers_of values.now) }
    ensures fixed { KeepsFixed regions.old regions.new }
{
    for value in values {
        append(regions, receiver, *value)?;
    }
    Ok(())
}

/// Appends the arguments to an array, each as one element; it gives the new length (ECMA-262,
/// "Array.prototype.push").
///
/// # Errors
/// In this order: `Throws` with `Frozen` where the array is frozen, `HeapFull` where its region would
/// have more than 50,000 elements, `StepsOut` where the arguments are more than `left`; all is then as
/// before. `NoMemory` where an allocation is refused; some of the arguments may then be appended.
pub fn push(
    regions: &mut Regions,
    receiver: Ref,
    args: &[Value],
    left: u64,
) -> Result<Done, OpError>
    requires { IsSome (read_item array_of regions.old receiver) }
    ensures answer { Answers result (answer_of regions.old left (push regions.old receiver args.now)) }
    ensures store { Leaves result (answer_of regions.old left (push regions.old receiver args.now)) regions.new }
    ensures err { result ≢ Err OpError.NoMemory → OnErr result (regions.new ≡ regions.old) }
    ensures plain { IfOk result (λ done. pointers_of (done.value ∷ []) ≡ []) }
    ensures sound { KeepsSound regions.old regions.new (pointers_of args.now) }
    ensures fixed { KeepsFixed regions.old regions.new }
{
    if regions.is_frozen(receiver) {
        return Err(OpError::Throws(Thrown::Frozen));
    }
    regions.charge(receiver.region, args.len(), 0, left)?;
    let len = elements_of(regions, receiver).len() + args.len();
    append_all(regions, receiver, args)?;
    Ok(Done {
        value: Value::Int(len as i64),
        steps: 0,
    })
}
