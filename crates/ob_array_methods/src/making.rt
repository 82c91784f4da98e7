//! New arrays as results.
ghost use Rattle.std.specs.Prelude.{◌≡◌, ◌+◌, ◌≤◌, Err, length, IfOk, OnOk, OnErr};
ghost use Rattle.ob_items.specs.Items.{live};
ghost use Rattle.ob_values.specs.Fixed.{KeepsFixed};
ghost use Rattle.ob_values.specs.Sound.{AddsItem};
ghost use Rattle.ob_values.specs.Store.{IsOpen, elements_in, next_ref, with_new};

use ob_base::List;
use ob_values::{AllocError, Body, Done, OpError, RegionKey, Regions, Value};

/// A new array for which there is room, as a result in no steps of its own.
///
/// # Errors
/// `NoMemory` where an allocation is refused; all is then as before.
pub fn give_array(
    regions: &mut Regions,
    region: RegionKey,
    values: List<Value>,
) -> Result<Done, OpError>
    requires open { IsOpen regions.old region }
    requires room { elements_in regions.old region + (1 + length values) ≤ 50000 }
    ensures done { IfOk result (λ done. done ≡ record { value = Value.Ref (next_ref regions.old region); steps = 0 }) }
    ensures ok { OnOk result (regions.new ≡ with_new regions.old region (live (Body.Array values)) (1 + length values)) }
    ensures memory { OnErr result (result ≡ Err OpError.NoMemory) }
    ensures err { OnErr result (regions.new ≡ regions.old) }
    ensures sound { OnOk result (AddsItem regions.old regions.new (Body.Array values) (next_ref regions.old region)) }
    ensures fixed { KeepsFixed regions.old regions.new }
{
    match regions.alloc_values(region, values) {
        Ok(r) => Ok(Done {
            value: Value::Ref(r),
            steps: 0,
        }),
        Err(AllocError::NoMemory) => Err(OpError::NoMemory),
        Err(AllocError::HeapFull) => unreachable!(),
    }
}
