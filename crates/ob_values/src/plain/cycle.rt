//! Whether an array or object stands in itself.
ghost use Rattle.std.specs.Prelude.{◌≡◌, ◌∷◌, ◌<◌, ◌^◌, [], length, OnOk, IfOk, true, false};
ghost use Rattle.ob_values.specs.PlainOf.{is_endless, HasCycle, parts_of, items_in};
ghost use Rattle.ob_values.specs.PlainSearch.{all_entered};
ghost use Rattle.ob_values.specs.Freeze.{refs_of};
ghost use Rattle.ob_values.specs.declared.plain.stack.Task.{Task as TheTask};

use crate::plain::stack::{Stack, Task};
use crate::regions::Regions;
use crate::seen::Seen;
use ob_base::NoMemory;
use ob_items::{Body, Ref, Value};
use std::alloc::Global;

// Whether a value is or holds an array or object that stands in itself. Each item is entered once.
pub(super) fn has_cycle(alloc: Global, regions: &Regions, value: Value) -> Result<bool, NoMemory>
    ensures found { IfOk result (λ found. found ≡ true → HasCycle regions.now value) }
    ensures none { IfOk result (λ found. found ≡ false → is_endless regions.now value ≡ false) }
{
    let mut met = Seen::new(alloc);
    let mut done = Seen::new(alloc);
    let mut stack = Stack::new(alloc);
    enter_values(&mut stack, &[value])?;
    while let Some(task) = stack.pop() {
        match task {
            Task::Enter(r) => {
                if !done.contains(r) {
                    if met.contains(r) {
                        return Ok(true);
                    }
                    met.add(r)?;
                    stack.push(Task::Leave(r))?;
                    enter_items(alloc, regions, r, &mut stack)?;
                }
            }
            Task::Leave(r) => done.add(r)?,
        }
    }
    Ok(false)
}

fn enter_items(alloc: Global, regions: &Regions, r: Ref, stack: &mut Stack) -> Result<(), NoMemory>
    ensures entered { OnOk result (stack.new ≡ all_entered stack.old (items_in regions.now r)) }
    ensures small { OnOk result (length stack.new < 2 ^ 64) }
{
    match regions.find(r) {
        Some(body) => enter_parts(alloc, body, stack)?,
        None => {}
    }
    let _ = stack.len();
    Ok(())
}

fn enter_parts(alloc: Global, body: &Body, stack: &mut Stack) -> Result<(), NoMemory>
    ensures { OnOk result (stack.new ≡ all_entered stack.old (refs_of (parts_of body.now))) }
{
    match body {
        Body::Array(values) => enter_values(stack, values.as_slice()),
        Body::Object(properties) => {
            let values = properties.values(alloc)?;
            enter_values(stack, values.as_slice())
        }
        _ => Ok(()),
    }
}

fn enter_values(stack: &mut Stack, values: &[Value]) -> Result<(), NoMemory>
    ensures { OnOk result (stack.new ≡ all_entered stack.old (refs_of values.now)) }
{
    for value in values {
        enter_value(stack, *value)?;
    }
    Ok(())
}

fn enter_value(stack: &mut Stack, value: Value) -> Result<(), NoMemory>
    ensures { OnOk result (stack.new ≡ all_entered stack.old (refs_of (value ∷ []))) }
{
    match value {
        Value::Ref(r) => stack.push(Task::Enter(r)),
        _ => Ok(()),
    }
}
