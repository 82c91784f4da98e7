ghost use Rattle.std.specs.Prelude.{◌≡◌, IfOk};

use crate::{List, NoMemory, Units};
use std::alloc::Global;

/// Plain data: a value that holds no function, no cycle and nothing shared.
#[derive(Debug, Drop)]
#[cycle(plain)]
pub enum Plain {
    Undefined,
    Null,
    Bool(bool),
    /// A whole number from -(2^53-1) to 2^53-1.
    Int(i64),
    Text(Units),
    Array(List<Plain>),
    /// The properties in the order in which they were created.
    Object(List<PlainProp>),
}

/// A property of an object of plain data.
#[derive(Debug, Drop)]
#[cycle(plain)]
pub struct PlainProp {
    pub key: Units,
    pub value: Plain,
}

impl Plain {
    /// The same data.
    ///
    /// # Errors
    /// `NoMemory` where an allocation is refused.
    pub fn copy(&self, alloc: Global) -> Result<Plain, NoMemory>
        ensures { IfOk result (λ copy. copy ≡ self.now) }
    {
        copy_plain(alloc, self)
    }
}

impl PlainProp {
    /// The same property.
    ///
    /// # Errors
    /// `NoMemory` where an allocation is refused.
    pub fn copy(&self, alloc: Global) -> Result<PlainProp, NoMemory>
        ensures { IfOk result (λ copy. copy ≡ self.now) }
    {
        copy_prop(alloc, self)
    }
}

#[cycle(copies)]
fn copy_plain(alloc: Global, plain: &Plain) -> Result<Plain, NoMemory>
    ensures { IfOk result (λ copy. copy ≡ plain.now) }
{
    match plain {
        Plain::Undefined => Ok(Plain::Undefined),
        Plain::Null => Ok(Plain::Null),
        Plain::Bool(value) => Ok(Plain::Bool(*value)),
        Plain::Int(value) => Ok(Plain::Int(*value)),
        Plain::Text(units) => Ok(Plain::Text(units.copy(alloc)?)),
        Plain::Array(items) => Ok(Plain::Array(copy_plains(alloc, items.as_slice())?)),
        Plain::Object(props) => Ok(Plain::Object(copy_props(alloc, props.as_slice())?)),
    }
}

#[cycle(copies)]
fn copy_plains(alloc: Global, items: &[Plain]) -> Result<List<Plain>, NoMemory>
    ensures { IfOk result (λ copy. copy ≡ items.now) }
{
    let mut copies = List::new(alloc);
    for item in items {
        copies.push(copy_plain(alloc, item)?)?;
    }
    Ok(copies)
}

#[cycle(copies)]
fn copy_prop(alloc: Global, prop: &PlainProp) -> Result<PlainProp, NoMemory>
    ensures { IfOk result (λ copy. copy ≡ prop.now) }
{
    let key = prop.key.copy(alloc)?;
    let value = copy_plain(alloc, &prop.value)?;
    Ok(PlainProp { key, value })
}

#[cycle(copies)]
fn copy_props(alloc: Global, props: &[PlainProp]) -> Result<List<PlainProp>, NoMemory>
    ensures { IfOk result (λ copy. copy ≡ props.now) }
{
    let mut copies = List::new(alloc);
    for prop in props {
        copies.push(copy_prop(alloc, prop)?)?;
    }
    Ok(copies)
}
