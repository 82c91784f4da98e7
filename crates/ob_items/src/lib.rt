//! The items of a store of values: their types, the properties of an object, and the items of one
//! region.
#![tactic(auto)]

mod binding;
mod columns;
mod error;
mod few;
mod few_indices;
mod frame;
mod function_value;
mod index_text;
mod item;
mod many;
mod names;
mod properties;
mod region;
mod shared_functions;
mod thrown;
mod units_map;
mod value;
mod writes;

pub use binding::Binding;
pub use error::{AllocError, Failure, HookError, OpError, PlainError, SetError, TextError};
pub use frame::{Catch, Frame, Taken};
pub use function_value::{FunctionValue, SharedFunction};
pub use index_text::{decimal_units, index_of, integer_units};
pub use item::{Body, Closure, Suspended};
pub use names::{Name, Names};
pub use properties::{Properties, Property};
pub use region::Region;
pub use shared_functions::SharedFunctions;
pub use thrown::Thrown;
pub use units_map::UnitsMap;
pub use value::{CodeKey, ErrorKind, Kind, Ref, RegionKey, Value};

#[cfg(test)]
mod tests;
