//! The store of values: regions of items, with all calls on them.
#![tactic(auto)]

mod arguments;
mod charge;
mod done;
mod freeze;
mod place;
mod plain;
mod read;
mod regions;
mod seen;

pub use arguments::{argument, array_of, elements_of, found, places_of, text_in};
pub use done::Done;
pub use ob_items::{
    AllocError, Body, Catch, Closure, CodeKey, ErrorKind, Failure, Frame, HookError, Kind, OpError,
    PlainError, Ref, RegionKey, SetError, Taken, TextError, Thrown, Value,
};
pub use regions::{Regions, text_elements};

#[cfg(test)]
mod tests;
