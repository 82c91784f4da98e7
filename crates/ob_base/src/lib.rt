//! What all layers share: texts, lists, plain data, commands, reports, limits, and the counter of
//! steps.
#![tactic(auto)]

mod builtins;
mod cause;
mod command;
mod escapes;
mod label;
mod limits;
mod list;
mod no_memory;
mod operators;
mod plain;
mod prelude;
mod report;
mod reserved;
mod steps;
mod text;
mod units;

pub use builtins::{BUILTIN_NAMES, is_among, is_builtin_name};
pub use cause::Cause;
pub use command::{Command, NewCell};
pub use escapes::{is_ascii_word, put_ascii, put_units};
pub use label::{Label, Part, PathId};
pub use limits::{
    Budget, Limit, MAX_ARRAY_DEPTH, MAX_CALL_DEPTH, MAX_CELL_TEXT_BYTES, MAX_HOOKS,
    MAX_INPUT_BYTES, MAX_INSTANCES, MAX_INTEGER, MAX_LINE_BYTES, MAX_OPEN_BRACKETS,
    MAX_REGION_ELEMENTS, MAX_SEGMENT_STEPS, MAX_TEXT_UNITS, MAX_TREE_DEPTH, MAX_VARIABLES,
};
pub use list::List;
pub use no_memory::NoMemory;
pub use operators::{AssignOp, BinaryOp, ChangeOp, CompareOp, LogicOp, UnaryOp, UpdateOp};
pub use plain::{Plain, PlainProp};
pub use prelude::PRELUDE_TEXTS;
pub use report::{Event, LostKind, TickReport};
pub use reserved::{RESERVED_WORDS, ReservedWord};
pub use std::sync::ledger::Ledger;
pub use steps::Steps;
pub use text::Text;
pub use units::Units;

#[cfg(test)]
mod tests;
