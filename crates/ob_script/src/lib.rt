//! The command of a line: what a line of an input asks for, or its first fault of form.
#![tactic(auto)]

mod bundle;
mod command;
mod field;
mod id;
mod json;
mod limits;
mod plain;
mod read_error;
mod text;
mod units;
mod word;

pub use bundle::{BundleLine, read_bundle};
pub use command::read_command;
pub use read_error::ReadError;
pub use text::{bundle_text, command_text};

#[cfg(test)]
mod tests;
