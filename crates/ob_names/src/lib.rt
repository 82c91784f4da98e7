//! The names of a cell: which it refers to and doesn't bind, which it binds, and what each use of a
//! name means (ECMA-262, "Environment Records", in the subset of this language).
#![tactic(auto)]

mod chain;
mod form;
mod free;
mod local;
mod meaning;
mod name_set;
mod resolve;
mod slots;
mod text_set;
mod walker;
mod walks;

pub use form::{NameForm, NameRef};
pub use free::free_names;
pub use local::local_names;
pub use resolve::resolve_locals;
pub use slots::{Binding, Slots, Use};
