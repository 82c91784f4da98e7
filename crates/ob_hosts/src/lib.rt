//! Host functions: closures that the caller makes, each kept beside the fact that it gives the values
//! of its code.
#![tactic(auto)]

mod host_fn;
mod table;

pub use host_fn::{HostCall, HostCode, HostFn, is_host_name};
pub use table::{HostError, HostTable};

#[cfg(test)]
mod tests;
