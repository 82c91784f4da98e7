use ob_base::{Cause, TickReport};

/// What a line is answered with.
#[derive(Drop)]
pub enum Reply {
    /// The bundle or the command was accepted.
    Accepted,
    /// The bundle was refused.
    BadBundle(Cause),
    /// The command was refused.
    Refused(Cause),
    /// The tick that was asked for.
    Report(TickReport),
}
