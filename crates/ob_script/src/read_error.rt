use ob_base::{Cause, NoMemory};
use std::alloc::AllocError;

/// Why a line gave nothing.
#[derive(Debug, Drop)]
pub enum ReadError {
    /// The line has this fault of form, its first.
    Refused(Cause),
    /// An allocation was refused.
    NoMemory,
}

impl From<NoMemory> for ReadError {
    ghost use Rattle.std.specs.Prelude.{◌≡◌};
    ghost use Rattle.ob_script.specs.declared.read_error.ReadError.TheVariants.{NoMemory as memory_error};

    ghost from_gives = { λ _ e. e ≡ memory_error };

    fn from(_refused: NoMemory) -> ReadError {
        ReadError::NoMemory
    }
}

impl From<AllocError> for ReadError {
    ghost use Rattle.std.specs.Prelude.{◌≡◌};
    ghost use Rattle.ob_script.specs.declared.read_error.ReadError.TheVariants.{NoMemory as memory_error};

    ghost from_gives = { λ _ e. e ≡ memory_error };

    fn from(_refused: AllocError) -> ReadError {
        ReadError::NoMemory
    }
}
