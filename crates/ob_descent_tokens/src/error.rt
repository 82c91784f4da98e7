ghost use Rattle.std.specs.Prelude.{◌≡◌};
ghost use Rattle.ob_descent_tokens.specs.declared.error.ParseError.TheVariants.{NoMemory as memory_error};

use ob_base::NoMemory;
use std::alloc::AllocError;

/// Why a text gave no tree.
#[derive(Clone, Copy, Debug, PartialEq, Eq)]
pub enum ParseError {
    /// No cell reads the text.
    Syntax,
    /// An allocation was refused.
    NoMemory,
}

impl From<NoMemory> for ParseError {
    ghost from_gives = { λ _ e. e ≡ memory_error };

    fn from(_refused: NoMemory) -> ParseError {
        ParseError::NoMemory
    }
}

impl From<AllocError> for ParseError {
    ghost from_gives = { λ _ e. e ≡ memory_error };

    fn from(_refused: AllocError) -> ParseError {
        ParseError::NoMemory
    }
}
