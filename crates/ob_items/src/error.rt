ghost use Rattle.std.specs.Prelude.{◌≡◌};
ghost use Rattle.ob_items.specs.declared.error.AllocError.TheVariants.{NoMemory as alloc_memory};
ghost use Rattle.ob_items.specs.declared.error.SetError.TheVariants.{NoMemory as set_memory};
ghost use Rattle.ob_items.specs.declared.error.PlainError.TheVariants.{NoMemory as plain_memory};
ghost use Rattle.ob_items.specs.declared.error.TextError.TheVariants.{NoMemory as text_memory};
ghost use Rattle.ob_items.specs.declared.error.OpError.TheVariants.{NoMemory as op_memory};

use crate::{Thrown, Value};
use ob_base::{Limit, NoMemory, Units};

/// Why an item was not made.
#[derive(Clone, Copy, Debug, PartialEq, Eq)]
pub enum AllocError {
    /// The region would have more than 50,000 elements.
    HeapFull,
    /// An allocation was refused.
    NoMemory,
}

/// Why an item was not written.
#[derive(Clone, Copy, Debug, PartialEq, Eq)]
pub enum SetError {
    /// It is frozen.
    Frozen,
    /// The index is past the length.
    PastEnd,
    /// The region would have more than 50,000 elements.
    HeapFull,
    /// An allocation was refused.
    NoMemory,
}

/// Why a value gave no plain data.
#[derive(Clone, Copy, Debug, PartialEq, Eq)]
pub enum PlainError {
    /// It holds a cycle, a function, a generator object, an error or an invalidation object, or is
    /// nested too deep.
    NotPlain,
    /// Its tree has more than 50,000 elements.
    HeapFull,
    /// An allocation was refused.
    NoMemory,
}

/// Why a value gave no text.
#[derive(Clone, Copy, Debug, PartialEq, Eq)]
pub enum TextError {
    /// `String` refuses it.
    NotText,
    /// An allocation was refused.
    NoMemory,
}

/// Why a hook was not counted.
#[derive(Clone, Copy, Debug, PartialEq, Eq)]
pub enum HookError {
    /// The invalidation object is frozen.
    Frozen,
    /// 1,000 hooks were counted.
    TooMany,
}

/// Why an operator or a builtin gave no value.
#[derive(Clone, Copy, Debug, PartialEq, Eq)]
pub enum OpError {
    /// It throws.
    Throws(Thrown),
    /// The region would have more than 50,000 elements.
    HeapFull,
    /// There are not steps enough.
    StepsOut,
    /// An allocation was refused.
    NoMemory,
}

/// Why a cell has no value.
#[derive(Drop)]
pub enum Failure {
    /// No cell reads its text.
    Syntax,
    /// A message of the runtime.
    Runtime(Units),
    /// A value that was thrown.
    Threw(Value),
    /// A meter refused an action.
    Limit(Limit),
}

impl From<NoMemory> for AllocError {
    ghost from_gives = { λ _ e. e ≡ alloc_memory };

    fn from(_refused: NoMemory) -> AllocError {
        AllocError::NoMemory
    }
}

impl From<NoMemory> for SetError {
    ghost from_gives = { λ _ e. e ≡ set_memory };

    fn from(_refused: NoMemory) -> SetError {
        SetError::NoMemory
    }
}

impl From<NoMemory> for PlainError {
    ghost from_gives = { λ _ e. e ≡ plain_memory };

    fn from(_refused: NoMemory) -> PlainError {
        PlainError::NoMemory
    }
}

impl From<NoMemory> for TextError {
    ghost from_gives = { λ _ e. e ≡ text_memory };

    fn from(_refused: NoMemory) -> TextError {
        TextError::NoMemory
    }
}

impl From<NoMemory> for OpError {
    ghost from_gives = { λ _ e. e ≡ op_memory };

    fn from(_refused: NoMemory) -> OpError {
        OpError::NoMemory
    }
}
