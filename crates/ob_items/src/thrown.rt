ghost use Rattle.std.specs.Prelude.{◌≡◌};
ghost use Rattle.ob_items.specs.Messages.{message_of, kind_of_thrown};

use crate::ErrorKind;

/// The errors that the language itself throws, in the order of their messages.
#[derive(Clone, Copy, Debug, PartialEq, Eq)]
pub enum Thrown {
    WrongOperand,
    NotAFunction,
    NoProperty,
    Frozen,
    Constant,
    CannotSet,
    BadKey,
    NotIterable,
    GeneratorRunning,
    BadArgument,
    NotPlain,
    NotAConstructor,
    UsedBefore,
    OutOfRange,
    InexactQuotient,
    DivisionByZero,
    PastEnd,
    TextTooLong,
    BadCount,
}

impl Thrown {
    /// The message of the error, in ASCII (this project).
    pub fn message(self) -> &'static str
        ensures { result.now ≡ message_of self }
    {
        match self {
            Thrown::WrongOperand => "wrong operand",
            Thrown::NotAFunction => "not a function",
            Thrown::NoProperty => "no property of null or undefined",
            Thrown::Frozen => "frozen",
            Thrown::Constant => "constant",
            Thrown::CannotSet => "cannot set",
            Thrown::BadKey => "bad key",
            Thrown::NotIterable => "not iterable",
            Thrown::GeneratorRunning => "generator is running",
            Thrown::BadArgument => "bad argument",
            Thrown::NotPlain => "not plain data",
            Thrown::NotAConstructor => "not a constructor",
            Thrown::UsedBefore => "used before its declaration",
            Thrown::OutOfRange => "number out of range",
            Thrown::InexactQuotient => "inexact quotient",
            Thrown::DivisionByZero => "division by zero",
            Thrown::PastEnd => "index past the end",
            Thrown::TextTooLong => "text too long",
            Thrown::BadCount => "bad count",
        }
    }

    /// The kind of the error.
    pub fn kind(self) -> ErrorKind
        ensures { result ≡ kind_of_thrown self }
    {
        match self {
            Thrown::UsedBefore => ErrorKind::ReferenceError,
            Thrown::OutOfRange
            | Thrown::InexactQuotient
            | Thrown::DivisionByZero
            | Thrown::PastEnd
            | Thrown::TextTooLong
            | Thrown::BadCount => ErrorKind::RangeError,
            _ => ErrorKind::TypeError,
        }
    }
}
