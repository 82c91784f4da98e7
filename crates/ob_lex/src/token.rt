use crate::Punctuator;
use ob_base::{ReservedWord, Text, Units};

/// A token and where it stands.
#[derive(Debug, Drop)]
pub struct Token {
    pub kind: TokenKind,
    /// The byte at which it begins.
    pub start: u32,
    /// The byte after its last.
    pub end: u32,
    /// Whether a line end, or a comment that holds one, stands between the token before it, or the
    /// text's beginning, and this token.
    pub break_before: bool,
}

/// What a token is.
#[derive(Debug, Drop)]
pub enum TokenKind {
    /// A name, which is no reserved word.
    Name(Text),
    Reserved(ReservedWord),
    /// A number from 0 to 2^53-1, by its value.
    Number(i64),
    /// A text in quotes, by the UTF-16 units that it means.
    Text(Units),
    Punctuator(Punctuator),
}
