//! The piece at the front of a text.

ghost use Rattle.std.specs.Prelude.{◌≡◌, chars, List, ℕ, Option};
ghost use Rattle.ob_lex.specs.Words as words;
ghost use Rattle.ob_lex.specs.Closing.{MayClose};
ghost use Rattle.ob_lex.specs.Reading as spec;
ghost use Rattle.ob_lex.specs.Reading.{Gives};

use crate::characters::{is_decimal, is_line_end, is_quote, is_white_space, starts_name};
use crate::comment::comment;
use crate::number::number;
use crate::punctuator::marks_of;
use crate::quoted::quoted;
use crate::scan::first_mark;
use crate::splits::split_first;
use crate::word::word;
use crate::{LexError, TokenKind};
use std::alloc::Global;

/// What a text is cut into.
#[derive(Debug, Drop)]
pub enum Piece {
    WhiteSpace,
    LineEnd,
    /// A comment; whether it holds a line end.
    Comment(bool),
    Token(TokenKind),
}

/// The piece at the front of a text, and the rest. The flag says whether a comment may be closed.
#[tactic(auto, unfolding(crate::specs::Reading::piece_at))]
pub fn read_piece(alloc: Global, closes: bool, text: &str) -> Result<(Piece, &str), LexError>
    requires { MayClose closes (chars text.now) }
    ensures { Gives (λ p. (p.0, chars p.1.now)) result (spec.piece_at (chars text.now)) }
{
    match split_first(text) {
        None => Err(LexError::Bad),
        Some((first, after)) => {
            if is_white_space(first) {
                Ok((Piece::WhiteSpace, after))
            } else if is_line_end(first) {
                Ok((Piece::LineEnd, after))
            } else if starts_name(first) {
                as_token(word(alloc, text, after))
            } else if is_decimal(first) {
                as_token(number(first, after))
            } else if is_quote(first) {
                as_token(quoted(alloc, first, after))
            } else {
                comment_or_mark(first, closes, text)
            }
        }
    }
}

fn as_token(read: Result<(TokenKind, &str), LexError>) -> Result<(Piece, &str), LexError>
    ensures { (other : Option (TokenKind × List ℕ)) → Gives (λ p. (p.0, chars p.1.now)) read.entry other → Gives (λ p. (p.0, chars p.1.now)) result (spec.read_map (λ kind. Piece.Token kind) other) }
{
    match read {
        Ok((kind, rest)) => Ok((Piece::Token(kind), rest)),
        Err(error) => Err(error),
    }
}

fn comment_or_mark(first: char, closes: bool, text: &str) -> Result<(Piece, &str), LexError>
    requires { MayClose closes (chars text.now) }
    ensures { Gives (λ p. (p.0, chars p.1.now)) result (spec.comment_or_mark (spec.comment_at (chars text.now)) (spec.first_mark (words.marks_of first) (chars text.now))) }
{
    match comment(closes, text) {
        Some((breaks, rest)) => Ok((Piece::Comment(breaks), rest)),
        None => match first_mark(marks_of(first), text) {
            Some((mark, rest)) => Ok((Piece::Token(TokenKind::Punctuator(mark)), rest)),
            None => Err(LexError::Bad),
        },
    }
}
