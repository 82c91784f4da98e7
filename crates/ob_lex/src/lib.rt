//! The tokens of a notebook's language: a text is cut into white space, comments and tokens, at each
//! place the longest piece that may stand there.
#![tactic(auto)]

ghost use Rattle.std.specs.Prelude.{◌≡◌, ◌<◌, ◌^◌, ◌↔◌, Some, length, chars, false, IfOk, List, ℕ};
ghost use Rattle.ob_lex.specs.Tokens.{Tokens};
ghost use Rattle.ob_lex.specs.declared.token.Token.{Token};
ghost use Rattle.ob_lex.specs.Reading as spec;
ghost use Rattle.ob_lex.specs.Reading.{Gives};

mod characters;
mod comment;
mod division;
mod error;
mod escape;
mod number;
mod piece;
mod punctuator;
mod quoted;
mod scan;
mod splits;
mod token;
mod word;

use division::divide;
pub use error::LexError;
use ob_base::List;
pub use piece::Piece;
pub use punctuator::Punctuator;
use std::alloc::Global;
pub use token::{Token, TokenKind};

/// The tokens of a text of fewer than 2^32 bytes, with spans in bytes.
///
/// # Errors
/// `Bad` where the text has no division into white space, comments and tokens; `NoMemory` where an
/// allocation is refused.
pub fn lex(alloc: Global, text: &str) -> Result<List<Token>, LexError>
    requires { length text.now < 2 ^ 32 }
    // The tokens are those of the text.
    ensures tokens { IfOk result (Tokens (chars text.now)) }
    // It is bad where the text has none.
    ensures bad { result ≡ Err LexError.Bad → (tokens : List Token) → Tokens (chars text.now) tokens → ⊥ }
    // The answer as it is computed from the text.
    ensures exact { Gives (λ tokens. tokens) result (spec.cut (length (chars text.now)) false 0 (chars text.now)) }
{
    divide(alloc, text)
}

/// A text has at most one division into tokens.
pub fn one_division()
    ensures { (text : List ℕ) (tokens others : List Token) → Tokens text tokens → Tokens text others → tokens ≡ others }
{}

/// Reading a text from the left gives its tokens, and gives none only where it has none.
pub fn reading_is_exact()
    ensures { (text : List ℕ) (tokens : List Token) → (spec.cut (length text) false 0 text ≡ Some tokens) ↔ Tokens text tokens }
{}

#[cfg(test)]
mod tests;
