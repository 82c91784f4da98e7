//! Reads the text of a cell.
#![tactic(auto)]

ghost use Rattle.std.specs.Prelude.{◌≡◌, ◌≢◌, ◌<◌, ◌^◌, length, chars, Ok, Err, IfOk};
ghost use Rattle.ob_descent_tokens.specs.Gives.{Answers};
ghost use Rattle.ob_descent_tokens.specs.declared.error.ParseError.TheVariants as errors;
ghost use Rattle.ob_grammar.specs.Readable.{TextReads};
ghost use Rattle.ob_grammar.specs.ReadingTexts.{text_cell};
ghost use Rattle.ob_tree_types.specs.declared.cell.CellTree.{CellTree};

pub use ob_descent::ParseError;
use ob_descent::parsed;
use ob_lex::{LexError, lex};
use ob_tree::CellTree;
use std::alloc::Global;

/// The tree of a cell's text of fewer than 2^32 bytes.
///
/// # Errors
/// `Syntax` exactly where no cell reads the text, `NoMemory` where an allocation is refused.
pub fn parse_cell(alloc: Global, text: &str) -> Result<CellTree, ParseError>
    requires { length text.now < 2 ^ 32 }
    // A tree that is given is one that the text reads as.
    ensures found { IfOk result (TextReads (chars text.now)) }
    // A tree that the text reads as is given, and is the only one.
    ensures given { (tree : CellTree) → TextReads (chars text.now) tree → result ≢ Err errors.NoMemory → result ≡ Ok tree }
    // The text is refused only where it reads as no cell.
    ensures syntax { result ≡ Err errors.Syntax → (tree : CellTree) → TextReads (chars text.now) tree → ⊥ }
    // The answer as it is computed from the text.
    ensures exact { Answers (text_cell (chars text.now)) result }
{
    computed(alloc, text)
}

// The cell of a text, by its tokens.
#[tactic(auto, unfolding(ob_grammar::specs::ReadingTexts::text_cell))]
fn computed(alloc: Global, text: &str) -> Result<CellTree, ParseError>
    requires { length text.now < 2 ^ 32 }
    ensures { Answers (text_cell (chars text.now)) result }
{
    match lex(alloc, text) {
        Ok(tokens) => parsed(alloc, tokens.as_slice()),
        Err(LexError::Bad) => Err(ParseError::Syntax),
        Err(LexError::NoMemory) => Err(ParseError::NoMemory),
    }
}

#[cfg(test)]
mod tests;
