//! Names and reserved words.

ghost use Rattle.std.specs.Prelude.{◌≡◌, ◌∷◌, chars, drop, take, suc, ℕ, encode_utf8_all, IfOk};
ghost use Rattle.ob_base.specs.Reserved.{reserved_word};
ghost use Rattle.ob_lex.specs.Characters.{continues_name};
ghost use Rattle.ob_lex.specs.Reading as spec;
ghost use Rattle.ob_lex.specs.Reading.{Gives};

use crate::scan::after_name;
use crate::splits::before;
use crate::{LexError, TokenKind};
use ob_base::{NoMemory, ReservedWord, Text};
use std::alloc::Global;

/// The word at the front of a text, whose first character is given by what follows it, and the rest.
#[tactic(auto, unfolding(crate::specs::Reading::word_at))]
pub fn word<'a>(
    alloc: Global,
    text: &'a str,
    after: &'a str,
) -> Result<(TokenKind, &'a str), LexError>
    requires { (c : ℕ) × (chars text.now ≡ c ∷ chars after.now) }
    ensures { Gives (λ p. (p.0, chars p.1.now)) result (spec.word_at (suc (spec.run continues_name (chars after.now))) (chars text.now)) }
{
    let (front, rest) = split_word(text, after);
    match reserved(front) {
        Some(word) => Ok((TokenKind::Reserved(word), rest)),
        None => {
            let name = text_of(alloc, front)?;
            Ok((TokenKind::Name(name), rest))
        }
    }
}

fn split_word<'a>(text: &'a str, after: &'a str) -> (&'a str, &'a str)
    requires { (c : ℕ) × (chars text.now ≡ c ∷ chars after.now) }
    ensures front { chars result.0.now ≡ take (suc (spec.run continues_name (chars after.now))) (chars text.now) }
    ensures rest { chars result.1.now ≡ drop (suc (spec.run continues_name (chars after.now))) (chars text.now) }
{
    let rest = after_name(after);
    (before(text, rest), rest)
}

fn reserved(name: &str) -> Option<ReservedWord>
    ensures { result ≡ reserved_word (chars name.now) }
{
    ReservedWord::named(name)
}

fn text_of(alloc: Global, name: &str) -> Result<Text, NoMemory>
    ensures { IfOk result (λ text. text ≡ encode_utf8_all (chars name.now)) }
{
    let text = String::from_str(alloc, name)?;
    Ok(Text::from_string(text))
}
