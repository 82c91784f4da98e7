//! Texts in quotes, and keys.

ghost use Rattle.std.specs.Prelude.{◌≡◌, [], ◌∷◌, ◌++◌, ◌<◌, string_bytes, bytes_eq, is_some, OnOk};
ghost use Rattle.std.specs.List.{All};
ghost use Rattle.ob_base.specs.Reserved.{find_word};
ghost use Rattle.ob_tree.specs.Tokens as tokens;
ghost use Rattle.ob_tree.specs.Words as words;
ghost use Rattle.ob_tree.specs.Tokens.{spaced, Word, Quoted};

use ob_base::{NoMemory, RESERVED_WORDS, ReservedWord, is_ascii_word, put_ascii, put_units};

/// Adds a space and a text in quotes.
#[tactic(auto, unfolding(crate::specs::Tokens::spaced))]
pub fn put_text(out: &mut String, units: &[u16]) -> Result<(), NoMemory>
    ensures { OnOk result (string_bytes out.new ≡ string_bytes out.old ++ spaced (Quoted units.now ∷ [])) }
{
    out.push(' ')?;
    put_quoted(out, units)?;
    Ok(())
}

/// Adds a space and a key: a word where it is an ASCII name, else a text.
#[tactic(auto, using(crate::proofs::Keys::name_is_ascii, crate::proofs::Keys::word_key, crate::proofs::Keys::text_key))]
pub fn put_key(out: &mut String, units: &[u16]) -> Result<(), NoMemory>
    ensures { OnOk result (string_bytes out.new ≡ string_bytes out.old ++ spaced (tokens.key_token units.now ∷ [])) }
{
    if is_ascii_name(units) {
        return put_ascii_word(out, units);
    }
    put_text(out, units)
}

#[tactic(auto, unfolding(crate::specs::Tokens::spaced))]
fn put_ascii_word(out: &mut String, units: &[u16]) -> Result<(), NoMemory>
    requires { All (λ u. u < 128) units.now }
    ensures { OnOk result (string_bytes out.new ≡ string_bytes out.old ++ spaced (Word units.now ∷ [])) }
{
    out.push(' ')?;
    put_ascii(out, units)?;
    Ok(())
}

#[tactic(auto, unfolding(crate::specs::Tokens::quoted))]
fn put_quoted(out: &mut String, units: &[u16]) -> Result<(), NoMemory>
    ensures { OnOk result (string_bytes out.new ≡ string_bytes out.old ++ tokens.quoted units.now) }
{
    out.push('"')?;
    put_units(out, units, true)?;
    out.push('"')?;
    Ok(())
}

#[tactic(auto, unfolding(crate::specs::Tokens::is_ascii_name))]
fn is_ascii_name(units: &[u16]) -> bool
    ensures { result ≡ tokens.is_ascii_name units.now }
{
    is_ascii_word(units) && !is_reserved(units)
}

#[tactic(auto, unfolding(crate::specs::Words::is_reserved, ob_base::specs::Reserved::reserved_word))]
fn is_reserved(units: &[u16]) -> bool
    ensures { result ≡ words.is_reserved units.now }
{
    is_any(&RESERVED_WORDS, units)
}

fn is_any(list: &[ReservedWord], units: &[u16]) -> bool
    ensures { result ≡ is_some (find_word list.now units.now) }
{
    for word in list {
        if is_spelled(word.as_str().as_bytes(), units) {
            return true;
        }
    }
    false
}

/// Whether units spell a word of ASCII.
fn is_spelled(word: &[u8], units: &[u16]) -> bool
    ensures { result ≡ bytes_eq word.now units.now }
{
    match word {
        [] => units.is_empty(),
        [c, cs @ ..] => match units {
            [] => false,
            [u, us @ ..] => u16::from(*c) == *u && is_spelled(cs, us),
        },
    }
}
