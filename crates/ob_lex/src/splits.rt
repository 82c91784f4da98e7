//! The front of a text.

ghost use Rattle.std.specs.Prelude.{◌≡◌, ◌∷◌, ◌==◌, [], length, chars, take, drop, MatchOption, ℕ};
ghost use Rattle.ob_lex.specs.Characters.{bytes};

/// The first character of a text, and what follows it.
pub fn split_first(text: &str) -> Option<(char, &str)>
    ensures { MatchOption result (chars text.now ≡ []) (λ p. chars text.now ≡ p.0 ∷ chars p.1.now) }
{
    let mut characters = text.chars();
    match characters.next() {
        Some(c) => Some((c, characters.as_str())),
        None => None,
    }
}

/// What stands in a text before a rest of it.
pub fn before<'a>(text: &'a str, rest: &str) -> &'a str
    requires { (n : ℕ) × (chars rest.now ≡ drop n (chars text.now)) }
    ensures { (n : ℕ) → chars rest.now ≡ drop n (chars text.now) → chars result.now ≡ take n (chars text.now) }
{
    let (front, _rest) = text.split_at(text.len() - rest.len());
    front
}

/// How many bytes the characters of a text take.
pub fn byte_len(text: &str) -> usize
    ensures { result ≡ bytes (chars text.now) }
{
    text.len()
}

pub fn is_empty(text: &str) -> bool
    ensures { result ≡ (length (chars text.now) == 0) }
{
    text.is_empty()
}
