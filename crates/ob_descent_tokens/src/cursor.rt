//! The tokens that are still to read.

ghost use Rattle.std.specs.Prelude.{◌≡◌, ◌∷◌, [], Some, None, MatchOption, MatchBool, length};
ghost use Rattle.ob_grammar.specs.Taking as spec;
ghost use Rattle.ob_grammar.specs.Marks as marks;
ghost use Rattle.ob_descent_tokens.specs.Gives.{Gives, Takes};
ghost use Rattle.ob_descent_tokens.specs.Lists.{list_goes_on};
ghost use Rattle.ob_descent_tokens.specs.Tests.{test_of};

use crate::ParseError;
use crate::expected::Expected;
use crate::tables::{declares_constant, ends_value, rank};
use crate::words::word_of;
use ob_base::{Text, Units};
use ob_grammar::Form;
use ob_lex::{Token, TokenKind};
use std::alloc::Global;
use std::marker::Model;

/// The tokens from the next one on; contracts see the list of them.
#[derive(Drop)]
pub struct Cursor<'a> {
    tokens: &'a [Token],
}

impl<'a> Model for Cursor<'a> {
    ghost use Rattle.std.specs.Prelude.{List};
    ghost use Rattle.ob_lex.specs.declared.token.Token.{Token};

    ghost Value = { List Token };

    ghost view = { λ c. c.tokens.now };
}

impl<'a> Cursor<'a> {
    pub fn new(tokens: &'a [Token]) -> Cursor<'a>
        ensures { result ≡ tokens.now }
    {
        Cursor { tokens }
    }

    /// A cursor at the same token.
    pub fn fork(&self) -> Cursor<'a>
        ensures { result ≡ self.now }
    {
        Cursor {
            tokens: self.tokens,
        }
    }

    /// How many tokens are left.
    pub fn len(&self) -> usize
        ensures { result ≡ length self.now }
    {
        self.tokens.len()
    }

    /// The next token, and a cursor behind it.
    pub fn split_first(&self) -> Option<(&'a Token, Cursor<'a>)>
        ensures { MatchOption result (self.now ≡ []) (λ p. self.now ≡ p.0.now ∷ p.1) }
    {
        match self.tokens {
            [] => None,
            [first, rest @ ..] => Some((first, Cursor { tokens: rest })),
        }
    }

    /// Takes the next token.
    pub fn next(&mut self) -> Option<&'a Token>
        ensures { MatchOption result ((self.old ≡ []) × (self.new ≡ [])) (λ t. self.old ≡ t.now ∷ self.new) }
    {
        match self.tokens {
            [] => None,
            [first, rest @ ..] => {
                self.tokens = rest;
                Some(first)
            }
        }
    }

    /// Whether that token comes next.
    #[tactic(auto, unfolding(ob_grammar::specs::Taking::next_is))]
    pub fn next_is(&self, expected: Expected) -> bool
        ensures { result ≡ spec.next_is (test_of expected) self.now }
    {
        match self.tokens {
            [] => false,
            [first, ..] => expected.is(&first.kind),
        }
    }

    /// Takes that token, if it comes next.
    #[tactic(auto, unfolding(ob_grammar::specs::Taking::take))]
    pub fn take(&mut self, expected: Expected) -> bool
        ensures { MatchBool result (spec.take (test_of expected) self.old ≡ Some self.new) ((spec.take (test_of expected) self.old ≡ None) × (self.new ≡ self.old)) }
    {
        match self.tokens {
            [] => false,
            [first, rest @ ..] => {
                if !expected.is(&first.kind) {
                    return false;
                }
                self.tokens = rest;
                true
            }
        }
    }

    /// Takes that token, which has to come next.
    pub fn expect(&mut self, expected: Expected) -> Result<(), ParseError>
        ensures { Takes (spec.take (test_of expected) self.old) result self.new }
    {
        if self.take(expected) {
            Ok(())
        } else {
            Err(ParseError::Syntax)
        }
    }

    /// Takes a name, if one comes next.
    #[tactic(auto, unfolding(ob_grammar::specs::Taking::one, ob_grammar::specs::Taking::name_of))]
    pub fn take_name(&mut self) -> Option<&'a Text>
        ensures { MatchOption result ((spec.one spec.name_of self.old ≡ None) × (self.new ≡ self.old)) (λ x. spec.one spec.name_of self.old ≡ Some (x.now, self.new)) }
    {
        match self.tokens {
            [] => None,
            [first, rest @ ..] => match &first.kind {
                TokenKind::Name(name) => {
                    self.tokens = rest;
                    Some(name)
                }
                _ => None,
            },
        }
    }

    /// Takes a name, which has to come next.
    pub fn name(&mut self, alloc: Global) -> Result<Text, ParseError>
        ensures { Gives (spec.one spec.name_of self.old) result self.new }
    {
        match self.take_name() {
            Some(name) => Ok(name.copy(alloc)?),
            None => Err(ParseError::Syntax),
        }
    }

    /// Whether a list goes on behind an item: takes a comma, or the mark that closes the list.
    pub fn goes_on(&mut self, closes: Expected) -> Result<bool, ParseError>
        ensures { Gives (list_goes_on (test_of closes) self.old) result self.new }
    {
        let Some(token) = self.next() else {
            return Err(ParseError::Syntax);
        };
        if closes.is(&token.kind) {
            return Ok(false);
        }
        if Expected::Comma.is(&token.kind) {
            return Ok(true);
        }
        Err(ParseError::Syntax)
    }

    /// Whether a token comes next with no line break before it.
    #[tactic(auto, unfolding(ob_grammar::specs::Taking::starts_on_line))]
    pub fn starts_on_line(&self) -> bool
        ensures { result ≡ spec.starts_on_line self.now }
    {
        match self.tokens {
            [] => false,
            [first, ..] => !first.break_before,
        }
    }
}

impl<'a> Cursor<'a> {
    /// Takes an arrow on the same line, if one comes next.
    #[tactic(auto, unfolding(ob_grammar::specs::Taking::arrow_sign))]
    pub fn arrow(&mut self) -> bool
        ensures { MatchBool result (spec.arrow_sign self.old ≡ Some self.new) (spec.arrow_sign self.old ≡ None) }
    {
        match self.tokens {
            [] => false,
            [first, rest @ ..] => {
                if !Expected::Arrow.is(&first.kind) || first.break_before {
                    return false;
                }
                self.tokens = rest;
                true
            }
        }
    }

    /// Whether nothing stands behind a `return` or `yield` that comes before this.
    #[tactic(auto, unfolding(ob_grammar::specs::Taking::no_value))]
    pub fn no_value(&self) -> bool
        ensures { result ≡ spec.no_value self.now }
    {
        match self.tokens {
            [] => true,
            [first, ..] => first.break_before || ends_value(&first.kind),
        }
    }

    /// Takes the word that a `.` stands before.
    #[tactic(auto, unfolding(ob_grammar::specs::Taking::one))]
    pub fn word(&mut self, alloc: Global) -> Result<Text, ParseError>
        ensures { Gives (spec.one marks.word_of self.old) result self.new }
    {
        let Some(token) = self.next() else {
            return Err(ParseError::Syntax);
        };
        match word_of(alloc, &token.kind)? {
            Some(word) => Ok(word),
            None => Err(ParseError::Syntax),
        }
    }

    /// Takes a text in quotes, which has to come next.
    #[tactic(auto, unfolding(ob_grammar::specs::Taking::one, ob_grammar::specs::Taking::text_of))]
    pub fn units(&mut self, alloc: Global) -> Result<Units, ParseError>
        ensures { Gives (spec.one spec.text_of self.old) result self.new }
    {
        let Some(token) = self.next() else {
            return Err(ParseError::Syntax);
        };
        match &token.kind {
            TokenKind::Text(units) => Ok(units.copy(alloc)?),
            _ => Err(ParseError::Syntax),
        }
    }

    /// Takes `let` or `const`, if one comes next, and tells whether it was `const`.
    #[tactic(auto, unfolding(ob_grammar::specs::Taking::one))]
    pub fn declares(&mut self) -> Option<bool>
        ensures { MatchOption result (spec.one marks.declares_constant self.old ≡ None) (λ c. spec.one marks.declares_constant self.old ≡ Some (c, self.new)) }
    {
        let token = self.next()?;
        declares_constant(&token.kind)
    }
}

impl<'a> Cursor<'a> {
    /// Takes the end of a statement whose last part has that form: a `;` that is written, or one that
    /// may be left out here (ECMA-262, "Rules of Automatic Semicolon Insertion").
    #[tactic(auto, unfolding(ob_grammar::specs::Taking::end_of))]
    pub fn end(&mut self, form: Form) -> Result<(), ParseError>
        ensures { Takes (spec.end_of form self.old) result self.new }
    {
        match self.tokens {
            [] => Ok(()),
            [first, rest @ ..] => {
                if Expected::Semicolon.is(&first.kind) {
                    self.tokens = rest;
                    return Ok(());
                }
                if Expected::CloseBrace.is(&first.kind) {
                    return Ok(());
                }
                if first.break_before && is_quiet(form, first) {
                    return Ok(());
                }
                Err(ParseError::Syntax)
            }
        }
    }
}

// Whether no rule lets the token go on with what ends in that form.
#[tactic(auto, unfolding(ob_grammar::specs::Taking::is_quiet))]
fn is_quiet(form: Form, token: &Token) -> bool
    ensures { result ≡ spec.is_quiet form 19 token.now }
{
    match form {
        Form::Target => rank(token) >= 19,
        Form::Other => rank(token) >= 19,
        Form::Updated => rank(token) >= 19 || rank(token) <= 1,
        Form::Closed => rank(token) >= 19 || rank(token) <= 14,
        Form::Bare => {
            (token.break_before || ends_value(&token.kind))
                && (rank(token) >= 19 || rank(token) <= 16)
        }
    }
}
