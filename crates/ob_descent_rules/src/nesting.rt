ghost use Rattle.std.specs.Prelude.{◌≡◌};
ghost use Rattle.ob_grammar.specs.Forms.{edge};

use ob_grammar::Form;

/// A rule that is read one nesting deeper.
#[derive(Clone, Copy, Debug, PartialEq, Eq)]
pub enum Nested {
    Whole,
    Power,
    Prefixed,
    /// An operand of the operators of a level: of `*` (0), of `+` (1), up to `||` (9).
    Operand(u8),
}

/// The form of what ends in a piece of this form.
pub fn edge(form: Form) -> Form
    ensures { result ≡ edge form }
{
    match form {
        Form::Target => Form::Other,
        Form::Other => Form::Other,
        Form::Updated => Form::Updated,
        Form::Closed => Form::Closed,
        Form::Bare => Form::Bare,
    }
}
