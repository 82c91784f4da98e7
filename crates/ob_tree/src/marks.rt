//! Tokens that are written one by one.

ghost use Rattle.std.specs.Prelude.{◌≡◌, [], ◌∷◌, ◌++◌, map, string_bytes, OnOk};
ghost use Rattle.ob_tree.specs.Tokens.{spaced, Word, Mark, Number};
ghost use Rattle.ob_tree.specs.Print as spec;

use crate::{AssignOp, ChangeOp, LogicOp, SpecForm, UpdateOp};
use ob_base::{BinaryOp, CompareOp, NoMemory, Text, UnaryOp};

/// Adds a space and a name or a reserved word.
#[tactic(auto, unfolding(crate::specs::Tokens::spaced))]
pub fn put_word(out: &mut String, word: &str) -> Result<(), NoMemory>
    ensures { OnOk result (string_bytes out.new ≡ string_bytes out.old ++ spaced (Word word.now ∷ [])) }
{
    out.push(' ')?;
    out.push_str(word)?;
    Ok(())
}

/// Adds a space and a punctuator.
#[tactic(auto, unfolding(crate::specs::Tokens::spaced))]
pub fn put_mark(out: &mut String, mark: &str) -> Result<(), NoMemory>
    ensures { OnOk result (string_bytes out.new ≡ string_bytes out.old ++ spaced (Mark mark.now ∷ [])) }
{
    out.push(' ')?;
    out.push_str(mark)?;
    Ok(())
}

/// Adds a space and a name.
pub fn put_name(out: &mut String, name: &Text) -> Result<(), NoMemory>
    ensures { OnOk result (string_bytes out.new ≡ string_bytes out.old ++ spaced (spec.name_token name.now)) }
{
    put_word(out, name.as_str())
}

/// Adds a space and a number in decimal.
#[tactic(auto, unfolding(crate::specs::Tokens::spaced))]
pub fn put_number(out: &mut String, value: i64) -> Result<(), NoMemory>
    ensures { OnOk result (string_bytes out.new ≡ string_bytes out.old ++ spaced (Number value ∷ [])) }
{
    out.push(' ')?;
    write!(out, "{value}")?;
    Ok(())
}

/// Adds a space and an operator on one operand.
pub fn put_unary(out: &mut String, op: UnaryOp) -> Result<(), NoMemory>
    ensures { OnOk result (string_bytes out.new ≡ string_bytes out.old ++ spaced (spec.unary_token op ∷ [])) }
{
    match op {
        UnaryOp::Not => put_mark(out, "!"),
        UnaryOp::Minus => put_mark(out, "-"),
        UnaryOp::Plus => put_mark(out, "+"),
        UnaryOp::BitNot => put_mark(out, "~"),
        UnaryOp::Typeof => put_word(out, "typeof"),
        UnaryOp::Void => put_word(out, "void"),
    }
}

/// Adds what stands before the part at a place: a comma, but for the first.
pub fn put_comma(out: &mut String, place: usize) -> Result<(), NoMemory>
    ensures { OnOk result (string_bytes out.new ≡ string_bytes out.old ++ spaced (spec.comma_before place)) }
{
    if place == 0 {
        return Ok(());
    }
    put_mark(out, ",")
}

/// Adds a name and `=`, where there is a name.
pub fn put_target(out: &mut String, name: &Option<Text>) -> Result<(), NoMemory>
    ensures { OnOk result (string_bytes out.new ≡ string_bytes out.old ++ spaced (spec.target_if_there name.now)) }
{
    match name {
        None => Ok(()),
        Some(name) => {
            put_name(out, name)?;
            put_mark(out, "=")?;
            Ok(())
        }
    }
}

/// Adds the name of what was thrown in parentheses, where it has one.
pub fn put_catch_name(out: &mut String, name: &Option<Text>) -> Result<(), NoMemory>
    ensures { OnOk result (string_bytes out.new ≡ string_bytes out.old ++ spaced (spec.catch_name name.now)) }
{
    match name {
        None => Ok(()),
        Some(name) => {
            put_mark(out, "(")?;
            put_name(out, name)?;
            put_mark(out, ")")?;
            Ok(())
        }
    }
}

/// Adds the name of a function, where it has one.
pub fn put_optional_name(out: &mut String, name: &Option<Text>) -> Result<(), NoMemory>
    ensures { OnOk result (string_bytes out.new ≡ string_bytes out.old ++ spaced (spec.name_if_there name.now)) }
{
    match name {
        None => Ok(()),
        Some(name) => put_name(out, name),
    }
}

/// Adds the star of a generator function.
pub fn put_star(out: &mut String, generator: bool) -> Result<(), NoMemory>
    ensures { OnOk result (string_bytes out.new ≡ string_bytes out.old ++ spaced (spec.star_if generator)) }
{
    match generator {
        false => Ok(()),
        true => put_mark(out, "*"),
    }
}

/// Adds `const` or `let`.
pub fn put_declaring(out: &mut String, constant: bool) -> Result<(), NoMemory>
    ensures { OnOk result (string_bytes out.new ≡ string_bytes out.old ++ spaced (Word (spec.const_word constant) ∷ [])) }
{
    match constant {
        false => put_word(out, "let"),
        true => put_word(out, "const"),
    }
}

/// Adds what stands before a name of an import.
pub fn put_form(out: &mut String, form: SpecForm) -> Result<(), NoMemory>
    ensures { OnOk result (string_bytes out.new ≡ string_bytes out.old ++ spaced (spec.form_tokens form)) }
{
    match form {
        SpecForm::Plain => Ok(()),
        SpecForm::Viewof => put_word(out, "viewof"),
        SpecForm::Mutable => put_word(out, "mutable"),
    }
}

/// Adds `as` and a name, where there is one.
pub fn put_alias(out: &mut String, alias: &Option<Text>) -> Result<(), NoMemory>
    ensures { OnOk result (string_bytes out.new ≡ string_bytes out.old ++ spaced (spec.alias_tokens alias.now)) }
{
    match alias {
        None => Ok(()),
        Some(alias) => {
            put_word(out, "as")?;
            put_name(out, alias)?;
            Ok(())
        }
    }
}

/// Adds the parameters of a function in parentheses.
pub fn write_params(out: &mut String, params: &[Text]) -> Result<(), NoMemory>
    ensures { OnOk result (string_bytes out.new ≡ string_bytes out.old ++ spaced (spec.params_tokens params.now)) }
{
    put_mark(out, "(")?;
    write_names(out, params)?;
    put_mark(out, ")")?;
    Ok(())
}

fn write_names(out: &mut String, names: &[Text]) -> Result<(), NoMemory>
    ensures { OnOk result (string_bytes out.new ≡ string_bytes out.old ++ spaced (spec.listed (map spec.name_token names.now))) }
{
    for (place, name) in names.iter().enumerate() {
        put_comma(out, place)?;
        put_name(out, name)?;
    }
    Ok(())
}

pub fn binary_mark(op: BinaryOp) -> &'static str
    ensures { result.now ≡ spec.binary_mark op }
{
    match op {
        BinaryOp::Add => "+",
        BinaryOp::Sub => "-",
        BinaryOp::Mul => "*",
        BinaryOp::Div => "/",
        BinaryOp::Rem => "%",
        BinaryOp::Pow => "**",
        BinaryOp::BitAnd => "&",
        BinaryOp::BitOr => "|",
        BinaryOp::BitXor => "^",
        BinaryOp::Shl => "<<",
        BinaryOp::Shr => ">>",
        BinaryOp::ShrUnsigned => ">>>",
    }
}

pub fn compare_mark(op: CompareOp) -> &'static str
    ensures { result.now ≡ spec.compare_mark op }
{
    match op {
        CompareOp::Less => "<",
        CompareOp::Greater => ">",
        CompareOp::LessEq => "<=",
        CompareOp::GreaterEq => ">=",
        CompareOp::Same => "===",
        CompareOp::NotSame => "!==",
    }
}

pub fn logic_mark(op: LogicOp) -> &'static str
    ensures { result.now ≡ spec.logic_mark op }
{
    match op {
        LogicOp::And => "&&",
        LogicOp::Or => "||",
        LogicOp::Nullish => "??",
    }
}

pub fn assign_mark(op: AssignOp) -> &'static str
    ensures { result.now ≡ spec.assign_mark op }
{
    match op {
        AssignOp::Set => "=",
        AssignOp::Binary(BinaryOp::Add) => "+=",
        AssignOp::Binary(BinaryOp::Sub) => "-=",
        AssignOp::Binary(BinaryOp::Mul) => "*=",
        AssignOp::Binary(BinaryOp::Div) => "/=",
        AssignOp::Binary(BinaryOp::Rem) => "%=",
        AssignOp::Binary(BinaryOp::Pow) => "**=",
        AssignOp::Binary(BinaryOp::BitAnd) => "&=",
        AssignOp::Binary(BinaryOp::BitOr) => "|=",
        AssignOp::Binary(BinaryOp::BitXor) => "^=",
        AssignOp::Binary(BinaryOp::Shl) => "<<=",
        AssignOp::Binary(BinaryOp::Shr) => ">>=",
        AssignOp::Binary(BinaryOp::ShrUnsigned) => ">>>=",
        AssignOp::Logic(LogicOp::And) => "&&=",
        AssignOp::Logic(LogicOp::Or) => "||=",
        AssignOp::Logic(LogicOp::Nullish) => "??=",
    }
}

pub fn update_mark(op: UpdateOp) -> &'static str
    ensures { result.now ≡ spec.update_mark op }
{
    match op {
        UpdateOp::Up => "++",
        UpdateOp::Down => "--",
    }
}

pub fn change_mark(op: ChangeOp) -> &'static str
    ensures { result.now ≡ spec.change_mark op }
{
    match op {
        ChangeOp::Set => "=",
        ChangeOp::Add => "+=",
        ChangeOp::Sub => "-=",
        ChangeOp::Mul => "*=",
        ChangeOp::Up => "++",
        ChangeOp::Down => "--",
    }
}
