ghost use Rattle.std.specs.Prelude.{◌≡◌};
ghost use Rattle.ob_values.specs.Operators.{is_truthy, order_of, compares, compare_result};

use ob_base::CompareOp;
use ob_values::{Regions, Thrown, Value, text_in};
use std::cmp::Ordering;

// The order of two numbers, or of two texts by their units; none for other values.
fn order(regions: &Regions, a: Value, b: Value) -> Option<Ordering>
    ensures { result ≡ order_of regions.now a b }
{
    if let (Value::Int(x), Value::Int(y)) = (a, b) {
        return Some(x.cmp(&y));
    }
    match (text_in(regions, a), text_in(regions, b)) {
        (Some(x), Some(y)) => Some(x.cmp(y)),
        _ => None,
    }
}

fn holds(op: CompareOp, order: Ordering) -> bool
    ensures { result ≡ compares op order }
{
    match op {
        CompareOp::Less => order.is_lt(),
        CompareOp::Greater => order.is_gt(),
        CompareOp::LessEq => !order.is_gt(),
        CompareOp::GreaterEq => !order.is_lt(),
        CompareOp::Same | CompareOp::NotSame => false,
    }
}

/// What a comparison gives (ECMA-262, "IsLessThan" and "IsStrictlyEqual"). It takes no memory.
///
/// # Errors
/// `WrongOperand` exactly where one of the four orders gets neither two numbers nor two texts.
pub fn compare(regions: &Regions, op: CompareOp, a: Value, b: Value) -> Result<bool, Thrown>
    ensures { result ≡ compare_result regions.now op a b }
{
    match op {
        CompareOp::Same => Ok(regions.same(a, b)),
        CompareOp::NotSame => Ok(!regions.same(a, b)),
        _ => match order(regions, a, b) {
            Some(order) => Ok(holds(op, order)),
            None => Err(Thrown::WrongOperand),
        },
    }
}

/// Whether a value counts as true: falsy are undefined, null, false, 0 and the empty text (ECMA-262,
/// "ToBoolean"). It takes no memory.
pub fn is_truthy(regions: &Regions, a: Value) -> bool
    ensures { result ≡ is_truthy regions.now a }
{
    match a {
        Value::Undefined | Value::Null | Value::Holder(_) => false,
        Value::Bool(b) => b,
        Value::Int(n) => n != 0,
        Value::Builtin(_) => true,
        Value::Ref(_) => match text_in(regions, a) {
            Some(units) => !units.is_empty(),
            None => true,
        },
    }
}
