ghost use Rattle.std.specs.Prelude.{◌≡◌, ◌≢◌, ◌∷◌, [], ◌⊎◌, IsSome, IsTrue, IfOk, OnOk, OnErr, Err};
ghost use Rattle.std.specs.Result.{result_map_both};
ghost use Rattle.ob_values.specs.Operators.{is_ranged, AddsValue, binary_answer, made_value, after_made, unary_result, charged, text_sum, joined};
ghost use Rattle.ob_values.specs.Sound.{pointers_of};
ghost use Rattle.ob_values.specs.Store.{IsOpen, elements_in};

use crate::comparisons::is_truthy;
use crate::numbers::{complement, of_numbers, opposite, same};
use crate::texts::sum;
use ob_base::{BinaryOp, UnaryOp};
use ob_values::{AllocError, OpError, RegionKey, Regions, Thrown, Value};
use std::alloc::Global;

// The sum of values of which one is no number, as a text of its own.
fn add_texts(
    alloc: Global,
    regions: &mut Regions,
    region: RegionKey,
    a: Value,
    b: Value,
    left: u64,
) -> Result<Value, OpError>
    requires { IsOpen regions.old region }
    ensures answer { (result ≡ Err OpError.NoMemory) ⊎ (result ≡ result_map_both (made_value regions.old region) (λ e. e) (charged (elements_in regions.old region) left (text_sum (joined regions.old a b)))) }
    ensures memory { result ≡ Err OpError.NoMemory → IsSome (joined regions.old a b) }
    ensures ok { OnOk result (IfOk (charged (elements_in regions.old region) left (text_sum (joined regions.old a b))) (λ made. regions.new ≡ after_made regions.old region made)) }
    ensures err { OnErr result (regions.new ≡ regions.old) }
    ensures sound { IfOk result (AddsValue regions.old regions.new []) }
{
    let units = sum(alloc, regions, region, a, b, left)?;
    match regions.alloc_units(region, units) {
        Ok(r) => Ok(Value::Ref(r)),
        Err(AllocError::HeapFull) => Err(OpError::HeapFull),
        Err(AllocError::NoMemory) => Err(OpError::NoMemory),
    }
}

/// What a binary operator gives (ECMA-262, "ApplyStringOrNumericBinaryOperator"). `left` is the number
/// of steps that may still be spent; each element of a new text is one. It takes memory only for a sum
/// with a text.
///
/// # Errors
/// In this order: `Throws`, with `WrongOperand` for values that the operator doesn't take,
/// `DivisionByZero`, `InexactQuotient` or `OutOfRange` for numbers, `TextTooLong` for a sum above
/// 65,536 units; for a sum that is a text, `HeapFull` where the region would have more than 50,000
/// elements, `StepsOut` where the elements of the text are more than `left`; `NoMemory` where an
/// allocation is refused. All is then as before.
pub fn binary(
    alloc: Global,
    regions: &mut Regions,
    region: RegionKey,
    op: BinaryOp,
    a: Value,
    b: Value,
    left: u64,
) -> Result<Value, OpError>
    requires { IsOpen regions.old region }
    ensures answer { (result ≡ Err OpError.NoMemory) ⊎ (result ≡ result_map_both (made_value regions.old region) (λ e. e) (binary_answer regions.old region op a b left)) }
    ensures memory { result ≡ Err OpError.NoMemory → (op ≡ BinaryOp.Add) × IsSome (joined regions.old a b) }
    ensures ok { OnOk result (IfOk (binary_answer regions.old region op a b left) (λ made. regions.new ≡ after_made regions.old region made)) }
    ensures err { OnErr result (regions.new ≡ regions.old) }
    ensures sound { IfOk result (AddsValue regions.old regions.new []) }
    ensures range { IfOk result (λ value. IsTrue (is_ranged value)) }
{
    match (a, b) {
        (Value::Int(x), Value::Int(y)) => match of_numbers(op, x, y) {
            Ok(number) => Ok(Value::Int(number)),
            Err(thrown) => Err(OpError::Throws(thrown)),
        },
        _ => match op {
            BinaryOp::Add => add_texts(alloc, regions, region, a, b, left),
            _ => Err(OpError::Throws(Thrown::WrongOperand)),
        },
    }
}

/// What a unary operator other than `typeof` gives (ECMA-262, "Unary Operators"). It takes no memory.
///
/// # Errors
/// `WrongOperand` exactly where `-`, `+` or `~` gets no number.
pub fn unary(regions: &Regions, op: UnaryOp, a: Value) -> Result<Value, Thrown>
    requires { op ≢ UnaryOp.Typeof }
    ensures value { result ≡ unary_result regions.now op a }
    ensures plain { IfOk result (λ value. pointers_of (value ∷ []) ≡ []) }
    ensures range { IfOk result (λ value. IsTrue (is_ranged value)) }
{
    match (op, a) {
        (UnaryOp::Not, _) => Ok(Value::Bool(!is_truthy(regions, a))),
        (UnaryOp::Minus, Value::Int(n)) => Ok(Value::Int(opposite(n)?)),
        (UnaryOp::Plus, Value::Int(n)) => Ok(Value::Int(same(n)?)),
        (UnaryOp::BitNot, Value::Int(n)) => Ok(Value::Int(complement(n))),
        (UnaryOp::Void, _) => Ok(Value::Undefined),
        (UnaryOp::Typeof, _) => unreachable!(),
        _ => Err(Thrown::WrongOperand),
    }
}
