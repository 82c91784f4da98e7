ghost use Rattle.std.specs.Int.{int_pow, bit_not, w32};
ghost use Rattle.std.specs.Prelude.{◌≡◌, ◌≢◌, ◌≤◌, ◌<◌, ◌+ℤ◌, ◌-ℤ◌, ◌*ℤ◌, pos, negsuc, neg_ℤ, int_div, int_rem, bit_and, bit_or, bit_xor, unsigned_abs, IsTrue, IfOk};
ghost use Rattle.ob_items.specs.Numbers.{is_in_range, ranged, number_quotient, number_remainder, number_power, inverse_power, bits_of, signed, shifted_left, shifted_right, shifted_right_unsigned, number_result};
ghost use Rattle.ob_values.specs.Operators.{within_range};

use ob_base::{BinaryOp, MAX_INTEGER};
use ob_values::Thrown;

// Whether a number lies from -(2^53-1) to 2^53-1.
fn is_in_range(n: i64) -> bool
    ensures { result ≡ is_in_range n }
{
    n >= -MAX_INTEGER && n <= MAX_INTEGER
}

fn ranged(z: i128) -> Result<i64, Thrown>
    ensures value { result ≡ ranged z }
    ensures range { IfOk result (λ n. IsTrue (is_in_range n)) }
{
    let max = i128::from(MAX_INTEGER);
    if z >= -max && z <= max {
        Ok(z as i64)
    } else {
        Err(Thrown::OutOfRange)
    }
}

fn add(a: i64, b: i64) -> Result<i64, Thrown>
    ensures value { result ≡ ranged (a +ℤ b) }
    ensures range { IfOk result (λ n. IsTrue (is_in_range n)) }
{
    ranged(i128::from(a) + i128::from(b))
}

fn sub(a: i64, b: i64) -> Result<i64, Thrown>
    ensures value { result ≡ ranged (a -ℤ b) }
    ensures range { IfOk result (λ n. IsTrue (is_in_range n)) }
{
    ranged(i128::from(a) - i128::from(b))
}

fn mul(a: i64, b: i64) -> Result<i64, Thrown>
    ensures value { result ≡ ranged (a *ℤ b) }
    ensures range { IfOk result (λ n. IsTrue (is_in_range n)) }
{
    ranged(a as i128 * b as i128)
}

fn quotient(a: i64, b: i64) -> i64
    requires not_zero { b ≢ pos 0 }
    requires not_minus_one { b ≢ negsuc 0 }
    ensures { result ≡ int_div a b }
{
    a / b
}

fn remainder(a: i64, b: i64) -> i64
    requires not_zero { b ≢ pos 0 }
    requires not_minus_one { b ≢ negsuc 0 }
    ensures { result ≡ int_rem a b }
{
    a % b
}

fn div(a: i64, b: i64) -> Result<i64, Thrown>
    ensures { result ≡ within_range (number_quotient a b) }
{
    if b == 0 {
        return Err(Thrown::DivisionByZero);
    }
    if b == -1 {
        return ranged(-i128::from(a));
    }
    if remainder(a, b) == 0 {
        ranged(i128::from(quotient(a, b)))
    } else {
        Err(Thrown::InexactQuotient)
    }
}

fn rem(a: i64, b: i64) -> Result<i64, Thrown>
    ensures { result ≡ within_range (number_remainder a b) }
{
    if b == 0 {
        return Err(Thrown::DivisionByZero);
    }
    if b == -1 {
        return Ok(0);
    }
    ranged(i128::from(remainder(a, b)))
}

// The power of a number of at least 2 in absolute value.
fn large_power(a: i64, n: u64) -> Result<i64, Thrown>
    requires { 2 ≤ unsigned_abs a }
    ensures value { result ≡ ranged (int_pow a n) }
    ensures range { IfOk result (λ n. IsTrue (is_in_range n)) }
{
    if n >= 64 {
        return Err(Thrown::OutOfRange);
    }
    match a.checked_pow(n as u32) {
        Some(power) => {
            if is_in_range(power) {
                Ok(power)
            } else {
                Err(Thrown::OutOfRange)
            }
        }
        None => Err(Thrown::OutOfRange),
    }
}

// The power of -1, 0 or 1.
fn small_power(a: i64, n: u64) -> i64
    requires { unsigned_abs a < 2 }
    ensures value { result ≡ int_pow a n }
    ensures small { unsigned_abs result < 2 }
{
    if a > 0 {
        1
    } else if a == 0 {
        if n == 0 { 1 } else { 0 }
    } else if n % 2 == 0 {
        1
    } else {
        -1
    }
}

fn power(a: i64, n: u64) -> Result<i64, Thrown>
    ensures value { result ≡ ranged (int_pow a n) }
    ensures range { IfOk result (λ n. IsTrue (is_in_range n)) }
{
    if a >= -1 && a <= 1 {
        Ok(small_power(a, n))
    } else {
        large_power(a, n)
    }
}

fn inverse(a: i64, n: u64) -> Result<i64, Thrown>
    ensures value { result ≡ inverse_power a n }
    ensures range { IfOk result (λ n. IsTrue (is_in_range n)) }
{
    if a == 0 {
        Err(Thrown::DivisionByZero)
    } else if a >= -1 && a <= 1 {
        Ok(small_power(a, n))
    } else {
        Err(Thrown::InexactQuotient)
    }
}

fn pow(a: i64, b: i64) -> Result<i64, Thrown>
    ensures value { result ≡ number_power a b }
    ensures range { IfOk result (λ n. IsTrue (is_in_range n)) }
{
    if b >= 0 {
        power(a, b as u64)
    } else {
        inverse(a, b.unsigned_abs())
    }
}

// The 32 bits of a number in two's complement (ECMA-262, "ToUint32").
fn bits(z: i64) -> u32
    ensures { result ≡ bits_of z }
{
    z.rem_euclid(4_294_967_296) as u32
}

fn and(a: i64, b: i64) -> i64
    ensures value { result ≡ signed (bit_and (bits_of a) (bits_of b)) }
    ensures range { IsTrue (is_in_range result) }
{
    i64::from((bits(a) & bits(b)).cast_signed())
}

fn or(a: i64, b: i64) -> i64
    ensures value { result ≡ signed (bit_or (bits_of a) (bits_of b)) }
    ensures range { IsTrue (is_in_range result) }
{
    i64::from((bits(a) | bits(b)).cast_signed())
}

fn xor(a: i64, b: i64) -> i64
    ensures value { result ≡ signed (bit_xor (bits_of a) (bits_of b)) }
    ensures range { IsTrue (is_in_range result) }
{
    i64::from((bits(a) ^ bits(b)).cast_signed())
}

fn shl(a: i64, b: i64) -> i64
    ensures value { result ≡ shifted_left a b }
    ensures range { IsTrue (is_in_range result) }
{
    i64::from((bits(a) << (bits(b) % 32)).cast_signed())
}

fn shr(a: i64, b: i64) -> i64
    ensures value { result ≡ shifted_right a b }
    ensures range { IsTrue (is_in_range result) }
{
    i64::from(bits(a).cast_signed() >> (bits(b) % 32))
}

fn shr_unsigned(a: i64, b: i64) -> i64
    ensures value { result ≡ shifted_right_unsigned a b }
    ensures range { IsTrue (is_in_range result) }
{
    i64::from(bits(a) >> (bits(b) % 32))
}

/// The complement of the 32 bits of a number (ECMA-262, "Number::bitwiseNOT").
pub fn complement(a: i64) -> i64
    ensures value { result ≡ signed (bit_not w32 (bits_of a)) }
    ensures range { IsTrue (is_in_range result) }
{
    i64::from((!bits(a)).cast_signed())
}

/// A number as it is.
///
/// # Errors
/// `OutOfRange` where it lies outside the range.
pub fn same(a: i64) -> Result<i64, Thrown>
    ensures value { result ≡ ranged a }
    ensures range { IfOk result (λ n. IsTrue (is_in_range n)) }
{
    ranged(i128::from(a))
}

/// The number of the other sign; 0 has none (ECMA-262, "Number::unaryMinus").
///
/// # Errors
/// `OutOfRange` where it lies outside the range.
pub fn opposite(a: i64) -> Result<i64, Thrown>
    ensures value { result ≡ ranged (neg_ℤ a) }
    ensures range { IfOk result (λ n. IsTrue (is_in_range n)) }
{
    ranged(-i128::from(a))
}

/// What an operator gives of two numbers (ECMA-262, "Number::add" to "Number::bitwiseOR").
///
/// # Errors
/// `OutOfRange` where the result lies outside the range, `DivisionByZero` for a zero divisor and a
/// negative power of 0, `InexactQuotient` for another quotient or negative power that is no integer.
pub fn of_numbers(op: BinaryOp, a: i64, b: i64) -> Result<i64, Thrown>
    ensures value { result ≡ within_range (number_result op a b) }
    ensures range { IfOk result (λ n. IsTrue (is_in_range n)) }
{
    match op {
        BinaryOp::Add => add(a, b),
        BinaryOp::Sub => sub(a, b),
        BinaryOp::Mul => mul(a, b),
        BinaryOp::Div => div(a, b),
        BinaryOp::Rem => rem(a, b),
        BinaryOp::Pow => pow(a, b),
        BinaryOp::BitAnd => Ok(and(a, b)),
        BinaryOp::BitOr => Ok(or(a, b)),
        BinaryOp::BitXor => Ok(xor(a, b)),
        BinaryOp::Shl => Ok(shl(a, b)),
        BinaryOp::Shr => Ok(shr(a, b)),
        BinaryOp::ShrUnsigned => Ok(shr_unsigned(a, b)),
    }
}
