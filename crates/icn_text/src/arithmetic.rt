// Arithmetic on integers of 64 bits.
ghost use Rattle.std.specs.Prelude.{◌≡◌, ◌^◌, ◌<◌, ℤ, pos, neg_ℤ, FitsSigned};
ghost use Rattle.std.specs.Int.{int_pow};
ghost use Rattle.icn_text.specs.IntegerArithmetic.{within_64_bits, sum, difference, product, quotient, remainder, power};
ghost use Rattle.icn_text.specs.Reading.{in_64_bits};

use crate::integer::integer_with_sign;

/// Why an operation on integers has no result.
#[derive(Clone, Copy, Debug, PartialEq, Eq)]
pub enum Arith {
    /// The result does not fit into 64 bits.
    Overflow,
    /// A quotient by 0, or a power of 0 whose exponent is below 0.
    DivideByZero,
    /// A remainder by 0.
    RemainderByZero,
}

/// The sum of two integers. The error is `Overflow`, where the sum is no integer of 64 bits.
pub fn add(a: i64, b: i64) -> Result<i64, Arith>
    ensures { result ≡ sum a b }
{
    a.checked_add(b).ok_or(Arith::Overflow)
}

/// The difference of two integers. The error is `Overflow`, where the difference is no integer of 64 bits.
pub fn sub(a: i64, b: i64) -> Result<i64, Arith>
    ensures { result ≡ difference a b }
{
    a.checked_sub(b).ok_or(Arith::Overflow)
}

/// The product of two integers. The error is `Overflow`, where the product is no integer of 64 bits.
pub fn mul(a: i64, b: i64) -> Result<i64, Arith>
    ensures { result ≡ product a b }
{
    a.checked_mul(b).ok_or(Arith::Overflow)
}

/// The quotient, truncated toward zero. The error is `DivideByZero` at the divisor 0, and `Overflow` at the least integer by
/// -1.
pub fn div(a: i64, b: i64) -> Result<i64, Arith>
    ensures { result ≡ quotient a b }
{
    if b == 0 {
        Err(Arith::DivideByZero)
    } else {
        a.checked_div(b).ok_or(Arith::Overflow)
    }
}

/// The remainder, with the sign of the dividend. The error is `RemainderByZero`, at the divisor 0.
pub fn rem(a: i64, b: i64) -> Result<i64, Arith>
    ensures { result ≡ remainder a b }
{
    if b == 0 {
        Err(Arith::RemainderByZero)
    } else {
        Ok(a.wrapping_rem(b))
    }
}

/// The power of an integer. Below the exponent 0 the powers of 1 and -1 are integers, and others but 0 give 0. The error is
/// `Overflow`, where the power is no integer of 64 bits, and `DivideByZero` for 0 below the exponent 0.
pub fn power(base: i64, exponent: i64) -> Result<i64, Arith>
    ensures { result ≡ power base exponent }
{
    match (u64::try_from(exponent), base) {
        (Ok(exponent), _) => natural_power(base, exponent),
        (Err(_), 0) => Err(Arith::DivideByZero),
        (Err(_), 1) => Ok(1),
        (Err(_), -1) => Ok(if exponent % 2 == 0 { 1 } else { -1 }),
        (Err(_), _) => Ok(0),
    }
}

fn natural_power(base: i64, exponent: u64) -> Result<i64, Arith>
    ensures { result ≡ within_64_bits (int_pow base exponent) }
{
    let magnitude = magnitude_power(base.unsigned_abs(), exponent).ok_or(Arith::Overflow)?;
    let is_negative = base < 0 && exponent % 2 == 1;
    integer_with_sign(is_negative, magnitude).map_err(|_| Arith::Overflow)
}

// By repeated squaring. The power of half the exponent is no greater than the power, and neither is its square,
// so that what overflows is never more than what is asked for.
fn magnitude_power(base: u64, exponent: u64) -> Option<u64>
    ensures { result ≡ in_64_bits (base ^ exponent) }
{
    if exponent == 0 {
        return Some(1);
    }
    let half = magnitude_power(base, exponent / 2)?;
    let square = half.checked_mul(half)?;
    if exponent % 2 == 0 {
        Some(square)
    } else {
        square.checked_mul(base)
    }
}
