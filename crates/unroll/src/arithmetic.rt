//! Operators on numbers of 64 bits. Where the result is beyond them, that is told.

ghost use Rattle.std.specs.Prelude.{◌≡◌, ◌≤◌, ◌<◌, IfSome, ◌^◌, pos, ◌+ℤ◌, ◌-ℤ◌, ◌*ℤ◌, int_lt, int_le};
ghost use Rattle.unroll.specs.Values.{checked, number_or_overflow, operate, compares, power, as_number, as_truth, alike, ordered, below};

use crate::value::{FaultReason, Value};
use spmd_tree::{Comparison, Operator};

/// The number, where it is one of 64 bits.
fn told(number: Option<i64>) -> Result<Value, FaultReason>
    ensures { result ≡ number_or_overflow number }
{
    match number {
        Some(number) => Ok(Value::Number(number)),
        None => Err(FaultReason::Overflow),
    }
}

fn sum(a: i64, b: i64) -> Result<Value, FaultReason>
    ensures { result ≡ checked (a +ℤ b) }
{
    told(a.checked_add(b))
}

fn difference(a: i64, b: i64) -> Result<Value, FaultReason>
    ensures { result ≡ checked (a -ℤ b) }
{
    told(a.checked_sub(b))
}

fn product(a: i64, b: i64) -> Result<Value, FaultReason>
    ensures { result ≡ checked (a *ℤ b) }
{
    told(a.checked_mul(b))
}

/// Two to the power of 0 to 62.
fn two_to(exponent: u32) -> i64
    requires { exponent ≤ 62 }
    ensures { result ≡ pos (2 ^ exponent) }
{
    2u64.pow(exponent) as i64
}

/// Two to this power, where it is 0 to 62.
fn power(by: i64) -> Option<i64>
    ensures { result ≡ power by }
{
    match below(by, 63) {
        None => None,
        Some(exponent) => Some(two_to(exponent)),
    }
}

/// The number, where it is from 0 on and below the limit.
pub(crate) fn below(number: i64, limit: u32) -> Option<u32>
    ensures found { result ≡ below number limit }
    ensures small { IfSome result (λ n. n < limit) }
{
    if number < 0 {
        return None;
    }
    if number >= limit as i64 {
        return None;
    }
    Some(number as u32)
}

/// What the operator gives.
pub(crate) fn operate(operator: Operator, a: i64, b: i64) -> Result<Value, FaultReason>
    ensures { result ≡ operate operator a b }
{
    match operator {
        Operator::Plus => sum(a, b),
        Operator::Minus => difference(a, b),
        Operator::Times => product(a, b),
        Operator::Quotient => {
            if b <= 0 {
                return Err(FaultReason::Divisor { divisor: b });
            }
            Ok(Value::Number(a.div_euclid(b)))
        }
        Operator::Remainder => {
            if b <= 0 {
                return Err(FaultReason::Divisor { divisor: b });
            }
            Ok(Value::Number(a.rem_euclid(b)))
        }
        Operator::Left => match power(b) {
            None => Err(FaultReason::Shift { by: b }),
            Some(factor) => product(a, factor),
        },
        Operator::Right => match power(b) {
            None => Err(FaultReason::Shift { by: b }),
            Some(divisor) => {
                if divisor <= 0 {
                    return Err(FaultReason::Shift { by: b });
                }
                Ok(Value::Number(a.div_euclid(divisor)))
            }
        },
        Operator::Exclusive => {
            if a < 0 {
                return Err(FaultReason::BelowZero { number: a });
            }
            if b < 0 {
                return Err(FaultReason::BelowZero { number: b });
            }
            let bits = a as u64 ^ b as u64;
            if bits > i64::MAX as u64 {
                return Err(FaultReason::Overflow);
            }
            Ok(Value::Number(bits as i64))
        }
    }
}

/// The number, where the value is one.
pub(crate) fn as_number(value: Value) -> Result<i64, FaultReason>
    ensures { result ≡ as_number value }
{
    match value {
        Value::Number(number) => Ok(number),
        Value::Null => Err(FaultReason::NullNumber),
        Value::Truth(_) => Err(FaultReason::Kind),
    }
}

/// Whether the condition holds, where the value is a condition's.
pub(crate) fn as_truth(value: Value) -> Result<bool, FaultReason>
    ensures { result ≡ as_truth value }
{
    match value {
        Value::Truth(truth) => Ok(truth),
        Value::Number(_) => Err(FaultReason::Kind),
        Value::Null => Err(FaultReason::Kind),
    }
}

/// Whether two values are the same, `null` among them.
fn alike(a: Value, b: Value) -> Result<bool, FaultReason>
    ensures { result ≡ alike a b }
{
    match a {
        Value::Number(x) => match b {
            Value::Number(y) => Ok(x == y),
            Value::Null => Ok(false),
            Value::Truth(_) => Err(FaultReason::Kind),
        },
        Value::Null => match b {
            Value::Number(_) => Ok(false),
            Value::Null => Ok(true),
            Value::Truth(_) => Err(FaultReason::Kind),
        },
        Value::Truth(_) => Err(FaultReason::Kind),
    }
}

/// Whether the comparison holds.
pub(crate) fn compares(comparison: Comparison, a: Value, b: Value) -> Result<bool, FaultReason>
    ensures { result ≡ compares comparison a b }
{
    match comparison {
        Comparison::Same => alike(a, b),
        Comparison::Other => match alike(a, b) {
            Ok(same) => Ok(!same),
            Err(reason) => Err(reason),
        },
        Comparison::Below => less(a, b),
        Comparison::UpTo => up_to(a, b),
        Comparison::Above => above(a, b),
        Comparison::From => from(a, b),
    }
}

fn less(a: Value, b: Value) -> Result<bool, FaultReason>
    ensures { result ≡ ordered (λ x y. int_lt x y) a b }
{
    match as_number(a) {
        Err(reason) => Err(reason),
        Ok(x) => match as_number(b) {
            Err(reason) => Err(reason),
            Ok(y) => Ok(x < y),
        },
    }
}

fn up_to(a: Value, b: Value) -> Result<bool, FaultReason>
    ensures { result ≡ ordered (λ x y. int_le x y) a b }
{
    match as_number(a) {
        Err(reason) => Err(reason),
        Ok(x) => match as_number(b) {
            Err(reason) => Err(reason),
            Ok(y) => Ok(x <= y),
        },
    }
}

fn above(a: Value, b: Value) -> Result<bool, FaultReason>
    ensures { result ≡ ordered (λ x y. int_lt y x) a b }
{
    match as_number(a) {
        Err(reason) => Err(reason),
        Ok(x) => match as_number(b) {
            Err(reason) => Err(reason),
            Ok(y) => Ok(y < x),
        },
    }
}

fn from(a: Value, b: Value) -> Result<bool, FaultReason>
    ensures { result ≡ ordered (λ x y. int_le y x) a b }
{
    match as_number(a) {
        Err(reason) => Err(reason),
        Ok(x) => match as_number(b) {
            Err(reason) => Err(reason),
            Ok(y) => Ok(y <= x),
        },
    }
}
