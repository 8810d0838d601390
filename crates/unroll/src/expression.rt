//! The value of an expression, or what is wrong with it first.

ghost use Rattle.std.specs.Prelude.{◌≡◌, slice_get};
ghost use Rattle.unroll.specs.Expressions.{as_condition, compared, known, number_in, operated, opposed, truth, truth_in, expression_value};

use crate::arithmetic::{as_number, as_truth, compares, operate};
use crate::value::{FaultReason, Value};
use spmd_tree::{Comparison, Expression, Operator};

/// The value of a name, where it has one.
fn known(values: &[Option<Value>], name: u32) -> Result<Value, FaultReason>
    ensures { result ≡ known name (slice_get values.now name) }
{
    match values.get(name as usize) {
        None => Err(FaultReason::NoValue { name }),
        Some(value) => match *value {
            None => Err(FaultReason::NoValue { name }),
            Some(value) => Ok(value),
        },
    }
}

/// The number that was found.
pub(crate) fn number_in(found: Result<Value, FaultReason>) -> Result<i64, FaultReason>
    ensures { result ≡ number_in found }
{
    match found {
        Err(reason) => Err(reason),
        Ok(value) => as_number(value),
    }
}

/// Whether the condition that was found holds.
pub(crate) fn truth_in(found: Result<Value, FaultReason>) -> Result<bool, FaultReason>
    ensures { result ≡ truth_in found }
{
    match found {
        Err(reason) => Err(reason),
        Ok(value) => as_truth(value),
    }
}

/// The truth as a value.
fn truth(holds: Result<bool, FaultReason>) -> Result<Value, FaultReason>
    ensures { result ≡ truth holds }
{
    match holds {
        Err(reason) => Err(reason),
        Ok(holds) => Ok(Value::Truth(holds)),
    }
}

/// The condition that was found.
fn as_condition(found: Result<Value, FaultReason>) -> Result<Value, FaultReason>
    ensures { result ≡ as_condition found }
{
    truth(truth_in(found))
}

/// Whether the condition doesn't hold.
fn opposed(holds: Result<bool, FaultReason>) -> Result<Value, FaultReason>
    ensures { result ≡ opposed holds }
{
    match holds {
        Err(reason) => Err(reason),
        Ok(holds) => Ok(Value::Truth(!holds)),
    }
}

/// What the operator gives on two numbers, where both were found.
fn operated(
    operator: Operator,
    a: Result<i64, FaultReason>,
    b: Result<i64, FaultReason>,
) -> Result<Value, FaultReason>
    ensures { result ≡ operated operator a b }
{
    match a {
        Err(reason) => Err(reason),
        Ok(x) => match b {
            Err(reason) => Err(reason),
            Ok(y) => operate(operator, x, y),
        },
    }
}

/// What the comparison gives on two values, where both were found.
fn compared(
    comparison: Comparison,
    a: Result<Value, FaultReason>,
    b: Result<Value, FaultReason>,
) -> Result<Value, FaultReason>
    ensures { result ≡ compared comparison a b }
{
    match a {
        Err(reason) => Err(reason),
        Ok(x) => match b {
            Err(reason) => Err(reason),
            Ok(y) => truth(compares(comparison, x, y)),
        },
    }
}

/// The value of the expression on this rank, from 0, of so many, where names have these values:
/// that of a name stands at its place. What is wrong first is told, from left to right, and no more
/// is evaluated than is needed after a condition. A name whose place is beyond the list has no
/// value.
pub fn evaluate(
    expression: &Expression,
    rank: u32,
    size: u32,
    values: &[Option<Value>],
) -> Result<Value, FaultReason>
    ensures { result ≡ expression_value expression.now rank size values.now }
{
    match expression {
        Expression::Literal(number) => Ok(Value::Number(*number)),
        Expression::Null => Ok(Value::Null),
        Expression::Rank => Ok(Value::Number(rank as i64)),
        Expression::Size => Ok(Value::Number(size as i64)),
        Expression::Named(name) => known(values, *name),
        Expression::Binary(operator, a, b) => {
            let x = number_in(evaluate(a, rank, size, values));
            let y = number_in(evaluate(b, rank, size, values));
            operated(*operator, x, y)
        }
        Expression::Compare(comparison, a, b) => {
            let x = evaluate(a, rank, size, values);
            let y = evaluate(b, rank, size, values);
            compared(*comparison, x, y)
        }
        Expression::Negative(a) => {
            let x = number_in(evaluate(a, rank, size, values));
            operated(Operator::Minus, Ok(0), x)
        }
        Expression::Grouped(a) => evaluate(a, rank, size, values),
        Expression::Negation(a) => opposed(truth_in(evaluate(a, rank, size, values))),
        Expression::Both(a, b) => match truth_in(evaluate(a, rank, size, values)) {
            Err(reason) => Err(reason),
            Ok(false) => Ok(Value::Truth(false)),
            Ok(true) => as_condition(evaluate(b, rank, size, values)),
        },
        Expression::Either(a, b) => match truth_in(evaluate(a, rank, size, values)) {
            Err(reason) => Err(reason),
            Ok(true) => Ok(Value::Truth(true)),
            Ok(false) => as_condition(evaluate(b, rank, size, values)),
        },
        Expression::Choice(condition, yes, no) => {
            match truth_in(evaluate(condition, rank, size, values)) {
                Err(reason) => Err(reason),
                Ok(true) => evaluate(yes, rank, size, values),
                Ok(false) => evaluate(no, rank, size, values),
            }
        }
    }
}
