//! The parts of a call's arguments: numbers, tags, peers, labels and groups.

ghost use Rattle.std.specs.Prelude.{◌≡◌};
ghost use Rattle.unroll.specs.Arguments.{scoped_number, found, some, tag_of, optional_tag, scoped_communicator, peered, peer_of, scoped_source, index_of, label_of, optional_label, scoped_rank, root_of, stepped, scoped_step, group_of};

use crate::arithmetic::below;
use crate::call::{Group, Label};
use crate::expression::{evaluate, number_in};
use crate::value::{FaultReason, Value};
use spmd_tree::{CollectiveKind, Expression, GroupForm, LabelForm};

/// The number that the expression gives.
pub(crate) fn number(
    expression: &Expression,
    rank: u32,
    size: u32,
    values: &[Option<Value>],
) -> Result<i64, FaultReason>
    ensures { result ≡ scoped_number expression.now rank size values.now }
{
    number_in(evaluate(expression, rank, size, values))
}

/// The number that was found, or else what is wrong.
fn found(number: Option<u32>, reason: FaultReason) -> Result<u32, FaultReason>
    ensures { result ≡ found number reason }
{
    match number {
        Some(number) => Ok(number),
        None => Err(reason),
    }
}

/// The number that was found, as one that may be missing.
fn some(found: Result<u32, FaultReason>) -> Result<Option<u32>, FaultReason>
    ensures { result ≡ some found }
{
    match found {
        Err(reason) => Err(reason),
        Ok(number) => Ok(Some(number)),
    }
}

/// A tag, 0 to 32,767.
pub(crate) fn tag(
    expression: &Expression,
    rank: u32,
    size: u32,
    values: &[Option<Value>],
) -> Result<u32, FaultReason>
    ensures { result ≡ tag_of expression.now rank size values.now }
{
    match number(expression, rank, size, values) {
        Err(reason) => Err(reason),
        Ok(tag) => found(below(tag, 32_768), FaultReason::TagRange { tag }),
    }
}

/// A tag, or none for a wildcard.
pub(crate) fn optional_tag(
    expression: &Option<Expression>,
    rank: u32,
    size: u32,
    values: &[Option<Value>],
) -> Result<Option<u32>, FaultReason>
    ensures { result ≡ optional_tag expression.now rank size values.now }
{
    match expression {
        None => Ok(None),
        Some(expression) => some(tag(expression, rank, size, values)),
    }
}

/// A communicator, 0 to 127; 0 where none is written.
pub(crate) fn communicator(
    expression: &Option<Expression>,
    rank: u32,
    size: u32,
    values: &[Option<Value>],
) -> Result<u32, FaultReason>
    ensures { result ≡ scoped_communicator expression.now rank size values.now }
{
    match expression {
        None => Ok(0),
        Some(expression) => match number(expression, rank, size, values) {
            Err(reason) => Err(reason),
            Ok(communicator) => found(
                below(communicator, 128),
                FaultReason::CommunicatorRange { communicator },
            ),
        },
    }
}

/// The rank that a value is, or none for `null`.
fn peered(value: Value, size: u32) -> Result<Option<u32>, FaultReason>
    ensures { result ≡ peered value size }
{
    match value {
        Value::Null => Ok(None),
        Value::Number(peer) => some(found(below(peer, size), FaultReason::PeerRange { peer })),
        Value::Truth(_) => Err(FaultReason::Kind),
    }
}

/// A destination: a rank, or none for `null`.
pub(crate) fn peer(
    expression: &Expression,
    rank: u32,
    size: u32,
    values: &[Option<Value>],
) -> Result<Option<u32>, FaultReason>
    ensures { result ≡ peer_of expression.now rank size values.now }
{
    match evaluate(expression, rank, size, values) {
        Err(reason) => Err(reason),
        Ok(value) => peered(value, size),
    }
}

/// A source: none for `null`, and else a rank or a wildcard.
pub(crate) fn source(
    expression: &Option<Expression>,
    rank: u32,
    size: u32,
    values: &[Option<Value>],
) -> Result<Option<Option<u32>>, FaultReason>
    ensures { result ≡ scoped_source expression.now rank size values.now }
{
    match expression {
        None => Ok(Some(None)),
        Some(expression) => match peer(expression, rank, size, values) {
            Err(reason) => Err(reason),
            Ok(None) => Ok(None),
            Ok(Some(peer)) => Ok(Some(Some(peer))),
        },
    }
}

/// The index of a label, 0 to 99,999, where one is written.
fn index(
    expression: &Option<Expression>,
    rank: u32,
    size: u32,
    values: &[Option<Value>],
) -> Result<Option<u32>, FaultReason>
    ensures { result ≡ index_of expression.now rank size values.now }
{
    match expression {
        None => Ok(None),
        Some(expression) => match number(expression, rank, size, values) {
            Err(reason) => Err(reason),
            Ok(index) => some(found(below(index, 100_000), FaultReason::IndexRange { index })),
        },
    }
}

/// The request or handle.
pub(crate) fn label(
    form: &LabelForm,
    rank: u32,
    size: u32,
    values: &[Option<Value>],
) -> Result<Label, FaultReason>
    ensures { result ≡ label_of form.now rank size values.now }
{
    match index(&form.index, rank, size, values) {
        Err(reason) => Err(reason),
        Ok(index) => Ok(Label {
            name: form.name,
            index,
        }),
    }
}

/// The request of a call that is started.
pub(crate) fn optional_label(
    form: &Option<LabelForm>,
    rank: u32,
    size: u32,
    values: &[Option<Value>],
) -> Result<Option<Label>, FaultReason>
    ensures { result ≡ optional_label form.now rank size values.now }
{
    match form {
        None => Ok(None),
        Some(form) => match label(form, rank, size, values) {
            Err(reason) => Err(reason),
            Ok(label) => Ok(Some(label)),
        },
    }
}

/// A rank, and never `null`.
fn member(
    expression: &Expression,
    rank: u32,
    size: u32,
    values: &[Option<Value>],
) -> Result<u32, FaultReason>
    ensures { result ≡ scoped_rank expression.now rank size values.now }
{
    match number(expression, rank, size, values) {
        Err(reason) => Err(reason),
        Ok(peer) => found(below(peer, size), FaultReason::PeerRange { peer }),
    }
}

/// The root, where the call has one.
pub(crate) fn root(
    expression: &Option<Expression>,
    rank: u32,
    size: u32,
    values: &[Option<Value>],
) -> Result<Option<u32>, FaultReason>
    ensures { result ≡ root_of expression.now rank size values.now }
{
    match expression {
        None => Ok(None),
        Some(expression) => some(member(expression, rank, size, values)),
    }
}

/// A step that is above 0.
fn stepped(number: Option<u32>, step: i64) -> Result<u32, FaultReason>
    ensures { result ≡ stepped number step }
{
    match number {
        None => Err(FaultReason::GroupStep { step }),
        Some(number) => {
            if number == 0 {
                return Err(FaultReason::GroupStep { step });
            }
            Ok(number)
        }
    }
}

/// The step of a group, 1 to 65,535; 1 where none is written.
fn step(
    expression: &Option<Expression>,
    rank: u32,
    size: u32,
    values: &[Option<Value>],
) -> Result<u32, FaultReason>
    ensures { result ≡ scoped_step expression.now rank size values.now }
{
    match expression {
        None => Ok(1),
        Some(expression) => match number(expression, rank, size, values) {
            Err(reason) => Err(reason),
            Ok(step) => stepped(below(step, 65_536), step),
        },
    }
}

/// The group: all ranks, where none is written.
pub(crate) fn group(
    form: &Option<GroupForm>,
    rank: u32,
    size: u32,
    values: &[Option<Value>],
) -> Result<Group, FaultReason>
    ensures { result ≡ group_of form.now rank size values.now }
{
    match form {
        None => Ok(Group {
            first: 0,
            last: size.saturating_sub(1),
            step: 1,
        }),
        Some(form) => {
            let first = member(&form.first, rank, size, values)?;
            let last = member(&form.last, rank, size, values)?;
            let step = step(&form.step, rank, size, values)?;
            Ok(Group { first, last, step })
        }
    }
}
