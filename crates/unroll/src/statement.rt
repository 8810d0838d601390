//! Statements: what each does on one rank.

ghost use Rattle.std.specs.Prelude.{◌≡◌, IfOk, slice_get};
ghost use Rattle.unroll.specs.Expressions.{truth_of};
ghost use Rattle.unroll.specs.parts.Runs.{HasOutcome, seen_run};
ghost use Rattle.unroll.specs.Runs.{turn_begun};
ghost use Rattle.unroll.specs.Statements.{is_over, advanced, span_of, has_value, parameter, assignment, called, waiting_for_request, next_first, wait_each, meaning};

use crate::arguments::prepare;
use crate::expression::{evaluate, truth_in};
use crate::machine::{Machine, Scope, Stop, assign, begin, faulty, finish};
use crate::parts::{label, number};
use crate::performing::perform;
use crate::value::{FaultReason, Value};
use crate::waiting::wait_part;
use spmd_tree::{Arguments, Expression, LabelForm, Labels, SpmdStatement};

/// Where a loop stands: the value of its variable, and the last value.
#[derive(Clone, Copy)]
pub(crate) struct Span {
    pub(crate) value: i64,
    pub(crate) last: i64,
}

/// Whether the loop has no turn more: its variable is above the last value.
fn is_over(span: Span) -> bool
    ensures { result ≡ is_over span }
{
    span.last < span.value
}

/// Where the loop stands a step further; none beyond 64 bits.
fn advanced(span: Span, step: u32) -> Option<Span>
    ensures { result ≡ advanced span step }
{
    match span.value.checked_add(step as i64) {
        None => None,
        Some(value) => Some(Span {
            value,
            last: span.last,
        }),
    }
}

/// Whether the condition holds.
fn truth(
    condition: &Expression,
    rank: u32,
    size: u32,
    values: &[Option<Value>],
) -> Result<bool, FaultReason>
    ensures { result ≡ truth_of condition.now rank size values.now }
{
    truth_in(evaluate(condition, rank, size, values))
}

/// Where a loop begins.
fn span_of(
    first: &Expression,
    last: &Expression,
    rank: u32,
    size: u32,
    values: &[Option<Value>],
) -> Result<Span, FaultReason>
    ensures { result ≡ span_of first.now last.now rank size values.now }
{
    let value = number(first, rank, size, values)?;
    let last = number(last, rank, size, values)?;
    Ok(Span { value, last })
}

/// Begins a turn of a loop with the value where it stands.
fn begin_turn(
    machine: &mut Machine,
    scope: Scope,
    line: u32,
    name: u32,
    outer: u64,
    span: Span,
) -> Result<(), Stop>
    ensures { HasOutcome result (turn_begun scope line name outer span.value (seen_run machine.old)) (seen_run machine.new) }
{
    begin(machine, scope, line, name, outer, span.value)
}

/// Whether the name has a value.
fn has_value(values: &[Option<Value>], name: u32) -> bool
    ensures { result ≡ has_value (slice_get values.now name) }
{
    match values.get(name as usize) {
        None => false,
        Some(value) => match *value {
            None => false,
            Some(_) => true,
        },
    }
}

/// Gives a name the value of an expression.
fn assignment(
    machine: &mut Machine,
    scope: Scope,
    line: u32,
    name: u32,
    value: &Expression,
) -> Result<(), Stop>
    ensures { HasOutcome result (assignment scope line name value.now (seen_run machine.old)) (seen_run machine.new) }
{
    match evaluate(value, scope.rank, scope.size, &machine.values) {
        Err(reason) => Err(faulty(machine, scope, line, reason)),
        Ok(value) => {
            assign(machine, name, value);
            Ok(())
        }
    }
}

/// Gives a parameter its own value, where no setting gave it one.
fn parameter(
    machine: &mut Machine,
    scope: Scope,
    line: u32,
    name: u32,
    otherwise: &Option<Expression>,
) -> Result<(), Stop>
    ensures { HasOutcome result (parameter scope line name otherwise.now (seen_run machine.old)) (seen_run machine.new) }
{
    if has_value(&machine.values, name) {
        return Ok(());
    }
    match otherwise {
        None => Err(faulty(machine, scope, line, FaultReason::NoSetting { name })),
        Some(value) => assignment(machine, scope, line, name, value),
    }
}

/// Makes the call, or leaves it out, or tells the first of its arguments that is wrong.
fn call(machine: &mut Machine, scope: Scope, line: u32, arguments: &Arguments) -> Result<(), Stop>
    ensures { HasOutcome result (called scope line arguments.now (seen_run machine.old)) (seen_run machine.new) }
{
    match prepare(arguments, scope.rank, scope.size, &machine.values) {
        Err(reason) => Err(faulty(machine, scope, line, reason)),
        Ok(call) => perform(machine, scope, line, call),
    }
}

/// One request of a `waitall`; answers whether the next one is the first that is waited for.
fn wait_one(
    machine: &mut Machine,
    scope: Scope,
    line: u32,
    first: bool,
    form: &LabelForm,
) -> Result<bool, Stop>
    ensures run { HasOutcome result (waiting_for_request scope line first form.now (seen_run machine.old)) (seen_run machine.new) }
    ensures first { IfOk result (λ next. next ≡ next_first scope first form.now (seen_run machine.old)) }
{
    match label(form, scope.rank, scope.size, &machine.values) {
        Err(reason) => Err(faulty(machine, scope, line, reason)),
        Ok(request) => wait_part(machine, scope, line, first, request),
    }
}

/// Waits for these requests, one after another. `first` says that none was waited for yet.
fn wait_each(
    machine: &mut Machine,
    scope: Scope,
    line: u32,
    first: bool,
    requests: &Labels,
) -> Result<(), Stop>
    ensures { HasOutcome result (wait_each requests.now scope line first (seen_run machine.old)) (seen_run machine.new) }
{
    match requests {
        Labels::Last(request) => {
            wait_one(machine, scope, line, first, request)?;
            Ok(())
        }
        Labels::More(request, others) => {
            let first = wait_one(machine, scope, line, first, request)?;
            wait_each(machine, scope, line, first, others)
        }
    }
}

/// Does what the statement says. A loop evaluates its ends once, and counts its turns with those of
/// all other loops and ranks.
pub(crate) fn run(
    machine: &mut Machine,
    scope: Scope,
    statement: &SpmdStatement,
) -> Result<(), Stop>
    ensures { HasOutcome result (meaning statement.now scope (seen_run machine.old)) (seen_run machine.new) }
{
    match statement {
        SpmdStatement::Nothing => Ok(()),
        SpmdStatement::Sequence(a, b) => {
            run(machine, scope, a)?;
            run(machine, scope, b)
        }
        SpmdStatement::Parameter {
            line,
            name,
            otherwise,
        } => parameter(machine, scope, *line, *name, otherwise),
        SpmdStatement::Assign { line, name, value } => {
            assignment(machine, scope, *line, *name, value)
        }
        SpmdStatement::When {
            line,
            chained: _,
            condition,
            yes,
            no,
        } => match truth(condition, scope.rank, scope.size, &machine.values) {
            Err(reason) => Err(faulty(machine, scope, *line, reason)),
            Ok(holds) => {
                if holds {
                    run(machine, scope, yes)
                } else {
                    run(machine, scope, no)
                }
            }
        },
        SpmdStatement::Otherwise(a) => run(machine, scope, a),
        SpmdStatement::Repeat {
            line,
            name,
            first,
            last,
            step,
            body,
        } => {
            let mut span = match span_of(first, last, scope.rank, scope.size, &machine.values) {
                Err(reason) => return Err(faulty(machine, scope, *line, reason)),
                Ok(span) => span,
            };
            let outer = machine.turn;
            for _turn in 0..scope.most_turns {
                if is_over(span) {
                    finish(machine, *name, outer);
                    return Ok(());
                }
                match begin_turn(machine, scope, *line, *name, outer, span) {
                    Err(stop) => return Err(stop),
                    Ok(()) => {}
                }
                match run(machine, scope, body) {
                    Err(stop) => return Err(stop),
                    Ok(()) => {}
                }
                match advanced(span, *step) {
                    Some(next) => span = next,
                    None => {
                        finish(machine, *name, outer);
                        return Ok(());
                    }
                }
            }
            if is_over(span) {
                finish(machine, *name, outer);
                return Ok(());
            }
            Err(faulty(machine, scope, *line, FaultReason::TooManyTurns))
        }
        SpmdStatement::Call { line, arguments } => call(machine, scope, *line, arguments),
        SpmdStatement::WaitAll { line, requests } => wait_each(
            machine, scope, *line, true, requests,
        ),
        SpmdStatement::Unreached { line } => Err(faulty(
            machine,
            scope,
            *line,
            FaultReason::ErrorReached,
        )),
    }
}
