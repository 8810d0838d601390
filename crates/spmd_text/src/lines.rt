//! Lines that are statements of their own, and the heading of a text.

ghost use Rattle.std.specs.Prelude.{◌≡◌, ◌≤◌, IfSome, length, ℕ, pos, None, Some, true, false};
ghost use Rattle.spmd_text.specs.parts.Parts.{Keeps, HasRead, value_part};
ghost use Rattle.spmd_text.specs.parts.Programs.{AddsParameter, ReadsParameter, otherwise_part};
ghost use Rattle.spmd_text.specs.parts.Reading.{Goes};
ghost use Rattle.spmd_text.specs.parts.Statements.{begun_part, gap_part, held, heading_line_part, is_simple, policy_line_part, policy_of, policy_part, scope_of, span_part, step_part, variable_part};
ghost use Rattle.spmd_text.specs.Statements.{IsLoopStep, is_one_of, may_give};

use crate::calls::{call, wait_all};
use crate::expressions::expression_at;
use crate::fault::ParseReason;
use crate::keeping::{Made, keep, refuse};
use crate::parser::Parser;
use crate::piece::{Piece, Word};
use crate::reading::SpmdPolicy;
use spmd_tree::{Expression, SpmdStatement};

/// Whether the name is one of these.
fn contains(places: &[u32], name: u32) -> bool
    ensures { result ≡ is_one_of places.now name }
{
    places.iter().any(|place| *place == name)
}

/// Notes where the name is one of a parameter or of the variable of an open loop.
fn refuse_fixed(parser: &mut Parser<'_>, name: u32)
    ensures goes { Goes parser.old parser.new }
    ensures sound { parser.new.fault ≡ None → (parser.new ≡ parser.old) × (may_give (scope_of parser.old) name ≡ true) }
    ensures fits { may_give (scope_of parser.old) name ≡ true → parser.new ≡ parser.old }
{
    if contains(&parser.parameters, name) {
        parser.fail(ParseReason::AssignedParameter);
    }
    if contains(&parser.loops, name) {
        parser.fail(ParseReason::AssignedLoop);
    }
}

/// The variable of a `let` or a loop, and its `=`. It is neither a parameter nor the variable of an
/// open loop.
pub(crate) fn variable(parser: &mut Parser<'_>) -> u32
    ensures { HasRead (variable_part (scope_of parser.old)) parser.old parser.new result }
{
    let name = parser.name();
    refuse_fixed(parser, name);
    parser.expect(Piece::Equals, ParseReason::NoEquals);
    name
}

/// A `let` after its word, up to the end of its line.
fn assign(parser: &mut Parser<'_>, line: u32) -> Made
    ensures { (depth : ℕ) → HasRead (begun_part (scope_of parser.old) depth line Word.Let) parser.old parser.new (held result) }
{
    let name = variable(parser);
    let value = expression_at(parser);
    parser.end_line();
    keep(parser, SpmdStatement::Assign { line, name, value })
}

/// An `error` after its word, up to the end of its line.
fn unreached(parser: &mut Parser<'_>, line: u32) -> Made
    ensures { (depth : ℕ) → HasRead (begun_part (scope_of parser.old) depth line Word.Error) parser.old parser.new (held result) }
{
    parser.end_line();
    keep(parser, SpmdStatement::Unreached { line })
}

/// A statement of one line, after its first word.
pub(crate) fn simple(parser: &mut Parser<'_>, word: Word, line: u32) -> Made
    ensures { (depth : ℕ) → is_simple word ≡ true →
        HasRead (begun_part (scope_of parser.old) depth line word) parser.old parser.new (held result) }
{
    match word {
        Word::Let => assign(parser, line),
        Word::Error => unreached(parser, line),
        Word::Waitall => wait_all(parser, line),
        Word::Param => refuse(parser, ParseReason::LateParameter),
        Word::Policy => refuse(parser, ParseReason::LatePolicy),
        _ => call(parser, word, line),
    }
}

/// The value of a parameter, where it has one. It is the same on all ranks, so `rank` isn't in it.
fn otherwise(parser: &mut Parser<'_>) -> Option<Expression>
    ensures reads { parser.old.in_parameter ≡ false → HasRead otherwise_part parser.old parser.new result }
    ensures shorter { length parser.new.rest.now ≤ length parser.old.rest.now }
{
    if !parser.take(Piece::Equals) {
        return None;
    }
    parser.in_parameter = true;
    let value = expression_at(parser);
    parser.in_parameter = false;
    Some(value)
}

/// Notes where the name is one of a parameter.
fn refuse_repeated(parser: &mut Parser<'_>, name: u32)
    ensures goes { Goes parser.old parser.new }
    ensures sound { parser.new.fault ≡ None → (parser.new ≡ parser.old) × (is_one_of parser.old.parameters.items name ≡ false) }
    ensures fits { is_one_of parser.old.parameters.items name ≡ false → parser.new ≡ parser.old }
{
    if contains(&parser.parameters, name) {
        parser.fail(ParseReason::RepeatedParameter);
    }
}

/// Adds the name to those of parameters, where memory lasts.
fn keep_parameter(parser: &mut Parser<'_>, name: u32)
    ensures { AddsParameter parser.old parser.new name }
{
    match parser.parameters.push(name) {
        Ok(()) => {}
        Err(_) => parser.fail(ParseReason::Memory),
    }
}

/// A `param` after its word, up to the end of its line.
pub(crate) fn parameter(parser: &mut Parser<'_>, line: u32) -> Made
    ensures reads { parser.old.in_parameter ≡ false → ReadsParameter parser.old parser.new line (held result) }
    ensures shorter { length parser.new.rest.now ≤ length parser.old.rest.now }
{
    let name = parser.name();
    refuse_repeated(parser, name);
    keep_parameter(parser, name);
    let otherwise = otherwise(parser);
    parser.end_line();
    keep(
        parser,
        SpmdStatement::Parameter {
            line,
            name,
            otherwise,
        },
    )
}

/// A step, where the piece is the number of one.
fn step_of(piece: Piece) -> Option<u32>
    ensures found { IfSome result (λ step. IsLoopStep step × (piece ≡ Piece.Number (pos step))) }
    ensures each { (step : ℕ) → IsLoopStep step → piece ≡ Piece.Number (pos step) → result ≡ Some step }
{
    match piece {
        Piece::Number(number) => match u32::try_from(number) {
            Err(_) => None,
            Ok(number) => if number == 0 { None } else { Some(number) },
        },
        _ => None,
    }
}

/// The number that is a step.
fn step_number(parser: &mut Parser<'_>) -> u32
    ensures { HasRead step_part parser.old parser.new result }
{
    match step_of(parser.piece()) {
        None => {
            parser.fail(ParseReason::Step);
            1
        }
        Some(step) => {
            parser.step();
            step
        }
    }
}

/// The step of a loop, 1 where none is written.
fn step(parser: &mut Parser<'_>) -> u32
    ensures { HasRead gap_part parser.old parser.new result }
{
    if !parser.take(Piece::Word(Word::Step)) {
        return 1;
    }
    step_number(parser)
}

/// The values of a loop: the first one, the last one and the step.
#[derive(Drop)]
pub(crate) struct Span {
    pub(crate) first: Expression,
    pub(crate) last: Expression,
    pub(crate) step: u32,
}

/// The values of a loop, behind its variable.
pub(crate) fn span_at(parser: &mut Parser<'_>) -> Span
    ensures { HasRead (span_part parser.old.in_parameter) parser.old parser.new result }
{
    let first = expression_at(parser);
    parser.expect(Piece::Word(Word::To), ParseReason::NoTo);
    let last = expression_at(parser);
    let step = step(parser);
    Span { first, last, step }
}

/// The policy that the piece is.
fn policy_of(piece: Piece) -> Option<SpmdPolicy>
    ensures { result ≡ policy_of piece }
{
    match piece {
        Piece::Word(Word::Any) => Some(SpmdPolicy::Any),
        Piece::Word(Word::Never) => Some(SpmdPolicy::Never),
        Piece::Word(Word::Always) => Some(SpmdPolicy::Always),
        _ => None,
    }
}

/// A policy.
fn policy(parser: &mut Parser<'_>) -> SpmdPolicy
    ensures { HasRead policy_part parser.old parser.new result }
{
    match policy_of(parser.piece()) {
        None => {
            parser.fail(ParseReason::NoPolicy);
            SpmdPolicy::Any
        }
        Some(policy) => {
            parser.step();
            policy
        }
    }
}

/// The line of the policy, where there is one.
pub(crate) fn policy_line(parser: &mut Parser<'_>) -> SpmdPolicy
    ensures { HasRead policy_line_part parser.old parser.new result }
{
    if !parser.take(Piece::Word(Word::Policy)) {
        return SpmdPolicy::Any;
    }
    let policy = policy(parser);
    parser.end_line();
    policy
}

/// The line of the heading.
pub(crate) fn heading_line(parser: &mut Parser<'_>)
    ensures { HasRead heading_line_part parser.old parser.new result }
{
    parser.expect(Piece::Word(Word::Spmd), ParseReason::NoHeading);
    parser.end_line();
}
