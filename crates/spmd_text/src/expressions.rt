//! Expressions and conditions, read from left to right.
//!
//! What is wrong is noted, and then no piece is read any more: so the parts end one after another.

ghost use Rattle.spmd_text.specs.parts.Parts.{HasRead, condition_part, value_part};
ghost use Rattle.std.specs.Prelude.{◌≡◌, ◌≤◌, ℕ, true, false, List, Some, None, Ok, IfOk};
ghost use Rattle.spmd_tree.specs.declared.tree.Expression.{Expression};
ghost use Rattle.spmd_tree.specs.declared.tree.Expression.TheVariants as form;
ghost use Rattle.spmd_text.specs.declared.expressions.Beginning.TheVariants as beginning;
ghost use Rattle.spmd_text.specs.declared.piece.Token.{Token};
ghost use Rattle.spmd_text.specs.parts.Found.{PutAround, PutChoice, PutTogether, SoFar, WasBegun, WasRead};
ghost use Rattle.spmd_text.specs.parts.Growing.{beginning_of, begun, first_close, inside, enclosed, ends_prefix, is_operand, Growing, MayBegin};
ghost use Rattle.spmd_text.specs.parts.Joints.{joined_parts, may_join, stops, Place};
ghost use Rattle.spmd_text.specs.Limits.{IsTreeWithin};
ghost use Rattle.spmd_text.specs.parts.Reading.{next, first_noted, Ahead, Alike, Finds, Goes, MayStandAmongJoints, StandsBefore};
ghost use Rattle.spmd_text.specs.Spelling.{after_condition, after_value, is_condition};

use crate::fault::ParseReason;
use crate::joints::{
    Joint, Prefix, Row, binding_of, choice, enclosed, joins_conditions, joint_ahead, joint_of,
    leaf_of, longer, pair,
};
use crate::parser::Parser;
use crate::piece::{Piece, Word};
use spmd_tree::Expression;
use std::alloc::AllocError;

/// How close the joints of an expression bind at least, from 0: of any, and of a condition.
const ANY: u32 = 0;

/// Behind `not`: of comparisons and what binds closer.
const NOT: u32 = 2;

/// Of a number: sums, and `if` .. `then` .. `else`.
const NUMBER: u32 = 4;

/// Of numbers, names, `null`, and what stands in parentheses or behind a minus.
const FACTOR: u32 = 6;

/// How an expression begins: by a part of one piece, by what stands before a part or around it, or
/// by `if`.
#[derive(Clone, Copy)]
pub(crate) enum Beginning {
    Leaf,
    Prefix(Prefix),
    Choice,
}

/// How an expression begins whose joints bind at least so close.
fn beginning_of(piece: Piece, least: u32) -> Beginning
    ensures { result ≡ beginning_of piece least }
{
    match piece {
        Piece::Minus => Beginning::Prefix(Prefix::Minus),
        Piece::Open => Beginning::Prefix(Prefix::Parentheses),
        Piece::Word(Word::Not) => if least <= NOT {
            Beginning::Prefix(Prefix::Not)
        } else {
            Beginning::Leaf
        },
        Piece::Word(Word::If) => if least <= NUMBER {
            Beginning::Choice
        } else {
            Beginning::Leaf
        },
        _ => Beginning::Leaf,
    }
}

/// How close the joints at least bind of what stands behind the prefix, where joints of what it is
/// part of bind at least so close: where a number has to stand, one stands in parentheses too.
fn inside(prefix: Prefix, least: u32) -> u32
    ensures { result ≡ inside prefix least }
{
    match prefix {
        Prefix::Not => NOT,
        Prefix::Minus => FACTOR,
        Prefix::Parentheses => if least >= NUMBER { NUMBER } else { ANY },
    }
}

/// How close what began so stands together.
fn row_of(beginning: Beginning) -> Row
    ensures { result ≡ record { binding = first_close beginning; joints = 0; lone = false } }
{
    let binding = match beginning {
        Beginning::Choice => NUMBER,
        Beginning::Prefix(Prefix::Not) => NOT,
        _ => FACTOR,
    };
    Row {
        binding,
        joints: 0,
        lone: false,
    }
}

/// Something is wrong: what is given in place of an expression is never used.
fn fail(parser: &mut Parser<'_>, reason: ParseReason) -> Expression
    ensures { parser.new ≡ record parser.old { fault = first_noted parser.old.fault reason } }
{
    parser.fail(reason);
    Expression::Null
}

/// What was put together, where memory lasted.
fn keep_made(parser: &mut Parser<'_>, made: Result<Expression, AllocError>) -> Expression
    ensures goes { Goes parser.old parser.new }
    ensures kept { (e : Expression) (rest : List Token) → StandsBefore parser.old rest →
        IfOk made (λ x. Alike x e) → Finds parser.new rest (Alike result e) }
    ensures sound { parser.new.fault ≡ None → (made ≡ Ok result) × (parser.new ≡ parser.old) }
{
    match made {
        Ok(expression) => expression,
        Err(AllocError) => fail(parser, ParseReason::Memory),
    }
}

/// Whether the tree is a condition.
fn is_condition(expression: &Expression) -> bool
    ensures { result ≡ is_condition expression.now }
{
    match expression {
        Expression::Compare(_, _, _) => true,
        Expression::Negation(_) => true,
        Expression::Both(_, _) => true,
        Expression::Either(_, _) => true,
        Expression::Grouped(inner) => is_condition(inner),
        _ => false,
    }
}

/// Notes where a condition is no condition, or a number is one.
fn want(parser: &mut Parser<'_>, part: &Expression, condition: bool)
    ensures goes { Goes parser.old parser.new }
    ensures right { is_condition part.now ≡ condition → parser.new ≡ parser.old }
    ensures sound { parser.new.fault ≡ None → (parser.new ≡ parser.old) × (is_condition part.now ≡ condition) }
{
    if is_condition(part) == condition {
        return;
    }
    if condition {
        parser.fail(ParseReason::NoCondition);
    } else {
        parser.fail(ParseReason::NoNumber);
    }
}

/// Two parts with a joint between them, of which the left one goes with it.
fn put_joint(
    parser: &mut Parser<'_>,
    joint: Joint,
    left: Expression,
    right: Expression,
) -> Expression
    ensures goes { Goes parser.old parser.new }
    ensures joined { (a b : Expression) (p q : Place) (rest : List Token) → StandsBefore parser.old rest →
        Alike left a → Alike right b → may_join joint a b ≡ true →
        Finds parser.new rest (Alike result (joined_parts joint p a q b)) }
    ensures sound { parser.new.fault ≡ None → PutTogether parser.old parser.new joint left right result }
{
    want(parser, &right, joins_conditions(joint));
    let alloc = parser.alloc;
    keep_made(parser, pair(alloc, joint, left, right))
}

/// Why parentheses don't end behind the part in them.
fn unclosed(parser: &Parser<'_>, inner: &Expression) -> ParseReason {
    if joint_of(parser.piece()).is_some() && !is_condition(inner) {
        ParseReason::NoNumber
    } else {
        ParseReason::NoClose
    }
}

/// Notes what is wrong with the part behind the prefix, or behind what ends it.
fn end_prefix(parser: &mut Parser<'_>, prefix: Prefix, inner: &Expression)
    ensures goes { Goes parser.old parser.new }
    ensures ended { (a : Expression) (here rest : List Token) → StandsBefore parser.old here → Alike inner.now a →
        ends_prefix prefix a here rest → StandsBefore parser.new rest }
    ensures sound { parser.new.fault ≡ None → ends_prefix prefix inner.now parser.old.rest.now parser.new.rest.now }
{
    match prefix {
        Prefix::Not => want(parser, inner, true),
        Prefix::Minus => want(parser, inner, false),
        Prefix::Parentheses => {
            let reason = unclosed(parser, inner);
            parser.expect(Piece::Close, reason)
        }
    }
}

/// A part with what stands before it, or around it.
fn put_prefix(parser: &mut Parser<'_>, prefix: Prefix, inner: Expression) -> Expression
    ensures goes { Goes parser.old parser.new }
    ensures prefixed { (a : Expression) (p : Place) (here rest : List Token) → StandsBefore parser.old here →
        Alike inner a → ends_prefix prefix a here rest →
        Finds parser.new rest (Alike result (enclosed prefix p a)) }
    ensures sound { parser.new.fault ≡ None → PutAround parser.old parser.new prefix inner result }
{
    end_prefix(parser, prefix, &inner);
    let alloc = parser.alloc;
    keep_made(parser, enclosed(alloc, prefix, inner))
}

/// A choice whose parts were read.
fn chosen(
    parser: &mut Parser<'_>,
    condition: Expression,
    yes: Expression,
    no: Expression,
) -> Expression
    ensures goes { Goes parser.old parser.new }
    ensures chosen { (c a b : Expression) (p q s : Place) (rest : List Token) → StandsBefore parser.old rest →
        Alike condition c → Alike yes a → Alike no b → is_condition a ≡ false → is_condition b ≡ false →
        Finds parser.new rest (Alike result (form.Choice' p c q a s b)) }
    ensures sound { parser.new.fault ≡ None → PutChoice parser.old parser.new condition yes no result }
{
    want(parser, &yes, false);
    want(parser, &no, false);
    let alloc = parser.alloc;
    keep_made(parser, choice(alloc, condition, yes, no))
}

/// A factor of one piece.
fn leaf(parser: &mut Parser<'_>) -> Expression
    ensures goes { Goes parser.old parser.new }
    ensures leaf { (depth : ℕ) (a : Expression) (rest : List Token) → Ahead parser.old depth a rest →
        is_operand a ≡ true → begun a ≡ beginning.Leaf → StandsBefore parser.new rest × Alike result a }
    ensures sound { (least depth : ℕ) → parser.new.fault ≡ None → WasBegun parser.old parser.new beginning.Leaf least depth result }
{
    if parser.in_parameter && parser.is(Piece::Word(Word::Rank)) {
        return fail(parser, ParseReason::RankInParameter);
    }
    match leaf_of(parser.piece()) {
        None => fail(parser, ParseReason::NoExpression),
        Some(leaf) => {
            parser.step();
            leaf
        }
    }
}

/// What stands behind a prefix, with it. At most so many parentheses, negations and choices stand
/// within one another.
#[cycle(expression)]
fn behind_prefix(parser: &mut Parser<'_>, prefix: Prefix, least: u32, depth: u32) -> Expression
    ensures goes { Goes parser.old parser.new }
    ensures complete { (a : Expression) (p : Place) (rest : List Token) →
        Ahead parser.old depth (enclosed prefix p a) rest → MayBegin least (enclosed prefix p a) rest →
        Finds parser.new rest (Alike result (enclosed prefix p a)) }
    ensures sound { parser.new.fault ≡ None → beginning.Prefix prefix ≡ beginning_of (next parser.old) least →
        WasBegun parser.old parser.new (beginning.Prefix prefix) least depth result }
{
    if depth == 0 {
        return fail(parser, ParseReason::TooDeep);
    }
    parser.step();
    let inner = expression(parser, inside(prefix, least), depth - 1);
    put_prefix(parser, prefix, inner)
}

/// A choice.
#[cycle(expression)]
fn choice_at(parser: &mut Parser<'_>, depth: u32) -> Expression
    ensures goes { Goes parser.old parser.new }
    ensures complete { (c a b : Expression) (p q s : Place) (rest : List Token) →
        Ahead parser.old depth (form.Choice' p c q a s b) rest → stops 4 rest ≡ true →
        Finds parser.new rest (Alike result (form.Choice' p c q a s b)) }
    ensures sound { (least : ℕ) → parser.new.fault ≡ None →
        beginning.Choice ≡ beginning_of (next parser.old) least →
        WasBegun parser.old parser.new beginning.Choice least depth result }
{
    if depth == 0 {
        return fail(parser, ParseReason::TooDeep);
    }
    parser.step();
    let condition = expression(parser, ANY, depth - 1);
    want(parser, &condition, true);
    parser.expect(Piece::Word(Word::Then), ParseReason::NoThen);
    let yes = expression(parser, NUMBER, depth - 1);
    parser.expect(Piece::Word(Word::Else), ParseReason::NoElse);
    let no = expression(parser, NUMBER, depth - 1);
    chosen(parser, condition, yes, no)
}

/// The first part of an expression, up to a joint.
#[cycle(expression)]
fn operand(parser: &mut Parser<'_>, beginning: Beginning, least: u32, depth: u32) -> Expression
    ensures goes { Goes parser.old parser.new }
    ensures complete { (a : Expression) (rest : List Token) → Ahead parser.old depth a rest →
        is_operand a ≡ true → beginning ≡ begun a → MayBegin least a rest →
        Finds parser.new rest (Alike result a) }
    ensures sound { parser.new.fault ≡ None → beginning ≡ beginning_of (next parser.old) least →
        WasBegun parser.old parser.new beginning least depth result }
{
    match beginning {
        Beginning::Leaf => leaf(parser),
        Beginning::Prefix(prefix) => behind_prefix(parser, prefix, least, depth),
        Beginning::Choice => choice_at(parser, depth),
    }
}

/// The first part of an expression, with what is joined to it by joints that bind at least so
/// close.
#[cycle(expression)]
fn joins(
    parser: &mut Parser<'_>,
    first: Expression,
    first_row: Row,
    least: u32,
    depth: u32,
) -> Expression
    ensures goes { Goes parser.old parser.new }
    ensures complete { (e : Expression) (rest : List Token) →
        Growing parser.old first first_row least depth e rest → Finds parser.new rest (Alike result e) }
    ensures sound { (here : List Token) → parser.new.fault ≡ None →
        SoFar here parser.old first first_row least depth →
        WasRead here parser.old.in_parameter parser.new least depth result }
{
    let mut left = first;
    let mut row = first_row;
    while let Some(joint) = joint_ahead(parser.piece(), row.binding, least) {
        row = match longer(row, joint) {
            Err(reason) => {
                parser.fail(reason);
                return left;
            }
            Ok(longer) => longer,
        };
        want(parser, &left, joins_conditions(joint));
        parser.step();
        let right = expression(parser, binding_of(joint) + 1, depth);
        left = put_joint(parser, joint, left, right);
    }
    left
}

/// An expression whose joints bind at least so close.
#[cycle(expression)]
fn expression(parser: &mut Parser<'_>, least: u32, depth: u32) -> Expression
    ensures goes { Goes parser.old parser.new }
    ensures complete { (e : Expression) (rest : List Token) → Ahead parser.old depth e rest →
        MayStandAmongJoints least e rest → Finds parser.new rest (Alike result e) }
    ensures sound { parser.new.fault ≡ None → least ≤ 6 →
        WasRead parser.old.rest.now parser.old.in_parameter parser.new least depth result }
{
    let beginning = beginning_of(parser.piece(), least);
    let first = operand(parser, beginning, least, depth);
    joins(parser, first, row_of(beginning), least, depth)
}

/// An expression: a number, or `null`.
pub(crate) fn expression_at(parser: &mut Parser<'_>) -> Expression
    ensures { HasRead (value_part parser.old.in_parameter) parser.old parser.new result }
{
    let read = expression(parser, NUMBER, 32);
    want(parser, &read, false);
    read
}

/// A condition.
pub(crate) fn condition_at(parser: &mut Parser<'_>) -> Expression
    ensures { HasRead (condition_part parser.old.in_parameter) parser.old parser.new result }
{
    let read = expression(parser, ANY, 32);
    want(parser, &read, true);
    read
}
