//! What joins the parts of expressions, and how they are put together.

ghost use Rattle.std.specs.Prelude.{◌≡◌, ◌≤◌, true, Ok, IfOk};
ghost use Rattle.spmd_tree.specs.declared.tree.Expression.{Expression};
ghost use Rattle.spmd_tree.specs.declared.tree.Expression.TheVariants as form;
ghost use Rattle.spmd_text.specs.declared.joints.Row.{Row};
ghost use Rattle.spmd_text.specs.parts.Found.{IsLonger};
ghost use Rattle.spmd_text.specs.parts.Growing.{enclosed, leaf_of, IsJointRow};
ghost use Rattle.spmd_text.specs.parts.Joints.{binding_of, goes_on, is_lone, joined_parts, joint_ahead, joint_of, joins_conditions, may_join, Place};
ghost use Rattle.spmd_text.specs.Limits.{parts_in_row};

use crate::fault::ParseReason;
use crate::piece::{Piece, Word};
use spmd_tree::{Comparison, Expression, Operator};
use std::alloc::{AllocError, Global};

/// How close a comparison binds.
const COMPARISON: u32 = 3;

/// What stands between two parts.
#[derive(Clone, Copy)]
pub(crate) enum Joint {
    Or,
    And,
    Compared(Comparison),
    Between(Operator),
}

/// What stands before a part, or around it.
#[derive(Clone, Copy)]
pub(crate) enum Prefix {
    Not,
    Minus,
    Parentheses,
}

/// What the piece joins two parts by, where it does.
pub(crate) fn joint_of(piece: Piece) -> Option<Joint>
    ensures { result ≡ joint_of piece }
{
    match piece {
        Piece::Word(Word::Or) => Some(Joint::Or),
        Piece::Word(Word::And) => Some(Joint::And),
        Piece::Same => Some(Joint::Compared(Comparison::Same)),
        Piece::Other => Some(Joint::Compared(Comparison::Other)),
        Piece::Below => Some(Joint::Compared(Comparison::Below)),
        Piece::UpTo => Some(Joint::Compared(Comparison::UpTo)),
        Piece::Above => Some(Joint::Compared(Comparison::Above)),
        Piece::From => Some(Joint::Compared(Comparison::From)),
        Piece::Plus => Some(Joint::Between(Operator::Plus)),
        Piece::Minus => Some(Joint::Between(Operator::Minus)),
        Piece::Star => Some(Joint::Between(Operator::Times)),
        Piece::Word(Word::Div) => Some(Joint::Between(Operator::Quotient)),
        Piece::Word(Word::Mod) => Some(Joint::Between(Operator::Remainder)),
        Piece::Word(Word::Shl) => Some(Joint::Between(Operator::Left)),
        Piece::Word(Word::Shr) => Some(Joint::Between(Operator::Right)),
        Piece::Word(Word::Xor) => Some(Joint::Between(Operator::Exclusive)),
        _ => None,
    }
}

/// How close a joint binds.
pub(crate) fn binding_of(joint: Joint) -> u32
    ensures most { result ≤ 5 }
    ensures binding { result ≡ binding_of joint }
{
    match joint {
        Joint::Or => 0,
        Joint::And => 1,
        Joint::Compared(_) => COMPARISON,
        Joint::Between(Operator::Plus) => 4,
        Joint::Between(Operator::Minus) => 4,
        Joint::Between(_) => 5,
    }
}

/// Whether the joint has to stand alone between two factors.
fn is_lone(joint: Joint) -> bool
    ensures { result ≡ is_lone joint }
{
    match joint {
        Joint::Or => false,
        Joint::And => false,
        Joint::Compared(_) => false,
        Joint::Between(Operator::Plus) => false,
        Joint::Between(Operator::Minus) => false,
        Joint::Between(Operator::Times) => false,
        Joint::Between(_) => true,
    }
}

/// Whether the joint is one of conditions.
pub(crate) fn joins_conditions(joint: Joint) -> bool
    ensures { result ≡ joins_conditions joint }
{
    match joint {
        Joint::Or => true,
        Joint::And => true,
        Joint::Compared(_) => false,
        Joint::Between(_) => false,
    }
}

/// How close the parts read last stand together: their joint's binding, by how many joints in a
/// row, and whether the last one has to stand alone.
#[derive(Clone, Copy)]
pub(crate) struct Row {
    pub(crate) binding: u32,
    pub(crate) joints: u32,
    pub(crate) lone: bool,
}

/// Whether a joint that binds so close goes on with a row of joints that bind so close: comparisons
/// stand alone.
fn goes_on(row: u32, binding: u32) -> bool
    ensures { result ≡ goes_on row binding }
{
    if row == COMPARISON {
        binding < COMPARISON
    } else {
        binding <= row
    }
}

/// The joint of the piece, where it binds at least so close and goes on with the row.
pub(crate) fn joint_ahead(piece: Piece, row: u32, least: u32) -> Option<Joint>
    ensures { result ≡ joint_ahead (joint_of piece) row least }
{
    let Some(joint) = joint_of(piece) else {
        return None;
    };
    let binding = binding_of(joint);
    if least <= binding && goes_on(row, binding) {
        Some(joint)
    } else {
        None
    }
}

/// The row with one joint more: 256 parts at most.
pub(crate) fn longer(row: Row, joint: Joint) -> Result<Row, ParseReason>
    ensures complete { (a b : Expression) (p q : Place) → IsJointRow row a → may_join joint a b ≡ true →
        parts_in_row (joined_parts joint p a q b) ≤ 256 → (next : Row) × (result ≡ Ok next) ×
        IsJointRow next (joined_parts joint p a q b) }
    ensures sound { (next : Row) (a b : Expression) (p q : Place) → result ≡ Ok next → IsJointRow row a → IsLonger row next joint p a q b }
{
    let binding = binding_of(joint);
    let lone = is_lone(joint);
    if row.binding != binding {
        return Ok(Row {
            binding,
            joints: 1,
            lone,
        });
    }
    if lone || row.lone {
        return Err(ParseReason::Parentheses);
    }
    if row.joints >= 255 {
        return Err(ParseReason::TooLong);
    }
    Ok(Row {
        binding,
        joints: row.joints + 1,
        lone,
    })
}

/// Both in memory of their own.
fn two(
    alloc: Global,
    a: Expression,
    b: Expression,
) -> Result<(Box<Expression>, Box<Expression>), AllocError>
    ensures { IfOk result (λ both. (both.0.value ≡ a) × (both.1.value ≡ b)) }
{
    let a = Box::new(alloc, a)?;
    let b = Box::new(alloc, b)?;
    Ok((a, b))
}

/// Two parts with a joint between them.
pub(crate) fn pair(
    alloc: Global,
    joint: Joint,
    a: Expression,
    b: Expression,
) -> Result<Expression, AllocError>
    ensures { IfOk result (λ made. (p : Place) × (q : Place) × (made ≡ joined_parts joint p a q b)) }
{
    let (a, b) = two(alloc, a, b)?;
    Ok(match joint {
        Joint::Or => Expression::Either(a, b),
        Joint::And => Expression::Both(a, b),
        Joint::Compared(comparison) => Expression::Compare(comparison, a, b),
        Joint::Between(operator) => Expression::Binary(operator, a, b),
    })
}

/// A part with what stands before it, or around it.
pub(crate) fn enclosed(
    alloc: Global,
    prefix: Prefix,
    inner: Expression,
) -> Result<Expression, AllocError>
    ensures { IfOk result (λ made. (p : Place) × (made ≡ enclosed prefix p inner)) }
{
    let inner = Box::new(alloc, inner)?;
    Ok(match prefix {
        Prefix::Not => Expression::Negation(inner),
        Prefix::Minus => Expression::Negative(inner),
        Prefix::Parentheses => Expression::Grouped(inner),
    })
}

/// `if` a condition `then` a number `else` another.
pub(crate) fn choice(
    alloc: Global,
    condition: Expression,
    yes: Expression,
    no: Expression,
) -> Result<Expression, AllocError>
    ensures { IfOk result (λ made. (p : Place) × (q : Place) × (s : Place) × (made ≡ form.Choice' p condition q yes s no)) }
{
    let (yes, no) = two(alloc, yes, no)?;
    let condition = Box::new(alloc, condition)?;
    Ok(Expression::Choice(condition, yes, no))
}

/// An expression of one piece.
pub(crate) fn leaf_of(piece: Piece) -> Option<Expression>
    ensures { result ≡ leaf_of piece }
{
    match piece {
        Piece::Number(number) => Some(Expression::Literal(number)),
        Piece::Name(name) => Some(Expression::Named(name)),
        Piece::Word(Word::Null) => Some(Expression::Null),
        Piece::Word(Word::Size) => Some(Expression::Size),
        Piece::Word(Word::Rank) => Some(Expression::Rank),
        _ => None,
    }
}
