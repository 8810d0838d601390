//! Statements in memory of their own, where memory lasts.

ghost use Rattle.std.specs.Prelude.{◌≡◌, IfOk};
ghost use Rattle.spmd_text.specs.parts.Reading.{first_noted};
ghost use Rattle.spmd_text.specs.parts.Statements.{MakesOrLacksMemory, held};

use crate::fault::ParseReason;
use crate::parser::Parser;
use spmd_tree::SpmdStatement;
use std::alloc::{AllocError, Global};

/// A statement in memory of its own. Where something is wrong there may be none, and what is given
/// is never used.
pub(crate) type Made = Option<Box<SpmdStatement>>;

/// A value in memory of its own.
pub(crate) fn boxed<T: Drop>(alloc: Global, value: T) -> Result<Box<T>, AllocError>
    ensures { IfOk result (λ made. made.value ≡ value) }
{
    Ok(Box::new(alloc, value)?)
}

/// What has no meaning here.
pub(crate) fn refuse(parser: &mut Parser<'_>, reason: ParseReason) -> Made
    ensures { parser.new ≡ record parser.old { fault = first_noted parser.old.fault reason } }
{
    parser.fail(reason);
    None
}

/// The statement in memory of its own.
pub(crate) fn keep(parser: &mut Parser<'_>, statement: SpmdStatement) -> Made
    ensures { MakesOrLacksMemory parser.old parser.new (held result ≡ statement) }
{
    match boxed(parser.alloc, statement) {
        Err(AllocError) => refuse(parser, ParseReason::Memory),
        Ok(made) => Some(made),
    }
}
