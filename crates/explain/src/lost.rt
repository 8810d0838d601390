//! Channels to which more messages are sent than are taken there.

ghost use Rattle.std.specs.Prelude.{◌≡◌, IfOk, length, nat_lt, string_bytes};
ghost use Rattle.explain.specs.Losing.{AreLosing, TellsLosses, has_more_sends, lost_heading};
ghost use Rattle.explain.specs.Often.{BeginsWithBytes};

use crate::balancing::{Calls, put_balance};
use crate::text::MOST_TOLD;
use balance::{Imbalance, imbalances};
use callorder::LongProgram;
use calltext::LongSource;
use scene::call_labels;
use std::alloc::{AllocError, Global};

fn has_more_sends(sides: &Imbalance) -> bool
    ensures { result ≡ has_more_sends sides.now }
{
    sides.takers.len() < sides.sends.len()
}

/// The channels of a program that have more sends than calls that take them, in the order of their
/// first calls: where all ranks of a run finish, so many of their messages are never received. The
/// only error is want of memory.
pub fn losing(alloc: Global, program: &LongProgram) -> Result<Vec<Imbalance>, AllocError>
    ensures { IfOk result (λ losing. AreLosing program.now losing.items) }
{
    let mut told = imbalances(alloc, program)?;
    told.retain(|sides| has_more_sends(sides));
    Ok(told)
}

/// Tells these channels, one a line, and of many the first ones.
fn sentences(
    alloc: Global,
    calls: Calls<'_>,
    channels: &[Imbalance],
) -> Result<String, AllocError> {
    let mut out = String::new(alloc);
    for sides in channels.iter().take(MOST_TOLD) {
        put_balance(&mut out, calls, sides)?;
    }
    let more = channels.len().saturating_sub(MOST_TOLD);
    if more > 0 {
        writeln!(out, "  and {more} more")?;
    }
    Ok(out)
}

/// The text, below a heading, on the messages of these channels that no receive takes: how many are
/// sent and how many are taken, with the lines of both. `text` is the program's text, `source` what
/// it says, and `program` its calls. The only error is want of memory.
pub fn lost_messages(
    alloc: Global,
    text: &[u8],
    source: &LongSource,
    program: &LongProgram,
    channels: &[Imbalance],
) -> Result<String, AllocError>
    ensures { IfOk result (λ told. BeginsWithBytes lost_heading (string_bytes told)) }
{
    let labels = call_labels(alloc, text, source, program)?;
    let sentences = sentences(alloc, Calls::new(program, &labels), channels)?;
    let mut out = String::from_str(alloc, "messages that no receive takes:\n")?;
    out.push_str(&sentences)?;
    Ok(out)
}
