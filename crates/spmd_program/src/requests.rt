//! Whether the requests and handles of a text that was unrolled are right.

ghost use Rattle.std.specs.Prelude.{◌≡◌, ◌++◌, ◌-◌, IfErr, IfOk, OnOk, codes};
ghost use Rattle.spmd_program.specs.Programs.{IsProgramText};
ghost use Rattle.spmd_program.specs.Requests.{AreOrdered, IsToldOf, AreUnordered, begins_line_of, call_of_line, fault_words};
ghost use Rattle.spmd_program.specs.Unrolling.{TellsRefusal};

use crate::maps::begins_line;
use crate::told::{Place, put, put_place};
use crate::unrolling::NotUnrolled;
use callorder::{CallFault, LongProgram, ResolveFault};
use calltext::read_long;
use spmd_text::SpmdText;
use std::alloc::{AllocError, Global};
use unroll::{Placed, Turn, Unrolled};

/// Whether a line of this rank begins with the call.
fn begins_line_of(rank: u32, placed: &Placed) -> bool
    ensures { result ≡ begins_line_of rank placed.now }
{
    placed.rank == rank && begins_line(placed.call)
}

/// The call that begins the line of this place, from 0, of a rank.
fn call_at(calls: &[Placed], rank: u32, place: usize) -> Option<Placed>
    ensures { result ≡ call_of_line calls.now rank place }
{
    let mut left = place;
    for placed in calls {
        if begins_line_of(rank, placed) {
            if left == 0 {
                return Some(*placed);
            }
            left -= 1;
        }
    }
    None
}

fn fault_words(fault: CallFault) -> &'static str
    ensures { result.now ≡ fault_words fault }
{
    match fault {
        CallFault::RequestUnknown => "the request is not started, or it was waited for already",
        CallFault::RequestOpen => "the request is started again before it is waited for",
        CallFault::RequestLeft => "the request is never waited for",
        CallFault::HandleUnknown => "the handle has no message, or it was received already",
        CallFault::HandleOpen => "the handle is used again before its message is received",
        CallFault::HandleLeft => "the message of the handle is never received",
        CallFault::PeerRange => "the peer is no rank",
        CallFault::TooManyCalls => "there are too many calls",
    }
}

/// What is told of a call whose request or handle is wrong. There is such a call wherever there is
/// a fault; a missing one would be told as want of memory.
fn request_text(
    alloc: Global,
    path: &str,
    names: &[Vec<u8>],
    turns: &[Turn],
    placed: Option<Placed>,
    fault: CallFault,
) -> Result<Vec<u8>, AllocError>
    ensures { IfOk result (λ told. IsToldOf path.now names.now turns.now placed fault told.items) }
{
    let Some(placed) = placed else {
        return Err(AllocError);
    };
    let mut told = Vec::new(alloc);
    let place = Place {
        line: placed.line,
        rank: placed.rank,
        turn: placed.turn,
    };
    put_place(alloc, &mut told, path, names, turns, place)?;
    put(&mut told, ": ")?;
    put(&mut told, fault_words(fault))?;
    Ok(told)
}

/// Whether the requests and handles of calls are right, of which this is the program's text; or the
/// first fault, told by its line in the SPMD text at this path.
pub fn ordered(
    alloc: Global,
    path: &str,
    ranks: u32,
    text: &SpmdText,
    unrolled: &Unrolled,
    program: &[u8],
) -> Result<(), NotUnrolled>
    requires { IsProgramText text.now.policy text.now.names.items ranks unrolled.now.calls.items program.now }
    ensures ordered { OnOk result (AreOrdered text.now.policy text.now.names.items ranks unrolled.now.calls.items) }
    ensures fault { IfErr result (TellsRefusal (AreUnordered path.now text.now.policy text.now.names.items ranks
        unrolled.now.turns.items unrolled.now.calls.items)) }
{
    let Ok(source) = read_long(alloc, program) else {
        return Err(NotUnrolled::Memory);
    };
    match LongProgram::resolve(alloc, source) {
        Ok(_program) => Ok(()),
        Err(ResolveFault::Memory) => Err(NotUnrolled::Memory),
        Err(ResolveFault::At { rank, place, fault }) => {
            let placed = call_at(&unrolled.calls, rank, place.saturating_sub(1));
            let told = request_text(alloc, path, &text.names, &unrolled.turns, placed, fault)?;
            Err(NotUnrolled::Refused(told))
        }
    }
}
