//! What is told of a place in an SPMD text, and of what is wrong there.

ghost use Rattle.std.specs.Prelude.{◌≡◌, ◌++◌, OnOk};
ghost use Rattle.std.specs.Fmt.{signed_decimal};
ghost use Rattle.spmd_program.specs.Told.{counted, fault_text, name_between, peer_text, spmd_place_text, reason_text, turn_at, turn_words, turns_from};

use crate::names::put_name;
use plaintext::put_number;
use std::alloc::{AllocError, Global};
use unroll::{Fault, FaultReason, Turn};

/// Adds a text.
pub fn put(out: &mut Vec<u8>, text: &str) -> Result<(), AllocError>
    ensures { OnOk result (out.new.items ≡ out.old.items ++ text.now) }
{
    out.extend_from_slice(text.as_bytes())
}

fn put_signed(alloc: Global, out: &mut Vec<u8>, number: i64) -> Result<(), AllocError>
    ensures { OnOk result (out.new.items ≡ out.old.items ++ signed_decimal number) }
{
    let digits = number.to_string(alloc)?;
    out.extend_from_slice(digits.as_bytes())
}

/// The turn of this number, from 1; 0 is none.
fn turn_at(turns: &[Turn], number: u64) -> Option<Turn>
    ensures { result ≡ turn_at turns.now number }
{
    if number == 0 {
        return None;
    }
    turns.get(number as usize - 1).copied()
}

/// Adds a loop's variable with its value.
fn put_turn(
    alloc: Global,
    out: &mut Vec<u8>,
    names: &[Vec<u8>],
    turn: Turn,
) -> Result<(), AllocError>
    ensures { OnOk result (out.new.items ≡ out.old.items ++ turn_words names.now turn) }
{
    put(out, ", ")?;
    put_name(out, names, turn.name)?;
    put(out, "=")?;
    put_signed(alloc, out, turn.value)
}

/// Adds a turn behind those of the loops around it, at most so many.
pub fn put_turns(
    alloc: Global,
    out: &mut Vec<u8>,
    names: &[Vec<u8>],
    turns: &[Turn],
    number: u64,
    most: u32,
) -> Result<(), AllocError>
    ensures { OnOk result (out.new.items ≡ out.old.items ++ turns_from most names.now turns.now number) }
{
    if most == 0 {
        return Ok(());
    }
    match turn_at(turns, number) {
        None => Ok(()),
        Some(turn) => {
            put_turns(alloc, out, names, turns, turn.outer, most - 1)?;
            put_turn(alloc, out, names, turn)?;
            Ok(())
        }
    }
}

#[tactic(auto, unfolding(crate::specs::Told::name_between))]
fn put_named(
    out: &mut Vec<u8>,
    before: &str,
    names: &[Vec<u8>],
    name: u32,
    after: &str,
) -> Result<(), AllocError>
    ensures { OnOk result (out.new.items ≡ out.old.items ++ name_between before.now names.now name after.now) }
{
    put(out, before)?;
    put_name(out, names, name)?;
    put(out, after)
}

#[tactic(auto, unfolding(crate::specs::Told::counted))]
fn put_counted(
    alloc: Global,
    out: &mut Vec<u8>,
    before: &str,
    number: i64,
    after: &str,
) -> Result<(), AllocError>
    ensures { OnOk result (out.new.items ≡ out.old.items ++ counted before.now number after.now) }
{
    put(out, before)?;
    put_signed(alloc, out, number)?;
    put(out, after)
}

#[tactic(auto, unfolding(crate::specs::Told::peer_text))]
fn put_peer(alloc: Global, out: &mut Vec<u8>, ranks: u32, peer: i64) -> Result<(), AllocError>
    ensures { OnOk result (out.new.items ≡ out.old.items ++ peer_text ranks peer) }
{
    if peer < 0 {
        return put_counted(alloc, out, "peer ", peer, " is below 0");
    }
    put_counted(alloc, out, "peer ", peer, " is not below ")?;
    put_number(out, ranks)
}

/// Adds what is wrong, in a program of so many ranks.
fn put_reason(
    alloc: Global,
    out: &mut Vec<u8>,
    names: &[Vec<u8>],
    ranks: u32,
    reason: FaultReason,
) -> Result<(), AllocError>
    ensures { OnOk result (out.new.items ≡ out.old.items ++ reason_text names.now ranks reason) }
{
    match reason {
        FaultReason::NoValue { name } => put_named(out, "", names, name, " has no value here"),
        FaultReason::NoSetting { name } => {
            put_named(out, "the parameter ", names, name, " has no value")
        }
        FaultReason::Overflow => put(out, "a number beyond 64 bits"),
        FaultReason::Divisor { divisor } => {
            put_counted(alloc, out, "divisor ", divisor, " is not above 0")
        }
        FaultReason::Shift { by } => put_counted(alloc, out, "a shift by ", by, " is not 0 to 62"),
        FaultReason::BelowZero { number } => {
            put_counted(alloc, out, "xor of ", number, ", which is below 0")
        }
        FaultReason::NullNumber => put(out, "null where a number has to stand"),
        FaultReason::Kind => put(out, "a condition where a number has to stand"),
        FaultReason::PeerRange { peer } => put_peer(alloc, out, ranks, peer),
        FaultReason::TagRange { tag } => put_counted(alloc, out, "tag ", tag, " is not 0 to 32767"),
        FaultReason::CommunicatorRange { communicator } => {
            put_counted(
                alloc,
                out,
                "communicator ",
                communicator,
                " is not 0 to 127",
            )
        }
        FaultReason::IndexRange { index } => {
            put_counted(alloc, out, "index ", index, " is not 0 to 99999")
        }
        FaultReason::ErrorReached => put(out, "error was reached"),
        FaultReason::StillOpen { name } => {
            put_named(out, "", names, name, " is started again before its end")
        }
        FaultReason::NeverEnded { name } => put_named(out, "", names, name, " is never waited for"),
        FaultReason::TooManyCalls => put(out, "more than 18446744073709551615 calls"),
        FaultReason::TooManyTurns => put(out, "more than 10000000 turns of loops"),
        FaultReason::GroupStep { step } => {
            put_counted(alloc, out, "step ", step, " of a group is not 1 to 65535")
        }
        FaultReason::NotInGroup { rank } => {
            put_counted(alloc, out, "rank ", i64::from(rank), " is not of the group")
        }
        FaultReason::TooManyCollectives => put(
            out,
            "more than 67108864 collective calls with one communicator and group",
        ),
        FaultReason::TooManyGroups => put(out, "more than 2147483520 groups of collective calls"),
    }
}

/// A line of an SPMD text, from 1, on a rank, from 0, and the turn of a loop that it is in, from 1,
/// or 0 where it stands in none.
#[derive(Clone, Copy)]
pub struct Place {
    pub line: u32,
    pub rank: u32,
    pub turn: u64,
}

/// Adds a place: its line in the text at this path, its rank, and the turns of loops that it is in.
pub fn put_place(
    alloc: Global,
    out: &mut Vec<u8>,
    path: &str,
    names: &[Vec<u8>],
    turns: &[Turn],
    place: Place,
) -> Result<(), AllocError>
    ensures { OnOk result (out.new.items ≡ out.old.items ++ spmd_place_text path.now names.now turns.now place.line place.rank place.turn) }
{
    put(out, path)?;
    put(out, ":")?;
    put_number(out, place.line)?;
    put(out, ", rank ")?;
    put_number(out, place.rank)?;
    put_turns(alloc, out, names, turns, place.turn, 32)
}

/// Adds what is told of a fault of unrolling, in a program of so many ranks: `PATH:LINE, rank R,
/// NAME=VALUE ..: WHY`. Ranks count from 0, lines from 1.
pub fn put_fault(
    alloc: Global,
    out: &mut Vec<u8>,
    path: &str,
    names: &[Vec<u8>],
    ranks: u32,
    turns: &[Turn],
    fault: Fault,
) -> Result<(), AllocError>
    ensures { OnOk result (out.new.items ≡ out.old.items ++ fault_text path.now names.now ranks turns.now fault) }
{
    let place = Place {
        line: fault.line,
        rank: fault.rank,
        turn: fault.turn,
    };
    put_place(alloc, out, path, names, turns, place)?;
    put(out, ": ")?;
    put_reason(alloc, out, names, ranks, fault.reason)
}
