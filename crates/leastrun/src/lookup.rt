//! What an issued call may find, or be found by.

ghost use Rattle.std.specs.Prelude.{◌≡◌, ℕ, IfSome, IfNone, Some};
ghost use Rattle.callorder.specs.Programs.{call_at};
ghost use Rattle.leastrun.specs.parts.Waiting.{IsKept, IsFresh, AreInOrder, is_mate, IsFirstMate, NoMateAmong, IsLeastIn, NoMateIn, lesser, IsLeastMate, NoFinder, NoSend, NoMate, step_between, NoOpenPair, IsFind};

use crate::rows::SlotRows;
use crate::slot::{finder_slot, send_slot};
use crate::tables::Tables;
use callorder::{Call, LongProgram};
use semantics::{State, Step};
use std::collections::VecDeque;

/// Whether the other call is open and fits this one, as its send or as its finder.
fn is_mate(program: &LongProgram, state: &State, call: usize, other: usize) -> bool
    ensures { result ≡ is_mate program.now state.now call other }
{
    state.is_open(program, other) && (program.are_fit(call, other) || program.are_fit(other, call))
}

/// The first mate of the call in the row.
fn first_mate(
    program: &LongProgram,
    state: &State,
    row: &VecDeque<usize>,
    call: usize,
) -> Option<usize>
    ensures some { IfSome result (IsFirstMate program.now state.now row.now.items call) }
    ensures none { IfNone result (NoMateAmong program.now state.now row.now.items call) }
{
    for place in 0..row.len() {
        let other = row[place];
        if is_mate(program, state, call, other) {
            return Some(other);
        }
    }
    None
}

/// The earliest mate of the call, of some rank, in the slot's row.
fn mate_in(
    program: &LongProgram,
    state: &State,
    rows: &SlotRows,
    slot: u64,
    call: usize,
) -> Option<usize>
    requires order { AreInOrder program.now state.now rows.now }
    ensures some { IfSome result (IsLeastIn program.now state.now rows.now slot call) }
    ensures none { IfNone result (NoMateIn program.now state.now rows.now slot call) }
{
    let Some(row) = rows.row(slot) else {
        return None;
    };
    first_mate(program, state, row, call)
}

/// The earlier one of two calls, if there is any.
fn lesser(one: Option<usize>, other: Option<usize>) -> Option<usize>
    ensures { result ≡ lesser one other }
{
    match (one, other) {
        (None, _) => other,
        (Some(_), None) => one,
        (Some(first), Some(second)) => { if second < first { other } else { one } }
    }
}

/// The earliest finder that waits and that the fresh call fits, if that is a send.
fn finder_for(
    program: &LongProgram,
    state: &State,
    tables: &Tables,
    known: &Call,
    call: usize,
) -> Option<usize>
    requires kept { IsKept program.now (Some call) state.now tables.now }
    requires known { call_at program.now call ≡ Some known.now }
    ensures some { IfSome result (IsLeastMate program.now state.now call) }
    ensures none { IfNone result (NoFinder program.now state.now call) }
{
    let mut best = None;
    for place in 0..tables.forms.len() {
        let Some(slot) = send_slot(tables.forms[place], known) else {
            return None;
        };
        best = lesser(best, mate_in(program, state, &tables.finders, slot, call));
    }
    best
}

/// The earliest send of some rank that waits and fits the fresh call, if that is a finder.
fn send_for(
    program: &LongProgram,
    state: &State,
    tables: &Tables,
    known: &Call,
    call: usize,
) -> Option<usize>
    requires kept { IsKept program.now (Some call) state.now tables.now }
    requires known { call_at program.now call ≡ Some known.now }
    ensures some { IfSome result (IsLeastMate program.now state.now call) }
    ensures none { IfNone result (NoSend program.now state.now call) }
{
    let Some(slot) = finder_slot(known) else {
        return None;
    };
    mate_in(program, state, &tables.sends, slot, call)
}

/// The earliest call that fits the fresh one and is open, of some rank.
fn mate_of(program: &LongProgram, state: &State, tables: &Tables, call: usize) -> Option<usize>
    requires kept { IsKept program.now (Some call) state.now tables.now }
    ensures some { IfSome result (IsLeastMate program.now state.now call) }
    ensures none { IfNone result (NoMate program.now state.now call) }
{
    let Some(known) = program.call(call) else {
        return None;
    };
    let Some(finder) = finder_for(program, state, tables, &known, call) else {
        return send_for(program, state, tables, &known, call);
    };
    Some(finder)
}

/// The step by which one of two calls that fit finds the other.
fn step_between(program: &LongProgram, call: usize, other: usize) -> Step
    ensures { result ≡ step_between program.now call other }
{
    if program.are_fit(call, other) {
        if program.is_probe(other) {
            return Step::See {
                send: call,
                probe: other,
            };
        }
        return Step::Match {
            send: call,
            taker: other,
        };
    }
    if program.is_probe(call) {
        return Step::See {
            send: other,
            probe: call,
        };
    }
    Step::Match {
        send: other,
        taker: call,
    }
}

/// The step by which the fresh call, the one issued last, finds another one or is found, or `None`
/// where it is matched or fits no open call.
pub fn find_of(program: &LongProgram, state: &State, tables: &Tables, call: usize) -> Option<Step>
    requires kept { IsKept program.now (Some call) state.now tables.now }
    requires fresh { IsFresh program.now state.now (Some call) }
    ensures some { IfSome result (IsFind program.now state.now) }
    ensures none { IfNone result (NoOpenPair program.now state.now) }
{
    if !state.is_open(program, call) {
        return None;
    }
    let Some(other) = mate_of(program, state, tables, call) else {
        return None;
    };
    Some(step_between(program, call, other))
}
