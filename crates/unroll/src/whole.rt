//! The whole text, for all ranks, one after another.

ghost use Rattle.std.specs.Prelude.{◌≡◌, IfOk, IfErr};
ghost use Rattle.unroll.specs.parts.Runs.{HasOutcome, seen_run};
ghost use Rattle.unroll.specs.Statements.{rank_run, text_run};
ghost use Rattle.unroll.specs.Whole.{IsUnrolled, IsFailure, refused};

use crate::call::{Fault, Placed, Turn};
use crate::machine::{Machine, Scope, Stop};
use crate::statement::run;
use crate::value::{FaultReason, Value};
use indexmap::{IndexMap, IndexSet};
use spmd_tree::SpmdStatement;
use std::alloc::Global;

/// How many calls and how many turns of loops all ranks together may make. With 2^64 - 1 calls
/// memory alone is the limit; a text whose loops make no calls is held by the limit of turns.
#[derive(Clone, Copy)]
pub struct UnrollLimits {
    pub calls: u64,
    pub turns: u64,
}

/// An unrolled text: the calls of all ranks, rank by rank and in their order, and the turns of the
/// loops that they were made in.
#[derive(Drop)]
pub struct Unrolled {
    pub calls: Vec<Placed>,
    pub turns: Vec<Turn>,
}

/// Why a text was not unrolled.
#[derive(Drop)]
pub enum Refusal {
    /// The allocator refused memory.
    Memory,
    /// The first thing that is wrong, with the turns of loops up to there.
    Faulty { fault: Fault, turns: Vec<Turn> },
}

/// What one rank does. It begins with the settings alone, and each start that it leaves out has to
/// have its end.
fn run_rank(
    machine: &mut Machine,
    scope: Scope,
    program: &SpmdStatement,
    settings: &[Option<Value>],
) -> Result<(), Stop>
    ensures { HasOutcome result (rank_run program.now settings.now scope (seen_run machine.old)) (seen_run machine.new) }
{
    machine.values.clear();
    machine.values.extend_from_slice(settings)?;
    machine.left_out.clear();
    machine.opened.clear();
    machine.turn = 0;
    run(machine, scope, program)?;
    match machine.left_out.first() {
        None => Ok(()),
        Some(left_out) => Err(Stop::Faulty(Fault {
            rank: scope.rank,
            line: left_out.line,
            turn: left_out.turn,
            reason: FaultReason::NeverEnded {
                name: left_out.start.label.name,
            },
        })),
    }
}

/// What is told of a text that is not unrolled.
fn refused(stop: Stop, turns: Vec<Turn>) -> Refusal
    ensures { result ≡ refused stop turns }
{
    match stop {
        Stop::Memory => Refusal::Memory,
        Stop::Faulty(fault) => Refusal::Faulty { fault, turns },
    }
}

/// Unrolls the program for so many ranks, 0 to 2^32 - 1, where some names have values from the
/// start: the settings stand at the places of their names. Where `barriers` is set, each collective
/// call waits for all of its group, as a barrier does. The answer is what
/// `specs/Statements.antt` says that the text means: its calls and turns, or the fault that comes
/// first, as ranks rise, statements follow one another, and arguments stand from left to right.
pub fn unroll(
    alloc: Global,
    program: &SpmdStatement,
    settings: &[Option<Value>],
    size: u32,
    barriers: bool,
    limits: UnrollLimits,
) -> Result<Unrolled, Refusal>
    ensures ok { IfOk result (λ unrolled. IsUnrolled unrolled (text_run program.now settings.now size barriers limits.calls limits.turns)) }
    ensures err { IfErr result (λ refusal. IsFailure refusal (text_run program.now settings.now size barriers limits.calls limits.turns)) }
{
    let mut machine = Machine {
        alloc,
        values: Vec::new(alloc),
        left_out: Vec::new(alloc),
        opened: IndexMap::new(alloc),
        meetings: IndexSet::new(alloc),
        attended: Vec::new(alloc),
        calls: Vec::new(alloc),
        turns: Vec::new(alloc),
        turn: 0,
    };
    for rank in 0..size {
        let scope = Scope {
            rank,
            size,
            barriers,
            most_calls: limits.calls,
            most_turns: limits.turns,
        };
        match run_rank(&mut machine, scope, program, settings) {
            Err(stop) => return Err(refused(stop, machine.turns)),
            Ok(()) => {}
        }
    }
    Ok(Unrolled {
        calls: machine.calls,
        turns: machine.turns,
    })
}
