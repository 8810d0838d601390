//! A search that tells how far it is.

ghost use Rattle.std.specs.Prelude.{OnErr, OnOk};
ghost use Rattle.std.specs.Io.KnownBytes.{Appends};
ghost use Rattle.files.specs.Contents.{AppendsPart};
ghost use Rattle.progress.specs.Telling.{TellsProgress, moment_line};
ghost use Rattle.prover.specs.Answers.{IsAnswer, FinishesIfUnknown};

use crate::counts::Counts;
use crate::moment::{Moment, line_of};
use files::store;
use prover::{Answer, Options, prove};
use std::alloc::Global;
use std::io::Write;
use std::sync::Wait;
use std::thread::{Threads, join_mut};
use std::time::{Clock, Duration, Instant};

/// Why no more is told: memory ran out, or the output failed.
#[derive(Clone, Copy, PartialEq, Eq)]
struct Mute;

/// Tells a moment by its line.
fn tell_moment<E: Write>(alloc: Global, moment: &Moment, err: &mut E) -> Result<(), Mute>
    ensures all { OnOk result (Appends (E.contents err.old) (E.contents err.new) (moment_line moment.now)) }
    ensures part { OnErr result
        (AppendsPart (E.contents err.old) (E.contents err.new) (moment_line moment.now)) }
{
    let Ok(line) = line_of(alloc, moment) else {
        return Err(Mute);
    };
    match store(err, &line) {
        Ok(()) => Ok(()),
        Err(_fault) => Err(Mute),
    }
}

/// The time from here to the next whole second.
fn to_next_second(passed: Duration) -> Duration {
    Duration::from_nanos(1_000_000_000 - u64::from(passed.subsec_nanos()))
}

/// Tells once a second how far the search is, from its first second on, until it is over.
///
/// Before a worker begins the line is `progress S s: runs are tried, and the formula is made`, and
/// then `progress S s: the formula has N clauses, and is searched next`. Then it is `progress S s:
/// N cubes open, N closed, N lines, N conflicts, N set lines, N % of the tree, N % of the budget, N
/// % of the log`. Each has more whole seconds than the one before it. Where the clock or the output
/// fails, or memory runs out, nothing more is told.
pub fn tell<R: Wait, C: Clock, E: Write>(
    rt: &R,
    clock: &C,
    alloc: Global,
    counts: &Counts,
    err: &mut E,
)
    ensures { TellsProgress (E.contents err.old) (E.contents err.new) }
{
    let Ok(start) = Instant::now(clock) else {
        return;
    };
    let mut told = 0;
    for _ in rt.forever() {
        let Ok(passed) = start.elapsed(clock) else {
            return;
        };
        if counts.is_over() {
            return;
        }
        let seconds = passed.as_secs();
        if seconds > told {
            let Ok(()) = tell_moment(alloc, &counts.at(seconds), err) else {
                return;
            };
            told = seconds;
        }
        counts.rest(rt, to_next_second(passed));
    }
}

/// Looks for an answer as `prove` does, and tells meanwhile, as [`tell`] does, how far the search
/// is. What is told comes from a thread of its own; where none can be started, nothing is told.
pub fn prove_telling<R: Threads + Wait + Clock + Sync, E: Write + Send>(
    rt: &R,
    alloc: Global,
    program: &[u8],
    options: Options,
    err: &mut E,
) -> Answer
    ensures answers { IsAnswer program.now result }
    ensures finishes { FinishesIfUnknown options.budget program.now result }
    ensures told { TellsProgress (E.contents err.old) (E.contents err.new) }
{
    let counts = Counts::new(options.budget());
    let ((), answer) = join_mut(
        rt,
        &mut ||
            ensures { TellsProgress (E.contents err.entry.now) (E.contents err.exit.now) }
        { tell(rt, rt, alloc, &counts, err) },
        &mut ||
            ensures { IsAnswer program.entry.now result × FinishesIfUnknown options.budget program.entry.now result }
        {
            let answer = prove(rt, alloc, program, options, &counts);
            counts.end();
            answer
        },
    );
    answer
}
