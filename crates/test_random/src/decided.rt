//! What one run decides, beside what becomes of the program in all of its runs.

use crate::exploring::{Fate, explore};
use crate::{Open, shown_by};
use checker::{Verdict, program_of, verdict};
use deciding::{Decision, decide, schedule_text};
use prover::{Options, prove};
use semantics::Step;
use std::alloc::{AllocError, Global};
use std::sync::Wait;
use std::thread::Threads;

/// The most positions that an exploration looks at.
const MOST_POSITIONS: usize = 3_000;

/// How many programs there were, by what one run decides of them.
#[derive(Clone, Copy)]
pub struct Counts {
    pub no_deadlock: u32,
    pub deadlock: u32,
    /// Programs whose messages may race, as far as the run tells, in which a run gets stuck.
    pub stuck_races: u32,
    /// Programs whose messages may race, as far as the run tells, in which no run gets stuck.
    pub free_races: u32,
    /// Programs that aren't explored to the end, and not counted.
    pub too_large: u32,
    /// Programs of which something is told that isn't so.
    pub wrong: u32,
}

/// What one run tells of a program.
#[derive(Clone, Copy, PartialEq, Eq)]
enum Told {
    Fate(Fate),
    Race,
    Wrong,
}

impl Counts {
    /// Nothing is counted.
    pub fn new() -> Counts {
        Counts {
            no_deadlock: 0,
            deadlock: 0,
            stuck_races: 0,
            free_races: 0,
            too_large: 0,
            wrong: 0,
        }
    }

    fn count(&mut self, told: Told, fate: Fate) {
        let place = match (told, fate) {
            (Told::Fate(Fate::NeverStuck), Fate::NeverStuck) => &mut self.no_deadlock,
            (Told::Fate(Fate::Stuck), Fate::Stuck) => &mut self.deadlock,
            (Told::Race, Fate::Stuck) => &mut self.stuck_races,
            (Told::Race, Fate::NeverStuck) => &mut self.free_races,
            _ => &mut self.wrong,
        };
        *place = place.saturating_add(1);
    }
}

/// Whether the checker takes the steps, as a schedule's text, for a deadlock of the program of this
/// text.
fn is_shown(
    rt: &(impl Threads + Wait + Sync),
    alloc: Global,
    text: &[u8],
    steps: &[Step],
) -> Result<bool, AllocError> {
    let schedule = schedule_text(alloc, steps)?;
    Ok(verdict(rt, alloc, text, &schedule) == Verdict::Deadlock)
}

/// What one run tells of the program of this text, where the checker takes the schedule of a
/// deadlock.
fn told_of(
    rt: &(impl Threads + Wait + Sync),
    alloc: Global,
    text: &[u8],
) -> Result<Told, AllocError> {
    match decide(alloc, text) {
        Ok(Decision::NoDeadlock) => Ok(Told::Fate(Fate::NeverStuck)),
        Ok(Decision::Race(_)) => Ok(Told::Race),
        Ok(Decision::Deadlock(steps)) => {
            if is_shown(rt, alloc, text, &steps)? {
                Ok(Told::Fate(Fate::Stuck))
            } else {
                Ok(Told::Wrong)
            }
        }
        Err(_) => Ok(Told::Wrong),
    }
}

/// Whether the prover tells the same where one run decides.
fn agrees(rt: &(impl Threads + Wait + Sync), alloc: Global, text: &[u8], told: Told) -> bool {
    match told {
        Told::Fate(fate) => {
            let Some(options) = Options::make(1, 0, 10_000) else {
                return false;
            };
            let answer = prove(rt, alloc, text, options, &Open);
            shown_by(rt, alloc, text, &answer) == Some(fate)
        }
        _ => true,
    }
}

/// Compares what one run tells of the program of this text with all of its runs, and with what the
/// prover tells. Answers whether nothing is wrong.
pub fn compare_decided(
    rt: &(impl Threads + Wait + Sync),
    alloc: Global,
    text: &[u8],
    counts: &mut Counts,
) -> Result<bool, AllocError> {
    let Ok(program) = program_of(alloc, text) else {
        counts.wrong = counts.wrong.saturating_add(1);
        return Ok(false);
    };
    let Some(fate) = explore(alloc, &program, MOST_POSITIONS)? else {
        counts.too_large = counts.too_large.saturating_add(1);
        return Ok(true);
    };
    let told = told_of(rt, alloc, text)?;
    let told = if agrees(rt, alloc, text, told) {
        told
    } else {
        Told::Wrong
    };
    let before = counts.wrong;
    counts.count(told, fate);
    Ok(counts.wrong == before)
}
