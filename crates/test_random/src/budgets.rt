//! Budgets that run out at each point of a search.

use crate::exploring::Fate;
use crate::{Open, shown_by};
use prover::{Answer, Options, Why, prove};
use std::alloc::{AllocError, Global};
use std::sync::Wait;
use std::thread::Threads;

/// The budgets are the squares of so many numbers from 0 on: close together where they are small,
/// and beyond what one worker needs.
const ROOTS: u32 = 25;

/// More conflicts than any of these programs needs.
const ENOUGH: u32 = 1_000_000;

/// Programs whose search takes conflicts, and what becomes of them: five ranks send to one, which
/// takes their messages as they come; it sees each before that; four ranks send to two. In the
/// second of each kind one message is received by its sender's number, which another receive may
/// have taken. In these texts `/` stands for the end of a line.
const PROGRAMS: &str =
    "ranks 6/policy any/rank 0/recv * 1/recv * 1/recv * 1/recv * 1/recv * 1/rank 1/send 0 1/rank 2/send 0 1/rank 3/send 0 1/rank 4/send 0 1/rank 5/send 0 1/ | ends
ranks 6/policy any/rank 0/recv * 1/recv 3 1/recv * 1/recv * 1/recv * 1/rank 1/send 0 1/rank 2/send 0 1/rank 3/send 0 1/rank 4/send 0 1/rank 5/send 0 1/ | hangs
ranks 5/policy any/rank 0/probe * 1/recv * 1/probe * 1/recv * 1/probe * 1/recv * 1/probe * 1/recv * 1/rank 1/send 0 1/rank 2/send 0 1/rank 3/send 0 1/rank 4/send 0 1/ | ends
ranks 6/policy any/rank 0/recv * 1/probe 3 1/recv * 1/recv * 1/recv * 1/recv * 1/rank 1/send 0 1/rank 2/send 0 1/rank 3/send 0 1/rank 4/send 0 1/rank 5/send 0 1/ | hangs
ranks 6/policy any/rank 0/recv * 1/recv * 1/recv * 1/recv * 1/rank 1/recv * 1/recv * 1/recv * 1/recv * 1/rank 2/send 0 1/send 1 1/rank 3/send 0 1/send 1 1/rank 4/send 0 1/send 1 1/rank 5/send 0 1/send 1 1/ | ends
ranks 6/policy any/rank 0/recv * 1/recv 4 1/recv * 1/recv * 1/rank 1/recv * 1/recv * 1/recv * 1/recv * 1/rank 2/send 0 1/send 1 1/rank 3/send 0 1/send 1 1/rank 4/send 0 1/send 1 1/rank 5/send 0 1/send 1 1/ | hangs";

/// How many answers are right, and how many aren't.
#[derive(Clone, Copy)]
pub struct Judged {
    pub right: u32,
    pub wrong: u32,
}

impl Judged {
    fn count(&mut self, is_right: bool) {
        if is_right {
            self.right = self.right.saturating_add(1);
        } else {
            self.wrong = self.wrong.saturating_add(1);
        }
    }
}

/// Whether a search of a program with this fate is answered rightly: what becomes of it, with
/// evidence, or, where the budget may be used up, that it is.
fn is_right(
    rt: &(impl Threads + Wait + Sync),
    alloc: Global,
    text: &str,
    fate: Fate,
    options: Options,
) -> bool {
    match prove(rt, alloc, text.as_bytes(), options, &Open) {
        Answer::Unknown(why) => why == Why::Budget && options.budget() < ENOUGH,
        answer => shown_by(rt, alloc, text.as_bytes(), &answer) == Some(fate),
    }
}

/// Judges the answer for a program with this fate by so many workers with this budget.
fn judge_budget(
    rt: &(impl Threads + Wait + Sync),
    alloc: Global,
    text: &str,
    fate: Fate,
    workers: u32,
    budget: u32,
    judged: &mut Judged,
) {
    let is_right = match Options::make(workers, 4, budget) {
        Some(options) => is_right(rt, alloc, text, fate, options),
        None => false,
    };
    judged.count(is_right);
}

/// Judges the answers for a program with this fate by so many workers with each budget.
fn judge_budgets(
    rt: &(impl Threads + Wait + Sync),
    alloc: Global,
    text: &str,
    fate: Fate,
    workers: u32,
    judged: &mut Judged,
) {
    for root in 0..ROOTS {
        let budget = root.saturating_mul(root);
        judge_budget(rt, alloc, text, fate, workers, budget, judged);
    }
    judge_budget(rt, alloc, text, fate, workers, ENOUGH, judged);
}

/// Judges the answers for a program that a row tells, by one worker and by four.
fn judge_row(
    rt: &(impl Threads + Wait + Sync),
    alloc: Global,
    row: &str,
    judged: &mut Judged,
) -> Result<(), AllocError> {
    let Some((text, word)) = row.split_once(" | ") else {
        judged.count(false);
        return Ok(());
    };
    let fate = if word == "hangs" {
        Fate::Stuck
    } else {
        Fate::NeverStuck
    };
    let text = text.replace(alloc, '/', "\n")?;
    judge_budgets(rt, alloc, &text, fate, 1, judged);
    judge_budgets(rt, alloc, &text, fate, 4, judged);
    Ok(())
}

/// Judges the answers for all programs.
pub fn judge_all(rt: &(impl Threads + Wait + Sync), alloc: Global) -> Result<Judged, AllocError> {
    let mut judged = Judged { right: 0, wrong: 0 };
    for row in PROGRAMS.lines() {
        judge_row(rt, alloc, row, &mut judged)?;
    }
    Ok(judged)
}
