//! Draws programs by a fixed generator, and compares the answers for each: the prover's by each of
//! its searches, whose evidence the checker has to accept, and that of a plain exploration of all
//! runs. Prints each program on which they differ, and at the end how many agree: first of programs
//! without probes, then of programs with probes, then of programs in which all ranks send to one.
//! At last searches of some programs are cut off by budgets: how many answers are right, those that
//! the budget is used up among them.
#![tactic(auto)]

mod budgets;
mod chance;
mod decided;
mod drawing;
mod exploring;
mod line;
mod position;
mod rules;
mod tally;

use budgets::judge_all;
use checker::program_of;
use decided::{Counts, compare_decided};
use drawing::{Family, draw};
use exploring::{Fate, explore};
use prover::{Answer, Gate, Options, Searches, Verdict, prove, verdict};
use std::alloc::Global;
use std::io;
use std::process::ExitCode;
use std::sync::Wait;
use std::thread::Threads;
use tally::Tally;

/// How many programs without probes are drawn.
const PROGRAMS: u64 = 300;

/// How many programs with probes are drawn.
const PROBING_PROGRAMS: u64 = 100;

/// How many programs with a hub are drawn.
const HUB_PROGRAMS: u64 = 300;

/// The most positions that an exploration looks at.
const MOST_POSITIONS: usize = 300_000;

/// How many programs of each family are drawn to be decided by one run.
const DECIDED_PROGRAMS: u64 = 5_000;

const DECIDED_PROBING_PROGRAMS: u64 = 2_500;

const DECIDED_HUB_PROGRAMS: u64 = 2_500;

/// Lets the worker go on at once.
struct Open;

impl Gate for Open {
    fn before(&self, _worker: u32, _cube: u32) {}
}

fn main(rt: HostRuntime) -> ExitCode {
    match compare_all(&rt, &rt) {
        Ok(true) => ExitCode::SUCCESS,
        Ok(false) => ExitCode::FAILURE,
        Err(error) => {
            // Where standard error can't be written either, the exit status tells it alone.
            let _ = rt.eprintln(format_args!("error: {error}"));
            ExitCode::FAILURE
        }
    }
}

/// Compares the answers for all programs. Answers whether none differ.
fn compare_all(rt: &HostRuntime, threads: &(impl Threads + Wait + Sync)) -> io::Result<bool> {
    let plain_agree = compare_drawn(rt, threads, PROGRAMS, Family::Plain)?;
    println!(rt; "with probes:")?;
    let probing_agree = compare_drawn(rt, threads, PROBING_PROGRAMS, Family::Probing)?;
    println!(rt; "with a hub:")?;
    let hub_agree = compare_drawn(rt, threads, HUB_PROGRAMS, Family::Hub)?;
    let budgets_agree = compare_budgets(rt, threads)?;
    let decided_agree = compare_runs(rt, threads)?;
    Ok(plain_agree && probing_agree && hub_agree && budgets_agree && decided_agree)
}

/// Compares what one run decides with all runs, for programs of each family, and prints what was
/// counted. Answers whether nothing is wrong.
fn compare_runs(rt: &HostRuntime, threads: &(impl Threads + Wait + Sync)) -> io::Result<bool> {
    println!(rt; "decided by one run:")?;
    let plain_right = decide_drawn(rt, threads, DECIDED_PROGRAMS, Family::Plain)?;
    let probing_right = decide_drawn(rt, threads, DECIDED_PROBING_PROGRAMS, Family::Probing)?;
    let hub_right = decide_drawn(rt, threads, DECIDED_HUB_PROGRAMS, Family::Hub)?;
    Ok(plain_right && probing_right && hub_right)
}

/// Compares what one run decides with all runs, for so many programs of a family, and prints each
/// program of which something wrong is told, and what was counted. Answers whether there is none.
fn decide_drawn(
    rt: &HostRuntime,
    threads: &(impl Threads + Wait + Sync),
    programs: u64,
    family: Family,
) -> io::Result<bool> {
    let mut counts = Counts::new();
    for seed in 0..programs {
        let text = draw(rt.alloc(), seed, family)?;
        if !compare_decided(threads, rt.alloc(), text.as_bytes(), &mut counts)? {
            let text = text.replace(rt.alloc(), '\n', "/")?;
            println!(rt; "wrongly decided: {text}")?;
        }
    }
    print_decided(rt, &counts)?;
    Ok(counts.wrong == 0)
}

/// Prints how many programs are decided by one run, and of how many it tells a race.
fn print_decided(rt: &HostRuntime, counts: &Counts) -> io::Result<()> {
    let (never, stuck) = (counts.no_deadlock, counts.deadlock);
    let (free, hanging) = (counts.free_races, counts.stuck_races);
    println!(rt;
        "{never} have no deadlock, {stuck} have one; of races {free} have none, {hanging} have one"
    )?;
    let (wrong, too_large) = (counts.wrong, counts.too_large);
    println!(rt; "{wrong} are wrongly decided, {too_large} too large and not counted")
}

/// Judges answers of searches that budgets cut off, and prints what was counted. Answers whether
/// all are right.
fn compare_budgets(rt: &HostRuntime, threads: &(impl Threads + Wait + Sync)) -> io::Result<bool> {
    let judged = judge_all(threads, rt.alloc())?;
    let (right, wrong) = (judged.right, judged.wrong);
    println!(rt; "with budgets:")?;
    println!(rt; "{right} answers are right, {wrong} aren't")?;
    Ok(wrong == 0)
}

/// Compares the answers for each of so many programs, and prints what was counted. Answers whether
/// none differ.
fn compare_drawn(
    rt: &HostRuntime,
    threads: &(impl Threads + Wait + Sync),
    programs: u64,
    family: Family,
) -> io::Result<bool> {
    let mut tally = Tally::new(rt.alloc());
    for seed in 0..programs {
        let text = draw(rt.alloc(), seed, family)?;
        compare(rt, threads, &text, &mut tally)?;
    }
    print_tally(rt, &tally)?;
    Ok(tally.differing == 0)
}

/// Compares the answers for the program of this text.
fn compare(
    rt: &HostRuntime,
    threads: &(impl Threads + Wait + Sync),
    text: &str,
    tally: &mut Tally,
) -> io::Result<()> {
    let Ok(program) = program_of(rt.alloc(), text.as_bytes()) else {
        return note_differing(rt, "no program", text, tally);
    };
    let Some(fate) = explore(rt.alloc(), &program, MOST_POSITIONS)? else {
        tally.too_large = tally.too_large.saturating_add(1);
        return Ok(());
    };
    tally.count_text(rt.alloc(), text, &program)?;
    if all_prove(threads, rt.alloc(), text.as_bytes(), fate) {
        tally.count_agreed(fate);
        return Ok(());
    }
    match fate {
        Fate::Stuck => note_differing(rt, "gets stuck", text, tally),
        Fate::NeverStuck => note_differing(rt, "never gets stuck", text, tally),
    }
}

/// Counts a program on which the answers differ, and prints it with what the exploration says.
fn note_differing(
    rt: &HostRuntime,
    explored: &str,
    text: &str,
    tally: &mut Tally,
) -> io::Result<()> {
    tally.differing = tally.differing.saturating_add(1);
    let text = text.replace(rt.alloc(), '\n', "/")?;
    println!(rt; "explored: {explored}: {text}")
}

/// Whether the prover says this of a program's text, by each of its searches.
fn all_prove(rt: &(impl Threads + Wait + Sync), alloc: Global, text: &[u8], fate: Fate) -> bool {
    for searches in [Searches::All, Searches::Cubes, Searches::Sets] {
        if proved(rt, alloc, text, searches) != Some(fate) {
            return false;
        }
    }
    true
}

/// What the prover says of a program's text by these searches, or none where it has no answer or
/// the checker has another one.
fn proved(
    rt: &(impl Threads + Wait + Sync),
    alloc: Global,
    text: &[u8],
    searches: Searches,
) -> Option<Fate> {
    let options = Options::default().with_searches(searches);
    let answer = prove(rt, alloc, text, options, &Open);
    shown_by(rt, alloc, text, &answer)
}

/// What an answer says of a program's text, or none where it says nothing or the checker says
/// something else.
fn shown_by(
    rt: &(impl Threads + Wait + Sync),
    alloc: Global,
    text: &[u8],
    answer: &Answer,
) -> Option<Fate> {
    let (evidence, fate, wanted) = match answer {
        Answer::Deadlock(evidence) => (evidence, Fate::Stuck, Verdict::Deadlock),
        Answer::NoDeadlock(evidence) => (evidence, Fate::NeverStuck, Verdict::NoDeadlock),
        _ => return None,
    };
    let Ok(evidence) = evidence.joined(alloc) else {
        return None;
    };
    if verdict(rt, alloc, text, &evidence) == wanted {
        return Some(fate);
    }
    None
}

/// Prints how often each kind of line was drawn, and how many programs agree.
fn print_tally(rt: &HostRuntime, tally: &Tally) -> io::Result<()> {
    println!(rt; "{}", tally.drawn_text(rt.alloc())?)?;
    if tally.too_large > 0 {
        println!(rt;
            "{} programs are too large and not counted",
            tally.too_large
        )?;
    }
    if tally.differing > 0 {
        return println!(rt; "{} programs differ", tally.differing);
    }
    let agreed = tally.stuck.saturating_add(tally.never_stuck);
    let (stuck, never) = (tally.stuck, tally.never_stuck);
    println!(rt; "{agreed} programs agree: {stuck} get stuck, {never} don't")
}
