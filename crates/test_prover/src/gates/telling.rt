//! What is told of a search while it goes on.

use super::{RELAY, for_cubes, options};
use progress::{Counts, prove_telling, tell};
use prover::{Answer, Gate, Options, Verdict, prove, verdict};
use std::alloc::Global;
use std::sync::Wait;
use std::sync::atomic::{AtomicU64, Ordering};
use std::test::Fail;
use std::thread::Threads;
use std::time::{Clock, Duration};
use std::{io, str};
use workers::Searched;

/// Four ranks that each send to one rank. It has no deadlock.
const FEW: &str =
    "ranks 5/policy none/rank 0/recv * 1/recv * 1/recv * 1/recv * 1/rank 1/send 0 1/rank 2/send 0 1/rank 3/send 0 1/rank 4/send 0 1/";

/// The bytes that standard error has room for.
const ROOM: usize = 4096;

/// A clock that is nearly a second further at each of its first readings, stands still at the next
/// one, and ends the search at the fifth.
#[derive(Drop)]
struct Ticking<'a> {
    counts: &'a Counts,
    readings: AtomicU64,
}

impl Clock for Ticking<'_> {
    fn monotonic(&self) -> io::Result<Duration> {
        let reading = self.readings.fetch_add(1, Ordering::SeqCst);
        if reading == 0 {
            return Ok(Duration::from_nanos(0));
        }
        if reading > 3 {
            self.counts.end();
        }
        Ok(Duration::from_nanos(999_999_999 + 1_000_000_000 * reading.min(2)))
    }

    fn since_1970(&self) -> io::Result<Duration> {
        Ok(Duration::from_nanos(0))
    }
}

/// A clock that can't be read.
struct Broken;

impl Clock for Broken {
    fn monotonic(&self) -> io::Result<Duration> {
        Err(io::Error::from(io::ErrorKind::Unsupported))
    }

    fn since_1970(&self) -> io::Result<Duration> {
        Err(io::Error::from(io::ErrorKind::Unsupported))
    }
}

/// Counts with four searches told, of which two closed cubes, of a quarter and of an eighth of the
/// tree. A worker has used 2,099 of 10,000 conflicts, and the log has 50,030 lines of a million.
fn four_searches() -> Counts {
    let counts = Counts::new(10_000);
    let searched = Searched {
        open: 15,
        depth: 2,
        is_closed: true,
        lines: 7,
        conflicts: 40,
        used: 40,
        over_sets: false,
    };
    counts.after(0, searched);
    counts.after(
        1,
        Searched {
            open: 16,
            is_closed: false,
            conflicts: 2000,
            used: 2000,
            ..searched
        },
    );
    counts.after(
        1,
        Searched {
            depth: 3,
            conflicts: 99,
            used: 2099,
            ..searched
        },
    );
    counts.after(
        0,
        Searched {
            open: 16,
            depth: 0,
            is_closed: false,
            lines: 50_009,
            conflicts: 50_009,
            used: 1000,
            over_sets: true,
        },
    );
    counts
}

#[test]
fn each_second_is_told_once(rt: HostRuntime) -> Result<(), Fail> {
    let counts = four_searches();
    let clock = Ticking {
        counts: &counts,
        readings: AtomicU64::new(0),
    };
    let mut told = Vec::with_capacity(rt.alloc(), ROOM)?;
    tell(&rt, &clock, rt.alloc(), &counts, &mut told);
    assert_eq!(rt;
        str::from_utf8(&told)?,
        "progress 1 s: 16 cubes open, 2 closed, 21 lines, 2139 conflicts, 50009 set lines, 37 % of the tree, 20 % of the budget, 5 % of the log\n\
         progress 2 s: 16 cubes open, 2 closed, 21 lines, 2139 conflicts, 50009 set lines, 37 % of the tree, 20 % of the budget, 5 % of the log\n"
    );
    Ok(())
}

#[test]
fn a_clock_that_fails_ends_it(rt: HostRuntime) -> Result<(), Fail> {
    let mut told = Vec::with_capacity(rt.alloc(), ROOM)?;
    tell(&rt, &Broken, rt.alloc(), &four_searches(), &mut told);
    assert!(rt; told.is_empty());
    Ok(())
}

/// How many lines of a text begin with this word.
fn lines_with(text: &[u8], word: &str) -> Result<u64, Fail> {
    let lines = str::from_utf8(text)?.lines();
    Ok(lines.filter(|line| line.starts_with(word)).count() as u64)
}

/// The evidence that there is no deadlock, for a text with `/` in place of each end of a line, of a
/// search that is followed by these counts.
fn followed<R: Threads + Wait + Sync>(
    rt: &R,
    alloc: Global,
    text: &str,
    options: Options,
    counts: &Counts,
) -> Result<Vec<u8>, Fail> {
    let text = text.replace(alloc, '/', "\n")?;
    match prove(rt, alloc, text.as_bytes(), options, counts) {
        Answer::NoDeadlock(evidence) => Ok(evidence.joined(alloc)?),
        _ => Err(Fail::from("another answer")),
    }
}

#[test]
fn counts_are_those_of_the_search(rt: HostRuntime) -> Result<(), Fail> {
    let counts = Counts::new(1_000_000);
    let evidence = followed(&rt, rt.alloc(), FEW, options(1, 0, 1_000_000)?, &counts)?;
    let moment = counts.at(7);
    assert!(rt; moment.seconds == 7 && moment.open == 0 && moment.conflicts > 0);
    assert_eq!(rt; moment.lines, lines_with(&evidence, "line ")?);
    assert_eq!(rt; moment.closed, lines_with(&evidence, "leaf ")?);
    assert!(rt; moment.used == moment.conflicts && moment.budget == 1_000_000);
    Ok(())
}

/// Cubes that are closed are told, with their shares of the tree.
#[test]
fn closed_cubes_are_told(rt: HostRuntime) -> Result<(), Fail> {
    let counts = Counts::new(1_000_000);
    let _evidence = followed(&rt, rt.alloc(), FEW, for_cubes(2, 3, 1_000_000)?, &counts)?;
    let moment = counts.at(1);
    assert!(rt; moment.closed > 1 && moment.share > 0);
    Ok(())
}

/// Counts of a search over sets of matched calls that refuted the formula, while so many cubes are
/// open.
fn refuted(open: u32) -> Counts {
    let counts = Counts::new(0);
    counts.after(
        0,
        Searched {
            open,
            depth: 0,
            is_closed: true,
            lines: 0,
            conflicts: 0,
            used: 0,
            over_sets: true,
        },
    );
    counts
}

/// What is told in one second.
fn told_of<R: Wait>(rt: &R, alloc: Global, counts: &Counts) -> Result<Vec<u8>, Fail> {
    let clock = Ticking {
        counts,
        readings: AtomicU64::new(1),
    };
    let mut told = Vec::with_capacity(alloc, ROOM)?;
    tell(rt, &clock, alloc, counts, &mut told);
    Ok(told)
}

/// Before a worker begins it is told that the formula is made, and then how large it is.
#[test]
fn the_formula_is_told_first(rt: HostRuntime) -> Result<(), Fail> {
    let counts = Counts::new(1);
    let forming = told_of(&rt, rt.alloc(), &counts)?;
    assert_eq!(rt;
        str::from_utf8(&forming)?,
        "progress 1 s: runs are tried, and the formula is made\n"
    );
    let counts = Counts::new(1);
    counts.formed(40);
    let formed = told_of(&rt, rt.alloc(), &counts)?;
    assert_eq!(rt;
        str::from_utf8(&formed)?,
        "progress 1 s: the formula has 40 clauses, and is searched next\n"
    );
    Ok(())
}

/// All of the tree is told to be closed once no cube is open, and a budget of none has no share.
#[test]
fn the_whole_tree_is_told_last(rt: HostRuntime) -> Result<(), Fail> {
    let one_open = told_of(&rt, rt.alloc(), &refuted(1))?;
    assert_eq!(rt;
        str::from_utf8(&one_open)?,
        "progress 1 s: 1 cubes open, 1 closed, 0 lines, 0 conflicts, 0 set lines, 99 % of the tree, 0 % of the budget, 0 % of the log\n"
    );
    let none_open = told_of(&rt, rt.alloc(), &refuted(0))?;
    assert_eq!(rt;
        str::from_utf8(&none_open)?,
        "progress 1 s: 0 cubes open, 1 closed, 0 lines, 0 conflicts, 0 set lines, 100 % of the tree, 0 % of the budget, 0 % of the log\n"
    );
    Ok(())
}

/// Whether a search that tells how far it is ends with an evidence that there is no deadlock.
fn is_refuted<R: Threads + Wait + Clock + Sync>(
    rt: &R,
    alloc: Global,
    text: &str,
    told: &mut Vec<u8>,
) -> Result<bool, Fail> {
    let text = text.replace(alloc, '/', "\n")?;
    match prove_telling(rt, alloc, text.as_bytes(), options(4, 2, 1_000_000)?, told) {
        Answer::NoDeadlock(evidence) => {
            let evidence = evidence.joined(alloc)?;
            Ok(verdict(rt, alloc, text.as_bytes(), &evidence) == Verdict::NoDeadlock)
        }
        _ => Ok(false),
    }
}

#[test]
fn a_search_that_tells_ends_as_another(rt: HostRuntime) -> Result<(), Fail> {
    let mut told = Vec::with_capacity(rt.alloc(), ROOM)?;
    assert!(rt; is_refuted(&rt, rt.alloc(), RELAY, &mut told)?);
    assert_eq!(rt; lines_with(&told, "progress ")?, lines_with(&told, "")?);
    Ok(())
}
