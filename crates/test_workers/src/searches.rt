//! In the programs' texts `/` stands for the end of a line.
mod fake;
mod liars;
mod trail;
mod without_cubes;

ghost use Rattle.std.specs.Prelude.{◌≡◌, IfOk};

use callorder::Program;
use calltext::read;
use candidates::pairs;
use checker::{Verdict, verdict};
use cubes::split;
use encode::{Encoded, encode};
use fake::{Fake, Lie};
use nonovertake::earlier;
use pool::{Pool, Share, Status, Why};
use prooflog::{Evidence, write_evidence};
use std::alloc::Global;
use std::sync::{Mutex, Wait};
use std::test::Fail;
use std::thread::Threads;
use steal::{Supply, deal};
use trail::{Noted, Trail};
use trees::Tree;
use workers::{
    ClosedStates, Cubes, EventCount, Exploring, KeptLines, Opening, SearchContext, open, work,
};

/// More conflicts than any search here needs.
const ENOUGH: u32 = 1_000_000;

/// More conflicts than a search counts over a share that lies.
const FEW: u32 = 10_000;

/// All ways to explore.
const MANNERS: [Exploring; 3] = [Exploring::Never, Exploring::InTurn, Exploring::Always];

/// The number of the worker that searches.
const WORKER: u32 = 5;

/// A program without deadlock.
const RELAY: &str =
    "ranks 3/policy none/rank 0/send 1 1/send 2 1/rank 1/send 2 1/recv 0 1/rank 2/recv * 1/recv 0 1/";

/// Seven ranks that each send to one rank. It has no deadlock, but that takes more conflicts than
/// one search counts.
const SENDERS: &str =
    "ranks 8/policy none/rank 0/recv * 1/recv * 1/recv * 1/recv * 1/recv * 1/recv * 1/recv * 1/rank 1/send 0 1/rank 2/send 0 1/rank 3/send 0 1/rank 4/send 0 1/rank 5/send 0 1/rank 6/send 0 1/rank 7/send 0 1/";

/// A program and what is shown of it.
const PROGRAMS: &str =
    "ranks 2/policy any/rank 0/send 1 1/recv 1 1/rank 1/send 0 1/recv 0 1/ | deadlock
ranks 2/policy all/rank 0/send 1 1/recv 1 1/rank 1/send 0 1/recv 0 1/ | no deadlock
ranks 3/policy any/rank 0/send 1 1/rank 1/recv * 1/recv 0 1/rank 2/send 1 1/ | deadlock
ranks 3/policy none/rank 0/send 1 1/send 2 1/rank 1/send 2 1/recv 0 1/rank 2/recv * 1/recv 0 1/ | no deadlock
ranks 3/policy any/rank 0/send 1 1/send 2 1/rank 1/send 2 1/recv 0 1/rank 2/recv * 1/recv 0 1/ | deadlock
ranks 1/policy any/rank 0/bsend 0 1/ | no deadlock
ranks 1/policy any/rank 0/ | no deadlock";

/// Cubes with no room for more.
#[derive(Drop)]
struct Narrow {
    cubes: Supply,
}

impl Cubes for Narrow {
    ghost use Rattle.steal.specs.Supplies.{deques_of};

    ghost deques = { λ narrow. deques_of narrow.cubes };

    fn take(&mut self) -> Option<u32> {
        self.cubes.take()
    }

    fn put(&mut self, cube: u32) -> Result<(), u32> {
        Err(cube)
    }
}

/// What a search came to.
#[derive(Clone, Copy, Debug, PartialEq, Eq)]
struct Outcome {
    status: Status,
    is_refuted: bool,
    /// How many lines the log has.
    logged: usize,
    /// What the worker did.
    noted: Noted,
}

/// The program of this text.
fn program_of(alloc: Global, text: &str) -> Result<Program, Fail> {
    let text = text.replace(alloc, '/', "\n")?;
    let source = read(alloc, text.as_bytes())?;
    Ok(Program::resolve(alloc, &source)?)
}

/// The formula of this program.
fn encoded(rt: &(impl Threads + Sync), alloc: Global, text: &str) -> Result<Encoded, Fail> {
    let program = program_of(alloc, text)?;
    let pairs = pairs(alloc, &program)?;
    let earlier = earlier(rt, alloc, &program, &pairs)?;
    match encode(alloc, program, pairs, &earlier) {
        Ok(encoded) => Ok(encoded),
        Err(refused) => Err(Fail::from(refused.fault)),
    }
}

/// A tree of this depth over the formula's variables.
fn tree_of(alloc: Global, encoded: &Encoded, depth: u32) -> Result<Tree, Fail>
    ensures { IfOk result (λ tree. tree.variables ≡ encoded.now.formula.variables) }
{
    let tree = split(alloc, encoded, depth)?;
    if tree.variables() != encoded.formula().variables() {
        return Err(Fail::from("another formula"));
    }
    Ok(tree)
}

/// A share of the pool of a program with a tree of this depth.
fn opened(
    rt: &(impl Threads + Sync),
    alloc: Global,
    text: &str,
    depth: u32,
    lie: Lie,
) -> Result<Fake, Fail> {
    let encoded = encoded(rt, alloc, text)?;
    let tree = tree_of(alloc, &encoded, depth)?;
    let pool = Mutex::new(Pool::new(alloc, encoded, tree)?);
    let trail = Trail::new();
    Ok(Fake { pool, lie, trail })
}

/// All open leaves, in the order of their numbers, of which a tree of depth 4 has none from 31 on.
fn leaves(rt: &impl Wait, alloc: Global, share: &Fake) -> Result<Supply, Fail> {
    let mut supplies = deal(alloc, 1)?;
    let mut cubes = supplies.pop().ok_or("no supply")?;
    for node in 0..31 {
        let is_open = share.pool.lock(rt).path(alloc, node).is_ok();
        if is_open && cubes.put(node).is_err() {
            return Err(Fail::from("no memory"));
        }
    }
    Ok(cubes)
}

/// Has one worker search this formula over the share.
fn worked_on<R: Threads + Wait + Sync, C: Cubes>(
    rt: &R,
    alloc: Global,
    encoded: &Encoded,
    share: &Fake,
    cubes: &mut C,
    budget: u32,
    exploring: Exploring,
) -> Result<(), Fail> {
    let events = EventCount::new();
    let kept = KeptLines::new();
    let closed = ClosedStates::new(alloc);
    let common = SearchContext {
        encoded,
        shared: share,
        gate: share,
        events: &events,
        budget,
        exploring,
        begun: Opening::nothing(),
        kept: &kept,
        closed: &closed,
    };
    let mut seat = WORKER;
    work(rt, alloc, &common, &mut seat, cubes, WORKER)?;
    Ok(())
}

/// The same, where the formula is that of a program.
fn worked<R: Threads + Wait + Sync, C: Cubes>(
    rt: &R,
    alloc: Global,
    text: &str,
    share: &Fake,
    cubes: &mut C,
    budget: u32,
    exploring: Exploring,
) -> Result<(), Fail> {
    let encoded = encoded(rt, alloc, text)?;
    worked_on(rt, alloc, &encoded, share, cubes, budget, exploring)
}

/// Whether the share has a refutation.
fn is_refuted(rt: &impl Wait, alloc: Global, share: &Fake) -> bool {
    match share.assemble(rt, alloc) {
        Ok(Evidence::Refutation(_refutation)) => true,
        _ => false,
    }
}

/// How many lines the share's log has.
fn logged(rt: &impl Wait, alloc: Global, share: &Fake) -> Result<usize, Fail> {
    let lines = share.pool.lock(rt).fetch(alloc, WORKER, 0)?;
    Ok(lines.len())
}

/// Has one worker take the leaves of this share.
fn worked_on_leaves<R: Threads + Wait + Sync>(
    rt: &R,
    alloc: Global,
    text: &str,
    share: &Fake,
    budget: u32,
) -> Result<(), Fail> {
    let mut cubes = leaves(rt, alloc, share)?;
    worked(rt, alloc, text, share, &mut cubes, budget, Exploring::Never)
}

/// What one worker comes to over this share.
fn searched_in<R: Threads + Wait + Sync>(
    rt: &R,
    alloc: Global,
    text: &str,
    share: &Fake,
    budget: u32,
) -> Result<Outcome, Fail> {
    worked_on_leaves(rt, alloc, text, share, budget)?;
    Ok(Outcome {
        status: share.status(rt),
        is_refuted: is_refuted(rt, alloc, share),
        logged: logged(rt, alloc, share)?,
        noted: share.trail.noted(),
    })
}

/// What one worker comes to that begins with a tree of this depth.
fn searched<R: Threads + Wait + Sync>(
    rt: &R,
    alloc: Global,
    text: &str,
    depth: u32,
    lie: Lie,
    budget: u32,
) -> Result<Outcome, Fail> {
    let share = opened(rt, alloc, text, depth, lie)?;
    searched_in(rt, alloc, text, &share, budget)
}

/// Why the worker leaves this share of [`RELAY`], and how many calls it makes after the first that
/// is refused.
fn left_in<R: Threads + Wait + Sync>(
    rt: &R,
    alloc: Global,
    share: &Fake,
    exploring: Exploring,
) -> Result<(Option<Why>, u64), Fail> {
    let mut cubes = leaves(rt, alloc, share)?;
    worked(rt, alloc, RELAY, share, &mut cubes, FEW, exploring)?;
    Ok((share.status(rt).why, share.trail.noted().late))
}

/// The same of a share that lies.
fn left_for<R: Threads + Wait + Sync>(
    rt: &R,
    alloc: Global,
    lie: Lie,
    exploring: Exploring,
) -> Result<(Option<Why>, u64), Fail> {
    let share = opened(rt, alloc, RELAY, 4, lie)?;
    left_in(rt, alloc, &share, exploring)
}

/// Why the opening of this search ends over a share whose tree is a leaf, and how many calls it
/// makes after the first that is refused.
fn ended_in<R: Threads + Wait + Sync>(
    rt: &R,
    alloc: Global,
    encoded: &Encoded,
    share: &Fake,
    exploring: Exploring,
) -> (Option<Why>, u64) {
    let events = EventCount::new();
    let kept = KeptLines::new();
    let closed = ClosedStates::new(alloc);
    let common = SearchContext {
        encoded,
        shared: share,
        gate: share,
        events: &events,
        budget: FEW,
        exploring,
        begun: Opening::nothing(),
        kept: &kept,
        closed: &closed,
    };
    let mut seat = 0;
    let begun = open(rt, alloc, &common, &mut seat, &[0], 1);
    (begun.why, share.trail.noted().late)
}

/// The same of a share of [`RELAY`] that lies.
fn ended_for<R: Threads + Wait + Sync>(
    rt: &R,
    alloc: Global,
    lie: Lie,
    exploring: Exploring,
) -> Result<(Option<Why>, u64), Fail> {
    let encoded = encoded(rt, alloc, RELAY)?;
    let share = opened(rt, alloc, RELAY, 0, lie)?;
    Ok(ended_in(rt, alloc, &encoded, &share, exploring))
}

/// The text of the share's evidence.
fn evidence_of(rt: &impl Wait, alloc: Global, share: &Fake) -> Result<Vec<u8>, Fail> {
    let evidence = share.assemble(rt, alloc)?;
    Ok(write_evidence(alloc, &evidence)?)
}

/// The text of the evidence that one worker comes to over this share.
fn found_in<R: Threads + Wait + Sync>(
    rt: &R,
    alloc: Global,
    text: &str,
    share: &Fake,
) -> Result<Vec<u8>, Fail> {
    worked_on_leaves(rt, alloc, text, share, ENOUGH)?;
    evidence_of(rt, alloc, share)
}

/// The text of the evidence that one worker comes to.
fn found_by_one<R: Threads + Wait + Sync>(
    rt: &R,
    alloc: Global,
    text: &str,
) -> Result<Vec<u8>, Fail> {
    let share = opened(rt, alloc, text, 4, Lie::Nothing)?;
    found_in(rt, alloc, text, &share)
}

/// What the text of an evidence shows of the program.
fn shown_by(
    rt: &(impl Threads + Sync),
    alloc: Global,
    text: &str,
    evidence: &[u8],
) -> Result<&'static str, Fail> {
    let text = text.replace(alloc, '/', "\n")?;
    match verdict(rt, alloc, text.as_bytes(), evidence) {
        Verdict::NoDeadlock => Ok("no deadlock"),
        Verdict::Deadlock => Ok("deadlock"),
        Verdict::Refused(_reason) => Ok("refused"),
    }
}

/// What the evidence that one worker comes to shows of the program.
fn shown<R: Threads + Wait + Sync>(
    rt: &R,
    alloc: Global,
    text: &str,
) -> Result<&'static str, Fail> {
    let evidence = found_by_one(rt, alloc, text)?;
    shown_by(rt, alloc, text, evidence.as_slice())
}

#[test]
fn programs_are_decided(rt: HostRuntime) -> Result<(), Fail> {
    let alloc = rt.alloc();
    for row in PROGRAMS.lines() {
        let (text, expected) = row.split_once(" | ").ok_or("a row lacks a column")?;
        assert_eq!(rt; shown(&rt, alloc, text)?, expected, "{text}");
    }
    Ok(())
}

#[test]
fn nothing_without_budget(rt: HostRuntime) -> Result<(), Fail> {
    let outcome = searched(&rt, rt.alloc(), RELAY, 1, Lie::Nothing, 0)?;
    assert!(rt; !outcome.status.is_found && !outcome.is_refuted);
    assert_eq!(rt; outcome.status.open_leaves, 2);
    assert_eq!(rt; outcome.status.why, Some(Why::Budget));
    assert_eq!(rt; outcome.noted.cubes, 1);
    Ok(())
}

#[test]
fn nothing_is_searched_after_a_schedule(rt: HostRuntime) -> Result<(), Fail> {
    let text = "ranks 3/policy any/rank 0/send 1 1/rank 1/recv * 1/recv 0 1/rank 2/send 1 1/";
    let outcome = searched(&rt, rt.alloc(), text, 4, Lie::Nothing, ENOUGH)?;
    let left = outcome.status.open_leaves;
    assert!(rt; outcome.status.is_found && left > 0);
    assert_eq!(rt; outcome.noted.cubes.saturating_add(u64::from(left)), 9);
    Ok(())
}

#[test]
fn the_first_refusal_is_left_for(rt: HostRuntime) -> Result<(), Fail> {
    let alloc = rt.alloc();
    for exploring in MANNERS {
        for lie in [
            Lie::ForeignLine,
            Lie::NeverOpen,
            Lie::NeverDerived,
            Lie::PastEnd,
        ] {
            let left = left_for(&rt, alloc, lie, exploring)?;
            assert_eq!(rt; left, (Some(Why::Left), 0), "{lie:?}");
        }
        let left = left_for(&rt, alloc, Lie::NoLines, exploring)?;
        assert_eq!(rt; left, (Some(Why::Memory), 0));
        let left = left_for(&rt, alloc, Lie::FullLog, exploring)?;
        assert_eq!(rt; left, (Some(Why::Full), 0));
    }
    let left = left_for(&rt, alloc, Lie::NoMemory, Exploring::Never)?;
    assert_eq!(rt; left, (Some(Why::Memory), 0));
    Ok(())
}

#[test]
fn a_forgetful_share_is_left(rt: HostRuntime) -> Result<(), Fail> {
    let alloc = rt.alloc();
    for exploring in MANNERS {
        let left = left_for(&rt, alloc, Lie::Forgetful, exploring)?;
        assert_eq!(rt; left, (Some(Why::Left), 0));
    }
    Ok(())
}

#[test]
fn an_opening_ends_at_its_first_refusal(rt: HostRuntime) -> Result<(), Fail> {
    let alloc = rt.alloc();
    for exploring in MANNERS {
        for lie in [Lie::NeverDerived, Lie::NeverOpen] {
            let ended = ended_for(&rt, alloc, lie, exploring)?;
            assert_eq!(rt; ended, (Some(Why::Left), 0), "{lie:?}");
        }
        let ended = ended_for(&rt, alloc, Lie::FullLog, exploring)?;
        assert_eq!(rt; ended, (Some(Why::Full), 0));
        // An opening fetches no line.
        let ended = ended_for(&rt, alloc, Lie::ForeignLine, exploring)?;
        assert_eq!(rt; ended, (None, 0));
    }
    Ok(())
}

/// Has one worker take the leaves of this share, which can't put one back.
fn worked_without_room<R: Threads + Wait + Sync>(
    rt: &R,
    alloc: Global,
    share: &Fake,
) -> Result<(), Fail> {
    let cubes = leaves(rt, alloc, share)?;
    let mut cubes = Narrow { cubes };
    worked(
        rt,
        alloc,
        SENDERS,
        share,
        &mut cubes,
        ENOUGH,
        Exploring::Never,
    )
}

/// How many cubes the worker takes that can't put one back, and why it leaves.
fn without_room_in<R: Threads + Wait + Sync>(
    rt: &R,
    alloc: Global,
    share: &Fake,
) -> Result<(u64, Option<Why>), Fail> {
    worked_without_room(rt, alloc, share)?;
    Ok((share.trail.noted().cubes, share.status(rt).why))
}

/// The same of a share of its own.
fn without_room<R: Threads + Wait + Sync>(
    rt: &R,
    alloc: Global,
) -> Result<(u64, Option<Why>), Fail> {
    let share = opened(rt, alloc, SENDERS, 0, Lie::Nothing)?;
    without_room_in(rt, alloc, &share)
}

#[test]
fn halves_without_room_are_want_of_memory(rt: HostRuntime) -> Result<(), Fail> {
    let left = without_room(&rt, rt.alloc())?;
    assert_eq!(rt; left, (1, Some(Why::Memory)));
    Ok(())
}

#[test]
fn long_searches_split_cubes(rt: HostRuntime) -> Result<(), Fail> {
    let alloc = rt.alloc();
    let split = searched(&rt, alloc, SENDERS, 0, Lie::Nothing, ENOUGH)?;
    assert!(rt; split.is_refuted && split.noted.cubes > 1);
    let whole = searched(&rt, alloc, SENDERS, 0, Lie::NoRoom, ENOUGH)?;
    assert!(rt; whole.is_refuted && whole.noted.cubes == 1);
    let cut = searched(&rt, alloc, SENDERS, 0, Lie::Nothing, 3_000)?;
    assert!(rt; !cut.is_refuted && cut.noted.cubes > 1);
    assert_eq!(rt; cut.status.why, Some(Why::Budget));
    Ok(())
}

#[test]
fn a_search_that_is_cut_is_told_of(rt: HostRuntime) -> Result<(), Fail> {
    let Outcome { logged, noted, .. } = searched(&rt, rt.alloc(), SENDERS, 1, Lie::Nothing, 100)?;
    assert_eq!(rt; noted.worker, u64::from(WORKER));
    assert!(rt; noted.cubes == 1 && noted.strayed == 0);
    assert!(rt; logged > 0 && logged as u64 == noted.lines);
    Ok(())
}
