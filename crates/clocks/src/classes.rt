//! Which finders a send is looked at for: those from one place up to another.

ghost use Rattle.std.specs.Prelude.{◌≡◌, ◌≤◌, ◌<◌, ℕ, IsTrue, IfSome, IfNone};
ghost use Rattle.callorder.specs.Programs.{are_fit, are_of_one_rank, call_at};
ghost use Rattle.clocks.specs.parts.Clocks.{HasEarlier, IsTaken, IsOfRank, block_of};
ghost use Rattle.clocks.specs.parts.Finders.{GoOneWay, HaveOneWay, IsOfAnyTag};
ghost use Rattle.clocks.specs.Spans.{AreSpans};

use crate::spans::name;
use callorder::{LongProgram, Message};
use semantics::State;
use std::alloc::{AllocError, Global};

/// For each send the one before it of its rank with the same envelope, and for each rank its first
/// call and the one behind its last. Nothing is promised of these: each is tested where it is used.
#[derive(Drop)]
pub struct Classes {
    previous: Vec<Option<usize>>,
    previous_of_any: Vec<Option<usize>>,
    starts: Vec<usize>,
    ends: Vec<usize>,
}

/// The rank that the send goes to, and `None` for another call, which fits no finder.
fn destination(program: &LongProgram, send: usize) -> Option<u32>
    ensures some { IfSome result (λ rank. (finder : ℕ) → IsTrue (are_fit program.now send finder) → IsOfRank program.now finder rank) }
    ensures none { IfNone result ((finder : ℕ) → IsTrue (are_fit program.now send finder) → ⊥) }
{
    match program.call(send) {
        None => None,
        Some(call) => match call.kind.message() {
            None => None,
            Some(message) => Some(message.destination),
        },
    }
}

/// Whether no finder before the place is of the rank, as the call before that place tells.
fn is_none_before(program: &LongProgram, start: usize, rank: u32) -> bool
    ensures { IsTrue result → (finder : ℕ) → finder < start → IsOfRank program.now finder rank → ⊥ }
{
    let _calls = program.calls();
    if start == 0 {
        return true;
    }
    match program.call(start - 1) {
        None => false,
        Some(last) => last.rank < rank,
    }
}

/// Whether no finder from the place on is of the rank, as the call at that place tells.
fn is_none_from(program: &LongProgram, end: usize, rank: u32) -> bool
    ensures { IsTrue result → (finder : ℕ) → end ≤ finder → IsOfRank program.now finder rank → ⊥ }
{
    let calls = program.calls().len();
    if calls <= end {
        return true;
    }
    match program.call(end) {
        None => false,
        Some(next) => rank < next.rank,
    }
}

/// Whether two sends have the same destination, communicator and tag.
fn have_one_message(program: &LongProgram, one: usize, other: usize) -> bool
    ensures { IsTrue result → IsTrue (are_of_one_rank program.now one other) → (finder : ℕ) →
        IsTrue (are_fit program.now other finder) → IsTrue (are_fit program.now one finder) }
{
    match program.call(one) {
        None => false,
        Some(first) => match program.call(other) {
            None => false,
            Some(second) => have_same(first.kind.message(), second.kind.message()),
        },
    }
}

/// Whether the two are the same.
fn have_same(one: Option<Message>, other: Option<Message>) -> bool
    ensures { IsTrue result → one ≡ other }
{
    one == other
}

/// Whether the one is an earlier send of the rank of the other, with the same envelope.
fn is_earlier(program: &LongProgram, earlier: usize, other: usize) -> bool
    ensures { IsTrue result → (earlier < other) × IsTrue (are_of_one_rank program.now earlier other) ×
        ((finder : ℕ) → IsTrue (are_fit program.now other finder) →
        IsTrue (are_fit program.now earlier finder)) }
{
    earlier < other
        && program.are_of_one_rank(earlier, other)
        && have_one_message(program, earlier, other)
}

/// Whether two sends have the same destination and communicator.
fn have_one_way(program: &LongProgram, one: usize, other: usize) -> bool
    ensures { IsTrue result → HaveOneWay (call_at program.now one) (call_at program.now other) }
{
    match program.call(one) {
        None => false,
        Some(first) => match program.call(other) {
            None => false,
            Some(second) => go_one_way(first.kind.message(), second.kind.message()),
        },
    }
}

/// Whether both are messages, with the same destination and communicator.
fn go_one_way(one: Option<Message>, other: Option<Message>) -> bool
    ensures { IsTrue result → GoOneWay one other }
{
    match (one, other) {
        (Some(first), Some(second)) => {
            first.destination == second.destination && first.communicator == second.communicator
        }
        _ => false,
    }
}

/// Whether the one is an earlier send of the rank of the other, which any finder of any tag that
/// the other fits takes too.
fn is_earlier_of_any(program: &LongProgram, earlier: usize, other: usize) -> bool
    ensures { IsTrue result → (earlier < other) × IsTrue (are_of_one_rank program.now earlier other) ×
        HaveOneWay (call_at program.now earlier) (call_at program.now other) }
{
    earlier < other
        && program.are_of_one_rank(earlier, other)
        && have_one_way(program, earlier, other)
}

/// A call from which on each one is of the block of the send's taker, or behind the taker. Of a
/// send that is not taken it is the number of calls.
pub fn end_open(program: &LongProgram, state: &State, names: &[usize], other: usize) -> usize
    requires { AreSpans program.now (block_of names.now) }
    ensures { (finder : ℕ) → result ≤ finder → IsTrue (are_fit program.now other finder) →
        IsTaken (block_of names.now) state.now other finder }
{
    match state.partner(other) {
        None => program.calls().len(),
        Some(taker) => name(names, taker),
    }
}

/// Notes that there is a call of the rank at the place.
fn note_call(starts: &mut Vec<usize>, ends: &mut Vec<usize>, rank: u32, place: usize) {
    if let Some(end) = ends.get_mut(rank as usize) {
        if *end == 0 {
            if let Some(start) = starts.get_mut(rank as usize) {
                *start = place;
            }
        }
        *end = place.saturating_add(1);
    }
}

/// For each send the one before it of its rank with the same envelope, from the sends' ranks,
/// destinations, communicators, tags and places, which are sorted. The only error is want of
/// memory.
fn previous_of(
    alloc: Global,
    sends: &[(u32, u32, u32, u32, usize)],
    calls: usize,
) -> Result<Vec<Option<usize>>, AllocError> {
    let mut previous: Vec<Option<usize>> = vec![in alloc; None; calls]?;
    let mut last: Option<(u32, u32, u32, u32, usize)> = None;
    for send in sends.iter() {
        if let Some(before) = last {
            if before.0 == send.0
                && before.1 == send.1
                && before.2 == send.2
                && before.3 == send.3
            {
                if let Some(slot) = previous.get_mut(send.4) {
                    *slot = Some(before.4);
                }
            }
        }
        last = Some(*send);
    }
    Ok(previous)
}

impl Classes {
    /// Those of a program. The only error is want of memory.
    pub fn new(alloc: Global, program: &LongProgram) -> Result<Self, AllocError> {
        let calls = program.calls().len();
        let mut sends: Vec<(u32, u32, u32, u32, usize)> = Vec::new(alloc);
        let mut starts = vec![in alloc; 0; program.ranks() as usize]?;
        let mut ends = vec![in alloc; 0; program.ranks() as usize]?;
        for place in 0..calls {
            if let Some(call) = program.call(place) {
                note_call(&mut starts, &mut ends, call.rank, place);
                if let Some(message) = call.kind.message() {
                    sends.push((
                        call.rank,
                        message.destination,
                        message.communicator,
                        message.tag,
                        place,
                    ))?;
                }
            }
        }
        sends.sort()?;
        let previous = previous_of(alloc, sends.as_slice(), calls)?;
        for send in sends.iter_mut() {
            send.3 = 0;
        }
        sends.sort()?;
        let previous_of_any = previous_of(alloc, sends.as_slice(), calls)?;
        Ok(Classes {
            previous,
            previous_of_any,
            starts,
            ends,
        })
    }

    /// A call before which the send needs no look: of each finder before it that the send fits, an
    /// earlier send of its rank fits it too, and isn't taken up to there.
    pub fn first_open(
        &self,
        program: &LongProgram,
        state: &State,
        names: &[usize],
        other: usize,
    ) -> usize
        requires { AreSpans program.now (block_of names.now) }
        ensures { (finder : ℕ) → finder < result → IsTrue (are_fit program.now other finder) →
            HasEarlier program.now (block_of names.now) state.now other finder }
    {
        let Some(earlier) = self.previous.get(other).copied().unwrap_or(None) else {
            return 0;
        };
        if !is_earlier(program, earlier, other) {
            return 0;
        }
        match state.partner(earlier) {
            None => usize::MAX,
            Some(taker) => name(names, taker),
        }
    }

    /// As `first_open`, of finders of any tag.
    pub fn first_open_of_any(
        &self,
        program: &LongProgram,
        state: &State,
        names: &[usize],
        other: usize,
    ) -> usize
        requires { AreSpans program.now (block_of names.now) }
        ensures { (finder : ℕ) → finder < result → IsOfAnyTag program.now finder →
            IsTrue (are_fit program.now other finder) →
            HasEarlier program.now (block_of names.now) state.now other finder }
    {
        let Some(earlier) = self.previous_of_any.get(other).copied().unwrap_or(None) else {
            return 0;
        };
        if !is_earlier_of_any(program, earlier, other) {
            return 0;
        }
        match state.partner(earlier) {
            None => usize::MAX,
            Some(taker) => name(names, taker),
        }
    }

    /// A call before which no finder is of the rank that the send goes to.
    pub fn rank_start(&self, program: &LongProgram, other: usize) -> usize
        ensures { (finder : ℕ) → finder < result → IsTrue (are_fit program.now other finder) → ⊥ }
    {
        let Some(rank) = destination(program, other) else {
            return 0;
        };
        let start = self.starts.get(rank as usize).copied().unwrap_or(0);
        if !is_none_before(program, start, rank) {
            return 0;
        }
        start
    }

    /// A call from which on no finder is of the rank that the send goes to.
    pub fn rank_end(&self, program: &LongProgram, other: usize) -> usize
        ensures { (finder : ℕ) → result ≤ finder → IsTrue (are_fit program.now other finder) → ⊥ }
    {
        let Some(rank) = destination(program, other) else {
            return 0;
        };
        let calls = program.calls().len();
        let end = self.ends.get(rank as usize).copied().unwrap_or(calls);
        if !is_none_from(program, end, rank) {
            return calls;
        }
        end
    }
}
