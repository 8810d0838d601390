//! What ranks know of finders of any source as a run goes on, and which calls such finders need in
//! their phase for it.

use crate::finders::RankColumns;
use crate::graph::{Edge, Needs};
use crate::lists::{at, count_up_to, put};
use crate::reaches::{Reach, merge, place_of};
use crate::routes::Wildcards;
use crate::tying::partner;
use callorder::{Call, Kind, LongProgram, Message, Policy};
use calltext::Mode;
use semantics::Step;
use std::alloc::{AllocError, Global};
use std::collections::HashMap;
use std::mem;

/// From where a message goes where, with its tag and communicator, or without these.
#[derive(Clone, Copy, PartialEq, Eq, Hash)]
struct Route {
    source: u32,
    destination: u32,
    envelope: Option<(u32, u32)>,
}

/// What is the same all along a run.
#[derive(Drop)]
pub struct Known {
    pub partners: Vec<Option<usize>>,
    pub waits: Vec<usize>,
    pub columns: RankColumns,
    pub wildcards: Wildcards,
}

#[derive(Drop)]
struct Clocks {
    /// The next call of each rank.
    next: Vec<usize>,
    /// For each rank what it has learnt of others.
    known: Vec<Vec<Reach>>,
    /// What was known where a call was issued, while others will learn from it.
    issued: Vec<Vec<Reach>>,
    /// For each call how often others will still learn from its issue.
    readings: Vec<usize>,
    /// The last send on each route.
    last: HashMap<Route, usize>,
}

fn route_of(source: u32, message: &Message, whole: bool) -> Route {
    Route {
        source,
        destination: message.destination,
        envelope: if whole {
            Some((message.communicator, message.tag))
        } else {
            None
        },
    }
}

fn last_sends(
    alloc: Global,
    program: &LongProgram,
    columns: &RankColumns,
) -> Result<HashMap<Route, usize>, AllocError> {
    let mut last = HashMap::new(alloc);
    let calls = program.calls();
    for place in 0..calls.len() {
        if let Some(message) = calls[place].kind.message() {
            if columns.column(message.destination).is_some() {
                last.insert(route_of(calls[place].rank, &message, true), place)?;
                last.insert(route_of(calls[place].rank, &message, false), place)?;
            }
        }
    }
    Ok(last)
}

/// For each rank its first call, and for one without calls the end.
fn first_calls(alloc: Global, program: &LongProgram) -> Result<Vec<usize>, AllocError> {
    let calls = program.calls();
    let mut first = vec![in alloc; calls.len(); program.ranks() as usize]?;
    for place in (0..calls.len()).rev() {
        put(&mut first, calls[place].rank as usize, place);
    }
    Ok(first)
}

/// Whether a send of this mode has returned only where its message was found.
fn waits_for_taker(policy: Policy, mode: Mode) -> bool {
    match mode {
        Mode::Synchronous => true,
        Mode::Standard => policy == Policy::Never,
        Mode::Buffered => false,
    }
}

impl Known {
    /// The send whose message this call is sure to take.
    fn sure_send(&self, place: usize, call: &Call) -> Option<usize> {
        if !self.wildcards.is_sure(call) {
            return None;
        }
        partner(&self.partners, place)
    }

    /// The call that is sure to take this send's message.
    fn sure_taker(&self, program: &LongProgram, send: usize) -> Option<usize> {
        let taker = partner(&self.partners, send)?;
        let call = program.call(taker)?;
        if self.wildcards.is_sure(&call) {
            Some(taker)
        } else {
            None
        }
    }

    /// The call that was issued where this operation is done, as far as that is sure.
    fn done(&self, program: &LongProgram, place: usize) -> Option<usize> {
        let call = program.call(place)?;
        match call.kind {
            Kind::Send { mode, .. } => {
                if waits_for_taker(program.policy(), mode) {
                    self.sure_taker(program, place)
                } else {
                    None
                }
            }
            Kind::Receive { .. } | Kind::MatchedProbe { .. } => self.sure_send(place, &call),
            _ => None,
        }
    }

    /// The call that was issued where this call has returned, as far as that is sure.
    fn returned(&self, program: &LongProgram, place: usize) -> Option<usize> {
        let call = program.call(place)?;
        match call.kind {
            Kind::Send { blocking, .. } | Kind::Receive { blocking, .. } => {
                if blocking {
                    self.done(program, place)
                } else {
                    None
                }
            }
            Kind::Wait { operation } => self.done(program, operation),
            _ => self.done(program, place),
        }
    }

    /// For each call how often others will learn from its issue.
    fn readings(&self, alloc: Global, program: &LongProgram) -> Result<Vec<usize>, AllocError> {
        let mut readings = vec![in alloc; 0; program.calls().len()]?;
        for place in 1..program.calls().len() {
            if program.are_of_one_rank(place - 1, place) {
                if let Some(other) = self.returned(program, place - 1) {
                    let more = at(&readings, other).saturating_add(1);
                    put(&mut readings, other, more);
                }
            }
        }
        Ok(readings)
    }
}

impl Clocks {
    fn new(alloc: Global, program: &LongProgram, known: &Known) -> Result<Clocks, AllocError> {
        let ranks = program.ranks() as usize;
        let mut clocks = Clocks {
            next: first_calls(alloc, program)?,
            known: Vec::with_capacity(alloc, ranks)?,
            issued: Vec::with_capacity(alloc, program.calls().len())?,
            readings: known.readings(alloc, program)?,
            last: last_sends(alloc, program, &known.columns)?,
        };
        for _rank in 0..ranks {
            clocks.known.push(Vec::new(alloc))?;
        }
        for _place in 0..program.calls().len() {
            clocks.issued.push(Vec::new(alloc))?;
        }
        Ok(clocks)
    }

    /// The last send of a rank on a route, or 0.
    fn last_of(&self, route: &Route) -> usize {
        self.last.get(route).copied().unwrap_or(0)
    }

    /// How far a rank that issues the call at this place knows the rank of a column to be.
    fn known_of(&self, columns: &RankColumns, rank: u32, place: usize, column: usize) -> usize {
        if column == columns.number(rank) {
            return place;
        }
        match self.known.get(rank as usize) {
            None => 0,
            Some(known) => place_of(known, column),
        }
    }

    /// Learns at a call that has returned that the rank of a column is further than it was known to
    /// be.
    fn learn(
        &self,
        columns: &RankColumns,
        call: &Call,
        place: usize,
        old: usize,
        new: Reach,
        needs: &mut Needs,
    ) -> Result<(), AllocError> {
        let number = new.column;
        let more = new.place;
        if number == columns.number(call.rank) {
            return Ok(());
        }
        let Some(column) = columns.columns.get(number) else {
            return Ok(());
        };
        let first = count_up_to(&column.ends, old);
        if first >= count_up_to(&column.ends, more) {
            return Ok(());
        }
        let route = Route {
            source: call.rank,
            destination: column.rank,
            envelope: None,
        };
        let Some(finder) = column.finders.get(first) else {
            return Ok(());
        };
        if self.last_of(&route) > place {
            needs.edges.push(Edge {
                from: *finder,
                to: place,
            })?;
        }
        Ok(())
    }

    /// Learns at a call that has returned what was known where another was issued.
    fn hear(
        &mut self,
        alloc: Global,
        columns: &RankColumns,
        call: &Call,
        place: usize,
        other: usize,
        needs: &mut Needs,
    ) -> Result<(), AllocError> {
        let heard = self.read(alloc, other)?;
        let Some(known) = self.known.get_mut(call.rank as usize) else {
            return Ok(());
        };
        let old = mem::replace(known, Vec::new(alloc));
        *known = merge(alloc, old.as_slice(), heard.as_slice())?;
        for reach in heard {
            let before = place_of(old.as_slice(), reach.column);
            if before < reach.place {
                self.learn(columns, call, place, before, reach, needs)?;
            }
        }
        Ok(())
    }

    /// What was known where the call was issued, which is let go after the last reading.
    fn read(&mut self, alloc: Global, call: usize) -> Result<Vec<Reach>, AllocError> {
        let left = at(&self.readings, call).saturating_sub(1);
        put(&mut self.readings, call, left);
        let Some(issued) = self.issued.get_mut(call) else {
            return Ok(Vec::new(alloc));
        };
        if left == 0 {
            return Ok(mem::replace(issued, Vec::new(alloc)));
        }
        Vec::from_slice(alloc, issued)
    }

    /// Has the first finder that isn't known to have found need this send, where it is the last one
    /// of its rank that it fits.
    fn send(
        &self,
        columns: &RankColumns,
        call: &Call,
        place: usize,
        needs: &mut Needs,
    ) -> Result<(), AllocError> {
        let Some(message) = call.kind.message() else {
            return Ok(());
        };
        if self.last_of(&route_of(call.rank, &message, true)) != place {
            return Ok(());
        }
        let Some(column) = columns.column(message.destination) else {
            return Ok(());
        };
        let number = columns.number(message.destination);
        let known = self.known_of(columns, call.rank, place, number);
        let first = count_up_to(&column.ends, known);
        if let Some(finder) = columns.fitting(first, &message) {
            let edge = Edge {
                from: finder,
                to: place,
            };
            needs.edges.push(edge)?;
            needs.unordered.push(edge)?;
        }
        Ok(())
    }

    /// Goes on with the issue of a rank's next call.
    fn issue(
        &mut self,
        alloc: Global,
        program: &LongProgram,
        known: &Known,
        rank: u32,
        needs: &mut Needs,
    ) -> Result<(), AllocError> {
        let place = at(&self.next, rank as usize);
        put(&mut self.next, rank as usize, place.saturating_add(1));
        let Some(call) = program.call(place) else {
            return Ok(());
        };
        let before = place.saturating_sub(1);
        if before < place && program.is_of_rank(before, rank) {
            if let Some(other) = known.returned(program, before) {
                self.hear(alloc, &known.columns, &call, before, other, needs)?;
            }
        }
        self.send(&known.columns, &call, place, needs)?;
        self.keep(alloc, &known.columns, rank, place)
    }

    /// Keeps what is known where a call is issued that others will learn from.
    fn keep(
        &mut self,
        alloc: Global,
        columns: &RankColumns,
        rank: u32,
        place: usize,
    ) -> Result<(), AllocError> {
        if at(&self.readings, place) == 0 {
            return Ok(());
        }
        let Some(known) = self.known.get(rank as usize) else {
            return Ok(());
        };
        let kept = if columns.column(rank).is_some() {
            let column = columns.number(rank);
            merge(alloc, known.as_slice(), &[Reach { column, place }])?
        } else {
            Vec::from_slice(alloc, known)?
        };
        if let Some(issued) = self.issued.get_mut(place) {
            *issued = kept;
        }
        Ok(())
    }
}

/// Adds what finders of any source need, so that no later phase sends too early to them.
pub fn seal_all(
    alloc: Global,
    program: &LongProgram,
    run: &[Step],
    known: &Known,
    needs: &mut Needs,
) -> Result<(), AllocError> {
    if known.columns.columns.is_empty() {
        return Ok(());
    }
    let mut clocks = Clocks::new(alloc, program, known)?;
    for step in run {
        if let Step::Issue { rank, .. } = step {
            clocks.issue(alloc, program, known, *rank, needs)?;
        }
    }
    Ok(())
}
