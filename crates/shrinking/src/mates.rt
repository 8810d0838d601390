//! Which send belongs to which call that takes messages or probes, at the end of a run that is
//! stuck.

use callorder::{Call, LongProgram};
use semantics::State;
use std::alloc::{AllocError, Global};
use std::collections::{HashMap, VecDeque};

/// By what a send and a call that takes messages or probes, neither of which found another in the
/// run, belong together.
#[derive(Clone, Copy, PartialEq, Eq)]
enum Near {
    /// The call names the source, tag and communicator that the message has.
    Envelope,
    /// The call names the source.
    Source,
    /// The call takes any source.
    Destination,
    /// The call names the tag and communicator that the message has, and another source.
    OtherSource,
    /// The call names the source, tag and communicator that the message has, which goes to another
    /// rank.
    OtherDestination,
}

/// What two such calls have in common: the destination, source, tag and communicator as far as they
/// count.
#[derive(Clone, Copy, PartialEq, Eq, Hash)]
struct Route {
    destination: Option<u32>,
    source: Option<u32>,
    tag: Option<u32>,
    communicator: Option<u32>,
}

/// The part of a route that counts for calls that are so near.
fn counted(route: Route, near: Near) -> Route {
    let plain = Route {
        tag: None,
        communicator: None,
        ..route
    };
    match near {
        Near::Envelope => route,
        Near::Source => plain,
        Near::Destination => Route {
            source: None,
            ..plain
        },
        Near::OtherSource => Route {
            source: None,
            ..route
        },
        Near::OtherDestination => Route {
            destination: None,
            ..route
        },
    }
}

/// The route of a send.
fn send_route(call: &Call, near: Near) -> Option<Route> {
    let message = call.kind.message()?;
    let whole = Route {
        destination: Some(message.destination),
        source: Some(call.rank),
        tag: Some(message.tag),
        communicator: Some(message.communicator),
    };
    Some(counted(whole, near))
}

/// Whether a call that takes messages of this source and tag, or any, names as much as counts.
fn names_enough(source: Option<u32>, tag: Option<u32>, near: Near) -> bool {
    match near {
        Near::Envelope | Near::OtherDestination => source.is_some() && tag.is_some(),
        Near::Source => source.is_some(),
        Near::Destination => source.is_none(),
        Near::OtherSource => tag.is_some(),
    }
}

/// The route of a call that takes messages, or of a probe, where it names as much.
fn finder_route(call: &Call, near: Near) -> Option<Route> {
    let pattern = call.kind.pattern()?;
    if !names_enough(pattern.source, pattern.tag, near) {
        return None;
    }
    let whole = Route {
        destination: Some(call.rank),
        source: pattern.source,
        tag: pattern.tag,
        communicator: Some(pattern.communicator),
    };
    Some(counted(whole, near))
}

/// For each route the sends on it that have no mate, in their order.
#[derive(Drop)]
struct Rows {
    alloc: Global,
    rows: HashMap<Route, VecDeque<usize>>,
}

impl Rows {
    /// Adds a send behind those of its route.
    fn add(&mut self, route: Route, send: usize) -> Result<(), AllocError> {
        let mut row = self
            .rows
            .remove(&route)
            .unwrap_or(VecDeque::new(self.alloc));
        row.push_back(send)?;
        self.rows.insert(route, row)?;
        Ok(())
    }

    /// The first send of a route.
    fn first(&self, route: &Route) -> Option<usize> {
        let row = self.rows.get(route)?;
        row.front().copied()
    }

    /// Takes off the first send of a route.
    fn take(&mut self, route: &Route) -> Option<usize> {
        let row = self.rows.get_mut(route)?;
        row.pop_front()
    }
}

/// The sends that have no mate, by their routes.
fn rows_of(
    alloc: Global,
    program: &LongProgram,
    near: Near,
    mates: &[Option<usize>],
) -> Result<Rows, AllocError> {
    let mut rows = Rows {
        alloc,
        rows: HashMap::new(alloc),
    };
    for (place, call) in program.calls().iter().enumerate() {
        if is_free(mates, place)
            && let Some(route) = send_route(call, near)
        {
            rows.add(route, place)?;
        }
    }
    Ok(rows)
}

/// Whether the call at the place has no mate.
fn is_free(mates: &[Option<usize>], place: usize) -> bool {
    mates.get(place).copied().unwrap_or(None).is_none()
}

/// Gives the call at a place this mate.
fn put_mate(mates: &mut [Option<usize>], place: usize, other: usize) {
    if let Some(mate) = mates.get_mut(place) {
        *mate = Some(other);
    }
}

/// Gives the call at a place, if it finds one on its route, a send as its mate. That of a probe
/// stays there for the call that takes its message.
fn put_finder(rows: &mut Rows, mates: &mut [Option<usize>], place: usize, call: &Call, near: Near) {
    let Some(route) = finder_route(call, near) else {
        return;
    };
    if call.kind.is_probe() {
        if let Some(send) = rows.first(&route) {
            put_mate(mates, place, send);
        }
    } else if let Some(send) = rows.take(&route) {
        put_mate(mates, place, send);
        put_mate(mates, send, place);
    }
}

/// Pairs the calls that have no mate yet and are so near, first ones with first ones.
fn pair(
    alloc: Global,
    program: &LongProgram,
    near: Near,
    mates: &mut [Option<usize>],
) -> Result<(), AllocError> {
    let mut rows = rows_of(alloc, program, near, mates)?;
    for (place, call) in program.calls().iter().enumerate() {
        if is_free(mates, place) {
            put_finder(&mut rows, mates, place, call, near);
        }
    }
    Ok(())
}

/// For each call the one that found it, or that it found, in the run; of those that found none a
/// send and the call that may take its message have one another, also where the two miss one
/// another by a tag, a communicator or a rank, and a probe has the send that it may see. So what is
/// left of a text, once both are left out, has no new call without a mate. It takes time near
/// linear in the calls.
pub fn mates_of(
    alloc: Global,
    program: &LongProgram,
    end: &State,
) -> Result<Vec<Option<usize>>, AllocError> {
    let count = program.calls().len();
    let mut mates = Vec::with_capacity(alloc, count)?;
    for place in 0..count {
        mates.push(end.partner(place))?;
    }
    pair(alloc, program, Near::Envelope, &mut mates)?;
    pair(alloc, program, Near::Source, &mut mates)?;
    pair(alloc, program, Near::Destination, &mut mates)?;
    pair(alloc, program, Near::OtherSource, &mut mates)?;
    pair(alloc, program, Near::OtherDestination, &mut mates)?;
    Ok(mates)
}
