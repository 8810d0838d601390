//! Which call lines are left out together: those of a send and of the call that may take its
//! message, or that was meant to.

use crate::lines::{count_calls, is_call, lines_of};
use balance::{Imbalance, imbalances};
use callorder::{Kind, Program};
use plaintext::words_of;
use std::alloc::{AllocError, Global};
use waits::{Mismatch, misses_in};

/// The number of a line that is never left out for its own sake: a wait, or a receive on a handle.
pub const FOLLOWS: usize = usize::MAX;

/// The unit that each call line is left out with, and the unit of each call's line: lines with the
/// same number, or `FOLLOWS`.
#[derive(Drop)]
pub struct LineUnits {
    pub of_lines: Vec<usize>,
    pub of_calls: Vec<usize>,
    /// Channels whose sends and takers differ in number.
    pub unbalanced: Vec<Imbalance>,
}

/// For each call the place of its line, from 0, among the call lines of all ranks.
fn places_of(alloc: Global, text: &[u8]) -> Result<Vec<usize>, AllocError> {
    let lines = lines_of(alloc, text)?;
    let mut places = Vec::new(alloc);
    let mut place = 0usize;
    for line in lines.iter() {
        if is_call(line) {
            let words = words_of(alloc, line)?;
            put_copies(&mut places, place, count_calls(&words))?;
            place = place.saturating_add(1);
        }
    }
    Ok(places)
}

/// Adds a place so often.
fn put_copies(places: &mut Vec<usize>, place: usize, count: usize) -> Result<(), AllocError> {
    for _copy in 0..count {
        places.push(place)?;
    }
    Ok(())
}

/// How near a send is to a call that takes messages, for the two to be left out together.
#[derive(Clone, Copy, PartialEq, Eq)]
enum Near {
    /// It fits, and the call names its source and tag.
    Named,
    /// It fits, and the call names its tag.
    Tagged,
    /// It fits.
    Fits,
    /// It goes to the call's rank, and the call takes messages of its rank or of any.
    SameRanks,
    /// It would fit, but for its rank.
    OtherSource,
    /// It would fit, but for the rank that it goes to, and is of another rank.
    OtherDestination,
}

/// Whether a send and a call are so near.
fn is_near(program: &Program, send: usize, taker: usize, near: Near) -> bool {
    let (Some(sent), Some(taken)) = (program.call(send), program.call(taker)) else {
        return false;
    };
    let (Some(message), Some(pattern)) = (sent.kind.message(), taken.kind.pattern()) else {
        return false;
    };
    let fits = program.are_fit(send, taker);
    match near {
        Near::Named => fits && pattern.source.is_some() && pattern.tag.is_some(),
        Near::Tagged => fits && pattern.tag.is_some(),
        Near::Fits => fits,
        Near::SameRanks => {
            message.destination == taken.rank && pattern.source.is_none_or(|rank| rank == sent.rank)
        }
        Near::OtherSource => misses_in(program, send, taker) == Some(Mismatch::Source),
        Near::OtherDestination => {
            misses_in(program, send, taker) == Some(Mismatch::Destination)
                && sent.rank != taken.rank
        }
    }
}

/// Pairs each call that takes messages, and has no send yet, with the first send that is so near
/// and has no such call yet.
fn pair(program: &Program, near: Near, mates: &mut [Option<usize>]) {
    for taker in 0..mates.len() {
        let is_free = mates[taker].is_none() && !program.is_probe(taker);
        if is_free && let Some(send) = free_send(program, near, mates, taker) {
            put_pair(mates, send, taker);
        }
    }
}

/// The first send so near that has no mate.
fn free_send(
    program: &Program,
    near: Near,
    mates: &[Option<usize>],
    taker: usize,
) -> Option<usize> {
    for (send, mate) in mates.iter().enumerate() {
        if mate.is_none() && is_near(program, send, taker, near) {
            return Some(send);
        }
    }
    None
}

/// Makes two calls mates.
fn put_pair(mates: &mut [Option<usize>], send: usize, taker: usize) {
    if send < mates.len() && taker < mates.len() {
        mates[send] = Some(taker);
        mates[taker] = Some(send);
    }
}

/// For each send and each call that takes messages its mate, and for each probe the first send that
/// fits.
fn mates_of(alloc: Global, program: &Program) -> Result<Vec<Option<usize>>, AllocError> {
    let mut mates = vec![in alloc; None; program.calls().len()]?;
    pair(program, Near::Named, &mut mates);
    pair(program, Near::Tagged, &mut mates);
    pair(program, Near::Fits, &mut mates);
    pair(program, Near::SameRanks, &mut mates);
    pair(program, Near::OtherSource, &mut mates);
    pair(program, Near::OtherDestination, &mut mates);
    for probe in 0..mates.len() {
        if program.is_probe(probe) {
            mates[probe] = first_send(program, probe);
        }
    }
    Ok(mates)
}

/// The first send that fits the probe.
fn first_send(program: &Program, probe: usize) -> Option<usize> {
    for send in 0..program.calls().len() {
        if program.are_fit(send, probe) {
            return Some(send);
        }
    }
    None
}

/// Whether lines of such a call stay as long as the call that they end.
fn follows(kind: &Kind) -> bool {
    matches!(kind, Kind::Wait { .. } | Kind::MatchedReceive { .. })
}

/// Makes one unit of two.
fn join(units: &mut [usize], one: usize, other: usize) {
    for unit in units.iter_mut() {
        if *unit == other {
            *unit = one;
        }
    }
}

/// Joins the units of the lines at two places.
fn join_at(units: &mut [usize], one: usize, other: usize) {
    let (Some(one), Some(other)) = (units.get(one).copied(), units.get(other).copied()) else {
        return;
    };
    if one != FOLLOWS && other != FOLLOWS {
        join(units, one.min(other), one.max(other));
    }
}

/// A unit for each call line, each of its own, but for those that follow others. `places` has the
/// line of each call.
fn single_units(
    alloc: Global,
    program: &Program,
    places: &[usize],
) -> Result<Vec<usize>, AllocError> {
    let mut units = Vec::new(alloc);
    for (call, place) in program.calls().iter().zip(places.iter()) {
        if *place >= units.len() {
            units.push(if follows(&call.kind) { FOLLOWS } else { *place })?;
        }
    }
    Ok(units)
}

/// The unit of each call: that of its line.
fn units_of_calls(
    alloc: Global,
    of_lines: &[usize],
    places: &[usize],
) -> Result<Vec<usize>, AllocError> {
    let mut of_calls = Vec::with_capacity(alloc, places.len())?;
    for place in places {
        of_calls.push(of_lines.get(*place).copied().unwrap_or(FOLLOWS))?;
    }
    Ok(of_calls)
}

/// The units of a text's call lines. A send and the call that may take its message are of one unit,
/// also where the two miss one another by a tag, a communicator or a rank; so what is left has no
/// new call without a mate.
pub fn units_of(alloc: Global, text: &[u8], program: &Program) -> Result<LineUnits, AllocError> {
    let places = places_of(alloc, text)?;
    let mates = mates_of(alloc, program)?;
    let mut of_lines = single_units(alloc, program, &places)?;
    for (call, mate) in mates.iter().enumerate() {
        if let Some(mate) = mate {
            let one = places.get(call).copied().unwrap_or(FOLLOWS);
            let other = places.get(*mate).copied().unwrap_or(FOLLOWS);
            join_at(&mut of_lines, one, other);
        }
    }
    let of_calls = units_of_calls(alloc, &of_lines, &places)?;
    Ok(LineUnits {
        of_lines,
        of_calls,
        unbalanced: imbalances(alloc, program)?,
    })
}
