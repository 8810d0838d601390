//! Which calls of a text are left out together.

use crate::groups::Groups;
use crate::lines::{count_calls, is_call, lines_of, verb_of};
use crate::mates::mates_of;
use balance::{Imbalance, imbalances};
use callorder::{Call, Kind, LongProgram};
use calltext::Verb;
use plaintext::words_of;
use semantics::State;
use std::alloc::{AllocError, Global};

/// For each call the number of the unit that it is left out with, from 0, in the order of their
/// first calls; for each unit whether the run is done with it; and the channels whose sends and
/// takers differ in number.
#[derive(Drop)]
pub struct Units {
    pub of_calls: Vec<usize>,
    pub are_over: Vec<bool>,
    pub unbalanced: Vec<Imbalance>,
}

/// Joins calls that found one another.
fn join_mates(groups: &mut Groups, mates: &[Option<usize>]) {
    for (place, mate) in mates.iter().enumerate() {
        if let Some(mate) = mate {
            groups.join(place, *mate);
        }
    }
}

/// Joins each wait with what it ends, and each matched probe with the receive on its handle.
fn join_ends(groups: &mut Groups, calls: &[Call]) {
    for (place, call) in calls.iter().enumerate() {
        match call.kind {
            Kind::Wait { operation } => groups.join(place, operation),
            Kind::MatchedProbe { receive, .. } => groups.join(place, receive),
            _ => {}
        }
    }
}

/// Joins the send and the receive of each line that stands for both.
fn join_parts(alloc: Global, groups: &mut Groups, text: &[u8]) -> Result<(), AllocError> {
    let lines = lines_of(alloc, text)?;
    let mut place = 0usize;
    for line in lines.iter() {
        if is_call(line) {
            let words = words_of(alloc, line)?;
            if matches!(verb_of(&words), Some(Verb::SendReceive)) {
                groups.join(place, place.saturating_add(1));
            }
            place = place.saturating_add(count_calls(&words));
        }
    }
    Ok(())
}

/// For each call the number of its unit, and how many units there are. The call that leads a group
/// comes first, so it has its number once others ask for it.
fn number_units(
    alloc: Global,
    groups: &mut Groups,
    calls: usize,
) -> Result<(Vec<usize>, usize), AllocError> {
    let mut of_calls = Vec::with_capacity(alloc, calls)?;
    let mut count = 0usize;
    for place in 0..calls {
        let leader = groups.leader(place);
        match of_calls.get(leader).copied() {
            Some(unit) => of_calls.push(unit)?,
            None => {
                of_calls.push(count)?;
                count = count.saturating_add(1);
            }
        }
    }
    Ok((of_calls, count))
}

/// Whether the run is done with the call at a place: it has returned, and its message was taken.
fn is_over(program: &LongProgram, end: &State, place: usize, call: &Call) -> bool {
    let waits = call.kind.message().is_some() || call.kind.pattern().is_some();
    end.returned(program, place) && (!waits || end.partner(place).is_some())
}

/// For each of so many units whether the run is done with all of its calls.
fn over_units(
    alloc: Global,
    program: &LongProgram,
    end: &State,
    of_calls: &[usize],
    count: usize,
) -> Result<Vec<bool>, AllocError> {
    let mut are_over = vec![in alloc; true; count]?;
    for (place, call) in program.calls().iter().enumerate() {
        let unit = of_calls.get(place).copied().unwrap_or(count);
        if !is_over(program, end, place, call)
            && let Some(mark) = are_over.get_mut(unit)
        {
            *mark = false;
        }
    }
    Ok(are_over)
}

/// The units of a text, where a run of its program ends so: a send and the call that took its
/// message in the run, or may take it; with a start goes its wait, with a matched probe its
/// receive, with one half of a line its other half. It takes time near linear in the text.
pub fn units_of(
    alloc: Global,
    text: &[u8],
    program: &LongProgram,
    end: &State,
) -> Result<Units, AllocError> {
    let calls = program.calls();
    let mates = mates_of(alloc, program, end)?;
    let mut groups = Groups::single(alloc, calls.len())?;
    join_mates(&mut groups, &mates);
    join_ends(&mut groups, calls);
    join_parts(alloc, &mut groups, text)?;
    let (of_calls, count) = number_units(alloc, &mut groups, calls.len())?;
    let are_over = over_units(alloc, program, end, &of_calls, count)?;
    Ok(Units {
        of_calls,
        are_over,
        unbalanced: imbalances(alloc, program)?,
    })
}
