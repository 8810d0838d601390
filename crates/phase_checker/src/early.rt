//! The first phase of an order for which a later one may send too early.

ghost use Rattle.std.specs.Prelude.{◌≡◌, ◌↔◌, ◌<◌, [], IfOk, IfSome, IsTrue, get_or};
ghost use Rattle.sealing.specs.Sealing.{AreLoose};
ghost use Rattle.phase_checker.specs.parts.Early.{AreEmpty, AreLooseEnds, AreLast, AreReachesOfLists, AreSenders, IsFirstWithin, IsReachOfList};
ghost use Rattle.phase_checker.specs.parts.Parts.{IsFirstEarly};

use crate::phase::Phase;
use crate::senders::Senders;
use sealing::Loose;
use std::alloc::{AllocError, Global};

/// The last place at which each of so many numbers stands in the order.
fn last_places(
    alloc: Global,
    count: usize,
    order: &[usize],
) -> Result<Vec<Option<usize>>, AllocError>
    ensures { IfOk result (λ last. AreLast count order.now last.items) }
{
    let mut last: Vec<Option<usize>> = vec![in alloc; None; count]?;
    for place in 0..order.len() {
        let number = order[place];
        if number < count {
            last[number] = Some(place);
        }
    }
    Ok(last)
}

/// What could be sent too early to the phase, where others follow it: `followed` is such a place.
fn ends_at(alloc: Global, phase: &Phase, followed: Option<usize>) -> Result<Vec<Loose>, AllocError>
    ensures { IfOk result (λ list. IfSome followed (λ place. AreLoose phase.now.program list.items)) }
{
    match followed {
        None => Ok(Vec::new(alloc)),
        Some(_place) => phase.loose_ends(alloc),
    }
}

/// What could be sent too early to each phase that others follow.
fn ends_of(alloc: Global, phases: &[Phase], order: &[usize]) -> Result<Vec<Vec<Loose>>, AllocError>
    ensures { IfOk result (λ ends. AreLooseEnds phases.now order.now ends.items) }
{
    let followed = last_places(alloc, phases.len(), &order[..order.len().saturating_sub(1)])?;
    let mut ends = Vec::new(alloc);
    for (number, phase) in phases.iter().enumerate() {
        ends.push(ends_at(alloc, phase, followed[number])?)?;
    }
    Ok(ends)
}

/// What the phases send, and how late.
fn senders_of(alloc: Global, phases: &[Phase], order: &[usize]) -> Result<Senders, AllocError>
    ensures { IfOk result (λ senders. AreSenders phases.now order.now senders) }
{
    let last = last_places(alloc, phases.len(), order)?;
    let mut senders = Senders::new(alloc);
    for (number, phase) in phases.iter().enumerate() {
        if let Some(place) = last[number] {
            senders.put_calls(phase.calls(), place)?;
        }
    }
    Ok(senders)
}

/// The last place at which something of this is sent, or 0.
fn reach(senders: &Senders, list: &[Loose]) -> usize
    ensures { IsReachOfList senders.now list.now result }
{
    let mut reach = 0;
    for entry in list {
        let place = senders.place(entry);
        if reach < place {
            reach = place;
        }
    }
    reach
}

/// The reach of each list.
fn reaches_of(
    alloc: Global,
    senders: &Senders,
    ends: &[Vec<Loose>],
) -> Result<Vec<usize>, AllocError>
    ensures { IfOk result (λ reaches. AreReachesOfLists senders.now ends.now reaches.items) }
{
    let mut reaches = Vec::new(alloc);
    for list in ends {
        reaches.push(reach(senders, list))?;
    }
    Ok(reaches)
}

/// Whether nothing is in any of the lists.
fn are_empty(ends: &[Vec<Loose>]) -> bool
    ensures { IsTrue result → AreEmpty ends.now }
{
    for list in ends {
        if !list.is_empty() {
            return false;
        }
    }
    true
}

/// Whether the place is before the reach of the number.
fn is_within(reaches: &[usize], number: usize, place: usize) -> bool
    ensures { IsTrue result ↔ (place < get_or reaches.now number 0) }
{
    match reaches.get(number) {
        None => false,
        Some(reach) => place < *reach,
    }
}

/// The first place of the order before the reach of the number that stands there.
fn first_within(order: &[usize], reaches: &[usize]) -> Option<usize>
    ensures { IsFirstWithin order.now reaches.now result }
{
    for place in 0..order.len() {
        if is_within(reaches, order[place], place) {
            return Some(place);
        }
    }
    None
}

/// The first place of the order for whose phase a later one may send too early. Numbers of no phase
/// are passed over. The only error is want of memory.
///
/// The time is linear in the order, in the calls of the phases and in what could be sent too early
/// to them, each phase counted once, and in what the latter takes to be found.
pub(crate) fn first_early(
    alloc: Global,
    phases: &[Phase],
    order: &[usize],
) -> Result<Option<usize>, AllocError>
    ensures { IfOk result (IsFirstEarly phases.now order.now) }
{
    let ends = ends_of(alloc, phases, order)?;
    if are_empty(&ends) {
        return Ok(None);
    }
    let senders = senders_of(alloc, phases, order)?;
    let reaches = reaches_of(alloc, &senders, &ends)?;
    Ok(first_within(order, &reaches))
}
