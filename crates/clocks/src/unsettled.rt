//! The races that nothing settles yet: the send fits the finder, is of another rank than the send
//! that this one found, and is not taken up to there, and no count tells that the finder has found.
//!
//! Nothing is promised of these. They tell of which ranks finders are counted.

ghost use Rattle.std.specs.Prelude.{◌≡◌};
ghost use Rattle.clocks.specs.parts.Clocks.{block_of};
ghost use Rattle.clocks.specs.parts.Exact.{IsAsked};
ghost use Rattle.clocks.specs.parts.Finders.{IsListing, IsRising, group_at};
ghost use Rattle.clocks.specs.Spans.{AreSpans};

use crate::classes::{Classes, end_open};
use crate::columns::Columns;
use crate::exact::Exact;
use crate::finders::{Covers, Finders, group_of};
use crate::race::{Race, first_unknown, is_no_race_if_found, larger, message_of, smaller};
use crate::rows::Count;
use callorder::LongProgram;
use semantics::{State, Step};
use std::alloc::{AllocError, Global};

/// Lists the open races of the send for finders of the group, from one call up to another, until
/// there are so many in the list. The only error is want of memory.
fn list_in_group(
    program: &LongProgram,
    state: &State,
    columns: &Columns,
    told: &[Count],
    names: &[usize],
    finders: &Finders,
    covers: &Covers,
    send: usize,
    group: usize,
    first: usize,
    end: usize,
    most: usize,
    races: &mut Vec<Race>,
) -> Result<(), AllocError>
    requires spans { AreSpans program.now (block_of names.now) }
    requires rising { IsRising (group_at finders.now group) }
{
    let low = first_unknown(told, covers, send, group, finders.before(group, first));
    for place in low..finders.before(group, end) {
        if races.len() >= most {
            return Ok(());
        }
        if let Some(finder) = finders.at(group, place) {
            if !is_no_race_if_found(program, state, columns, told, names, finder, send) {
                races.push(Race { send, finder })?;
            }
        }
    }
    Ok(())
}

/// Lists the open races of the send, if it is issued, until there are so many in the list. The only
/// error is want of memory.
fn list_of_send(
    program: &LongProgram,
    state: &State,
    columns: &Columns,
    told: &[Count],
    names: &[usize],
    finders: &Finders,
    covers: &Covers,
    classes: &Classes,
    send: usize,
    most: usize,
    races: &mut Vec<Race>,
) -> Result<(), AllocError>
    requires spans { AreSpans program.now (block_of names.now) }
    requires listing { IsListing program.now (block_of names.now) finders.now }
{
    if !state.is_issued(program, send) {
        return Ok(());
    }
    let Some(message) = message_of(program, send) else {
        return Ok(());
    };
    let start = classes.rank_start(program, send);
    let high = smaller(
        end_open(program, state, names, send),
        classes.rank_end(program, send),
    );
    let groups = finders.count();
    let named = group_of(
        groups,
        message.destination,
        message.communicator,
        Some(message.tag),
    );
    let low = larger(classes.first_open(program, state, names, send), start);
    list_in_group(
        program, state, columns, told, names, finders, covers, send, named, low, high, most, races,
    )?;
    let any = group_of(groups, message.destination, message.communicator, None);
    let low = larger(
        classes.first_open_of_any(program, state, names, send),
        start,
    );
    list_in_group(
        program, state, columns, told, names, finders, covers, send, any, low, high, most, races,
    )
}

/// For each rank whether a send that goes to it needs a count. The only error is want of memory.
pub fn needed_ranks(
    alloc: Global,
    program: &LongProgram,
    state: &State,
    columns: &Columns,
    names: &[usize],
    finders: &Finders,
    classes: &Classes,
) -> Result<Vec<bool>, AllocError>
    requires spans { AreSpans program.now (block_of names.now) }
    requires listing { IsListing program.now (block_of names.now) finders.now }
{
    let covers = Covers::none(alloc);
    let mut needed = vec![in alloc; false; program.ranks() as usize]?;
    let mut races = Vec::new(alloc);
    for send in 0..program.calls().len() {
        if let Some(message) = message_of(program, send) {
            let rank = message.destination as usize;
            if needed.get(rank).copied() == Some(false) {
                list_of_send(
                    program,
                    state,
                    columns,
                    &[],
                    names,
                    finders,
                    &covers,
                    classes,
                    send,
                    1,
                    &mut races,
                )?;
                if !races.is_empty() {
                    races.clear();
                    need(&mut needed, rank);
                }
            }
        }
    }
    Ok(needed)
}

/// Notes that the rank is needed.
fn need(needed: &mut Vec<bool>, rank: usize) {
    if let Some(place) = needed.get_mut(rank) {
        *place = true;
    }
}

/// For each rank whether a finder of the races found a send of it. The only error is want of memory.
fn own_ranks(
    alloc: Global,
    program: &LongProgram,
    state: &State,
    races: &[Race],
) -> Result<Vec<bool>, AllocError> {
    let mut needed = vec![in alloc; false; program.ranks() as usize]?;
    for race in races {
        if let Some(own) = state.partner(race.finder) {
            if let Some(call) = program.call(own) {
                need(&mut needed, call.rank as usize);
            }
        }
    }
    Ok(needed)
}

/// Lists open races from a send on, all of a send or up to so many, until there are enough. Gives
/// the send from which on they aren't listed. The only error is want of memory.
fn list_from(
    program: &LongProgram,
    state: &State,
    columns: &Columns,
    told: &[Count],
    names: &[usize],
    finders: &Finders,
    covers: &Covers,
    classes: &Classes,
    first: usize,
    most: usize,
    enough: usize,
    races: &mut Vec<Race>,
) -> Result<usize, AllocError>
    requires spans { AreSpans program.now (block_of names.now) }
    requires listing { IsListing program.now (block_of names.now) finders.now }
{
    for send in first..program.calls().len() {
        if races.len() >= enough {
            return Ok(send);
        }
        list_of_send(
            program, state, columns, told, names, finders, covers, classes, send, most, races,
        )?;
    }
    Ok(usize::MAX)
}

/// Has races be noted from the first open one on, where that one turns out to be ordered. Where it
/// doesn't it ends the search, so that nothing is counted for the others. The only error is want of
/// memory.
pub fn note_first(
    alloc: Global,
    program: &LongProgram,
    state: &State,
    columns: &Columns,
    told: &[Count],
    names: &[usize],
    finders: &Finders,
    covers: &Covers,
    classes: &Classes,
    exact: &mut Exact,
) -> Result<(), AllocError>
    requires spans { AreSpans program.now (block_of names.now) }
    requires listing { IsListing program.now (block_of names.now) finders.now }
    requires asked { IsAsked program.now exact.old }
    ensures partners { exact.new.partners ≡ exact.old.partners }
    ensures asked { IsAsked program.now exact.new }
{
    if columns.count() == 0 {
        return Ok(());
    }
    let mut races = Vec::new(alloc);
    list_from(
        program, state, columns, told, names, finders, covers, classes, 0, 1, 1, &mut races,
    )?;
    let Some(race) = races.as_slice().first().copied() else {
        return Ok(());
    };
    if !exact.tells(alloc, program, race.finder, race.send)? {
        return Ok(());
    }
    exact.note_from(race.send);
    Ok(())
}

/// Notes which of the open races from the send on are ordered, where they are to be noted next: as
/// many as there are calls, and those of the send that these end with. The only error is want of
/// memory.
pub fn note_next(
    alloc: Global,
    program: &LongProgram,
    state: &State,
    columns: &Columns,
    told: &[Count],
    names: &[usize],
    finders: &Finders,
    covers: &Covers,
    classes: &Classes,
    run: &[Step],
    exact: &mut Exact,
    send: usize,
) -> Result<(), AllocError>
    requires spans { AreSpans program.now (block_of names.now) }
    requires listing { IsListing program.now (block_of names.now) finders.now }
    requires asked { IsAsked program.now exact.old }
    ensures partners { exact.new.partners ≡ exact.old.partners }
    ensures asked { IsAsked program.now exact.new }
{
    if !exact.is_noted_up_to(send) {
        return Ok(());
    }
    let mut races = Vec::new(alloc);
    let enough = program.calls().len();
    let end = list_from(
        program,
        state,
        columns,
        told,
        names,
        finders,
        covers,
        classes,
        send,
        usize::MAX,
        enough,
        &mut races,
    )?;
    let needed = own_ranks(alloc, program, state, races.as_slice())?;
    exact.note(alloc, program, run, races, needed.as_slice(), end)
}
