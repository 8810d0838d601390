//! Texts without some of their calls and ranks.

use crate::excerpts::Excerpt;
use crate::lines::{count_calls, is_call, is_rank, lines_of, verb_of};
use crate::ranks::{heading_rank, new_numbers, put_renumbered};
use crate::running::Hanging;
use crate::ties::keep_partners;
use crate::units::Units;
use callorder::Call;
use calltext::Verb;
use plaintext::words_of;
use std::alloc::{AllocError, Global};
use std::ops::Range;

/// The calls and the ranks that are left out of a text, each by its place, from 0.
#[derive(Drop)]
struct LeftOut {
    calls: Vec<bool>,
    ranks: Vec<bool>,
}

/// Whether the place is marked.
fn is_marked(marks: &[bool], place: usize) -> bool {
    marks.get(place).copied().unwrap_or(false)
}

/// Whether the number is one of these.
fn is_within(numbers: &Range<usize>, number: usize) -> bool {
    numbers.start <= number && number < numbers.end
}

/// For each of so many places whether it is one of these.
fn marks_within(
    alloc: Global,
    count: usize,
    marked: &Range<usize>,
) -> Result<Vec<bool>, AllocError> {
    let mut marks = Vec::with_capacity(alloc, count)?;
    for place in 0..count {
        marks.push(is_within(marked, place))?;
    }
    Ok(marks)
}

/// For each call whether its unit is marked.
fn calls_of(alloc: Global, units: &Units, marks: &[bool]) -> Result<Vec<bool>, AllocError> {
    let mut calls = Vec::with_capacity(alloc, units.of_calls.len())?;
    for unit in units.of_calls.iter() {
        calls.push(is_marked(marks, *unit))?;
    }
    Ok(calls)
}

/// Whether the call is of one of these ranks, or names one.
fn touches(call: &Call, ranks: &Range<usize>) -> bool {
    let destination = call.kind.message().map(|message| message.destination);
    let source = call.kind.pattern().and_then(|pattern| pattern.source);
    is_within(ranks, call.rank as usize)
        || destination.is_some_and(|rank| is_within(ranks, rank as usize))
        || source.is_some_and(|rank| is_within(ranks, rank as usize))
}

/// For each unit whether one of its calls is of one of these ranks, or names one.
fn touched_units(
    alloc: Global,
    units: &Units,
    calls: &[Call],
    ranks: &Range<usize>,
) -> Result<Vec<bool>, AllocError> {
    let mut marks = vec![in alloc; false; units.are_over.len()]?;
    for (call, unit) in calls.iter().zip(units.of_calls.iter()) {
        if touches(call, ranks)
            && let Some(mark) = marks.get_mut(*unit)
        {
            *mark = true;
        }
    }
    Ok(marks)
}

/// The words of a call line that stay, where its first call stands at this place: all or none; of a
/// wait for several requests those of the requests that stay.
fn kept_words<'a>(
    alloc: Global,
    words: &[&'a [u8]],
    left_out: &[bool],
    place: usize,
) -> Result<Vec<&'a [u8]>, AllocError> {
    let is_list = matches!(verb_of(words), Some(Verb::WaitAll));
    let mut kept = Vec::new(alloc);
    for (index, word) in words.iter().enumerate() {
        let call = if is_list {
            place.saturating_add(index.saturating_sub(1))
        } else {
            place
        };
        if (is_list && index == 0) || !is_marked(left_out, call) {
            kept.push(*word)?;
        }
    }
    if is_list && kept.len() < 2 {
        kept.clear();
    }
    Ok(kept)
}

/// Whether the heading stays: it is none of a rank that is left out.
fn heading_stays(line: &[u8], words: &[&[u8]], ranks: &[bool]) -> bool {
    let rank = if is_rank(line) {
        heading_rank(words)
    } else {
        None
    };
    !rank.is_some_and(|rank| is_marked(ranks, rank as usize))
}

/// The text without what is left out. The other ranks are numbered anew.
fn without(alloc: Global, from: &Excerpt, left_out: &LeftOut) -> Result<Excerpt, AllocError> {
    let numbers = new_numbers(alloc, &left_out.ranks)?;
    let lines = lines_of(alloc, &from.text)?;
    let mut out = from.emptied(alloc)?;
    let mut place = 0usize;
    for (index, line) in lines.iter().enumerate() {
        let words = words_of(alloc, line)?;
        if is_call(line) {
            let kept = kept_words(alloc, &words, &left_out.calls, place)?;
            if !kept.is_empty() {
                put_renumbered(&mut out.text, &kept, &numbers)?;
                out.numbers.push(from.number_at(index))?;
            }
            place = place.saturating_add(count_calls(&words));
        } else if !line.is_empty() && heading_stays(line, &words, &left_out.ranks) {
            put_renumbered(&mut out.text, &words, &numbers)?;
            out.numbers.push(from.number_at(index))?;
        }
    }
    Ok(out)
}

/// The text without the units that are marked, but for those that calls that stay have their last
/// partner in.
fn without_marked(
    alloc: Global,
    hanging: &Hanging,
    mut marks: Vec<bool>,
) -> Result<Excerpt, AllocError> {
    keep_partners(
        &hanging.units.unbalanced,
        &hanging.units.of_calls,
        &mut marks,
    );
    let left_out = LeftOut {
        calls: calls_of(alloc, &hanging.units, &marks)?,
        ranks: vec![in alloc; false; hanging.program.ranks() as usize]?,
    };
    without(alloc, &hanging.excerpt, &left_out)
}

/// The text without all units that the run is done with, but for those that calls that stay have
/// their last partner in. It takes time near linear in the text.
pub fn without_over(alloc: Global, hanging: &Hanging) -> Result<Excerpt, AllocError> {
    without_marked(alloc, hanging, hanging.units.are_over.clone()?)
}

/// The text without these units, by their numbers, in the same way. It takes time near linear in
/// the text.
pub fn without_units(
    alloc: Global,
    hanging: &Hanging,
    numbers: Range<usize>,
) -> Result<Excerpt, AllocError> {
    let marks = marks_within(alloc, hanging.units.are_over.len(), &numbers)?;
    without_marked(alloc, hanging, marks)
}

/// Takes the mark off the rank.
fn keep_rank(ranks: &mut [bool], rank: u32) {
    if let Some(mark) = ranks.get_mut(rank as usize) {
        *mark = false;
    }
}

/// For each rank whether no call that stays is of it, or names it.
fn untouched_ranks(
    alloc: Global,
    hanging: &Hanging,
    left_out: &[bool],
) -> Result<Vec<bool>, AllocError> {
    let mut ranks = vec![in alloc; true; hanging.program.ranks() as usize]?;
    for (place, call) in hanging.program.calls().iter().enumerate() {
        if !is_marked(left_out, place) {
            keep_rank(&mut ranks, call.rank);
            if let Some(message) = call.kind.message() {
                keep_rank(&mut ranks, message.destination);
            }
            if let Some(pattern) = call.kind.pattern()
                && let Some(source) = pattern.source
            {
                keep_rank(&mut ranks, source);
            }
        }
    }
    Ok(ranks)
}

/// The text without all units but these, and but for those that calls that stay have their last
/// partner in, and without the ranks that no call then is of or names. It takes time near linear in
/// the text.
pub fn without_others(
    alloc: Global,
    hanging: &Hanging,
    kept: &[bool],
) -> Result<Excerpt, AllocError> {
    let mut marks = Vec::with_capacity(alloc, kept.len())?;
    for unit in kept {
        marks.push(!*unit)?;
    }
    keep_partners(
        &hanging.units.unbalanced,
        &hanging.units.of_calls,
        &mut marks,
    );
    let calls = calls_of(alloc, &hanging.units, &marks)?;
    let ranks = untouched_ranks(alloc, hanging, &calls)?;
    without(alloc, &hanging.excerpt, &LeftOut { calls, ranks })
}

/// The text without these ranks, by their numbers, and without the units that have a call of one of
/// them, or one that names one; the whole text, where a call that stays would lose its last
/// partner. It takes time near linear in the text.
pub fn without_ranks(
    alloc: Global,
    hanging: &Hanging,
    ranks: Range<usize>,
) -> Result<Excerpt, AllocError> {
    let mut marks = touched_units(alloc, &hanging.units, hanging.program.calls(), &ranks)?;
    if keep_partners(
        &hanging.units.unbalanced,
        &hanging.units.of_calls,
        &mut marks,
    ) {
        return hanging.excerpt.copied(alloc);
    }
    let left_out = LeftOut {
        calls: calls_of(alloc, &hanging.units, &marks)?,
        ranks: marks_within(alloc, hanging.program.ranks() as usize, &ranks)?,
    };
    without(alloc, &hanging.excerpt, &left_out)
}
