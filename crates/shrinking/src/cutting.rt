//! Texts without some of their call lines.

use crate::excerpts::Excerpt;
use crate::lines::{is_call, is_rank, lines_of};
use crate::pairing::FOLLOWS;
use crate::ranks::names;
use plaintext::words_of;
use std::alloc::{AllocError, Global};
use writing::put_line;

/// The numbers of units, each once, in the order of their first lines.
pub fn numbers_of(alloc: Global, units: &[usize]) -> Result<Vec<usize>, AllocError> {
    let mut numbers = Vec::new(alloc);
    for unit in units {
        if *unit != FOLLOWS && !numbers.contains(unit) {
            numbers.push(*unit)?;
        }
    }
    Ok(numbers)
}

/// Marks a unit, if it is one of a line's own.
fn mark_unit(marks: &mut [bool], unit: usize) {
    if let Some(mark) = marks.get_mut(unit) {
        *mark = true;
    }
}

/// Of each unit by its number, below a bound, whether it is one of these.
pub fn marks_of(alloc: Global, bound: usize, numbers: &[usize]) -> Result<Vec<bool>, AllocError> {
    let mut marks = vec![in alloc; false; bound]?;
    for number in numbers {
        mark_unit(&mut marks, *number);
    }
    Ok(marks)
}

/// The text without the call lines of the units that are marked.
pub fn without_units(
    alloc: Global,
    from: &Excerpt,
    units: &[usize],
    left_out: &[bool],
) -> Result<Excerpt, AllocError> {
    let lines = lines_of(alloc, &from.text)?;
    let mut out = from.emptied(alloc)?;
    let mut place = 0usize;
    for (index, line) in lines.iter().enumerate() {
        let mut stays = !line.is_empty();
        if is_call(line) {
            let unit = units.get(place).copied().unwrap_or(FOLLOWS);
            stays = !left_out.get(unit).copied().unwrap_or(false);
            place = place.saturating_add(1);
        }
        if stays {
            put_line(&mut out.text, line)?;
            out.numbers.push(from.number_at(index))?;
        }
    }
    Ok(out)
}

/// Of each unit by its number whether it has a line of the rank, from 0, or one that names it.
pub fn marks_of_rank(
    alloc: Global,
    text: &[u8],
    units: &[usize],
    rank: u32,
) -> Result<Vec<bool>, AllocError> {
    let lines = lines_of(alloc, text)?;
    let mut marks = vec![in alloc; false; units.len()]?;
    let mut place = 0usize;
    let mut inside = false;
    for line in lines.iter() {
        let words = words_of(alloc, line)?;
        if is_rank(line) {
            inside = names(&words, rank);
        }
        if is_call(line) {
            if inside || names(&words, rank) {
                mark_unit(&mut marks, units.get(place).copied().unwrap_or(FOLLOWS));
            }
            place = place.saturating_add(1);
        }
    }
    Ok(marks)
}
