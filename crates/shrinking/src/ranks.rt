//! Texts without some of their ranks, and how the others are numbered then.

use crate::excerpts::Excerpt;
use crate::lines::{count_ranks, is_rank, lines_of, verb_of};
use calltext::Slot;
use plaintext::{number_of, put_number, words_of};
use std::alloc::{AllocError, Global};

/// What stands in the words of a line behind the first. A line that is no call's is a heading,
/// which names a rank, or how many ranks there are.
fn slots_of(words: &[&[u8]]) -> &'static [Slot] {
    match verb_of(words) {
        Some(verb) => verb.slots(),
        None => &[Slot::Rank],
    }
}

/// The rank, or how many ranks there are, that the word at this place names, if it names one.
fn rank_at(slots: &[Slot], words: &[&[u8]], place: usize) -> Option<u32> {
    match slots.get(place.checked_sub(1)?) {
        Some(Slot::Rank | Slot::RankOrStar) => number_of(words.get(place)?),
        _ => None,
    }
}

/// Whether the words name the rank.
pub fn names(words: &[&[u8]], rank: u32) -> bool {
    let slots = slots_of(words);
    (0..words.len()).any(|place| rank_at(slots, words, place) == Some(rank))
}

/// The rank whose heading a line of these words is.
pub fn heading_rank(words: &[&[u8]]) -> Option<u32> {
    rank_at(&[Slot::Rank], words, 1)
}

/// For each rank the number that it gets once these are left out, and behind the last one how many
/// stay.
pub fn new_numbers(alloc: Global, left_out: &[bool]) -> Result<Vec<u32>, AllocError> {
    let mut numbers = Vec::new(alloc);
    let mut kept = 0u32;
    for is_out in left_out {
        numbers.push(kept)?;
        if !*is_out {
            kept = kept.saturating_add(1);
        }
    }
    numbers.push(kept)?;
    Ok(numbers)
}

/// Adds a word, where it names a rank by the new number.
fn put_word(
    out: &mut Vec<u8>,
    word: &[u8],
    rank: Option<u32>,
    numbers: &[u32],
) -> Result<(), AllocError> {
    match rank.and_then(|rank| numbers.get(rank as usize)) {
        Some(number) => put_number(out, *number),
        None => out.extend_from_slice(word),
    }
}

/// Adds a line of these words, in which ranks, and how many there are, have their new numbers.
pub fn put_renumbered(
    out: &mut Vec<u8>,
    words: &[&[u8]],
    numbers: &[u32],
) -> Result<(), AllocError> {
    let slots = slots_of(words);
    for (place, word) in words.iter().enumerate() {
        if place > 0 {
            out.push(b' ')?;
        }
        put_word(out, word, rank_at(slots, words, place), numbers)?;
    }
    out.push(b'\n')?;
    Ok(())
}

/// The new numbers of the text's ranks once this one is left out.
fn numbers_without(alloc: Global, text: &[u8], rank: u32) -> Result<Vec<u32>, AllocError> {
    let mut left_out = vec![in alloc; false; count_ranks(alloc, text)?]?;
    if let Some(mark) = left_out.get_mut(rank as usize) {
        *mark = true;
    }
    new_numbers(alloc, &left_out)
}

/// The text without the rank of this number, from 0: without its lines and those that name it.
/// Higher ranks are numbered anew.
pub fn without_rank(alloc: Global, from: &Excerpt, rank: u32) -> Result<Excerpt, AllocError> {
    let numbers = numbers_without(alloc, &from.text, rank)?;
    let lines = lines_of(alloc, &from.text)?;
    let mut out = from.emptied(alloc)?;
    let mut inside = false;
    for (index, line) in lines.iter().enumerate() {
        let words = words_of(alloc, line)?;
        if is_rank(line) {
            inside = names(&words, rank);
        }
        if !inside && !line.is_empty() && !names(&words, rank) {
            put_renumbered(&mut out.text, &words, &numbers)?;
            out.numbers.push(from.number_at(index))?;
        }
    }
    Ok(out)
}
