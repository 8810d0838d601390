//! The shapes of call lines, and the words that break them.

use calltext::{Limits, Slot, Verb, is_name};
use plaintext::{is_word, number_of};
use std::alloc::AllocError;

/// How a shape has what stands in this slot.
fn shape_word(slot: Slot) -> &'static str {
    match slot {
        Slot::Request => "REQUEST",
        Slot::Requests => "REQUEST ..",
        Slot::Handle => "HANDLE",
        Slot::Rank => "RANK",
        Slot::RankOrStar => "RANK-or-*",
        Slot::Tag => "TAG",
        Slot::TagOrStar => "TAG-or-*",
        Slot::Communicator => "[comm NUMBER]",
    }
}

/// Adds the shape of a line with this first word.
pub fn put_shape(out: &mut String, verb: Verb) -> Result<(), AllocError> {
    out.push_str(verb.text())?;
    for slot in verb.slots() {
        out.push(' ')?;
        out.push_str(shape_word(*slot))?;
    }
    Ok(())
}

/// What a word in this slot is called.
pub fn label_of(slot: Slot) -> &'static str {
    match slot {
        Slot::Request | Slot::Requests => "request",
        Slot::Handle => "handle",
        Slot::Rank | Slot::RankOrStar => "rank",
        Slot::Tag | Slot::TagOrStar => "tag",
        Slot::Communicator => "comm",
    }
}

/// The slots that can't be left out, and whether a communicator may follow.
pub fn required_slots(verb: Verb) -> (&'static [Slot], bool) {
    match verb.slots() {
        [slots @ .., Slot::Communicator] => (slots, true),
        slots => (slots, false),
    }
}

/// The slot of the word at this place, where the verb stands at 0; none for those of a communicator
/// and for what may not stand there.
pub fn slot_at(verb: Verb, place: usize) -> Option<Slot> {
    let (slots, _has_communicator) = required_slots(verb);
    slots.get(place.checked_sub(1)?).copied()
}

/// What is wrong with a word.
#[derive(Clone, Copy)]
pub enum WordFault {
    /// It is no number.
    NoNumber,
    /// Its number is below the least or above the most.
    Bounds { least: u32, most: u32 },
    /// It is no name.
    NoName,
}

/// What is wrong with a number that may be from the one to the other.
pub fn number_fault(word: &[u8], least: u32, most: u32) -> Option<WordFault> {
    match number_of(word) {
        None => Some(WordFault::NoNumber),
        Some(number) if number < least || number > most => Some(WordFault::Bounds { least, most }),
        Some(_number) => None,
    }
}

/// What is wrong with a word in this slot, where something is.
pub fn word_fault(slot: Slot, word: &[u8], limits: Limits) -> Option<WordFault> {
    match slot {
        Slot::RankOrStar | Slot::TagOrStar if is_word(word, "*") => None,
        Slot::Rank | Slot::RankOrStar => number_fault(word, 0, limits.peer),
        Slot::Tag | Slot::TagOrStar => number_fault(word, 0, limits.tag),
        Slot::Request | Slot::Requests | Slot::Handle if is_name(word) => None,
        Slot::Request | Slot::Requests | Slot::Handle => Some(WordFault::NoName),
        Slot::Communicator => None,
    }
}
