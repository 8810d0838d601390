//! What is wrong with a call line among the others.

use crate::lines::{bytes_at, lines_of};
use crate::shapes::slot_at;
use crate::sizes::{Size, size_words};
use crate::syntax::ranks_of;
use crate::told::{File, Help};
use callorder::CallFault;
use calltext::{Slot, Verb};
use plaintext::{number_of, words_of};
use std::alloc::{AllocError, Global};

const UNKNOWN_REQUEST: &str = " isn't started above, or was waited for already";

const OPEN_REQUEST: &str = " was started above, and not waited for yet";

const UNKNOWN_HANDLE: &str = " isn't probed above, or its message was received already";

const OPEN_HANDLE: &str = " was probed above, and its message not received yet";

const TOO_MANY: &str = "with this line there are more than 1024 calls of all ranks\n";

/// The number of the line, from 1, in this place, from 1, of a rank.
fn line_number(lines: &[&[u8]], rank: u32, place: usize) -> usize {
    let heading = lines
        .iter()
        .enumerate()
        .filter(|(_index, line)| line.starts_with(b"rank "))
        .nth(rank as usize);
    match heading {
        Some((index, _line)) => index.saturating_add(place).saturating_add(1),
        None => 0,
    }
}

/// The word of the line that stands in this slot, if the line can have only one such.
fn named<'a>(slot: Slot, words: &[&'a [u8]]) -> Option<&'a [u8]> {
    let first = words.first()?;
    let verb = Verb::find(first)?;
    let (_place, word) = words
        .iter()
        .enumerate()
        .find(|(place, _word)| slot_at(verb, *place) == Some(slot))?;
    Some(*word)
}

/// Whether the word at this place names a rank that is none of so many.
fn is_stray(verb: Verb, place: usize, word: &[u8], ranks: usize) -> bool {
    match slot_at(verb, place) {
        Some(Slot::Rank | Slot::RankOrStar) => {
            number_of(word).is_some_and(|number| number as usize >= ranks)
        }
        _ => false,
    }
}

/// The rank of the line that the program lacks.
fn stray_rank<'a>(words: &[&'a [u8]], ranks: usize) -> Option<&'a [u8]> {
    let first = words.first()?;
    let verb = Verb::find(first)?;
    let (_place, word) = words
        .iter()
        .enumerate()
        .find(|(place, word)| is_stray(verb, *place, word, ranks))?;
    Some(*word)
}

/// Tells a fault of the request or the handle of a line.
fn put_named(help: &mut Help, slot: Slot, words: &[&[u8]], fault: &str) -> Result<(), AllocError> {
    let kind = if slot == Slot::Request {
        "request"
    } else {
        "handle"
    };
    match named(slot, words) {
        Some(word) => {
            help.name(word)?;
            let name = &help.word;
            write!(help.notes, "{kind} {name}{fault}\n")
        }
        None => write!(help.notes, "{kind} of it{fault}\n"),
    }
}

/// Tells which rank the program lacks.
fn put_stray(help: &mut Help, lines: &[&[u8]], words: &[&[u8]]) -> Result<(), AllocError> {
    let ranks = ranks_of(lines);
    help.name(stray_rank(words, ranks).unwrap_or(b"?"))?;
    let rank = &help.word;
    let last = ranks.saturating_sub(1);
    write!(
        help.notes,
        "rank {rank} isn't there: the ranks are 0 to {last}\n"
    )
}

/// Tells the fault of a call line.
fn put_fault(
    help: &mut Help,
    lines: &[&[u8]],
    words: &[&[u8]],
    fault: CallFault,
) -> Result<(), AllocError> {
    let (slot, told) = match fault {
        CallFault::RequestUnknown => (Slot::Request, UNKNOWN_REQUEST),
        CallFault::RequestOpen => (Slot::Request, OPEN_REQUEST),
        CallFault::RequestLeft => (Slot::Request, " is never waited for"),
        CallFault::HandleUnknown => (Slot::Handle, UNKNOWN_HANDLE),
        CallFault::HandleOpen => (Slot::Handle, OPEN_HANDLE),
        CallFault::HandleLeft => (Slot::Handle, " is never received"),
        CallFault::PeerRange => return put_stray(help, lines, words),
        CallFault::TooManyCalls => return help.notes.push_str(TOO_MANY),
    };
    put_named(help, slot, words, told)
}

/// Tells what is wrong with the call line in this place, from 1, of a rank.
pub fn put_resolve(
    help: &mut Help,
    alloc: Global,
    program: &[u8],
    rank: u32,
    place: usize,
    fault: CallFault,
) -> Result<(), AllocError> {
    let lines = lines_of(alloc, program)?;
    let number = line_number(&lines, rank, place);
    help.show_call(alloc, &lines, number, rank)?;
    let words = words_of(alloc, bytes_at(&lines, number))?;
    put_fault(help, &lines, &words, fault)?;
    if fault != CallFault::TooManyCalls {
        return Ok(());
    }
    match size_words(alloc, program, Size::Calls)? {
        None => Ok(()),
        Some(size) => write!(help.notes, "{size}\n"),
    }
}
