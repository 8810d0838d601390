//! What is wrong with a call line whose first word is a call.

use crate::shapes::{
    WordFault, label_of, number_fault, put_shape, required_slots, slot_at, word_fault,
};
use crate::told::Help;
use calltext::Verb;
use plaintext::is_word;
use std::alloc::AllocError;

/// Tells what is wrong with a word that is called so.
fn put_word(help: &mut Help, label: &str, word: &[u8], fault: &str) -> Result<(), AllocError> {
    help.name(word)?;
    let shown = &help.word;
    write!(help.notes, "{label} {shown}: {fault}\n")
}

/// Tells that a number is out of its bounds.
fn put_bounds(
    help: &mut Help,
    label: &str,
    word: &[u8],
    least: u32,
    most: u32,
) -> Result<(), AllocError> {
    help.name(word)?;
    let shown = &help.word;
    write!(help.notes, "{label} {shown}: ")?;
    if least == 0 {
        write!(help.notes, "at most {most}\n")
    } else {
        write!(
            help.notes,
            "{least} to {most}; where none is written 0 is meant\n"
        )
    }
}

/// Tells this fault of a word that is called so.
fn put_word_fault(
    help: &mut Help,
    label: &str,
    word: &[u8],
    fault: WordFault,
) -> Result<(), AllocError> {
    match fault {
        WordFault::Bounds { least, most } => put_bounds(help, label, word, least, most),
        WordFault::NoNumber => {
            let fault = "a number is expected, without sign and leading zeros";
            put_word(help, label, word, fault)
        }
        WordFault::NoName => {
            let fault = "a name is a letter a to z, then at most 15 letters a to z and digits";
            put_word(help, label, word, fault)
        }
    }
}

/// Tells what is wrong with the first word that breaks the shape. False where none does.
fn put_broken(help: &mut Help, verb: Verb, words: &[&[u8]]) -> Result<bool, AllocError> {
    for (place, word) in words.iter().enumerate() {
        if let Some(slot) = slot_at(verb, place)
            && let Some(fault) = word_fault(slot, word, help.limits)
        {
            put_word_fault(help, label_of(slot), word, fault)?;
            return Ok(true);
        }
    }
    Ok(false)
}

/// Tells what is wrong with the words that follow those of the shape.
fn put_more(help: &mut Help, has_communicator: bool, rest: &[&[u8]]) -> Result<(), AllocError> {
    match rest {
        [] => Ok(()),
        [word, number] if has_communicator && is_word(word, "comm") => {
            match number_fault(number, 1, help.limits.communicator) {
                Some(fault) => put_word_fault(help, "comm", number, fault),
                None => Ok(()),
            }
        }
        [word] if has_communicator && is_word(word, "comm") => help
            .notes
            .push_str("the number of the communicator is missing\n"),
        [word, ..] => put_word(
            help,
            "too many words, from",
            word,
            "nothing may stand there",
        ),
    }
}

/// Tells which words break the shape of a call line, if any do.
fn put_faults(help: &mut Help, verb: Verb, words: &[&[u8]]) -> Result<(), AllocError> {
    if put_broken(help, verb, words)? {
        return Ok(());
    }
    if let Some(slot) = slot_at(verb, words.len()) {
        let label = label_of(slot);
        return write!(help.notes, "a {label} is missing\n");
    }
    let (slots, has_communicator) = required_slots(verb);
    let known = slots.len().saturating_add(1);
    put_more(help, has_communicator, words.get(known..).unwrap_or(&[]))
}

/// Tells what is wrong with a call line whose first word is this one, and the shape that it has to
/// have.
pub fn put_call(help: &mut Help, verb: Verb, words: &[&[u8]]) -> Result<(), AllocError> {
    if let Verb::WaitAll = verb {
        help.notes.push_str(
            "a name is a letter a to z, then at most 15 letters a to z and digits\n",
        )?;
    } else {
        put_faults(help, verb, words)?;
    }
    put_shape(&mut help.expected, verb)
}
