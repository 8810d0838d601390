//! The lines of a program's text, and in which of them its calls stand.

use calltext::Verb;
use plaintext::words_of;
use std::alloc::{AllocError, Global};

/// The lines of a text, without their LFs. What follows the last LF is the last item.
pub fn lines_of(alloc: Global, text: &[u8]) -> Result<Vec<&[u8]>, AllocError> {
    text.split(|byte| *byte == b'\n').collect(alloc)
}

/// What the first word of a call line says.
pub fn verb_of(words: &[&[u8]]) -> Option<Verb> {
    let first = words.first()?;
    Verb::find(first)
}

/// Adds a number for each call of the line of this number, from 1.
fn put_numbers(numbers: &mut Vec<usize>, words: &[&[u8]], number: usize) -> Result<(), AllocError> {
    match verb_of(words) {
        Some(Verb::WaitAll) => put_copies(numbers, 0, words.len().saturating_sub(1)),
        // The send, the receive and two waits, which leave nothing open.
        Some(Verb::SendReceive) => numbers.extend_from_slice(&[number, number, 0, 0]),
        Some(_verb) => put_copies(numbers, number, 1),
        None => Ok(()),
    }
}

/// For each call the number of its line, from 1, or 0 for the waits of a `waitall` and of a
/// `sendrecv`, which leave nothing open.
pub fn line_numbers(alloc: Global, lines: &[&[u8]]) -> Result<Vec<usize>, AllocError> {
    let mut numbers = Vec::new(alloc);
    for (index, line) in lines.iter().enumerate() {
        let words = words_of(alloc, line)?;
        put_numbers(&mut numbers, &words, index + 1)?;
    }
    Ok(numbers)
}

/// Adds a number so often.
fn put_copies(numbers: &mut Vec<usize>, number: usize, count: usize) -> Result<(), AllocError> {
    for _copy in 0..count {
        numbers.push(number)?;
    }
    Ok(())
}
