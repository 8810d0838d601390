//! What is wrong with a line that may not stand in its place, or has a number beyond its limit.

use crate::calls::put_call;
use crate::lines::{FoundLine, find};
use crate::spelling::spelling_fault;
use crate::told::{File, Help};
use calltext::Verb;
use plaintext::{is_word, number_of, words_of};
use std::alloc::{AllocError, Global};

/// All calls.
const CALLS: &str =
    "a call: send, ssend, bsend, isend, issend, ibsend, recv, irecv, probe, mprobe, mrecv, \
    imrecv, wait, waitall or sendrecv";

/// How many headings of ranks stand above the line of this number.
fn headings_above(lines: &[&[u8]], number: usize) -> usize {
    lines
        .iter()
        .take(number.saturating_sub(1))
        .filter(|line| line.starts_with(b"rank "))
        .count()
}

/// How many ranks the program has, by its first line.
pub fn ranks_of(lines: &[&[u8]]) -> usize {
    let Some(first) = lines.first() else {
        return 0;
    };
    let Some(number) = first.strip_prefix(b"ranks ") else {
        return 0;
    };
    number_of(number).unwrap_or(0) as usize
}

/// Tells what may stand in a place.
fn put_expected(help: &mut Help, lines: &[&[u8]], number: usize) -> Result<(), AllocError> {
    let is_evidence = lines
        .first()
        .is_some_and(|line| line.starts_with(b"evidence "));
    if number == 1 && is_evidence {
        return help.notes.push_str(
            "this looks like an evidence: the order is PROGRAM, then EVIDENCE\n",
        );
    }
    let ranks = help.limits.ranks;
    let out = &mut help.expected;
    match number {
        1 => write!(out, "ranks NUMBER, from 1 to {ranks}"),
        2 => out.push_str("policy any, policy none or policy all"),
        3 => out.push_str("rank 0"),
        _ => {
            let next = headings_above(lines, number);
            if next < ranks_of(lines) {
                write!(out, "rank {next}, or ")?;
            }
            out.push_str(CALLS)
        }
    }
}

/// The call that is spelled so but for capitals and a front `mpi_`.
fn meant(alloc: Global, word: &[u8]) -> Result<Option<Verb>, AllocError> {
    let lower = word.to_ascii_lowercase(alloc)?;
    let bare = lower.strip_prefix(b"mpi_").unwrap_or(&lower);
    Ok(Verb::find(bare))
}

/// Tells what is wrong with the words of a line below the first three.
fn put_words(
    help: &mut Help,
    alloc: Global,
    lines: &[&[u8]],
    number: usize,
    line: &[u8],
) -> Result<(), AllocError> {
    let words = words_of(alloc, line)?;
    let Some(first) = words.first() else {
        return put_expected(help, lines, number);
    };
    if let Some(verb) = Verb::find(first) {
        return put_call(help, verb, &words);
    }
    if is_word(first, "rank") {
        help.notes
            .push_str("each rank has one heading, and they stand in order\n")?;
    }
    if let Some(verb) = meant(alloc, first)? {
        let text = verb.text();
        write!(help.notes, "did you mean \"{text}\"?\n")?;
    }
    put_expected(help, lines, number)
}

/// Shows the line of this number, and tells what is wrong with it.
pub fn put_syntax(
    help: &mut Help,
    alloc: Global,
    lines: &[&[u8]],
    number: usize,
) -> Result<(), AllocError> {
    let found = find(lines, number);
    help.show(alloc, File::Program, lines, number)?;
    let FoundLine::Whole(line) = found else {
        return put_end(help, lines, number, found);
    };
    if let Some(fault) = spelling_fault(line) {
        return write!(help.notes, "{fault}\n");
    }
    if number > 3 {
        put_words(help, alloc, lines, number, line)
    } else {
        put_expected(help, lines, number)
    }
}

/// The same of a line at the end of the text, which is missing or lacks its LF.
fn put_end(
    help: &mut Help,
    lines: &[&[u8]],
    number: usize,
    found: FoundLine<'_>,
) -> Result<(), AllocError> {
    if let FoundLine::Missing = found {
        help.notes.push_str("the text ends above it\n")?;
        return put_expected(help, lines, number);
    }
    help.notes.push_str("it lacks its LF at the end: each line ends with one, the last one too\n")
}
