//! Texts in which each request is started and waited for, and each handle made and received on.

use crate::excerpts::Excerpt;
use crate::lines::{is_call, is_rank, lines_of, verb_of};
use calltext::Verb;
use plaintext::words_of;
use std::alloc::{AllocError, Global};
use writing::{put_line, put_words};

/// The request or the handle that a line makes.
fn made<'a>(words: &[&'a [u8]]) -> Option<&'a [u8]> {
    let started = match verb_of(words)? {
        Verb::Send { started, .. } => started,
        Verb::Receive { started } => started,
        Verb::MatchedReceive { started } => started,
        Verb::MatchedProbe => true,
        _ => false,
    };
    if started { words.get(1).copied() } else { None }
}

/// At which place, from 0, the names begin that a line uses up: requests, or a handle. They are the
/// last words of the line.
fn used_from(words: &[&[u8]]) -> usize {
    match verb_of(words) {
        Some(Verb::Wait | Verb::WaitAll) => 1,
        Some(Verb::MatchedReceive { started }) => 1 + usize::from(started),
        _ => words.len(),
    }
}

/// Whether the name is among these.
fn is_among(names: &[&[u8]], name: &[u8]) -> bool {
    names.iter().any(|other| *other == name)
}

/// The line without the names that are not among the open ones, if it uses up others or none.
fn with_open<'a>(
    alloc: Global,
    words: &[&'a [u8]],
    open: &[&[u8]],
) -> Result<Option<Vec<&'a [u8]>>, AllocError> {
    let from = used_from(words);
    let mut kept = Vec::new(alloc);
    let mut uses = 0usize;
    for (place, word) in words.iter().enumerate() {
        if place < from {
            kept.push(*word)?;
        } else if is_among(open, word) {
            kept.push(*word)?;
            uses = uses.saturating_add(1);
        }
    }
    if from < words.len() && uses == 0 {
        return Ok(None);
    }
    Ok(Some(kept))
}

/// Takes the names out that the words use up, and adds the one that they make.
fn follow<'a>(open: &mut Vec<&'a [u8]>, words: &[&'a [u8]]) -> Result<(), AllocError> {
    let from = used_from(words).min(words.len());
    let used = &words[from..];
    open.retain(|name| !is_among(used, name));
    if let Some(name) = made(words) {
        open.push(name)?;
    }
    Ok(())
}

/// Adds the words of the line of this number, without names that aren't open, or nothing where all
/// that it uses up aren't.
fn put_used<'a>(
    out: &mut Excerpt,
    number: usize,
    alloc: Global,
    words: &[&'a [u8]],
    open: &mut Vec<&'a [u8]>,
) -> Result<(), AllocError> {
    let found = with_open(alloc, words, open)?;
    let Some(kept) = found else {
        return Ok(());
    };
    follow(open, &kept)?;
    put_words(&mut out.text, &kept)?;
    out.text.push(b'\n')?;
    out.numbers.push(number)?;
    Ok(())
}

/// The text without waits for requests that no line above starts, and without receives on handles
/// that no line above makes.
fn without_unknown(alloc: Global, from: &Excerpt) -> Result<Excerpt, AllocError> {
    let lines = lines_of(alloc, &from.text)?;
    let mut out = from.emptied(alloc)?;
    let mut open = Vec::new(alloc);
    for (index, line) in lines.iter().enumerate() {
        let number = from.number_at(index);
        if is_rank(line) {
            open.clear();
        }
        if is_call(line) {
            let words = words_of(alloc, line)?;
            put_used(&mut out, number, alloc, &words, &mut open)?;
        } else if !line.is_empty() {
            put_line(&mut out.text, line)?;
            out.numbers.push(number)?;
        }
    }
    Ok(out)
}

/// Whether what the line makes is wanted below it, or it makes nothing. What it uses up is wanted
/// from then on.
fn is_wanted<'a>(
    alloc: Global,
    wanted: &mut Vec<&'a [u8]>,
    line: &'a [u8],
) -> Result<bool, AllocError> {
    let words = words_of(alloc, line)?;
    if let Some(name) = made(&words) {
        if !is_among(wanted, name) {
            return Ok(false);
        }
        wanted.retain(|other| *other != name);
    }
    let from = used_from(&words).min(words.len());
    wanted.extend_from_slice(&words[from..])?;
    Ok(true)
}

/// The text without starts of requests that no line below waits for, and without handles that no
/// line below receives on.
fn without_left(alloc: Global, from: &Excerpt) -> Result<Excerpt, AllocError> {
    let lines = lines_of(alloc, &from.text)?;
    let mut stay = vec![in alloc; false; lines.len()]?;
    let mut wanted = Vec::new(alloc);
    for (line, stays) in lines.iter().zip(stay.iter_mut()).rev() {
        if is_rank(line) {
            wanted.clear();
        }
        *stays = !is_call(line) || is_wanted(alloc, &mut wanted, line)?;
    }
    lines_that_stay(alloc, from, &lines, &stay)
}

/// The lines that stay, but for empty ones.
fn lines_that_stay(
    alloc: Global,
    from: &Excerpt,
    lines: &[&[u8]],
    stay: &[bool],
) -> Result<Excerpt, AllocError> {
    let mut out = from.emptied(alloc)?;
    for (index, line) in lines.iter().enumerate() {
        if !line.is_empty() && stay.get(index).copied().unwrap_or(false) {
            put_line(&mut out.text, line)?;
            out.numbers.push(from.number_at(index))?;
        }
    }
    Ok(out)
}

/// The text without lines and names whose other half isn't there: waits without a start, starts
/// without a wait, and the same of handles.
pub fn tidied(alloc: Global, from: &Excerpt) -> Result<Excerpt, AllocError> {
    let known = without_unknown(alloc, from)?;
    without_left(alloc, &known)
}
