//! Proof lines that are read ahead of the others, in parts, each in a thread of its own.

ghost use Rattle.std.specs.Prelude.{◌≡◌, ◌+◌, ◌≤◌, IfSome, IfOk, length};
ghost use Rattle.prooflog.specs.parts.Reading.{AreWhole, IsTextPart, AreParts, LinesSoFar, HaveReached};

use crate::proof_line::proof_line_of;
use crate::refutation::{MOST_LINES, MOST_NODES};
use plaintext::{is_word, next_line};
use refutations::Line;
use std::alloc::{AllocError, Global};
use std::thread;
use std::thread::Threads;

/// Proof lines that stand at the beginning of a text, and what follows them.
#[derive(Drop)]
pub struct Ahead<'a> {
    pub lines: Vec<Line>,
    pub rest: &'a [u8],
}

/// No line: all that stands there follows.
pub fn no_lines<'a>(alloc: Global, bytes: &'a [u8]) -> Ahead<'a>
    ensures { LinesSoFar bytes.now result.rest.now (3 + length result.lines.items) result.lines.items }
{
    Ahead {
        lines: Vec::new(alloc),
        rest: bytes,
    }
}

/// From where to where a part goes, and its lines, which are all that it holds.
#[derive(Drop)]
pub struct TextPart {
    start: usize,
    end: usize,
    lines: Vec<Line>,
}

/// The place where the line `tree` stands that is the text's last one, or the text's end.
fn tree_place(bytes: &[u8]) -> usize {
    let mut end = bytes.len();
    for line in bytes.rsplit(|byte| *byte == b'\n').take(MOST_NODES + 2) {
        let start = end.saturating_sub(line.len());
        if is_word(line, "tree") {
            return start;
        }
        end = start.saturating_sub(1);
    }
    bytes.len()
}

/// Where the part of this number, from 0, starts, of so many parts that the first `length` bytes
/// are cut into at ends of lines.
fn part_start(bytes: &[u8], length: usize, parts: usize, part: usize) -> usize {
    let near = length as u128 * part as u128 / parts.max(1) as u128;
    let Ok(near) = usize::try_from(near) else {
        return bytes.len();
    };
    if near == 0 {
        return 0;
    }
    let Some(rest) = bytes.get(near - 1..) else {
        return bytes.len();
    };
    match next_line(rest) {
        Some((_line, after)) => bytes.len().saturating_sub(after.len()),
        None => bytes.len(),
    }
}

/// The proof lines that are all of the bytes; none where they are something else, or where memory
/// ran out.
fn whole_lines(alloc: Global, bytes: &[u8]) -> Option<Vec<Line>>
    ensures { IfSome result (λ lines. AreWhole bytes.now lines.items) }
{
    let mut lines = Vec::new(alloc);
    let mut rest = bytes;
    while let Some((line, after)) = next_line(rest) {
        if lines.len() >= MOST_LINES {
            return None;
        }
        let Ok(line) = proof_line_of(alloc, line) else {
            return None;
        };
        let Ok(()) = lines.push(line) else {
            return None;
        };
        rest = after;
    }
    if !rest.is_empty() {
        return None;
    }
    Some(lines)
}

fn read_part(alloc: Global, bytes: &[u8], start: usize, end: usize) -> Option<TextPart>
    ensures { IfSome result (IsTextPart bytes.now) }
{
    let lines = whole_lines(alloc, bytes.get(start..end)?)?;
    Some(TextPart { start, end, lines })
}

/// The parts, each none where it isn't all proof lines.
fn parts_of<R: Threads + Sync>(
    rt: &R,
    alloc: Global,
    bytes: &[u8],
    parts: usize,
) -> Result<Vec<Option<TextPart>>, AllocError>
    ensures { IfOk result (λ found. AreParts bytes.now found.items) }
{
    let length = tree_place(bytes);
    thread::map_indices(
        rt,
        alloc,
        parts,
        &|part: usize| -> Option<TextPart>
            ensures { IfSome result (IsTextPart bytes.entry.now) }
        {
            let start = part_start(bytes, length, parts, part);
            let end = part_start(bytes, length, parts, part.saturating_add(1));
            read_part(alloc, bytes, start, end)
        },
    )
}

/// Takes in the lines of the part, where it starts where those so far end, and answers where they
/// end now.
fn with_part(bytes: &[u8], lines: &mut Vec<Line>, used: usize, part: Option<TextPart>) -> usize
    requires reached { HaveReached bytes.now used lines.old.items }
    requires part { IfSome part (IsTextPart bytes.now) }
    ensures { HaveReached bytes.now result lines.new.items }
{
    let Some(
        TextPart {
            start,
            end,
            lines: mut more,
        },
    ) = part
    else {
        return used;
    };
    if start != used || lines.len() + more.len() > MOST_LINES {
        return used;
    }
    match lines.append(&mut more) {
        Ok(()) => end,
        Err(AllocError) => used,
    }
}

/// The lines of the parts up to the first one that is none.
fn joined<'a>(alloc: Global, bytes: &'a [u8], parts: Vec<Option<TextPart>>) -> Ahead<'a>
    requires { AreParts bytes.now parts.items }
    ensures { LinesSoFar bytes.now result.rest.now (3 + length result.lines.items) result.lines.items }
{
    let mut lines = Vec::new(alloc);
    let mut used = 0usize;
    for part in parts {
        used = with_part(bytes, &mut lines, used, part);
    }
    Ahead {
        lines,
        rest: &bytes[used..],
    }
}

/// Proof lines at the beginning of the bytes, which stand from the third line of an evidence's text
/// on, read in so many parts. They end where a part isn't all proof lines, or where memory ran out
/// for one.
pub fn lines_ahead<'a, R: Threads + Sync>(
    rt: &R,
    alloc: Global,
    bytes: &'a [u8],
    parts: usize,
) -> Ahead<'a>
    ensures { LinesSoFar bytes.now result.rest.now (3 + length result.lines.items) result.lines.items }
{
    match parts_of(rt, alloc, bytes, parts) {
        Ok(parts) => joined(alloc, bytes, parts),
        Err(AllocError) => no_lines(alloc, bytes),
    }
}
