//! Which choices suffice for a program to hang in each walk.

use crate::items::{Choice, HangExtent};
use crate::places::lines_of;
use crate::wording::line_with;
use narrowing::ChoiceTaken;
use prover::{Reason, Until, walk_ends};
use std::alloc::{AllocError, Global};

/// Choices that suffice, by their places, from 0, and whether each of them was asked about.
#[derive(Drop)]
pub struct Sufficient {
    pub extent: HangExtent,
    pub kept: Vec<usize>,
    pub least: bool,
}

/// Whether each walk of the text's program ends stuck; not where no walk is left.
fn always_hangs(alloc: Global, text: &[u8], left: &mut u32) -> Result<bool, AllocError> {
    if *left == 0 {
        return Ok(false);
    }
    match walk_ends(alloc, text, Until::Finished) {
        Ok(ends) => {
            *left = left.saturating_sub(ends.walks);
            Ok(!ends.finished)
        }
        Err(Reason::Memory) => Err(AllocError),
        Err(_reason) => {
            *left = left.saturating_sub(1);
            Ok(false)
        }
    }
}

/// Which of a line's choices is meant.
#[derive(Clone, Copy, PartialEq, Eq)]
enum Part {
    /// Which message is found.
    Message,
    /// Whether the send is buffered.
    Mode,
}

/// Which of its line's choices this one is.
fn part_of(choice: &Choice) -> Part {
    match choice.taken {
        ChoiceTaken::Message { source: _, tag: _ } => Part::Message,
        ChoiceTaken::Buffered | ChoiceTaken::NotBuffered => Part::Mode,
    }
}

/// For each line the place, from 1, of the choice of this part that pins it among these, or 0.
fn pins(
    alloc: Global,
    lines: usize,
    choices: &[Choice],
    kept: &[usize],
    part: Part,
) -> Result<Vec<usize>, AllocError> {
    let mut pins = vec![in alloc; 0; lines]?;
    for place in kept {
        if let Some(choice) = choices.get(*place)
            && part_of(choice) == part
            && choice.line > 0
            && choice.line <= pins.len()
        {
            pins[choice.line - 1] = place.saturating_add(1);
        }
    }
    Ok(pins)
}

/// The choice at a place, from 1.
fn choice_at(choices: &[Choice], place: usize) -> Option<&Choice> {
    if place == 0 {
        return None;
    }
    choices.get(place - 1)
}

/// The line, with the choice at a place, from 1, pinned, if there is one.
fn pinned_line(
    alloc: Global,
    choices: &[Choice],
    place: usize,
    line: &[u8],
) -> Result<Vec<u8>, AllocError> {
    match choice_at(choices, place) {
        None => Vec::from_slice(alloc, line),
        Some(choice) => line_with(alloc, line, choice.taken),
    }
}

/// Adds a line, with the choices at these places, from 1, pinned: first what message is found,
/// since the mode of a `sendrecv` takes its line apart.
fn put_line(
    out: &mut Vec<u8>,
    alloc: Global,
    choices: &[Choice],
    message: usize,
    mode: usize,
    line: &[u8],
) -> Result<(), AllocError> {
    let found = pinned_line(alloc, choices, message, line)?;
    let pinned = pinned_line(alloc, choices, mode, &found)?;
    out.extend_from_slice(&pinned)?;
    out.push(b'\n')?;
    Ok(())
}

/// The text with these choices pinned as in the run.
fn text_with(
    alloc: Global,
    text: &[u8],
    choices: &[Choice],
    kept: &[usize],
) -> Result<Vec<u8>, AllocError> {
    let lines = lines_of(alloc, text)?;
    let messages = pins(alloc, lines.len(), choices, kept, Part::Message)?;
    let modes = pins(alloc, lines.len(), choices, kept, Part::Mode)?;
    let mut out = Vec::with_capacity(alloc, text.len())?;
    for (index, line) in lines.iter().enumerate() {
        if !line.is_empty() {
            let message = messages.get(index).copied().unwrap_or(0);
            let mode = modes.get(index).copied().unwrap_or(0);
            put_line(&mut out, alloc, choices, message, mode, line)?;
        }
    }
    Ok(out)
}

/// These places but for so many of them, from one on.
fn without(
    alloc: Global,
    kept: &[usize],
    from: usize,
    size: usize,
) -> Result<Vec<usize>, AllocError> {
    let to = kept.len().min(from.saturating_add(size));
    let mut fewer = Vec::from_slice(alloc, &kept[..from.min(to)])?;
    fewer.extend_from_slice(&kept[to..])?;
    Ok(fewer)
}

/// Drops choices that are not needed, so many at once.
fn drop_choices(
    alloc: Global,
    text: &[u8],
    choices: &[Choice],
    kept: &mut Vec<usize>,
    size: usize,
    left: &mut u32,
) -> Result<(), AllocError> {
    let mut from = 0usize;
    for _question in 0..choices.len() {
        if from < kept.len() {
            let fewer = without(alloc, kept, from, size)?;
            let candidate = text_with(alloc, text, choices, &fewer)?;
            if always_hangs(alloc, &candidate, left)? {
                *kept = fewer;
            } else {
                from = from.saturating_add(size);
            }
        }
    }
    Ok(())
}

/// Choices that suffice, of all: first many at once are dropped, and at the end each in turn, the
/// last ones before the first, since a cycle is told from its lowest rank on.
fn least(
    alloc: Global,
    text: &[u8],
    choices: &[Choice],
    all: Vec<usize>,
    left: &mut u32,
) -> Result<Sufficient, AllocError> {
    let mut kept = all;
    let mut size = choices.len();
    for _turn in 0..usize::BITS {
        size /= 2;
        if size > 0 {
            drop_choices(alloc, text, choices, &mut kept, size, left)?;
        }
    }
    kept.reverse();
    Ok(Sufficient {
        extent: HangExtent::Whenever,
        kept,
        least: *left > 0,
    })
}

/// No choices, where it hangs in each walk or no such choices were found.
fn no_choices(alloc: Global, extent: HangExtent) -> Sufficient {
    Sufficient {
        extent,
        kept: Vec::new(alloc),
        least: true,
    }
}

/// Choices that suffice for each walk of the text's program to end stuck.
pub fn choose(
    alloc: Global,
    text: &[u8],
    choices: &[Choice],
    left: &mut u32,
) -> Result<Sufficient, AllocError> {
    if always_hangs(alloc, text, left)? {
        return Ok(no_choices(alloc, HangExtent::Always));
    }
    let all: Vec<usize> = (0..choices.len()).rev().collect(alloc)?;
    let pinned = text_with(alloc, text, choices, &all)?;
    if !always_hangs(alloc, &pinned, left)? {
        return Ok(no_choices(alloc, HangExtent::NotFound));
    }
    least(alloc, text, choices, all, left)
}
