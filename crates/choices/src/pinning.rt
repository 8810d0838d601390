//! Texts with one choice pinned.

ghost use Rattle.std.specs.Prelude.{IfOk, IfSome};
ghost use Rattle.choices.specs.parts.Pins.{AreAround};
ghost use Rattle.choices.specs.Pins.{IsPinned};

use crate::wording::line_with;
use narrowing::ChoiceTaken;
use plaintext::next_line;
use std::alloc::{AllocError, Global};

/// The line of this number, from 1, without its LF, between what stands before it and what stands
/// after its LF.
fn around(text: &[u8], number: usize) -> Option<(&[u8], &[u8], &[u8])>
    ensures { IfSome result (λ found. AreAround text.now number found.0.now found.1.now found.2.now) }
{
    if number == 0 {
        return None;
    }
    let mut rest = text;
    for _turn in 0..number - 1 {
        let Some((_line, next)) = next_line(rest) else {
            return None;
        };
        rest = next;
    }
    let Some((old, after)) = next_line(rest) else {
        return None;
    };
    Some((&text[..text.len() - rest.len()], old, after))
}

/// The text with other words in the place of its line of this number, from 1, which leave open no
/// more than what a run did. None where the text has no such line. The only error is want of
/// memory.
pub fn with_choice(
    alloc: Global,
    text: &[u8],
    number: usize,
    taken: ChoiceTaken,
) -> Result<Option<Vec<u8>>, AllocError>
    ensures { IfOk result (λ found. IfSome found (λ pinned. IsPinned text.now number taken pinned.items)) }
{
    let Some((before, old, after)) = around(text, number) else {
        return Ok(None);
    };
    let line = line_with(alloc, old, taken)?;
    let mut out = Vec::from_slice(alloc, before)?;
    out.extend_from_slice(&line)?;
    out.push(b'\n')?;
    out.extend_from_slice(after)?;
    Ok(Some(out))
}
