//! Proof lines that are written in portions, each in a thread of its own.

ghost use Rattle.std.specs.Prelude.{◌≡◌, ◌++◌, ◌∷◌, [], IfOk, OnOk};
ghost use Rattle.std.specs.List.{flat_map};
ghost use Rattle.prooflog.specs.parts.Reading.{lines_text, portion_text, portions_lines};

use crate::text::Text;
use crate::writer::put_lines;
use refutations::Line;
use std::alloc::{AllocError, Global};
use std::thread::Threads;
use std::{mem, thread};

/// A portion that isn't the last one has at least about so many words.
const FEWEST_WORDS: usize = 10_000;

/// So many bytes a word takes about, with the space before it.
const BYTES_OF_A_WORD: usize = 8;

/// A portion of the lines: its text, and the lines behind it that aren't written.
#[derive(Drop)]
pub struct WrittenPortion {
    text: Vec<u8>,
    lines: Vec<Line>,
}

/// How many words the line has about.
fn word_count(line: &Line) -> usize {
    let words = line.literals().len().saturating_add(line.hints().len());
    words.saturating_add(2)
}

fn word_sum(lines: &[Line]) -> usize {
    let mut sum = 0usize;
    for line in lines {
        sum = sum.saturating_add(word_count(line));
    }
    sum
}

/// Portions of the lines that were put in, the last of which isn't full and has about so many
/// words.
#[derive(Drop)]
pub struct Portions {
    full: Vec<Vec<Line>>,
    last: Vec<Line>,
    words: usize,
}

impl Portions {
    /// Begins another portion where the last one has so many words.
    fn cut(&mut self, alloc: Global, most: usize) -> Result<(), AllocError>
        ensures { OnOk result (portions_lines self.new ≡ portions_lines self.old) }
    {
        if self.words < most {
            return Ok(());
        }
        let last = mem::replace(&mut self.last, Vec::new(alloc));
        self.full.push(last)?;
        self.words = 0;
        Ok(())
    }

    /// Puts the line in.
    fn put(&mut self, line: Line) -> Result<(), AllocError>
        ensures { OnOk result (portions_lines self.new ≡ portions_lines self.old ++ line ∷ []) }
    {
        self.words = self.words.saturating_add(word_count(&line));
        self.last.push(line)?;
        Ok(())
    }

    /// All portions.
    fn all(self) -> Result<Vec<Vec<Line>>, AllocError>
        ensures { IfOk result (λ found. flat_map (λ portion. portion.items) found.items ≡ portions_lines self) }
    {
        let Portions { mut full, last, .. } = self;
        full.push(last)?;
        Ok(full)
    }
}

/// The lines in so many portions, or in fewer, of about as many words each.
fn portions_of(alloc: Global, lines: Vec<Line>, parts: usize) -> Result<Vec<Vec<Line>>, AllocError>
    ensures { IfOk result (λ found. flat_map (λ portion. portion.items) found.items ≡ lines.items) }
{
    let most = word_sum(&lines).div_ceil(parts.max(1)).max(FEWEST_WORDS);
    let mut portions = Portions {
        full: Vec::new(alloc),
        last: Vec::new(alloc),
        words: 0,
    };
    for line in lines {
        portions.cut(alloc, most)?;
        portions.put(line)?;
    }
    portions.all()
}

/// The text of the lines; none where memory ran out.
fn text_of(alloc: Global, lines: &[Line]) -> Result<Vec<u8>, AllocError>
    ensures { IfOk result (λ text. text.items ≡ lines_text lines.now) }
{
    let bytes = word_sum(lines).saturating_mul(BYTES_OF_A_WORD);
    let mut text = Vec::with_capacity(alloc, bytes)?;
    put_lines(&mut text, lines)?;
    Ok(text)
}

/// The portion with its text. Its lines are dropped then, or else kept, where memory ran out.
fn written(alloc: Global, lines: Vec<Line>) -> WrittenPortion
    ensures { portion_text result ≡ lines_text lines.items }
{
    match text_of(alloc, &lines) {
        Ok(text) => WrittenPortion {
            text,
            lines: Vec::new(alloc),
        },
        Err(AllocError) => WrittenPortion {
            text: Vec::new(alloc),
            lines,
        },
    }
}

/// Writes the part at the end.
fn put_part(alloc: Global, out: &mut Text, part: WrittenPortion) -> Result<(), AllocError>
    ensures { OnOk result (out.new ≡ out.old ++ portion_text part) }
{
    let WrittenPortion { text, lines } = part;
    out.push(text)?;
    out.push(text_of(alloc, &lines)?)
}

fn put_parts(alloc: Global, out: &mut Text, parts: Vec<WrittenPortion>) -> Result<(), AllocError>
    ensures { OnOk result (out.new ≡ out.old ++ flat_map portion_text parts.items) }
{
    for part in parts {
        put_part(alloc, out, part)?;
    }
    Ok(())
}

/// Writes the lines at the end, so many portions of them, each in a thread of its own, in which it
/// is dropped then.
pub(crate) fn put_portions<R: Threads + Sync>(
    rt: &R,
    alloc: Global,
    out: &mut Text,
    lines: Vec<Line>,
    parts: usize,
) -> Result<(), AllocError>
    ensures { OnOk result (out.new ≡ out.old ++ lines_text lines.items) }
{
    let portions = portions_of(alloc, lines, parts)?;
    let parts = thread::map_vec(
        rt,
        portions,
        &|portion: Vec<Line>| -> WrittenPortion
            ensures { portion_text result ≡ lines_text portion.items }
        { written(alloc, portion) },
    )?;
    put_parts(alloc, out, parts)
}
