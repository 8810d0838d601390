//! The calls of a program as they are told.

ghost use Rattle.std.specs.Prelude.{◌≡◌, ◌==◌, ◌-◌, ◌^◌, ◌<◌, IfOk, length, map, reverse, slice_index, take, take_while};
ghost use Rattle.std.specs.List.{slice_split};
ghost use Rattle.scene.specs.Labels.{call_labels, earlier, label_at, line_at, part_of, part_words, shortened};

use crate::numbering::line_numbers;
use callorder::LongProgram;
use calltext::LongSource;
use std::alloc::{AllocError, Global};
use std::marker::Model;

/// The most characters of a line that are told.
const MOST_WORDS: usize = 60;

/// A call as it is told.
#[derive(Drop)]
pub struct CallLabel {
    number: usize,
    rank: u32,
    line: usize,
    words: Vec<u8>,
}

impl Model for CallLabel {
    ghost use Rattle.scene.specs.Labels.{Label};

    ghost Value = { Label };

    ghost view = { λ l. record { number = l.number; rank = l.rank; line = l.line; words = l.words.items } };
}

impl CallLabel {
    /// The number of the call after expansion, from 1.
    pub fn number(&self) -> usize
        ensures { result ≡ self.now.number }
    {
        self.number
    }

    /// The rank that makes the call, from 0.
    pub fn rank(&self) -> u32
        ensures { result ≡ self.now.rank }
    {
        self.rank
    }

    /// The number of its line, from 1.
    pub fn line(&self) -> usize
        ensures { result ≡ self.now.line }
    {
        self.line
    }

    /// The words of its line, cut where they are long, and behind them which part of a `sendrecv`
    /// it is, if it is one.
    pub fn words(&self) -> &[u8]
        ensures { result.now ≡ self.now.words }
    {
        self.words.as_slice()
    }
}

/// The words, cut where there are more than so many characters.
pub fn shortened(alloc: Global, words: &[u8], most: usize) -> Result<Vec<u8>, AllocError>
    ensures { IfOk result (λ short. short.items ≡ shortened most words.now) }
{
    if words.len() <= most {
        return Vec::from_slice(alloc, words);
    }
    let mut short = Vec::from_slice(alloc, &words[..most.saturating_sub(2)])?;
    short.extend_from_slice(b"..")?;
    Ok(short)
}

/// Which part of a `sendrecv` a call is that has so many calls of the line before it.
fn part_of(place: usize) -> &'static str
    ensures { result.now ≡ part_of place }
{
    if place == 0 {
        ", its send"
    } else if place == 1 {
        ", its receive"
    } else if place == 2 {
        ", wait for its send"
    } else {
        ", wait for its receive"
    }
}

/// The line with this number, from 1; empty where there is none.
fn line_at<'a>(lines: &[&'a [u8]], number: usize) -> &'a [u8]
    ensures { result.now ≡ line_at (map (λ l. l.now) lines.now) number }
{
    match lines.get(number.saturating_sub(1)) {
        Some(line) => line,
        None => b"",
    }
}

fn lines_of(alloc: Global, text: &[u8]) -> Result<Vec<&[u8]>, AllocError>
    ensures { IfOk result (λ lines. map (λ l. l.now) lines.items ≡ slice_split (λ b. b == 10) text.now) }
{
    text.split(|b| *b == b'\n').collect(alloc)
}

/// The number of the line that the call at a place stands in.
fn number_at(numbers: &[usize], place: usize) -> usize
    ensures { result ≡ slice_index numbers.now place }
{
    numbers.get(place).copied().unwrap_or(0)
}

/// How many of these calls, from the last one on, stand in the line with this number.
fn last_ones(numbers: &[usize], number: usize) -> usize
    ensures { result ≡ length (take_while (λ n. n == number) (reverse numbers.now)) }
{
    numbers
        .iter()
        .rev()
        .take_while(|other| **other == number)
        .count()
}

/// How many calls right before the one at a place stand in its line.
fn earlier(numbers: &[usize], place: usize) -> usize
    ensures { result ≡ earlier numbers.now place }
{
    let (before, _others) = numbers.split_at(place.min(numbers.len()));
    last_ones(before, number_at(numbers, place))
}

/// What stands behind the words of a line for the call at a place, which stands in it. Only where
/// the line is a `sendrecv` are its earlier calls counted.
fn part_at(line: &[u8], numbers: &[usize], place: usize) -> &'static str
    ensures { result.now ≡ part_words line.now (earlier numbers.now place) }
{
    if !line.starts_with(b"sendrecv ") {
        return "";
    }
    part_of(earlier(numbers, place))
}

/// The call at a place, which is one of this rank.
fn label_at(
    alloc: Global,
    lines: &[&[u8]],
    numbers: &[usize],
    place: usize,
    rank: u32,
) -> Result<CallLabel, AllocError>
    requires { place < 2 ^ 63 }
    ensures { IfOk result (λ label. label ≡ label_at (map (λ l. l.now) lines.now) numbers.now place rank) }
{
    let line = number_at(numbers, place);
    let bytes = line_at(lines, line);
    let mut words = shortened(alloc, bytes, MOST_WORDS)?;
    let part = part_at(bytes, numbers, place);
    words.extend_from_slice(part.as_bytes())?;
    Ok(CallLabel {
        number: place + 1,
        rank,
        line,
        words,
    })
}

/// The calls of a program, in order, as they are told: `text` is the program's text, `source` what
/// it says, and `program` its calls. The only error is want of memory.
pub fn call_labels(
    alloc: Global,
    text: &[u8],
    source: &LongSource,
    program: &LongProgram,
) -> Result<Vec<CallLabel>, AllocError>
    ensures { IfOk result (λ labels. labels.items ≡ call_labels text.now source.now program.now) }
{
    let lines = lines_of(alloc, text)?;
    let numbers = line_numbers(alloc, source)?;
    let mut labels = Vec::new(alloc);
    for (place, call) in program.calls().iter().enumerate() {
        labels.push(label_at(alloc, &lines, &numbers, place, call.rank)?)?;
    }
    Ok(labels)
}
