//! What decided a run, as a text.

ghost use Rattle.std.specs.Prelude.{◌≡◌, ◌++◌, IfOk, OnOk, string_bytes, take};
ghost use Rattle.choices.specs.Words.{AreChoiceLines, TellsChoices, choice_line, need_words};

use crate::items::{Choice, ChoiceNeed, Decided, HangExtent, Weighed};
use crate::places::lines_of;
use crate::wording::is_joined;
use narrowing::ChoiceTaken;
use std::alloc::{AllocError, Global};

/// The most choices that are told.
const MOST_TOLD: usize = 12;

/// The line of this number, from 1, or no words.
fn line_at<'a>(lines: &[&'a [u8]], number: usize) -> &'a [u8] {
    lines.get(number.saturating_sub(1)).copied().unwrap_or(b"")
}

/// Adds a line's words, whose bytes are characters.
fn put_line(out: &mut String, line: &[u8], number: usize) -> Result<(), AllocError> {
    write!(out, "line {number}: ")?;
    for byte in line {
        out.push(char::from(*byte))?;
    }
    Ok(())
}

/// Adds what a run did.
fn put_taken(out: &mut String, lines: &[&[u8]], choice: &Choice) -> Result<(), AllocError> {
    let line = line_at(lines, choice.line);
    put_line(out, line, choice.line)?;
    let rank = choice.rank;
    write!(out, " of rank {rank}")?;
    match choice.taken {
        ChoiceTaken::Buffered => put_mode(out, line, "is buffered"),
        ChoiceTaken::NotBuffered => put_mode(out, line, "is not buffered"),
        ChoiceTaken::Message { source, tag } => {
            write!(out, " finds the message of rank {source} with tag {tag}")
        }
    }
}

/// Adds what became of a send, which of a `sendrecv` is one of its two parts.
fn put_mode(out: &mut String, line: &[u8], mode: &str) -> Result<(), AllocError> {
    if is_joined(line) {
        out.push_str(": its send ")?;
    } else {
        out.push(' ')?;
    }
    out.push_str(mode)
}

/// What is said of a choice of which so much is known.
pub fn need_words(need: ChoiceNeed) -> &'static str
    ensures { result.now ≡ need_words need }
{
    match need {
        ChoiceNeed::Known => "without it no run hangs (proved)",
        ChoiceNeed::Tried => "no run that hangs without it was found",
        ChoiceNeed::No => "may hang otherwise too",
        ChoiceNeed::NotAsked => "not asked whether it may hang otherwise",
    }
}

/// What a run did, as the line on a choice tells it.
fn taken_words(alloc: Global, lines: &[&[u8]], choice: &Choice) -> Result<String, AllocError> {
    let mut out = String::new(alloc);
    put_taken(&mut out, lines, choice)?;
    Ok(out)
}

/// Adds the line on a choice.
fn put_choice(out: &mut String, taken: &str, need: ChoiceNeed) -> Result<(), AllocError>
    ensures { OnOk result (string_bytes out.new ≡ string_bytes out.old ++ choice_line taken.now need) }
{
    out.push_str("    ")?;
    out.push_str(taken)?;
    out.push_str("; ")?;
    out.push_str(need_words(need))?;
    out.push_str("\n")
}

/// The first choices, which are told.
fn first_of(choices: &[Weighed]) -> &[Weighed]
    ensures { result.now ≡ take 12 choices.now }
{
    if choices.len() <= MOST_TOLD {
        return choices;
    }
    &choices[..MOST_TOLD]
}

/// A line on each of these choices.
fn choice_lines(alloc: Global, lines: &[&[u8]], choices: &[Weighed]) -> Result<String, AllocError>
    ensures { IfOk result (λ told. AreChoiceLines choices.now (string_bytes told)) }
{
    let mut out = String::new(alloc);
    for weighed in choices {
        let taken = taken_words(alloc, lines, &weighed.choice)?;
        put_choice(&mut out, taken.as_str(), weighed.need)?;
    }
    Ok(out)
}

/// What is told above the choices.
fn extent_text(extent: HangExtent) -> &'static str {
    match extent {
        HangExtent::Always => "  hangs in every run that was tried\n",
        HangExtent::Whenever => "  hangs in every run that was tried where:\n",
        HangExtent::NotFound => "  no choices were found that suffice\n",
    }
}

/// What is told below the choices.
fn behind(alloc: Global, decided: &Decided) -> Result<String, AllocError> {
    let mut out = String::new(alloc);
    let more = decided.choices.len().saturating_sub(MOST_TOLD);
    if more > 0 {
        write!(out, "    and {more} more\n")?;
    }
    if !decided.least {
        out.push_str("  it was not asked of all of them whether they are needed for that\n")?;
    }
    Ok(out)
}

/// What decided a run of the text's program, line by line. What was tried and what is proved is
/// told apart; at most 12 choices are told, each with what is known of it. The only error is want
/// of memory.
pub fn told(alloc: Global, text: &[u8], decided: &Decided) -> Result<String, AllocError>
    ensures { IfOk result (λ told. TellsChoices decided.now.choices.items (string_bytes told)) }
{
    let lines = lines_of(alloc, text)?;
    let choices = choice_lines(alloc, &lines, first_of(&decided.choices))?;
    let behind = behind(alloc, decided)?;
    let mut out = String::from_str(alloc, "what decided it:\n")?;
    out.push_str(extent_text(decided.extent))?;
    out.push_str(choices.as_str())?;
    out.push_str(behind.as_str())?;
    Ok(out)
}
