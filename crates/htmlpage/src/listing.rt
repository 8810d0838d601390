//! The lines of a program's text, with those marked that ranks wait in.

ghost use Rattle.std.specs.Prelude.{◌≡◌, ◌+◌, ◌-◌, ◌<◌, ◌++◌, ◌==◌, IfOk, OnOk, length, map, slice_get, slice_index};
ghost use Rattle.std.specs.List.{flat_map, slice_split};
ghost use Rattle.charts.specs.Chart.{columns};
ghost use Rattle.htmlpage.specs.Page.{label_entry, is_marked_line, last_call, label_line, listed, listed_at, listed_line, listing, mark_back, mark_front, waited_entry, waited_line, waited_lines};

use callorder::LongProgram;
use charts::put_escaped;
use scene::{CallLabel, is_large};
use semantics::State;
use std::alloc::{AllocError, Global};
use writing::{Part, put_parts, put_text};

/// What stands before a line.
fn mark_front(marked: bool) -> &'static str
    ensures { result.now ≡ mark_front marked }
{
    if marked { "<mark>" } else { "" }
}

/// What stands behind a line.
fn mark_back(marked: bool) -> &'static str
    ensures { result.now ≡ mark_back marked }
{
    if marked { "</mark>\n" } else { "\n" }
}

/// Writes a line of the text, from 1, or nothing of an empty one.
fn put_listed_line(
    out: &mut Vec<u8>,
    marked: bool,
    number: usize,
    words: &[u8],
) -> Result<(), AllocError>
    ensures { OnOk result (out.new.items ≡ out.old.items ++ listed_line marked number words.now) }
{
    if words.is_empty() {
        return Ok(());
    }
    put_parts(
        out,
        &[
            Part::Text(mark_front(marked)),
            Part::Text("line "),
            Part::Number(number as u128),
            Part::Text(": "),
        ],
    )?;
    put_escaped(out, words)?;
    put_text(out, mark_back(marked))
}

/// The call that a rank issued last.
fn last_call(end: &State, rank: u32) -> usize
    ensures { result ≡ last_call end.now rank }
{
    let next = end.next_of(rank).unwrap_or(0);
    next.saturating_sub(1)
}

/// Adds the line of the call at a place.
fn push_line(lines: &mut Vec<usize>, calls: &[CallLabel], call: usize) -> Result<(), AllocError>
    ensures { OnOk result (lines.new.items ≡ lines.old.items ++ label_line (slice_get calls.now call)) }
{
    match calls.get(call) {
        None => Ok(()),
        Some(told) => {
            lines.push(told.line())?;
            Ok(())
        }
    }
}

/// Adds the line of the call that a rank waits in.
fn push_waited_line(
    lines: &mut Vec<usize>,
    program: &LongProgram,
    end: &State,
    calls: &[CallLabel],
    rank: u32,
) -> Result<(), AllocError>
    ensures { OnOk result (lines.new.items ≡ lines.old.items ++ waited_line program.now end.now calls.now rank) }
{
    if end.is_rank_finished(program, rank) {
        return Ok(());
    }
    push_line(lines, calls, last_call(end, rank))
}

/// The lines of the calls that ranks wait in, rank by rank.
fn waited_lines(
    alloc: Global,
    program: &LongProgram,
    end: &State,
    calls: &[CallLabel],
) -> Result<Vec<usize>, AllocError>
    ensures { IfOk result (λ lines. lines.items ≡ waited_lines program.now end.now calls.now) }
{
    let mut lines = Vec::new(alloc);
    for rank in 0..program.ranks() {
        push_waited_line(&mut lines, program, end, calls, rank)?;
    }
    Ok(lines)
}

/// Writes the call at a place as a marked line.
fn put_entry(out: &mut Vec<u8>, calls: &[CallLabel], call: usize) -> Result<(), AllocError>
    ensures { OnOk result (out.new.items ≡ out.old.items ++ label_entry (slice_get calls.now call)) }
{
    match calls.get(call) {
        None => Ok(()),
        Some(told) => put_listed_line(out, true, told.line(), told.words()),
    }
}

/// Writes the call that a rank waits in.
fn put_waited_entry(
    out: &mut Vec<u8>,
    program: &LongProgram,
    end: &State,
    calls: &[CallLabel],
    rank: u32,
) -> Result<(), AllocError>
    ensures { OnOk result (out.new.items ≡ out.old.items ++ waited_entry program.now end.now calls.now rank) }
{
    if end.is_rank_finished(program, rank) {
        return Ok(());
    }
    put_entry(out, calls, last_call(end, rank))
}

/// Writes the calls that ranks wait in, rank by rank.
fn put_waited_entries(
    out: &mut Vec<u8>,
    program: &LongProgram,
    end: &State,
    calls: &[CallLabel],
) -> Result<(), AllocError>
    ensures { OnOk result (out.new.items ≡ out.old.items ++ columns (waited_entry program.now end.now calls.now) program.now.ranks) }
{
    for rank in 0..program.ranks() {
        put_waited_entry(out, program, end, calls, rank)?;
    }
    Ok(())
}

fn is_in(numbers: &[usize], number: usize) -> bool
    ensures { result ≡ is_marked_line numbers.now number }
{
    numbers.iter().any(|other| *other == number)
}

/// Writes the line at a place, from 0.
fn put_listed_at(
    out: &mut Vec<u8>,
    marks: &[usize],
    lines: &[&[u8]],
    place: usize,
) -> Result<(), AllocError>
    requires { place < length lines.now }
    ensures { OnOk result (out.new.items ≡ out.old.items ++ listed_at marks.now (map (λ line. line.now) lines.now) place) }
{
    let number = place + 1;
    put_listed_line(out, is_in(marks, number), number, lines[place])
}

/// Writes all lines.
fn put_listed(out: &mut Vec<u8>, marks: &[usize], lines: &[&[u8]]) -> Result<(), AllocError>
    ensures { OnOk result (out.new.items ≡ out.old.items ++ listed marks.now (map (λ line. line.now) lines.now)) }
{
    for place in 0..lines.len() {
        put_listed_at(out, marks, lines, place)?;
    }
    Ok(())
}

/// The lines of a text.
fn lines_of(alloc: Global, text: &[u8]) -> Result<Vec<&[u8]>, AllocError>
    ensures { IfOk result (λ lines. map (λ line. line.now) lines.items ≡ slice_split (λ b. b == 10) text.now) }
{
    text.split(|b| *b == b'\n').collect(alloc)
}

/// Writes the lines of a program's text, those marked that ranks wait in, or of a large program
/// those alone.
pub fn put_listing(
    out: &mut Vec<u8>,
    alloc: Global,
    text: &[u8],
    program: &LongProgram,
    end: &State,
    calls: &[CallLabel],
) -> Result<(), AllocError>
    ensures { OnOk result (out.new.items ≡ out.old.items ++ listing text.now program.now end.now calls.now) }
{
    if is_large(program) {
        return put_waited_entries(out, program, end, calls);
    }
    let marks = waited_lines(alloc, program, end, calls)?;
    let lines = lines_of(alloc, text)?;
    put_listed(out, &marks, &lines)
}
