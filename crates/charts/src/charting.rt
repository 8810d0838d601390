//! The steps of a run as a message sequence chart in plain text.

ghost use Rattle.std.specs.Prelude.{◌≡◌, ◌++◌, ◌-◌, IfOk, OnOk, replicate, Some, codes, slice_get};
ghost use Rattle.std.specs.List.{flat_map};
ghost use Rattle.plaintext.specs.Plain.{numeral};
ghost use Rattle.semantics.specs.Machine.{IsStuckRun};
ghost use Rattle.charts.specs.Chart.{are_narrow, chart_of, columns, end_cell, end_row, end_word, find_cell, find_fill, find_mark, find_note, find_row, find_row_of, heading, heading_cell, heading_word, is_crossed, issue_cell, issue_mark, issue_row, issue_row_of, letter_of, padded, step_row, rows_of, sign_of, width_at};

use crate::cutting::{put_undrawn_line, undrawn};
use callorder::LongProgram;
use calltext::LongSource;
use scene::{Act, CallLabel, call_labels, play, shortened};
use semantics::{State, Step};
use std::alloc::{AllocError, Global};
use writing::{Part, put_number, put_parts};

/// The most ranks whose columns have room for words.
const MOST_WIDE: u32 = 8;

/// Whether columns are narrow, and have no words.
fn are_narrow(ranks: u32) -> bool
    ensures { result ≡ are_narrow ranks }
{
    MOST_WIDE < ranks
}

/// The width of a rank's column; the last one ends with its mark.
fn width_at(ranks: u32, rank: u32) -> usize
    ensures { result ≡ width_at ranks rank }
{
    if ranks.saturating_sub(1) == rank {
        0
    } else if are_narrow(ranks) {
        6
    } else {
        16
    }
}

fn put_times(out: &mut Vec<u8>, fill: u8, count: usize) -> Result<(), AllocError>
    ensures { OnOk result (out.new.items ≡ out.old.items ++ replicate count fill) }
{
    for _ in 0..count {
        out.push(fill)?;
    }
    Ok(())
}

/// Writes a mark, and so much of a filling that it has this width.
fn put_padded(out: &mut Vec<u8>, mark: &[u8], fill: u8, width: usize) -> Result<(), AllocError>
    ensures { OnOk result (out.new.items ≡ out.old.items ++ padded mark.now fill width) }
{
    out.extend_from_slice(mark)?;
    put_times(out, fill, width.saturating_sub(mark.len()))
}

fn heading_word(ranks: u32) -> &'static str
    ensures { result.now ≡ heading_word ranks }
{
    if are_narrow(ranks) { "r" } else { "rank " }
}

/// Writes a rank's cell of the heading.
fn put_heading_cell(
    out: &mut Vec<u8>,
    alloc: Global,
    ranks: u32,
    rank: u32,
) -> Result<(), AllocError>
    ensures { OnOk result (out.new.items ≡ out.old.items ++ heading_cell ranks rank) }
{
    let mut mark = Vec::from_slice(alloc, heading_word(ranks).as_bytes())?;
    put_number(&mut mark, rank as u128)?;
    put_padded(out, &mark, b' ', width_at(ranks, rank))
}

fn letter_of(buffered: bool) -> &'static str
    ensures { result.now ≡ letter_of buffered }
{
    if buffered { "b" } else { "i" }
}

fn sign_of(buffered: bool) -> &'static str
    ensures { result.now ≡ sign_of buffered }
{
    if buffered { "b " } else { "" }
}

/// The mark of a call that is issued, where columns are narrow.
fn narrow_mark(alloc: Global, told: &CallLabel, buffered: bool) -> Result<Vec<u8>, AllocError>
    ensures { IfOk result (λ mark. mark.items ≡ letter_of buffered ++ numeral told.now.line) }
{
    let mut mark = Vec::from_slice(alloc, letter_of(buffered).as_bytes())?;
    put_number(&mut mark, told.line() as u128)?;
    Ok(mark)
}

/// The words of a call that is issued, with a sign before them where it is buffered.
fn signed_words(alloc: Global, told: &CallLabel, buffered: bool) -> Result<Vec<u8>, AllocError>
    ensures { IfOk result (λ words. words.items ≡ sign_of buffered ++ told.now.words) }
{
    let mut words = Vec::from_slice(alloc, sign_of(buffered).as_bytes())?;
    words.extend_from_slice(told.words())?;
    Ok(words)
}

/// The mark of a call that is issued.
fn issue_mark(
    alloc: Global,
    ranks: u32,
    told: &CallLabel,
    buffered: bool,
) -> Result<Vec<u8>, AllocError>
    ensures { IfOk result (λ mark. mark.items ≡ issue_mark ranks told.now buffered) }
{
    if are_narrow(ranks) {
        return narrow_mark(alloc, told, buffered);
    }
    let words = signed_words(alloc, told, buffered)?;
    shortened(alloc, &words, 15)
}

/// Writes a rank's cell of the row of a call that another rank, or this one, issues.
fn put_issue_cell(
    out: &mut Vec<u8>,
    ranks: u32,
    owner: u32,
    mark: &[u8],
    rank: u32,
) -> Result<(), AllocError>
    ensures { OnOk result (out.new.items ≡ out.old.items ++ issue_cell ranks owner mark.now rank) }
{
    let width = width_at(ranks, rank);
    if rank == owner {
        put_padded(out, mark, b' ', width)
    } else {
        put_padded(out, b"|", b' ', width)
    }
}

/// Whether an arrow between two ranks goes through the rest of this rank's column.
fn is_crossed(from: u32, to: u32, rank: u32) -> bool
    ensures { result ≡ is_crossed from to rank }
{
    (from <= rank && rank < to) || (to <= rank && rank < from)
}

fn find_mark(from: u32, to: u32, stroke: u8, rank: u32) -> u8
    ensures { result ≡ find_mark from to stroke rank }
{
    if rank == from {
        if from == to { b'@' } else { b'o' }
    } else if rank == to {
        if from < to { b'>' } else { b'<' }
    } else if is_crossed(from, to, rank) {
        stroke
    } else {
        b'|'
    }
}

fn find_fill(from: u32, to: u32, stroke: u8, rank: u32) -> u8
    ensures { result ≡ find_fill from to stroke rank }
{
    if is_crossed(from, to, rank) {
        stroke
    } else {
        b' '
    }
}

/// Writes a rank's cell of the row of a message from a rank that another one takes or sees.
fn put_find_cell(
    out: &mut Vec<u8>,
    ranks: u32,
    from: u32,
    to: u32,
    stroke: u8,
    rank: u32,
) -> Result<(), AllocError>
    ensures { OnOk result (out.new.items ≡ out.old.items ++ find_cell ranks from to stroke rank) }
{
    let mark = [find_mark(from, to, stroke, rank)];
    let fill = find_fill(from, to, stroke, rank);
    put_padded(out, &mark, fill, width_at(ranks, rank))
}

fn end_word(is_finished: bool) -> &'static str
    ensures { result.now ≡ end_word is_finished }
{
    if is_finished { "done" } else { "waits" }
}

/// Writes a rank's cell of the last row.
fn put_end_cell(
    out: &mut Vec<u8>,
    program: &LongProgram,
    end: &State,
    rank: u32,
) -> Result<(), AllocError>
    ensures { OnOk result (out.new.items ≡ out.old.items ++ end_cell program.now end.now rank) }
{
    let word = end_word(end.is_rank_finished(program, rank));
    put_padded(out, word.as_bytes(), b' ', width_at(program.ranks(), rank))
}

fn end_line(out: &mut Vec<u8>) -> Result<(), AllocError>
    ensures { OnOk result (out.new.items ≡ out.old.items ++ codes "\n") }
{
    out.push(b'\n')?;
    Ok(())
}

fn put_heading(out: &mut Vec<u8>, alloc: Global, ranks: u32) -> Result<(), AllocError>
    ensures { OnOk result (out.new.items ≡ out.old.items ++ heading ranks) }
{
    for rank in 0..ranks {
        put_heading_cell(out, alloc, ranks, rank)?;
    }
    end_line(out)
}

/// Writes the row of a call that a rank issues.
fn put_issue_row(out: &mut Vec<u8>, ranks: u32, owner: u32, mark: &[u8]) -> Result<(), AllocError>
    ensures { OnOk result (out.new.items ≡ out.old.items ++ issue_row ranks owner mark.now) }
{
    for rank in 0..ranks {
        put_issue_cell(out, ranks, owner, mark, rank)?;
    }
    end_line(out)
}

/// Writes the row of the issue of this call.
fn put_told_issue(
    out: &mut Vec<u8>,
    alloc: Global,
    ranks: u32,
    told: &CallLabel,
    buffered: bool,
) -> Result<(), AllocError>
    ensures { OnOk result (out.new.items ≡ out.old.items ++ issue_row_of ranks (Some told.now) buffered) }
{
    let mark = issue_mark(alloc, ranks, told, buffered)?;
    put_issue_row(out, ranks, told.rank(), &mark)
}

/// Writes the row of the issue of the call at a place.
fn put_issue(
    out: &mut Vec<u8>,
    alloc: Global,
    ranks: u32,
    calls: &[CallLabel],
    call: usize,
    buffered: bool,
) -> Result<(), AllocError>
    ensures { OnOk result (out.new.items ≡ out.old.items ++ issue_row_of ranks (slice_get calls.now call) buffered) }
{
    let Some(told) = calls.get(call) else {
        return end_line(out);
    };
    put_told_issue(out, alloc, ranks, told, buffered)
}

/// Writes the lines of a send and of the call that finds it.
fn put_note(out: &mut Vec<u8>, send: usize, link: &str, finder: usize) -> Result<(), AllocError>
    ensures { OnOk result (out.new.items ≡ out.old.items ++ find_note send link.now finder) }
{
    put_parts(
        out,
        &[
            Part::Text("   line "),
            Part::Number(send as u128),
            Part::Text(link),
            Part::Number(finder as u128),
            Part::Text("\n"),
        ],
    )
}

/// Writes the arrow of a message between two ranks.
fn put_arrow(
    out: &mut Vec<u8>,
    ranks: u32,
    from: u32,
    to: u32,
    stroke: u8,
) -> Result<(), AllocError>
    ensures { OnOk result (out.new.items ≡ out.old.items ++ columns (find_cell ranks from to stroke) ranks) }
{
    for rank in 0..ranks {
        put_find_cell(out, ranks, from, to, stroke, rank)?;
    }
    Ok(())
}

/// Writes the row of a message of this send that this call finds.
fn put_told_find(
    out: &mut Vec<u8>,
    ranks: u32,
    send: &CallLabel,
    link: &str,
    stroke: u8,
    finder: &CallLabel,
) -> Result<(), AllocError>
    ensures { OnOk result (out.new.items ≡ out.old.items ++ find_row ranks send.now link.now stroke finder.now) }
{
    put_arrow(out, ranks, send.rank(), finder.rank(), stroke)?;
    put_note(out, send.line(), link, finder.line())
}

/// Writes the row of a message of the send at a place that the call at another finds.
fn put_find(
    out: &mut Vec<u8>,
    ranks: u32,
    calls: &[CallLabel],
    send: usize,
    link: &str,
    stroke: u8,
    finder: usize,
) -> Result<(), AllocError>
    ensures { OnOk result (out.new.items ≡
        out.old.items ++ find_row_of ranks (slice_get calls.now send) link.now stroke (slice_get calls.now
        finder)) }
{
    let Some(send) = calls.get(send) else {
        return end_line(out);
    };
    let Some(finder) = calls.get(finder) else {
        return end_line(out);
    };
    put_told_find(out, ranks, send, link, stroke, finder)
}

/// Writes the row of a step.
fn put_row(
    out: &mut Vec<u8>,
    alloc: Global,
    ranks: u32,
    calls: &[CallLabel],
    act: Act,
) -> Result<(), AllocError>
    ensures { OnOk result (out.new.items ≡ out.old.items ++ step_row ranks calls.now act) }
{
    match act {
        Act::Issue { call, buffered } => put_issue(out, alloc, ranks, calls, call, buffered),
        Act::Match { send, taker } => put_find(out, ranks, calls, send, " -> line ", b'-', taker),
        Act::See { send, probe } => {
            put_find(out, ranks, calls, send, " seen by line ", b'.', probe)
        }
    }
}

fn put_rows(
    out: &mut Vec<u8>,
    alloc: Global,
    ranks: u32,
    calls: &[CallLabel],
    acts: &[Act],
) -> Result<(), AllocError>
    ensures { OnOk result (out.new.items ≡ out.old.items ++ flat_map (step_row ranks calls.now) acts.now) }
{
    for act in acts {
        put_row(out, alloc, ranks, calls, *act)?;
    }
    Ok(())
}

/// Writes how many steps come before the drawn ones, and the rows of these.
fn put_drawn_rows(
    out: &mut Vec<u8>,
    alloc: Global,
    program: &LongProgram,
    calls: &[CallLabel],
    acts: &[Act],
) -> Result<(), AllocError>
    ensures { OnOk result (out.new.items ≡ out.old.items ++ rows_of program.now calls.now acts.now) }
{
    let before = undrawn(program, acts.len());
    put_undrawn_line(out, before)?;
    put_rows(out, alloc, program.ranks(), calls, &acts[before..])
}

/// Writes the last row, of where each rank stands.
fn put_end(out: &mut Vec<u8>, program: &LongProgram, end: &State) -> Result<(), AllocError>
    ensures { OnOk result (out.new.items ≡ out.old.items ++ end_row program.now end.now) }
{
    for rank in 0..program.ranks() {
        put_end_cell(out, program, end, rank)?;
    }
    end_line(out)
}

/// A message sequence chart of a run of a program that ends stuck, in plain ASCII: time goes
/// downwards, and each rank has a column, 16 characters wide, with its name on top. Each step has a
/// row. An issue shows the words of the call's line in its rank's column, cut to 15 characters, a
/// buffered send with `b ` before them. A match is an arrow from `o` in the sender's column to `>`
/// or `<` in that of the rank that takes the message, or `@` where both are one rank, and the lines
/// of the two calls behind it; a see is such an arrow of dots. The last row has `waits` or `done`
/// for each rank. More than 8 ranks have columns 6 wide, headed `r0` and so on, and no words: `i4`
/// is the issue of a call in line 4, and `b4` that of a buffered send. Of a run of a program of
/// more than 64 ranks or 1,024 calls the last 400 steps are drawn, below a line that tells how many
/// come before. `text` is the program's text, `source` what it says, and `program` its calls. The
/// only error is want of memory.
pub fn chart(
    alloc: Global,
    text: &[u8],
    source: &LongSource,
    program: &LongProgram,
    steps: &[Step],
) -> Result<Vec<u8>, AllocError>
    requires { IsStuckRun program.now steps.now }
    ensures { IfOk result (λ chart. chart.items ≡ chart_of text.now source.now program.now steps.now) }
{
    let calls = call_labels(alloc, text, source, program)?;
    let played = play(alloc, program, steps)?;
    let mut out = Vec::new(alloc);
    put_heading(&mut out, alloc, program.ranks())?;
    put_drawn_rows(&mut out, alloc, program, &calls, &played.acts)?;
    put_end(&mut out, program, &played.end)?;
    Ok(out)
}
