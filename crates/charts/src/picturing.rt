//! The steps of a run as a timeline, in SVG.

ghost use Rattle.std.specs.Prelude.{◌≡◌, ◌+◌, ◌*◌, ◌<◌, ◌≤◌, ◌++◌, OnOk, ◌-◌, ◌↔◌, IsTrue, codes, not, ◌==◌, take_while, IfOk, Some, drop, length, slice_get, slice_index};
ghost use Rattle.std.specs.List.{flat_map, slice_index_or};
ghost use Rattle.plaintext.specs.Plain.{numeral};
ghost use Rattle.scene.specs.Labels.{shortened};
ghost use Rattle.semantics.specs.RunEnds.{IsFinished};
ghost use Rattle.semantics.specs.Machine.{IsRun, opening};
ghost use Rattle.charts.specs.Chart.{columns};
ghost use Rattle.charts.specs.Picture.{arc, arc_at, arc_between, arc_title, arrow_of, bar, bend, box, box_head, box_mark, box_of, by_width, colour_of_call, colour_of_kind, dash_of, drawn_arrow, drawn_box, drawn_find, drawn_find_of, drawn_issue, drawn_issue_of, edge, end_words, escape, find_link, find_title, finished, head, hop, is_chosen, is_in, is_left_send, IsPicture, IsRunToEnd, name, name_colour, number_of, picture_at, rank_end, rank_row, row_head, straight, stroke_of, stub, tip_of, title, told_words, top, verb, waiting, waits_in, way, x_of, y_of};

use crate::cutting::{behind, put_undrawn_text, undrawn};
use crate::placing::{PlacedAct, StepColumns, columns_of, issued_in};
use callorder::{Call, Kind, LongProgram};
use calltext::{LongSource, Mode};
use scene::{Act, CallLabel, RunChoice, choices_of, is_large, play, scene_of, shortened};
use semantics::{State, Step};
use std::alloc::{AllocError, Global};
use writing::{Part, put_number, put_parts, put_text};

/// The most characters of a call's words that stand behind the edge.
const MOST_WORDS: usize = 40;

/// The most characters that a wide box has room for.
const MOST_MARK: usize = 10;

/// The most columns that are wide.
const MOST_WIDE: usize = 14;

/// The most columns that are not narrow.
const MOST_MIDDLE: usize = 40;

/// Of three numbers the one for so many columns.
fn by_width(count: usize, wide: u128, middle: u128, narrow: u128) -> u128
    ensures value { result ≡ by_width count wide middle narrow }
    ensures few { result ≤ wide + (middle + narrow) }
{
    if count <= MOST_WIDE {
        wide
    } else if count <= MOST_MIDDLE {
        middle
    } else {
        narrow
    }
}

/// Where a column begins.
fn x_of(count: usize, column: usize) -> u128
    ensures value { result ≡ x_of count column }
    ensures few { result ≤ 80 + 128 * column }
{
    let column = column as u128;
    80 + by_width(count, 64 * column, 40 * column, 24 * column)
}

/// Where an arrow begins or ends that stands in a column.
fn tip_of(count: usize, column: usize) -> u128
    ensures { result ≡ tip_of count column }
{
    x_of(count, column) + by_width(count, 58, 34, 18)
}

/// The right edge.
fn edge(count: usize) -> u128
    ensures value { result ≡ edge count }
    ensures few { result ≤ 200 + 128 * count }
{
    x_of(count, count) + (by_width(count, 60, 36, 20) + 4)
}

/// 24 above the middle of a rank's row.
fn y_of(ranks: u32, rank: u32) -> u128
    ensures value { result ≡ y_of ranks rank }
    ensures few { result ≤ 55 + 46 * rank }
{
    let rank = rank as u128;
    if ranks <= 16 {
        55 + 46 * rank
    } else if ranks <= 64 {
        49 + 34 * rank
    } else {
        43 + 22 * rank
    }
}

/// Writes what stands for a character.
fn put_escape(out: &mut Vec<u8>, byte: u8) -> Result<(), AllocError>
    ensures { OnOk result (out.new.items ≡ out.old.items ++ escape byte) }
{
    if byte == b'&' {
        out.extend_from_slice(b"&amp;")
    } else if byte == b'<' {
        out.extend_from_slice(b"&lt;")
    } else if byte == b'>' {
        out.extend_from_slice(b"&gt;")
    } else {
        out.push(byte)?;
        Ok(())
    }
}

/// Writes words as they stand in SVG and HTML: `&`, `<` and `>` as entities.
pub fn put_escaped(out: &mut Vec<u8>, words: &[u8]) -> Result<(), AllocError>
    ensures { OnOk result (out.new.items ≡ out.old.items ++ flat_map escape words.now) }
{
    for byte in words {
        put_escape(out, *byte)?;
    }
    Ok(())
}

/// Writes the rank, the line and the words of a call.
fn put_told(out: &mut Vec<u8>, told: &CallLabel) -> Result<(), AllocError>
    ensures { OnOk result (out.new.items ≡ out.old.items ++ told_words told.now) }
{
    put_parts(
        out,
        &[
            Part::Text("rank "),
            Part::Number(told.rank() as u128),
            Part::Text(", line "),
            Part::Number(told.line() as u128),
            Part::Text(": "),
        ],
    )?;
    put_escaped(out, told.words())?;
    Ok(())
}

/// Writes what a viewer shows where the pointer rests on the group of a call.
fn put_title(out: &mut Vec<u8>, told: &CallLabel) -> Result<(), AllocError>
    ensures { OnOk result (out.new.items ≡ out.old.items ++ title told.now) }
{
    put_text(out, "<title>")?;
    put_told(out, told)?;
    put_text(out, "</title>")?;
    Ok(())
}

/// The colour of a call of this kind.
fn colour_of_kind(kind: Kind, buffered: bool) -> &'static str
    ensures { result.now ≡ colour_of_kind kind buffered }
{
    match kind {
        Kind::Send { mode, .. } => match mode {
            Mode::Buffered => "#d6e4f2",
            Mode::Standard => { if buffered { "#d6e4f2" } else { "#8fb8de" } }
            Mode::Synchronous => "#8fb8de",
        },
        Kind::Receive { .. } | Kind::MatchedReceive { .. } => "#a3d39c",
        Kind::MatchedProbe { .. } | Kind::Probe { .. } => "#d5b3d6",
        Kind::Wait { .. } => "#cfcac6",
    }
}

fn colour_of(call: Option<Call>, buffered: bool) -> &'static str
    ensures { result.now ≡ colour_of_call call buffered }
{
    match call {
        None => "",
        Some(call) => colour_of_kind(call.kind, buffered),
    }
}

/// How long the first word is.
fn verb_length(words: &[u8]) -> usize
    ensures { result ≡ length (take_while (λ b. not (b == 32)) words.now) }
{
    words.iter().take_while(|byte| **byte != b' ').count()
}

/// The first word.
fn verb(words: &[u8]) -> &[u8]
    ensures { result.now ≡ verb words.now }
{
    let (first, _others) = words.split_at(verb_length(words).min(words.len()));
    first
}

/// The line of a call.
fn line_mark(alloc: Global, told: &CallLabel) -> Result<Vec<u8>, AllocError>
    ensures { IfOk result (λ mark. mark.items ≡ numeral told.now.line) }
{
    let mut mark = Vec::new(alloc);
    put_number(&mut mark, told.line() as u128)?;
    Ok(mark)
}

/// The line of a call, and its verb.
fn line_and_verb(alloc: Global, told: &CallLabel) -> Result<Vec<u8>, AllocError>
    ensures { IfOk result (λ mark. mark.items ≡ numeral told.now.line ++ (codes " " ++ verb told.now.words)) }
{
    let mut mark = line_mark(alloc, told)?;
    put_text(&mut mark, " ")?;
    mark.extend_from_slice(verb(told.words()))?;
    Ok(mark)
}

/// What stands in a call's box.
fn mark_of(alloc: Global, count: usize, told: &CallLabel) -> Result<Vec<u8>, AllocError>
    ensures { IfOk result (λ mark. mark.items ≡ box_mark count told.now) }
{
    if count > MOST_WIDE {
        return line_mark(alloc, told);
    }
    let mark = line_and_verb(alloc, told)?;
    shortened(alloc, &mark, MOST_MARK)
}

/// Whether the call is a send whose message is not received in the state.
fn is_left(program: &LongProgram, end: &State, call: usize) -> bool
    ensures { result ≡ is_left_send program.now end.now call }
{
    match program.call(call) {
        None => false,
        Some(known) => known.kind.message().is_some() && !end.is_fetched(program, call),
    }
}

/// The stub at a message that is never received.
fn stub(left: bool) -> &'static str
    ensures { result.now ≡ stub left }
{
    if left {
        "<path d=\"M8 8V15M3 15H13\" stroke=\"#d62728\" stroke-width=\"2\"/>"
    } else {
        ""
    }
}

/// Writes the beginning of the group of a box.
fn put_box_head(
    out: &mut Vec<u8>,
    ranks: u32,
    count: usize,
    column: usize,
    rank: u32,
) -> Result<(), AllocError>
    ensures { OnOk result (out.new.items ≡ out.old.items ++ box_head ranks count column rank) }
{
    put_parts(
        out,
        &[
            Part::Text("<g class=\"step\" transform=\"translate("),
            Part::Number(x_of(count, column) + 2),
            Part::Text(","),
            Part::Number(y_of(ranks, rank) + 24),
            Part::Text(")\">"),
        ],
    )?;
    Ok(())
}

/// Writes a rounded box of this colour with a mark in it.
fn put_box(out: &mut Vec<u8>, count: usize, colour: &str, mark: &[u8]) -> Result<(), AllocError>
    ensures { OnOk result (out.new.items ≡ out.old.items ++ box count colour.now mark.now) }
{
    put_parts(
        out,
        &[
            Part::Text("<rect y=\"-8\" width=\""),
            Part::Number(by_width(count, 60, 36, 20)),
            Part::Text("\" height=\"16\" rx=\"3\" fill=\""),
            Part::Text(colour),
            Part::Text("\"/><text x=\""),
            Part::Number(by_width(count, 30, 18, 10)),
            Part::Text("\" y=\"3\" font-size=\""),
            Part::Number(by_width(count, 9, 9, 7)),
            Part::Text("\" text-anchor=\"middle\">"),
        ],
    )?;
    put_escaped(out, mark)?;
    put_text(out, "</text>")?;
    Ok(())
}

/// Writes the group of the issue of this call.
fn put_told_issue(
    out: &mut Vec<u8>,
    alloc: Global,
    ranks: u32,
    count: usize,
    column: usize,
    told: &CallLabel,
    colour: &str,
    left: bool,
) -> Result<(), AllocError>
    ensures { OnOk result (out.new.items ≡ out.old.items ++ drawn_issue ranks count column told.now colour.now left) }
{
    let mark = mark_of(alloc, count, told)?;
    put_box_head(out, ranks, count, column, told.rank())?;
    put_title(out, told)?;
    put_box(out, count, colour, &mark)?;
    put_parts(out, &[Part::Text(stub(left)), Part::Text("</g>\n")])?;
    Ok(())
}

/// Writes the group of the issue of the call at a place.
fn put_issue(
    out: &mut Vec<u8>,
    alloc: Global,
    ranks: u32,
    count: usize,
    column: usize,
    calls: &[CallLabel],
    call: usize,
    colour: &str,
    left: bool,
) -> Result<(), AllocError>
    ensures { OnOk result (out.new.items ≡ out.old.items ++ drawn_issue_of ranks count column (slice_get calls.now call) colour.now left) }
{
    let Some(told) = calls.get(call) else {
        return Ok(());
    };
    put_told_issue(out, alloc, ranks, count, column, told, colour, left)
}

/// Writes the group of a step in a column, where it is an issue.
fn put_drawn_box(
    out: &mut Vec<u8>,
    alloc: Global,
    program: &LongProgram,
    end: &State,
    calls: &[CallLabel],
    count: usize,
    step: PlacedAct,
) -> Result<(), AllocError>
    ensures { OnOk result (out.new.items ≡ out.old.items ++ drawn_box program.now end.now calls.now count step.column step.act) }
{
    match step.act {
        Act::Issue { call, buffered } => {
            let colour = colour_of(program.call(call), buffered);
            let left = is_left(program, end, call);
            let ranks = program.ranks();
            put_issue(
                out,
                alloc,
                ranks,
                count,
                step.column,
                calls,
                call,
                colour,
                left,
            )
        }
        Act::Match { .. } => Ok(()),
        Act::See { .. } => Ok(()),
    }
}

/// Writes the boxes of all issues.
fn put_boxes(
    out: &mut Vec<u8>,
    alloc: Global,
    program: &LongProgram,
    end: &State,
    calls: &[CallLabel],
    count: usize,
    steps: &[PlacedAct],
) -> Result<(), AllocError>
    ensures { OnOk result (out.new.items ≡ out.old.items ++ flat_map (box_of program.now end.now calls.now count) steps.now) }
{
    for step in steps {
        put_drawn_box(out, alloc, program, end, calls, count, *step)?;
    }
    Ok(())
}

fn link_of(sees: bool) -> &'static str
    ensures { result.now ≡ find_link sees }
{
    if sees { " seen by " } else { " -&gt; " }
}

fn dash_of(sees: bool) -> &'static str
    ensures { result.now ≡ dash_of sees }
{
    if sees {
        " stroke-dasharray=\"4 3\""
    } else {
        ""
    }
}

fn stroke_of(chosen: bool) -> &'static str
    ensures { result.now ≡ stroke_of chosen }
{
    if chosen {
        " fill=\"none\" stroke=\"#e8870e\" stroke-width=\"2\" opacity=\".85\" marker-end=\"url(#chosen"
    } else {
        " fill=\"none\" stroke=\"#333\" opacity=\".75\" marker-end=\"url(#taken"
    }
}

/// The number of a picture in the names of its heads of arrows: a page may show one of a run that
/// gets stuck and one of a run that ends well.
fn number_of(well: bool) -> &'static str
    ensures { result.now ≡ number_of well }
{
    if well { "2" } else { "1" }
}

/// Writes a straight way.
fn put_straight(
    out: &mut Vec<u8>,
    from_x: u128,
    from_y: u128,
    to_x: u128,
    to_y: u128,
) -> Result<(), AllocError>
    ensures { OnOk result (out.new.items ≡ out.old.items ++ straight from_x from_y to_x to_y) }
{
    put_parts(
        out,
        &[
            Part::Text("M"),
            Part::Number(from_x),
            Part::Text(" "),
            Part::Number(from_y),
            Part::Text("L"),
            Part::Number(to_x),
            Part::Text(" "),
            Part::Number(to_y),
            Part::Text("\""),
        ],
    )?;
    Ok(())
}

/// Writes a way over the boxes of a rank's row.
fn put_hop(
    out: &mut Vec<u8>,
    from_x: u128,
    to_x: u128,
    ranks: u32,
    rank: u32,
) -> Result<(), AllocError>
    ensures { OnOk result (out.new.items ≡ out.old.items ++ hop from_x to_x (y_of ranks rank)) }
{
    let y = y_of(ranks, rank);
    put_parts(
        out,
        &[
            Part::Text("M"),
            Part::Number(from_x),
            Part::Text(" "),
            Part::Number(y + 16),
            Part::Text("C"),
            Part::Number(from_x),
            Part::Text(" "),
            Part::Number(y),
            Part::Text(" "),
            Part::Number(to_x),
            Part::Text(" "),
            Part::Number(y),
            Part::Text(" "),
            Part::Number(to_x),
            Part::Text(" "),
            Part::Number(y + 15),
            Part::Text("\""),
        ],
    )?;
    Ok(())
}

/// Writes the way of a message from a rank's row to another's.
fn put_way(
    out: &mut Vec<u8>,
    ranks: u32,
    from: u32,
    to: u32,
    from_x: u128,
    to_x: u128,
) -> Result<(), AllocError>
    ensures { OnOk result (out.new.items ≡ out.old.items ++ way ranks from to from_x to_x) }
{
    if from == to {
        put_hop(out, from_x, to_x, ranks, from)
    } else if from < to {
        put_straight(
            out,
            from_x,
            y_of(ranks, from) + 32,
            to_x,
            y_of(ranks, to) + 15,
        )
    } else {
        put_straight(
            out,
            from_x,
            y_of(ranks, from) + 16,
            to_x,
            y_of(ranks, to) + 33,
        )
    }
}

/// How the arrow of a message is drawn.
#[derive(Clone, Copy)]
struct Look {
    well: bool,
    chosen: bool,
    sees: bool,
}

/// Writes what a viewer says of a message of this send that this call finds.
fn put_find_title(
    out: &mut Vec<u8>,
    send: &CallLabel,
    sees: bool,
    finder: &CallLabel,
) -> Result<(), AllocError>
    ensures { OnOk result (out.new.items ≡ out.old.items ++ find_title send.now sees finder.now) }
{
    put_text(out, "<g class=\"step\"><title>")?;
    put_told(out, send)?;
    put_text(out, link_of(sees))?;
    put_told(out, finder)?;
    put_text(out, "</title><path d=\"")?;
    Ok(())
}

/// Writes the group of a message of this send that this call finds.
fn put_told_find(
    out: &mut Vec<u8>,
    ranks: u32,
    from_x: u128,
    to_x: u128,
    look: Look,
    send: &CallLabel,
    finder: &CallLabel,
) -> Result<(), AllocError>
    ensures { OnOk result (out.new.items ≡ out.old.items ++ drawn_find look.well ranks from_x to_x look.chosen send.now look.sees finder.now) }
{
    put_find_title(out, send, look.sees, finder)?;
    put_way(out, ranks, send.rank(), finder.rank(), from_x, to_x)?;
    put_parts(
        out,
        &[
            Part::Text(stroke_of(look.chosen)),
            Part::Text(number_of(look.well)),
            Part::Text(")\""),
            Part::Text(dash_of(look.sees)),
            Part::Text("/></g>\n"),
        ],
    )?;
    Ok(())
}

/// Whether a call finds a message where others fitted too.
fn is_chosen(marks: &[bool], finder: usize) -> bool
    ensures { result ≡ is_chosen marks.now finder }
{
    marks.get(finder).copied().unwrap_or(false)
}

/// Writes the group of a message that the call at a place finds, of the send at another, which is
/// issued in a column.
fn put_find(
    out: &mut Vec<u8>,
    ranks: u32,
    calls: &[CallLabel],
    count: usize,
    sent: usize,
    column: usize,
    look: Look,
    send: usize,
    finder: usize,
) -> Result<(), AllocError>
    ensures { OnOk result (out.new.items ≡
        out.old.items ++ drawn_find_of look.well ranks count sent column look.chosen (slice_get calls.now send)
        look.sees (slice_get calls.now finder)) }
{
    let Some(send) = calls.get(send) else {
        return Ok(());
    };
    let Some(finder) = calls.get(finder) else {
        return Ok(());
    };
    let from_x = tip_of(count, sent);
    let to_x = tip_of(count, column);
    put_told_find(out, ranks, from_x, to_x, look, send, finder)?;
    Ok(())
}

/// Writes the arrow of a step in a column, where it is no issue.
fn put_drawn_arrow(
    out: &mut Vec<u8>,
    well: bool,
    ranks: u32,
    calls: &[CallLabel],
    placed: &StepColumns,
    marks: &[bool],
    step: PlacedAct,
) -> Result<(), AllocError>
    ensures { OnOk result (out.new.items ≡
        out.old.items ++ drawn_arrow well ranks calls.now placed.now.count (slice_index placed.now.issues.items)
        marks.now step.column step.act) }
{
    let (send, sees, finder) = match step.act {
        Act::Issue { .. } => return Ok(()),
        Act::Match { send, taker } => (send, false, taker),
        Act::See { send, probe } => (send, true, probe),
    };
    let sent = issued_in(&placed.issues, send);
    let chosen = is_chosen(marks, finder);
    let look = Look { well, chosen, sees };
    put_find(
        out,
        ranks,
        calls,
        placed.count,
        sent,
        step.column,
        look,
        send,
        finder,
    )?;
    Ok(())
}

/// Writes the arrows of all steps that are no issues.
fn put_arrows(
    out: &mut Vec<u8>,
    well: bool,
    ranks: u32,
    calls: &[CallLabel],
    placed: &StepColumns,
    marks: &[bool],
) -> Result<(), AllocError>
    ensures { OnOk result (out.new.items ≡
        out.old.items ++ flat_map (arrow_of well ranks calls.now placed.now.count (slice_index
        placed.now.issues.items) marks.now) placed.now.steps.items) }
{
    for step in &placed.steps {
        put_drawn_arrow(out, well, ranks, calls, placed, marks, *step)?;
    }
    Ok(())
}

fn name_colour(red: bool) -> &'static str
    ensures { result.now ≡ name_colour red }
{
    if red { "#d62728" } else { "#222" }
}

fn is_in(ranks: &[u32], rank: u32) -> bool
    ensures { result ≡ is_in ranks.now rank }
{
    ranks.iter().any(|other| *other == rank)
}

/// Writes the name of a rank, and the end of its group.
fn put_name(out: &mut Vec<u8>, red: bool, rank: u32) -> Result<(), AllocError>
    ensures { OnOk result (out.new.items ≡ out.old.items ++ name red rank) }
{
    put_parts(
        out,
        &[
            Part::Text("<text x=\"10\" y=\"4\" font-weight=\"bold\" fill=\""),
            Part::Text(name_colour(red)),
            Part::Text("\">rank "),
            Part::Number(rank as u128),
            Part::Text("</text></g>\n"),
        ],
    )?;
    Ok(())
}

/// Writes that a rank is finished.
fn put_finished(out: &mut Vec<u8>, count: usize, rank: u32) -> Result<(), AllocError>
    ensures { OnOk result (out.new.items ≡ out.old.items ++ finished count rank) }
{
    put_parts(
        out,
        &[
            Part::Text("<title>rank "),
            Part::Number(rank as u128),
            Part::Text(": finished</title><path d=\"M80 0H"),
            Part::Number(edge(count)),
            Part::Text("\" stroke=\"#ddd\"/><text x=\""),
            Part::Number(edge(count) + 60),
            Part::Text("\" y=\"4\" fill=\"#888\">finished</text>"),
        ],
    )?;
    Ok(())
}

/// Writes a red bar from a place to another.
fn put_bar(out: &mut Vec<u8>, from: u128, to: u128) -> Result<(), AllocError>
    ensures { OnOk result (out.new.items ≡ out.old.items ++ bar from to) }
{
    put_parts(
        out,
        &[
            Part::Text("<path d=\"M80 0H"),
            Part::Number(from),
            Part::Text("\" stroke=\"#ddd\"/><rect x=\""),
            Part::Number(from),
            Part::Text("\" y=\"-11\" width=\""),
            Part::Number(to.saturating_sub(from)),
            Part::Text("\" height=\"22\" rx=\"3\" fill=\"#fbdada\" stroke=\"#d62728\"/>"),
        ],
    )?;
    Ok(())
}

/// Writes behind the edge which call a rank waits in.
fn put_waits_in(
    out: &mut Vec<u8>,
    alloc: Global,
    count: usize,
    told: &CallLabel,
) -> Result<(), AllocError>
    ensures { OnOk result (out.new.items ≡ out.old.items ++ waits_in count told.now) }
{
    let short = shortened(alloc, told.words(), MOST_WORDS)?;
    put_parts(
        out,
        &[
            Part::Text("<text x=\""),
            Part::Number(edge(count) + 60),
            Part::Text("\" y=\"4\" fill=\"#d62728\">line "),
            Part::Number(told.line() as u128),
            Part::Text(": "),
        ],
    )?;
    put_escaped(out, &short)?;
    put_text(out, "</text>")?;
    Ok(())
}

/// Writes that a rank waits in this call, which is issued in a column.
fn put_told_waiting(
    out: &mut Vec<u8>,
    alloc: Global,
    count: usize,
    column: usize,
    told: &CallLabel,
) -> Result<(), AllocError>
    ensures { OnOk result (out.new.items ≡ out.old.items ++ waiting count column (Some told.now)) }
{
    put_title(out, told)?;
    put_bar(out, x_of(count, column), edge(count))?;
    put_waits_in(out, alloc, count, told)?;
    Ok(())
}

/// Writes that a rank waits in the call at a place, which is issued in a column.
fn put_waiting(
    out: &mut Vec<u8>,
    alloc: Global,
    calls: &[CallLabel],
    count: usize,
    column: usize,
    call: usize,
) -> Result<(), AllocError>
    ensures { OnOk result (out.new.items ≡ out.old.items ++ waiting count column (slice_get calls.now call)) }
{
    match calls.get(call) {
        None => Ok(()),
        Some(told) => put_told_waiting(out, alloc, count, column, told),
    }
}

/// The call before a rank's next one.
fn last_of(end: &State, rank: u32) -> usize
    ensures { result ≡ slice_index end.now.next rank - 1 }
{
    let next = end.next_of(rank).unwrap_or(0);
    next.saturating_sub(1)
}

/// Writes where a rank stands.
fn put_rank_end(
    out: &mut Vec<u8>,
    alloc: Global,
    program: &LongProgram,
    end: &State,
    calls: &[CallLabel],
    placed: &StepColumns,
    rank: u32,
) -> Result<(), AllocError>
    ensures { OnOk result (out.new.items ≡
        out.old.items ++ rank_end program.now end.now calls.now placed.now.count (slice_index
        placed.now.issues.items) rank) }
{
    if end.is_rank_finished(program, rank) {
        return put_finished(out, placed.count, rank);
    }
    let call = last_of(end, rank);
    let column = issued_in(&placed.issues, call);
    put_waiting(out, alloc, calls, placed.count, column, call)?;
    Ok(())
}

/// Writes the row of a rank.
fn put_row(
    out: &mut Vec<u8>,
    alloc: Global,
    program: &LongProgram,
    end: &State,
    calls: &[CallLabel],
    placed: &StepColumns,
    cycle: &[u32],
    rank: u32,
) -> Result<(), AllocError>
    ensures { OnOk result (out.new.items ≡
        out.old.items ++ rank_row program.now end.now calls.now placed.now.count (slice_index
        placed.now.issues.items) cycle.now rank) }
{
    put_parts(
        out,
        &[
            Part::Text("<g class=\"rank\" transform=\"translate(0,"),
            Part::Number(y_of(program.ranks(), rank) + 24),
            Part::Text(")\">"),
        ],
    )?;
    put_rank_end(out, alloc, program, end, calls, placed, rank)?;
    put_name(out, is_in(cycle, rank), rank)?;
    Ok(())
}

/// Writes the rows of all ranks.
fn put_rows(
    out: &mut Vec<u8>,
    alloc: Global,
    program: &LongProgram,
    end: &State,
    calls: &[CallLabel],
    placed: &StepColumns,
    cycle: &[u32],
) -> Result<(), AllocError>
    ensures { OnOk result (out.new.items ≡
        out.old.items ++ columns (rank_row program.now end.now calls.now placed.now.count (slice_index
        placed.now.issues.items) cycle.now) program.now.ranks) }
{
    for rank in 0..program.ranks() {
        put_row(out, alloc, program, end, calls, placed, cycle, rank)?;
    }
    Ok(())
}

/// How far an arc bends.
fn bend(from: u32, to: u32) -> u128
    ensures value { result ≡ bend from to }
    ensures few { result ≤ 58 }
{
    if from as u64 + 1 == to as u64 {
        40
    } else if to as u64 + 1 == from as u64 {
        26
    } else if from < to {
        58
    } else {
        46
    }
}

/// Writes an arc from a place to another, and the end of its group.
fn put_arc_between(
    out: &mut Vec<u8>,
    x: u128,
    past: u128,
    far: u128,
    from: u128,
    to: u128,
) -> Result<(), AllocError>
    ensures { OnOk result (out.new.items ≡ out.old.items ++ arc_between x past far from to) }
{
    put_parts(
        out,
        &[
            Part::Text("<path d=\"M"),
            Part::Number(x),
            Part::Text(" "),
            Part::Number(from),
            Part::Text("C"),
            Part::Number(far),
            Part::Text(" "),
            Part::Number(from),
            Part::Text(" "),
            Part::Number(far),
            Part::Text(" "),
            Part::Number(to),
            Part::Text(" "),
            Part::Number(past),
            Part::Text(" "),
            Part::Number(to),
            Part::Text(
                "\" fill=\"none\" stroke=\"#d62728\" stroke-width=\"2\" marker-end=\"url(#cycle1)\"/></g>\n",
            ),
        ],
    )?;
    Ok(())
}

fn put_arc_title(out: &mut Vec<u8>, from: u32, to: u32) -> Result<(), AllocError>
    ensures { OnOk result (out.new.items ≡ out.old.items ++ arc_title from to) }
{
    put_parts(
        out,
        &[
            Part::Text("<g class=\"cycle\"><title>rank "),
            Part::Number(from as u128),
            Part::Text(" waits for rank "),
            Part::Number(to as u128),
            Part::Text("</title>"),
        ],
    )?;
    Ok(())
}

/// Writes that a rank of the cycle waits for another.
fn put_arc(
    out: &mut Vec<u8>,
    ranks: u32,
    count: usize,
    from: u32,
    to: u32,
) -> Result<(), AllocError>
    ensures { OnOk result (out.new.items ≡ out.old.items ++ arc ranks count from to) }
{
    let x = edge(count);
    let far = x + bend(from, to);
    let from_y = y_of(ranks, from) + 20;
    let to_y = y_of(ranks, to) + 28;
    put_arc_title(out, from, to)?;
    put_arc_between(out, x, x + 3, far, from_y, to_y)?;
    Ok(())
}

/// The rank at a place of the cycle, or else this one.
fn rank_at(cycle: &[u32], place: usize, other: u32) -> u32
    ensures { result ≡ slice_index_or cycle.now place other }
{
    cycle.get(place).copied().unwrap_or(other)
}

/// Writes the arc from the rank at a place of the cycle to the next one.
fn put_arc_at(
    out: &mut Vec<u8>,
    ranks: u32,
    count: usize,
    cycle: &[u32],
    place: usize,
) -> Result<(), AllocError>
    requires { place < length cycle.now }
    ensures { OnOk result (out.new.items ≡ out.old.items ++ arc_at ranks count cycle.now place) }
{
    let first = rank_at(cycle, 0, 0);
    let from = rank_at(cycle, place, 0);
    let to = rank_at(cycle, place + 1, first);
    put_arc(out, ranks, count, from, to)
}

/// Writes the arcs of the cycle.
fn put_arcs(out: &mut Vec<u8>, ranks: u32, count: usize, cycle: &[u32]) -> Result<(), AllocError>
    ensures { OnOk result (out.new.items ≡ out.old.items ++ columns (arc_at ranks count cycle.now) (length cycle.now)) }
{
    for place in 0..cycle.len() {
        put_arc_at(out, ranks, count, cycle, place)?;
    }
    Ok(())
}

/// How a run ends.
fn end_words(well: bool) -> &'static str
    ensures { result.now ≡ end_words well }
{
    if well {
        "ends well"
    } else {
        "ends in a deadlock"
    }
}

/// Writes the size, the title, the heads of arrows, a white ground, and what colours mean.
fn put_head(out: &mut Vec<u8>, well: bool, width: u128, height: u128) -> Result<(), AllocError>
    ensures { OnOk result (out.new.items ≡ out.old.items ++ head well width height) }
{
    let number = number_of(well);
    put_parts(
        out,
        &[
            Part::Text("<svg xmlns=\"http://www.w3.org/2000/svg\" viewBox=\"0 0 "),
            Part::Number(width),
            Part::Text(" "),
            Part::Number(height),
            Part::Text("\" width=\""),
            Part::Number(width),
            Part::Text("\" height=\""),
            Part::Number(height),
            Part::Text(
                "\" font-family=\"DejaVu Sans,Helvetica,sans-serif\" font-size=\"12\">\n<title>Timeline of a run that ",
            ),
            Part::Text(end_words(well)),
            Part::Text("</title>\n<defs><marker id=\"taken"),
            Part::Text(number),
            Part::Text(
                "\" viewBox=\"0 0 8 8\" refX=\"7\" refY=\"4\" markerWidth=\"7\" markerHeight=\"7\" markerUnits=\"userSpaceOnUse\" orient=\"auto\"><path d=\"M0 0L8 4L0 8z\" fill=\"#333\"/></marker><marker id=\"chosen",
            ),
            Part::Text(number),
            Part::Text(
                "\" viewBox=\"0 0 8 8\" refX=\"7\" refY=\"4\" markerWidth=\"9\" markerHeight=\"9\" markerUnits=\"userSpaceOnUse\" orient=\"auto\"><path d=\"M0 0L8 4L0 8z\" fill=\"#e8870e\"/></marker><marker id=\"cycle",
            ),
            Part::Text(number),
            Part::Text(
                "\" viewBox=\"0 0 8 8\" refX=\"7\" refY=\"4\" markerWidth=\"9\" markerHeight=\"9\" markerUnits=\"userSpaceOnUse\" orient=\"auto\"><path d=\"M0 0L8 4L0 8z\" fill=\"#d62728\"/></marker></defs>\n<rect width=\"100%\" height=\"100%\" fill=\"white\"/>\n<g class=\"legend\" font-size=\"11\"><rect x=\"10\" y=\"12\" width=\"14\" height=\"12\" rx=\"3\" fill=\"#8fb8de\"/><text x=\"28\" y=\"22\">send</text><rect x=\"64\" y=\"12\" width=\"14\" height=\"12\" rx=\"3\" fill=\"#d6e4f2\"/><text x=\"82\" y=\"22\">buffered send</text><rect x=\"172\" y=\"12\" width=\"14\" height=\"12\" rx=\"3\" fill=\"#a3d39c\"/><text x=\"190\" y=\"22\">receive</text><rect x=\"242\" y=\"12\" width=\"14\" height=\"12\" rx=\"3\" fill=\"#d5b3d6\"/><text x=\"260\" y=\"22\">probe</text><rect x=\"302\" y=\"12\" width=\"14\" height=\"12\" rx=\"3\" fill=\"#cfcac6\"/><text x=\"320\" y=\"22\">wait</text><rect x=\"354\" y=\"12\" width=\"14\" height=\"12\" rx=\"3\" fill=\"#fbdada\" stroke=\"#d62728\"/><text x=\"372\" y=\"22\">never returns</text><path d=\"M460 18H480\" stroke=\"#e8870e\" stroke-width=\"2\" marker-end=\"url(#chosen",
            ),
            Part::Text(number),
            Part::Text(")\"/><text x=\"486\" y=\"22\">others fitted too</text></g>\n"),
        ],
    )?;
    Ok(())
}

/// Writes what stands above the rows.
fn put_top(out: &mut Vec<u8>, well: bool, ranks: u32, count: usize) -> Result<(), AllocError>
    ensures { OnOk result (out.new.items ≡ out.old.items ++ top well ranks count) }
{
    put_head(out, well, edge(count) + 460, y_of(ranks, ranks) + 20)?;
    Ok(())
}

/// Of each call whether it finds a message where others fitted too. Of large programs it isn't
/// asked, since that takes long.
fn marks_of(alloc: Global, program: &LongProgram, steps: &[Step]) -> Result<Vec<bool>, AllocError>
    requires { IsRun program.now (opening program.now) steps.now }
{
    let mut marks = vec![in alloc; false; program.calls().len()]?;
    if is_large(program) {
        return Ok(marks);
    }
    for choice in &choices_of(alloc, program, steps)? {
        if let RunChoice::Found { finder, .. } = choice
            && let Some(mark) = marks.get_mut(*finder)
        {
            *mark = true;
        }
    }
    Ok(marks)
}

/// Whether all ranks are finished.
fn ends_well(program: &LongProgram, end: &State) -> bool
    ensures { IsTrue result ↔ IsFinished program.now end.now }
{
    end.unfinished(program).is_none()
}

/// Writes a picture of steps in columns, behind so many others.
fn put_picture(
    out: &mut Vec<u8>,
    alloc: Global,
    well: bool,
    program: &LongProgram,
    end: &State,
    calls: &[CallLabel],
    placed: &StepColumns,
    cycle: &[u32],
    marks: &[bool],
    before: usize,
) -> Result<(), AllocError>
    ensures { OnOk result (out.new.items ≡
        out.old.items ++ picture_at well program.now end.now calls.now placed.now.count (slice_index
        placed.now.issues.items) placed.now.steps.items cycle.now marks.now before) }
{
    let ranks = program.ranks();
    put_top(out, well, ranks, placed.count)?;
    put_undrawn_text(out, before)?;
    put_rows(out, alloc, program, end, calls, placed, cycle)?;
    put_boxes(out, alloc, program, end, calls, placed.count, &placed.steps)?;
    put_arrows(out, well, ranks, calls, placed, marks)?;
    put_arcs(out, ranks, placed.count, cycle)?;
    put_text(out, "</svg>\n")?;
    Ok(())
}

/// A picture of steps in columns, behind so many others.
fn picture_of(
    alloc: Global,
    well: bool,
    program: &LongProgram,
    end: &State,
    calls: &[CallLabel],
    placed: &StepColumns,
    cycle: &[u32],
    marks: &[bool],
    before: usize,
) -> Result<Vec<u8>, AllocError>
    ensures { IfOk result (λ picture.
        picture.items ≡
        picture_at well program.now end.now calls.now placed.now.count (slice_index placed.now.issues.items)
        placed.now.steps.items cycle.now marks.now before) }
{
    let mut out = Vec::new(alloc);
    put_picture(
        &mut out, alloc, well, program, end, calls, placed, cycle, marks, before,
    )?;
    Ok(out)
}

/// A timeline of a run of a program that ends stuck, or in which all ranks finish, as a picture in
/// SVG that stands alone: each rank has a row, rank 0 the uppermost, time goes to the right, and
/// steps that don't wait for one another may share a column. An issue is a group of class `step`
/// with a box in its rank's row, in which the call's line stands, and its verb where there are up
/// to 14 columns; waits of one line, as those of a `waitall`, lie over one another. Sends are blue,
/// buffered ones pale, receives green, probes purple, waits grey; a send whose message is never
/// received has a red stub. A match is a group of class `step` with an arrow from the box of the
/// send to the row of the rank that takes the message, and a see a dashed one; it is orange where
/// the call could have found another message too, which isn't asked of programs of more than 64
/// ranks or 1,024 calls. In the row of a rank that waits at the end a red bar leads from the call
/// that it waits in to the right edge, behind which the call's line and words stand; behind the
/// other rows stands `finished`. Ranks of a cycle of ranks that wait for one another have a red
/// name, and red arcs lead from each to the next. Each group has a title with ranks, lines and
/// words. Where all ranks finish there is no bar and no cycle, behind each row stands `finished`,
/// and the picture's title says that the run ends well. Of a run of a program of more than 64 ranks
/// or 1,024 calls the last 400 steps are drawn, however it ends, and above the rows stands how many
/// come before. `text` is the program's text, `source` what it says, and `program` its calls. The
/// only error is want of memory.
pub fn picture(
    alloc: Global,
    text: &[u8],
    source: &LongSource,
    program: &LongProgram,
    steps: &[Step],
) -> Result<Vec<u8>, AllocError>
    requires { IsRunToEnd program.now steps.now }
    ensures { IfOk result (λ picture. IsPicture text.now source.now program.now steps.now picture.items) }
{
    let scene = scene_of(alloc, text, source, program, steps, false)?;
    let played = play(alloc, program, steps)?;
    let marks = marks_of(alloc, program, steps)?;
    let all = played.acts.as_slice();
    let before = undrawn(program, all.len());
    let acts = behind(all, before);
    let placed = columns_of(alloc, program, &scene.labels, acts)?;
    let out = picture_of(
        alloc,
        ends_well(program, &scene.state),
        program,
        &scene.state,
        &scene.labels,
        &placed,
        &scene.cycle,
        &marks,
        before,
    )?;
    Ok(out)
}
