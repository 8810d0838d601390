//! The steps of a run, a line for each.

ghost use Rattle.std.specs.Prelude.{◌≡◌, ◌++◌, IfOk, OnOk, slice_get};
ghost use Rattle.std.specs.List.{flat_map};
ghost use Rattle.semantics.specs.Machine.{IsStuckRun};
ghost use Rattle.charts.specs.Lining.{act_line, label_words, find_line, how_issued, issue_line, lined_run, place_words, told_place};

use callorder::LongProgram;
use calltext::LongSource;
use scene::{Act, CallLabel, call_labels, play};
use semantics::Step;
use std::alloc::{AllocError, Global};
use writing::{Part, put_parts, put_text};

/// Writes the rank and the line of this call.
fn put_told(out: &mut Vec<u8>, told: &CallLabel) -> Result<(), AllocError>
    ensures { OnOk result (out.new.items ≡ out.old.items ++ told_place told.now) }
{
    put_parts(
        out,
        &[
            Part::Text("rank "),
            Part::Number(told.rank() as u128),
            Part::Text(" line "),
            Part::Number(told.line() as u128),
        ],
    )
}

/// Writes the rank and the line of a call.
fn put_place(out: &mut Vec<u8>, calls: &[CallLabel], call: usize) -> Result<(), AllocError>
    ensures { OnOk result (out.new.items ≡ out.old.items ++ place_words (slice_get calls.now call)) }
{
    let Some(told) = calls.get(call) else {
        return Ok(());
    };
    put_told(out, told)
}

/// The words of a call.
fn words_of(calls: &[CallLabel], call: usize) -> &[u8]
    ensures { result.now ≡ label_words (slice_get calls.now call) }
{
    match calls.get(call) {
        None => b"",
        Some(told) => told.words(),
    }
}

fn how_issued(buffered: bool) -> &'static str
    ensures { result.now ≡ how_issued buffered }
{
    if buffered { " (buffered)" } else { "" }
}

/// Writes the line of the issue of a call.
fn put_issue(
    out: &mut Vec<u8>,
    calls: &[CallLabel],
    call: usize,
    buffered: bool,
) -> Result<(), AllocError>
    ensures { OnOk result (out.new.items ≡ out.old.items ++ issue_line (slice_get calls.now call) buffered) }
{
    put_place(out, calls, call)?;
    put_parts(
        out,
        &[
            Part::Text(": "),
            Part::Bytes(words_of(calls, call)),
            Part::Text(how_issued(buffered)),
            Part::Text("\n"),
        ],
    )
}

/// Writes the line of a message that is taken or seen.
fn put_find(
    out: &mut Vec<u8>,
    calls: &[CallLabel],
    send: usize,
    link: &str,
    finder: usize,
) -> Result<(), AllocError>
    ensures { OnOk result (out.new.items ≡ out.old.items ++ find_line (slice_get calls.now send) link.now (slice_get calls.now finder)) }
{
    put_text(out, "message of ")?;
    put_place(out, calls, send)?;
    put_text(out, link)?;
    put_place(out, calls, finder)?;
    put_text(out, "\n")
}

/// Writes the line of a step.
fn put_line(out: &mut Vec<u8>, calls: &[CallLabel], act: Act) -> Result<(), AllocError>
    ensures { OnOk result (out.new.items ≡ out.old.items ++ act_line calls.now act) }
{
    match act {
        Act::Issue { call, buffered } => put_issue(out, calls, call, buffered),
        Act::Match { send, taker } => put_find(out, calls, send, " -> ", taker),
        Act::See { send, probe } => put_find(out, calls, send, " seen by ", probe),
    }
}

fn put_lines(out: &mut Vec<u8>, calls: &[CallLabel], acts: &[Act]) -> Result<(), AllocError>
    ensures { OnOk result (out.new.items ≡ out.old.items ++ flat_map (act_line calls.now) acts.now) }
{
    for act in acts {
        put_line(out, calls, *act)?;
    }
    Ok(())
}

/// A line for each step of a run of a program that ends stuck, and then `stuck`, in plain ASCII: of
/// an issue the rank, the line and its words, with ` (buffered)` behind them where the step buffers
/// a send, and of a match or a see the rank and the line of the send and of the call that takes or
/// sees its message. Words are cut after 60 characters; behind those of a `sendrecv` stands which
/// part of it the call is. `text` is the program's text, `source` what it says, and `program` its
/// calls. The only error is want of memory.
pub fn lined_steps(
    alloc: Global,
    text: &[u8],
    source: &LongSource,
    program: &LongProgram,
    steps: &[Step],
) -> Result<Vec<u8>, AllocError>
    requires { IsStuckRun program.now steps.now }
    ensures { IfOk result (λ lines. lines.items ≡ lined_run text.now source.now program.now steps.now) }
{
    let calls = call_labels(alloc, text, source, program)?;
    let played = play(alloc, program, steps)?;
    let mut out = Vec::new(alloc);
    put_lines(&mut out, &calls, &played.acts)?;
    out.extend_from_slice(b"stuck\n")?;
    Ok(out)
}
