//! The text of a schedule of any length.

ghost use Rattle.std.specs.Prelude.{◌+◌, ◌++◌, ◌≡◌, IfOk, OnOk, map};
ghost use Rattle.std.specs.List.{flat_map};
ghost use Rattle.plaintext.specs.Plain.{numeral};
ghost use Rattle.prooflog.specs.Reading.{written_find_step};
ghost use Rattle.prooflog.specs.Steps.{step_line, written};
ghost use Rattle.deciding.specs.Decisions.{issue_step, schedule_text};

use prooflog::find_word;
use semantics::Step;
use std::alloc::{AllocError, Global};
use writing::put_number;

/// Writes the number of a call, which is its place, from 0, plus 1.
fn put_call(out: &mut Vec<u8>, place: usize) -> Result<(), AllocError>
    ensures { OnOk result (out.new.items ≡ out.old.items ++ numeral (place + 1)) }
{
    put_number(out, place as u128 + 1)
}

/// Writes the line of the issue of a rank's next call.
fn put_issue(out: &mut Vec<u8>, rank: u32, buffered: bool) -> Result<(), AllocError>
    ensures { OnOk result (out.new.items ≡ out.old.items ++ step_line (issue_step rank buffered)) }
{
    out.extend_from_slice(b"issue ")?;
    put_number(out, rank as u128)?;
    if buffered {
        out.extend_from_slice(b" buffered")?;
    }
    out.push(b'\n')?;
    Ok(())
}

/// Writes the line of the step by which a finder finds a send: a probe sees it, a taker is matched
/// with it.
fn put_find(out: &mut Vec<u8>, sees: bool, send: usize, finder: usize) -> Result<(), AllocError>
    ensures { OnOk result (out.new.items ≡ out.old.items ++ step_line (written_find_step sees (send + 1) (finder + 1))) }
{
    out.extend_from_slice(find_word(sees).as_bytes())?;
    out.push(b' ')?;
    put_call(out, send)?;
    out.push(b' ')?;
    put_call(out, finder)?;
    out.push(b'\n')?;
    Ok(())
}

fn put_step(out: &mut Vec<u8>, step: Step) -> Result<(), AllocError>
    ensures { OnOk result (out.new.items ≡ out.old.items ++ step_line (written step)) }
{
    match step {
        Step::Issue { rank, buffered } => put_issue(out, rank, buffered),
        Step::Match { send, taker } => put_find(out, false, send, taker),
        Step::See { send, probe } => put_find(out, true, send, probe),
    }
}

fn put_steps(out: &mut Vec<u8>, steps: &[Step]) -> Result<(), AllocError>
    ensures { OnOk result (out.new.items ≡ out.old.items ++ flat_map step_line (map written steps.now)) }
{
    for step in steps {
        put_step(out, *step)?;
    }
    Ok(())
}

/// The text of these steps as a schedule, however many they are: ranks count from 0, calls from 1.
/// Within the limits of a schedule it is the text of an evidence, as `prooflog::write_evidence`
/// writes it. The only error is want of memory.
pub fn schedule_text(alloc: Global, steps: &[Step]) -> Result<Vec<u8>, AllocError>
    ensures { IfOk result (λ text. text.items ≡ schedule_text steps.now) }
{
    let mut out = Vec::new(alloc);
    out.extend_from_slice(b"evidence 1\nschedule\n")?;
    put_steps(&mut out, steps)?;
    Ok(out)
}
