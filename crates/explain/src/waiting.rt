//! A line for each rank that waits, as compilers tell faults.

ghost use Rattle.std.specs.Prelude.{◌≡◌, ◌⊎◌, ◌++◌, ℕ, [], IfOk, IfSome, List, OnOk, Some, length, slice_get};
ghost use Rattle.semantics.specs.Machine.{IsStuckRun};
ghost use Rattle.waits.specs.declared.standings.Standing.{Standing};
ghost use Rattle.waits.specs.Cycles.{HasEdge, awaited_by};
ghost use Rattle.waits.specs.Waiting.{WaitsFor, operation_of_call};
ghost use Rattle.scene.specs.Labels.{Label};
ghost use Rattle.scene.specs.Ends.{IsNeeded};
ghost use Rattle.explain.specs.Messages.{AreNotices, IsLabelled, IsMessage, IsMessages, IsNotice, NamesNeeded, need_words, wait_words};

use callorder::LongProgram;
use calltext::LongSource;
use scene::{CallLabel, Scene, needed, scene_of};
use semantics::Step;
use std::alloc::{AllocError, Global};
use waits::{Standing, operation_of};
use writing::{Part, put_parts};

/// Writes that a rank waits in this call.
fn put_wait(out: &mut Vec<u8>, label: &CallLabel, rank: usize) -> Result<(), AllocError>
    ensures { OnOk result (out.new.items ≡ out.old.items ++ wait_words label.now rank) }
{
    put_parts(
        out,
        &[
            Part::Text("line "),
            Part::Number(label.line() as u128),
            Part::Text(": rank "),
            Part::Number(rank as u128),
            Part::Text(" waits in "),
            Part::Bytes(label.words()),
        ],
    )
}

/// Writes that this call of a rank is needed.
fn put_need(out: &mut Vec<u8>, label: &CallLabel, rank: u32) -> Result<(), AllocError>
    ensures { OnOk result (out.new.items ≡ out.old.items ++ need_words label.now rank) }
{
    put_parts(
        out,
        &[
            Part::Text(", needs line "),
            Part::Number(label.line() as u128),
            Part::Text(" of rank "),
            Part::Number(rank as u128),
        ],
    )
}

/// The ranks that a rank waits for.
fn awaited_by(edges: &[Vec<u32>], rank: usize) -> &[u32]
    ensures { result.now ≡ awaited_by edges.now rank }
{
    match edges.get(rank) {
        None => &[],
        Some(ranks) => ranks,
    }
}

/// Of the first of some ranks of which a call is known that an operation needs: the rank and the
/// call.
fn first_needed<'a>(
    program: &LongProgram,
    scene: &'a Scene<'_>,
    operation: usize,
    ranks: &[u32],
) -> Option<(u32, &'a CallLabel)>
    ensures { IfSome result (λ found. (place : ℕ) × (call : ℕ) × (slice_get ranks.now place ≡ Some found.0)
        × IsNeeded program.now scene.now.state operation found.0 call × (slice_get scene.now.labels.items call ≡ Some found.1.now)) }
{
    for rank in ranks {
        if let Some(call) = needed(program, &scene.state, operation, *rank)
            && let Some(label) = scene.labels.get(call)
        {
            return Some((*rank, label));
        }
    }
    None
}

/// Writes a call that is needed of a rank that this one waits for, where one is known.
fn put_needed(
    out: &mut Vec<u8>,
    program: &LongProgram,
    scene: &Scene<'_>,
    rank: usize,
    call: usize,
) -> Result<(), AllocError>
    requires { (from to : ℕ) → HasEdge scene.now.awaited.items from to → WaitsFor program.now scene.now.state from to }
    ensures { OnOk result ((need : List ℕ) × ((need ≡ []) ⊎ NamesNeeded scene.now.labels.items program.now scene.now.state rank call need)
        × (out.new.items ≡ out.old.items ++ need)) }
{
    let operation = operation_of(program, call);
    match first_needed(program, scene, operation, awaited_by(&scene.awaited, rank)) {
        None => Ok(()),
        Some((other, label)) => put_need(out, label, other),
    }
}

/// Writes the line on a rank that waits in a call.
fn put_message(
    out: &mut Vec<u8>,
    program: &LongProgram,
    scene: &Scene<'_>,
    rank: usize,
    call: usize,
) -> Result<(), AllocError>
    requires { (from to : ℕ) → HasEdge scene.now.awaited.items from to → WaitsFor program.now scene.now.state from to }
    ensures { OnOk result ((label : Label) → slice_get scene.now.labels.items call ≡ Some label → (line : List ℕ)
        × IsMessage scene.now.labels.items program.now scene.now.state rank call line × (out.new.items ≡ out.old.items ++ line)) }
{
    let Some(label) = scene.labels.get(call) else {
        return Ok(());
    };
    put_wait(out, label, rank)?;
    put_needed(out, program, scene, rank, call)?;
    out.push(b'\n')?;
    Ok(())
}

/// Writes the line on a rank that stands so, if it waits.
fn put_standing(
    out: &mut Vec<u8>,
    program: &LongProgram,
    scene: &Scene<'_>,
    rank: usize,
    standing: Standing,
) -> Result<(), AllocError>
    requires { (from to : ℕ) → HasEdge scene.now.awaited.items from to → WaitsFor program.now scene.now.state from to }
    ensures { OnOk result (IsLabelled scene.now.labels.items standing → (line : List ℕ)
        × IsNotice scene.now.labels.items program.now scene.now.state rank (Some standing) line × (out.new.items ≡ out.old.items ++ line)) }
{
    match standing {
        Standing::Waits { call } => put_message(out, program, scene, rank, call),
        Standing::Finished | Standing::Ready => Ok(()),
    }
}

/// The lines on the ranks that wait, in rising order.
fn lines(alloc: Global, program: &LongProgram, scene: &Scene<'_>) -> Result<Vec<u8>, AllocError>
    requires edges { (from to : ℕ) → HasEdge scene.now.awaited.items from to → WaitsFor program.now scene.now.state from to }
    requires labels { (rank : ℕ) (standing : Standing) →
        slice_get scene.now.standings.items rank ≡ Some standing →
        IsLabelled scene.now.labels.items standing }
    ensures { IfOk result (λ told.
        AreNotices scene.now.labels.items program.now scene.now.state scene.now.standings.items (length
        scene.now.standings.items) told.items) }
{
    let mut out = Vec::new(alloc);
    for (rank, standing) in scene.standings.iter().enumerate() {
        put_standing(&mut out, program, scene, rank, *standing)?;
    }
    Ok(out)
}

/// The text, in plain ASCII, that tells of each rank that waits at the end of a run that ends
/// stuck: a line with the line and the words of the call that it waits in, and behind them the line
/// of a call that is needed of a rank that it waits for, where one is known. `text` is the
/// program's text, `source` what it says, and `program` its calls. The only error is want of
/// memory.
pub fn messages(
    alloc: Global,
    text: &[u8],
    source: &LongSource,
    program: &LongProgram,
    steps: &[Step],
) -> Result<Vec<u8>, AllocError>
    requires { IsStuckRun program.now steps.now }
    ensures { IfOk result (λ told. IsMessages text.now source.now program.now steps.now told.items) }
{
    let scene = scene_of(alloc, text, source, program, steps, false)?;
    lines(alloc, program, &scene)
}
