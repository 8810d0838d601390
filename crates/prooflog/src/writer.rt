//! The writer.

ghost use Rattle.std.specs.Prelude.{◌≡◌, ◌++◌, ◌∷◌, [], List, IfOk, OnOk, map};
ghost use Rattle.std.specs.List.{flat_map};
ghost use Rattle.plaintext.specs.Plain.{numeral, spaced};
ghost use Rattle.refutations.specs.Proofs.{ProofLine};
ghost use Rattle.prooflog.specs.Steps.{step_line, written, IsSchedule};
ghost use Rattle.prooflog.specs.Refutations.{literal_word, item_line, a_proof, a_node};
ghost use Rattle.prooflog.specs.Grammar.{IsEvidenceText, heading_line};
ghost use Rattle.prooflog.specs.parts.Reading.{front_text, tree_text};

use crate::evidence::Evidence;
use crate::node::put_node;
use crate::portions::put_portions;
use crate::refutation::{Refutation, Version};
use crate::schedule::Schedule;
use crate::step::{put_step, written};
use crate::text::Text;
use clauses::Lit;
use plaintext::put_number;
use refutations::{Line, Node, ProofTree};
use semantics::Step;
use std::alloc::{AllocError, Global};
use std::thread::Threads;

/// Writes the lines of a schedule's steps at the end.
fn put_steps(out: &mut Vec<u8>, steps: &[Step]) -> Result<(), AllocError>
    requires { IsSchedule steps.now }
    ensures { OnOk result (out.new.items ≡ out.old.items ++ flat_map step_line (map written steps.now)) }
{
    for step in steps {
        put_step(out, written(*step))?;
    }
    Ok(())
}

/// The text of the schedule.
fn write_schedule(alloc: Global, schedule: &Schedule) -> Result<Vec<u8>, AllocError>
    ensures { IfOk result (λ text. IsEvidenceText text.items (Evidence.Schedule schedule.now)) }
{
    let mut out = Vec::new(alloc);
    out.extend_from_slice(b"evidence 1\nschedule\n")?;
    put_steps(&mut out, schedule.steps())?;
    Ok(out)
}

/// Writes a space and the literal's word at the end.
fn put_literal(out: &mut Vec<u8>, literal: &Lit) -> Result<(), AllocError>
    ensures { OnOk result (out.new.items ≡ out.old.items ++ spaced (literal_word literal.now ∷ [])) }
{
    out.push(b' ')?;
    if !literal.is_positive() {
        out.push(b'-')?;
    }
    put_number(out, literal.variable())
}

/// Writes the literals at the end, with a space before each. A negative one begins with `-`. The
/// only error is want of memory; a beginning of them may stand there then.
pub fn put_literals(out: &mut Vec<u8>, literals: &[Lit]) -> Result<(), AllocError>
    ensures { OnOk result (out.new.items ≡ out.old.items ++ spaced (map literal_word literals.now)) }
{
    for literal in literals {
        put_literal(out, literal)?;
    }
    Ok(())
}

/// Writes the hints at the end, with a space before each. The only error is want of memory; a
/// beginning of them may stand there then.
pub fn put_hints(out: &mut Vec<u8>, hints: &[u32]) -> Result<(), AllocError>
    ensures { OnOk result (out.new.items ≡ out.old.items ++ spaced (map numeral hints.now)) }
{
    for hint in hints {
        out.push(b' ')?;
        put_number(out, *hint)?;
    }
    Ok(())
}

/// Writes the proof line's line at the end.
fn put_line(out: &mut Vec<u8>, line: &Line) -> Result<(), AllocError>
    ensures { OnOk result (out.new.items ≡ out.old.items ++ item_line (a_proof line.now)) }
{
    out.extend_from_slice(b"line")?;
    put_literals(out, line.literals())?;
    out.extend_from_slice(b" :")?;
    put_hints(out, line.hints())?;
    out.push(b'\n')?;
    Ok(())
}

pub(crate) fn put_lines(out: &mut Vec<u8>, lines: &[Line]) -> Result<(), AllocError>
    ensures { OnOk result (out.new.items ≡ out.old.items ++ flat_map item_line (map a_proof lines.now)) }
{
    for line in lines {
        put_line(out, line)?;
    }
    Ok(())
}

fn put_nodes(out: &mut Vec<u8>, nodes: &[Node]) -> Result<(), AllocError>
    ensures { OnOk result (out.new.items ≡ out.old.items ++ flat_map item_line (map a_node nodes.now)) }
{
    for node in nodes {
        put_node(out, *node)?;
    }
    Ok(())
}

/// Writes the first line of an evidence of this version at the end.
fn put_heading(out: &mut Vec<u8>, version: Version) -> Result<(), AllocError>
    ensures { OnOk result (out.new.items ≡ out.old.items ++ heading_line version) }
{
    match version {
        Version::One => out.extend_from_slice(b"evidence 1\n"),
        Version::Two => out.extend_from_slice(b"evidence 2\n"),
    }
}

/// Writes what stands before the proof lines at the end.
fn put_front(out: &mut Vec<u8>, refutation: &Refutation) -> Result<(), AllocError>
    ensures { OnOk result (out.new.items ≡ out.old.items ++ front_text refutation.now) }
{
    put_heading(out, refutation.version())?;
    out.extend_from_slice(b"refutation ")?;
    put_number(out, refutation.variables())?;
    out.push(b' ')?;
    put_number(out, refutation.clauses())?;
    out.push(b'\n')?;
    Ok(())
}

/// Writes the tree, which stands behind the proof lines, at the end.
fn put_tree(out: &mut Vec<u8>, tree: &ProofTree) -> Result<(), AllocError>
    ensures { OnOk result (out.new.items ≡ out.old.items ++ tree_text tree.now) }
{
    out.extend_from_slice(b"tree\n")?;
    put_nodes(out, tree.nodes())?;
    Ok(())
}

/// The text of the refutation.
fn write_refutation(alloc: Global, refutation: &Refutation) -> Result<Vec<u8>, AllocError>
    ensures { IfOk result (λ text. IsEvidenceText text.items (Evidence.Refutation refutation.now)) }
{
    let mut out = Vec::new(alloc);
    put_front(&mut out, refutation)?;
    put_lines(&mut out, refutation.lines())?;
    put_tree(&mut out, refutation.tree())?;
    Ok(out)
}

/// The text of the refutation, whose proof lines are written in so many portions.
fn write_refutation_in<R: Threads + Sync>(
    rt: &R,
    alloc: Global,
    refutation: Refutation,
    parts: usize,
) -> Result<Text, AllocError>
    ensures { IfOk result (λ text. IsEvidenceText text (Evidence.Refutation refutation)) }
{
    let mut front = Vec::new(alloc);
    put_front(&mut front, &refutation)?;
    let mut text = Text::of(alloc, front);
    let (lines, tree) = refutation.into_parts();
    put_portions(rt, alloc, &mut text, lines, parts)?;
    let mut end = Vec::new(alloc);
    put_tree(&mut end, &tree)?;
    text.push(end)?;
    Ok(text)
}

/// The text of the evidence. The only error is want of memory.
pub fn write_evidence(alloc: Global, evidence: &Evidence) -> Result<Vec<u8>, AllocError>
    ensures { IfOk result (λ text. IsEvidenceText text.items evidence.now) }
{
    match evidence {
        Evidence::Refutation(refutation) => write_refutation(alloc, refutation),
        Evidence::Schedule(schedule) => write_schedule(alloc, schedule),
    }
}

/// The same text in parts, of which proof lines are written in so many portions, or in fewer, each
/// in a thread of its own where one can be started. What is written is dropped there.
pub fn write_evidence_in<R: Threads + Sync>(
    rt: &R,
    alloc: Global,
    evidence: Evidence,
    parts: usize,
) -> Result<Text, AllocError>
    ensures { IfOk result (λ text. IsEvidenceText text evidence) }
{
    match evidence {
        Evidence::Refutation(refutation) => write_refutation_in(rt, alloc, refutation, parts),
        Evidence::Schedule(schedule) => {
            let text = write_schedule(alloc, &schedule)?;
            Ok(Text::of(alloc, text))
        }
    }
}
