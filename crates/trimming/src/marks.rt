//! Marks of the lines that are needed.

ghost use Rattle.std.specs.Prelude.{◌≡◌, ◌+◌, ◌≤◌, IfOk, length};
ghost use Rattle.trimming.specs.Needed.{needed};
ghost use Rattle.trimming.specs.parts.Marks.{mark, mark_all, mark_leaves};

use refutations::{Line, Node};
use std::alloc::{AllocError, Global};

/// Marks the line of this number, where it stands before the place `below`, from 0.
fn mark(marks: &mut Vec<bool>, below: usize, clauses: u32, number: u32)
    ensures { marks.new.items ≡ mark clauses below marks.old.items number }
{
    if number <= clauses {
        return;
    }
    let place = (number - clauses - 1) as usize;
    if place < below && place < marks.len() {
        marks[place] = true;
    }
}

fn mark_all(marks: &mut Vec<bool>, below: usize, clauses: u32, numbers: &[u32])
    ensures { marks.new.items ≡ mark_all clauses below marks.old.items numbers.now }
{
    for number in numbers {
        mark(marks, below, clauses, *number);
    }
}

fn mark_leaves(marks: &mut Vec<bool>, below: usize, clauses: u32, nodes: &[Node])
    ensures { marks.new.items ≡ mark_leaves clauses below marks.old.items nodes.now }
{
    for node in nodes {
        if let Node::Leaf(number) = node {
            mark(marks, below, clauses, *number);
        }
    }
}

/// Which of the lines are needed, in their order. It goes over the nodes, and over the lines from
/// the last to the first, and takes one byte a line.
pub fn needed_lines(
    alloc: Global,
    clauses: u32,
    lines: &[Line],
    nodes: &[Node],
) -> Result<Vec<bool>, AllocError>
    ensures { IfOk result (λ marks. marks.items ≡ needed nodes.now (clauses + 1) lines.now) }
{
    let mut marks = vec![in alloc; false; lines.len()]?;
    mark_leaves(&mut marks, lines.len(), clauses, nodes);
    for place in (0..lines.len()).rev() {
        if marks[place] {
            mark_all(&mut marks, place, clauses, lines[place].hints());
        }
    }
    Ok(marks)
}
