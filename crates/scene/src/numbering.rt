//! The lines that calls stand in.

ghost use Rattle.std.specs.Prelude.{◌≡◌, ℕ, ◌+◌, ◌^◌, ◌<◌, ◌++◌, length, map, replicate, IfOk, OnOk};
ghost use Rattle.callorder.specs.Expansion.{parts_of, parts_of_lines, parts_of_text};
ghost use Rattle.scene.specs.Lines.{line_of_part, LinesAreNumbered};

use calltext::{CallLine, LongSource};
use std::alloc::{AllocError, Global};

/// How many calls a line stands for.
fn calls_of(line: &CallLine) -> usize
    ensures { (rank place : ℕ) → result ≡ length (parts_of rank place line.now) }
{
    match line {
        CallLine::WaitAll { requests } => requests.as_slice().len(),
        CallLine::SendReceive { .. } => 4,
        CallLine::Send { .. }
        | CallLine::Receive { .. }
        | CallLine::MatchedProbe { .. }
        | CallLine::Probe { .. }
        | CallLine::MatchedReceive { .. }
        | CallLine::Wait { .. } => 1,
    }
}

/// Adds the number of a line as often as it stands for a call.
fn push_line(
    alloc: Global,
    numbers: &mut Vec<usize>,
    number: usize,
    count: usize,
) -> Result<(), AllocError>
    ensures { OnOk result (numbers.new.items ≡ numbers.old.items ++ replicate count number) }
{
    let same = vec![in alloc; number; count]?;
    numbers.extend_from_slice(&same)?;
    Ok(())
}

/// Adds the numbers of a rank's call lines, which follow its heading.
fn push_rank(
    alloc: Global,
    numbers: &mut Vec<usize>,
    heading: usize,
    lines: &[CallLine],
) -> Result<(), AllocError>
    requires { heading + length lines.now < 2 ^ 64 }
    ensures { (rank : ℕ) → OnOk result (numbers.new.items ≡ numbers.old.items ++ map (λ x.
        heading + x.part.place) (parts_of_lines rank 1 lines.now)) }
{
    for (index, line) in lines.iter().enumerate() {
        push_line(alloc, numbers, heading + index + 1, calls_of(line))?;
    }
    Ok(())
}

/// For each call of a program, in order, the number of the line that it stands in, from 1. The only
/// error is want of memory.
pub fn line_numbers(alloc: Global, source: &LongSource) -> Result<Vec<usize>, AllocError>
    ensures { IfOk result (λ numbers. numbers.items ≡ map (line_of_part source.now) (parts_of_text source.now)) }
{
    let mut numbers = Vec::new(alloc);
    let mut heading = 3;
    for lines in source.ranks() {
        push_rank(alloc, &mut numbers, heading, lines)?;
        heading += lines.len() + 1;
    }
    Ok(numbers)
}

/// The line with the number of a call is the line that the call stands in.
pub fn lines_are_numbered()
    ensures { LinesAreNumbered }
{}
