//! Which lines stay, and their new numbers.

ghost use Rattle.std.specs.Prelude.{◌≡◌, ◌<◌, ◌≤◌, ◌+◌, ◌++◌, ◌∷◌, [], true, false, Some, IfOk, OnOk, OnErr, map, length, slice_get, slice_index, vec_capacity, vec_len};
ghost use Rattle.trimming.specs.Needed.{renumber, renumbered_line, renumbered_node, kept};
ghost use Rattle.trimming.specs.parts.Marks.{running};

use refutations::{Line, Node};
use std::alloc::{AllocError, Global};
use std::marker::Model;
use std::mem;

/// Which lines stay, whose numbers come after those of the clauses, and how many of them stay
/// before each.
#[derive(Drop)]
pub struct Renumbering {
    clauses: u32,
    stays: Vec<bool>,
    before: Vec<usize>,
}

impl Model for Renumbering {
    ghost use Rattle.std.specs.Prelude.{◌≡◌};
    ghost use Rattle.trimming.specs.parts.Marks.{Staying, running};

    ghost Value = { Staying };

    ghost view = { λ r. record { clauses = r.clauses; flags = r.stays.items } };

    ghost invariant = { λ r. r.before.items ≡ running 0 r.stays.items };
}

/// How many are true before each place, and at the end.
fn counts(alloc: Global, flags: &[bool]) -> Result<Vec<usize>, AllocError>
    ensures { IfOk result (λ counts. counts.items ≡ running 0 flags.now) }
{
    let mut counts = Vec::with_capacity(alloc, flags.len() + 1)?;
    let mut count = 0usize;
    for flag in flags {
        counts.push(count)?;
        if *flag {
            count += 1;
        }
    }
    counts.push(count)?;
    Ok(counts)
}

impl Renumbering {
    /// The one by which these lines stay. Takes eight bytes a line.
    pub fn new(alloc: Global, clauses: u32, stays: Vec<bool>) -> Result<Renumbering, AllocError>
        ensures { IfOk result (λ made. made ≡ record { clauses = clauses; flags = stays.items }) }
    {
        let before = counts(alloc, stays.as_slice())?;
        Ok(Renumbering {
            clauses,
            stays,
            before,
        })
    }

    /// The new number of a clause, or of a line that stays.
    pub fn number(&self, number: u32) -> u32
        ensures { result ≡ renumber self.now.clauses self.now.flags number }
    {
        if number <= self.clauses {
            return number;
        }
        let place = (number - self.clauses - 1) as usize;
        let count = self.before[place.min(self.stays.len())];
        self.clauses + count as u32 + 1
    }

    /// Puts the new number of each of these clauses and lines in its place.
    fn renumber(&self, numbers: &mut [u32])
        ensures { numbers.new ≡ map (renumber self.now.clauses self.now.flags) numbers.old }
    {
        for number in numbers.iter_mut() {
            *number = self.number(*number);
        }
    }

    /// The line with its hints renumbered. Nothing of it is copied.
    fn line(&self, line: Line) -> Line
        ensures { result ≡ renumbered_line (renumber self.now.clauses self.now.flags) line }
    {
        let (clause, mut hints) = line.into_parts();
        self.renumber(hints.as_mut_slice());
        match Line::from_parts(clause, hints) {
            Some(line) => line,
            None => unreachable!(),
        }
    }

    /// Appends the line of this place, with its hints renumbered, where it stays.
    fn put(&self, staying: &mut Vec<Line>, place: usize, line: Line)
        requires there { place < length self.now.flags }
        requires room { vec_len staying.old < vec_capacity staying.old }
        ensures yes { slice_get self.now.flags place ≡ Some true →
            staying.new.items ≡
            staying.old.items ++ renumbered_line (renumber self.now.clauses self.now.flags) line ∷ [] }
        ensures no { slice_get self.now.flags place ≡ Some false → staying.new.items ≡ staying.old.items }
        ensures most { vec_len staying.new ≤ vec_len staying.old + 1 }
        ensures capacity { vec_capacity staying.new ≡ vec_capacity staying.old }
    {
        if self.stays[place] {
            staying.push_reserved(self.line(line));
        }
    }

    /// Leaves out the lines that don't stay, and renumbers the hints of the others. Where memory
    /// runs out, all stay as they are.
    pub fn keep(&self, alloc: Global, lines: &mut Vec<Line>) -> Result<(), AllocError>
        requires { length self.now.flags ≡ length lines.old.items }
        ensures kept { OnOk result (lines.new.items ≡
            map (renumbered_line (renumber self.now.clauses self.now.flags)) (kept self.now.flags
            lines.old.items)) }
        ensures unchanged { OnErr result (lines.new.items ≡ lines.old.items) }
    {
        let mut staying = Vec::with_capacity(alloc, lines.len())?;
        let mut place = 0usize;
        for line in mem::replace(lines, Vec::new(alloc)) {
            self.put(&mut staying, place, line);
            place += 1;
        }
        *lines = staying;
        Ok(())
    }

    /// The nodes with their leaves renumbered.
    pub fn nodes(&self, alloc: Global, nodes: &[Node]) -> Result<Vec<Node>, AllocError>
        ensures { IfOk result (λ made. made.items ≡ map (renumbered_node (renumber self.now.clauses self.now.flags)) nodes.now) }
    {
        let mut made = Vec::with_capacity(alloc, nodes.len())?;
        for node in nodes {
            made.push(match node {
                Node::Split(variable) => Node::Split(*variable),
                Node::Leaf(number) => Node::Leaf(self.number(*number)),
            })?;
        }
        Ok(made)
    }
}
