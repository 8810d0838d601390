//! Lines that are known to derive, and their numbers behind a longer log.

ghost use Rattle.std.specs.Prelude.{◌≡◌, IsTrue, map};
ghost use Rattle.std.specs.List.{list_all};
ghost use Rattle.refutations.specs.Proofs.{are_numbers};
ghost use Rattle.pool.specs.parts.Batches.{capped_move};
ghost use Rattle.pool.specs.Moves.{moved_hint, moved_line};

use refutations::Line;
use std::alloc::Global;
use std::marker::Model;
use std::mem;

/// The lines of a batch that derive behind some log, and the number that the first has there.
/// Clauses are numbered from 1, and the lines of the log after those of the formula.
#[derive(Drop)]
pub struct DerivedLines {
    base: u32,
    lines: Vec<Line>,
}

impl Model for DerivedLines {
    ghost use Rattle.pool.specs.Moves.{NumberedLines};

    ghost Value = { NumberedLines };

    ghost view = { λ d. record { base = d.base; lines = d.lines.items } };
}

/// What a number becomes where all from `first` on are moved, so that they begin at `base`; a
/// number that no line can hold where it doesn't fit.
fn moved_hint(first: u32, base: u32, number: u32) -> u32
    ensures { result ≡ capped_move first base number }
{
    if number < first {
        return number;
    }
    (number - first).saturating_add(base)
}

fn move_hints(first: u32, base: u32, numbers: &mut [u32])
    ensures { numbers.new ≡ map (capped_move first base) numbers.old }
{
    for number in numbers.iter_mut() {
        *number = moved_hint(first, base, *number);
    }
}

/// The line with its hints moved. Nothing of it is copied.
fn moved_line(first: u32, base: u32, line: Line) -> Line
    requires { IsTrue (are_numbers (map (moved_hint first base) line.hints)) }
    ensures { result ≡ moved_line first base line }
{
    let (clause, mut hints) = line.into_parts();
    move_hints(first, base, hints.as_mut_slice());
    match Line::from_parts(clause, hints) {
        Some(line) => line,
        None => unreachable!(),
    }
}

/// A line for places that hold none. Takes no memory.
fn no_line(alloc: Global) -> Line {
    match Line::from_vecs(Vec::new(alloc), Vec::new(alloc)) {
        Some(line) => line,
        None => unreachable!(),
    }
}

fn move_lines(alloc: Global, first: u32, base: u32, lines: &mut [Line])
    requires { IsTrue (list_all (λ line. are_numbers line.hints) (map (moved_line first base) lines.old)) }
    ensures { lines.new ≡ map (moved_line first base) lines.old }
{
    for line in lines.iter_mut() {
        let whole = mem::replace(line, no_line(alloc));
        *line = moved_line(first, base, whole);
    }
}

impl DerivedLines {
    pub(crate) fn new(base: u32, lines: Vec<Line>) -> DerivedLines
        ensures { result ≡ record { base = base; lines = lines.items } }
    {
        DerivedLines { base, lines }
    }

    /// The lines where the first has this number: hints that name one of them are moved with it.
    /// Takes no memory.
    pub(crate) fn numbered(self, alloc: Global, base: u32) -> Vec<Line>
        requires { IsTrue (list_all (λ line. are_numbers line.hints) (map (moved_line self.base base) self.lines)) }
        ensures { result.items ≡ map (moved_line self.base base) self.lines }
    {
        let DerivedLines {
            base: first,
            mut lines,
        } = self;
        move_lines(alloc, first, base, lines.as_mut_slice());
        lines
    }
}
