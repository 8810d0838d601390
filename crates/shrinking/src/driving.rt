//! Which parts of a text are left out, one after another.

ghost use Rattle.std.specs.Prelude.{◌≡◌, IfErr, IfOk, OnOk};
ghost use Rattle.prover.specs.Answers.{CanHang};
ghost use Rattle.shrinking.specs.Left.{AreLeft};
ghost use Rattle.shrinking.specs.Shrinking.{IsNotShrunk, IsShrunk};

use crate::cutting::{marks_of, marks_of_rank, numbers_of, without_units};
use crate::excerpts::Excerpt;
use crate::left::are_left;
use crate::lines::count_ranks;
use crate::pairing::{LineUnits, units_of};
use crate::ranks::without_rank;
use crate::tidying::tidied;
use crate::ties::keep_partners;
use crate::trying::improve;
use checker::program_of;
use prover::{Reason, Until, walk_ends};
use std::alloc::{AllocError, Global};

/// A smaller program's text.
#[derive(Drop)]
pub struct Shrunk {
    /// The text. Its program has a run that ends stuck.
    pub text: Vec<u8>,
    /// For each line of the text the number, from 1, of the line of the given text that it is left
    /// of.
    pub lines: Vec<usize>,
    /// Whether all was tried: with any one line or rank left out, and what belongs to it, what was
    /// tried no longer ends stuck.
    pub complete: bool,
}

/// Why there is no smaller text.
#[derive(Clone, Copy, PartialEq, Eq)]
pub enum NotShrunk {
    /// No walk of the program ended stuck.
    NothingHangs,
    /// The text is no program's, or memory ran out.
    Refused(Reason),
}

/// The units of the text's lines, where it is a program's.
fn units_in(alloc: Global, text: &[u8]) -> Result<LineUnits, AllocError> {
    match program_of(alloc, text) {
        Ok(program) => units_of(alloc, text, &program),
        Err(_reason) => Err(AllocError),
    }
}

/// The text without a rank and without all units that have a line of it, or one that names it; the
/// whole text, where a call that stays would lose its last partner.
fn rank_left_out(alloc: Global, from: &Excerpt, rank: u32) -> Result<Excerpt, AllocError> {
    let units = units_in(alloc, &from.text)?;
    let mut marks = marks_of_rank(alloc, &from.text, &units.of_lines, rank)?;
    if keep_partners(&units.unbalanced, &units.of_calls, &mut marks) {
        return from.copied(alloc);
    }
    let fewer = without_units(alloc, from, &units.of_lines, &marks)?;
    let without = without_rank(alloc, &fewer, rank)?;
    tidied(alloc, &without)
}

/// Leaves out ranks, the highest first.
fn leave_out_ranks(alloc: Global, best: &mut Excerpt, left: &mut u32) -> Result<(), AllocError>
    requires { CanHang best.old.text.items }
    ensures { OnOk result (IsShrunk best.old.text.items best.new.text.items) }
{
    let ranks = count_ranks(alloc, &best.text)?.min(64) as u32;
    for place in 0..ranks {
        let candidate = rank_left_out(alloc, best, ranks - 1 - place)?;
        let _taken = improve(alloc, best, candidate, left)?;
    }
    Ok(())
}

/// The text without so many of its units, from a place in their order on, but for those that calls
/// that stay have their last partner in.
fn units_left_out(
    alloc: Global,
    from: &Excerpt,
    first: usize,
    size: usize,
) -> Result<Excerpt, AllocError> {
    let units = units_in(alloc, &from.text)?;
    let numbers = numbers_of(alloc, &units.of_lines)?;
    let to = numbers.len().min(first.saturating_add(size));
    let mut marks = marks_of(alloc, units.of_lines.len(), &numbers[first.min(to)..to])?;
    keep_partners(&units.unbalanced, &units.of_calls, &mut marks);
    let fewer = without_units(alloc, from, &units.of_lines, &marks)?;
    tidied(alloc, &fewer)
}

/// Leaves out units, so many at once that follow one another, of so many as there are.
fn leave_out_units(
    alloc: Global,
    best: &mut Excerpt,
    count: usize,
    size: usize,
    left: &mut u32,
) -> Result<(), AllocError>
    requires { CanHang best.old.text.items }
    ensures { OnOk result (IsShrunk best.old.text.items best.new.text.items) }
{
    let mut from = 0usize;
    for _question in 0..count {
        if from < count {
            let candidate = units_left_out(alloc, best, from, size)?;
            if !improve(alloc, best, candidate, left)? {
                from = from.saturating_add(size);
            }
        }
    }
    Ok(())
}

/// How many units there are.
fn count_units(alloc: Global, text: &[u8]) -> Result<usize, AllocError> {
    let units = units_in(alloc, text)?;
    let numbers = numbers_of(alloc, &units.of_lines)?;
    Ok(numbers.len())
}

/// Leaves out ranks, and then units of lines, fewer and fewer at once.
fn leave_out(alloc: Global, best: &mut Excerpt, left: &mut u32) -> Result<(), AllocError>
    requires { CanHang best.old.text.items }
    ensures { OnOk result (IsShrunk best.old.text.items best.new.text.items) }
{
    leave_out_ranks(alloc, best, left)?;
    let count = count_units(alloc, &best.text)?;
    let mut size = count;
    for _turn in 0..usize::BITS {
        size /= 2;
        if size > 0 {
            leave_out_units(alloc, best, count, size, left)?;
        }
    }
    Ok(())
}

/// The smaller text with the numbers of its lines, which are judged once more: an answer is given
/// with right ones alone.
pub fn shrunk_of(
    alloc: Global,
    given: &[u8],
    best: Excerpt,
    complete: bool,
) -> Result<Shrunk, AllocError>
    ensures same { IfOk result (λ shrunk. shrunk.text.items ≡ best.text.items) }
    ensures lines { IfOk result (λ shrunk. AreLeft given.now shrunk.text.items shrunk.lines.items) }
{
    if !are_left(alloc, given, &best.text, &best.numbers)? {
        return Err(AllocError);
    }
    Ok(Shrunk {
        text: best.text,
        lines: best.numbers,
        complete,
    })
}

/// Leaves out ranks and lines, again and again until nothing more can be left out or no walk is
/// left. Answers whether all was tried.
fn leave_out_turns(alloc: Global, best: &mut Excerpt, walks: u32) -> Result<bool, AllocError>
    requires { CanHang best.old.text.items }
    ensures { OnOk result (IsShrunk best.old.text.items best.new.text.items) }
{
    let mut left = walks;
    let mut complete = false;
    for _turn in 0..best.text.len() {
        let before = best.text.len();
        leave_out(alloc, best, &mut left)?;
        complete = best.text.len() == before && left > 0;
        if complete || left == 0 {
            break;
        }
    }
    Ok(complete)
}

/// The text with all left out that can be, by so many walks.
fn leave_out_all(alloc: Global, text: &[u8], walks: u32) -> Result<Shrunk, AllocError>
    requires { CanHang text.now }
    ensures shrunk { IfOk result (λ shrunk. IsShrunk text.now shrunk.text.items) }
    ensures lines { IfOk result (λ shrunk. AreLeft text.now shrunk.text.items shrunk.lines.items) }
{
    let mut best = Excerpt::whole(alloc, text)?;
    let complete = leave_out_turns(alloc, &mut best, walks)?;
    shrunk_of(alloc, text, best, complete)
}

/// A smaller program's text, which still has a run that ends stuck: no longer than the one given,
/// and with no more lines. Ranks are left out, with all lines that name them, and higher ones
/// numbered anew; then lines, first many that follow one another at once. With a send goes the call
/// that may take its message, or misses it by a tag, a communicator or a rank alone; with a start
/// its wait, with a matched probe its receive. Where the sends and the takers of a channel differ
/// in number, the last one of a side stays as long as a call of the other side does. Each candidate
/// is read like any other text, and taken where some walk of its program ends stuck. At most so
/// many walks are taken, or few more; once none are left, the smallest text so far is the answer. A
/// text of which no walk ends stuck has none.
pub fn shrink(alloc: Global, text: &[u8], walks: u32) -> Result<Shrunk, NotShrunk>
    ensures shrunk { IfOk result (λ shrunk. IsShrunk text.now shrunk.text.items) }
    ensures lines { IfOk result (λ shrunk. AreLeft text.now shrunk.text.items shrunk.lines.items) }
    ensures given { IfOk result (λ shrunk. CanHang text.now) }
    ensures why { IfErr result (IsNotShrunk text.now) }
{
    match walk_ends(alloc, text, Until::Stuck) {
        Err(reason) => return Err(NotShrunk::Refused(reason)),
        Ok(ends) => {
            if !ends.stuck {
                return Err(NotShrunk::NothingHangs);
            }
        }
    }
    match leave_out_all(alloc, text, walks) {
        Ok(shrunk) => Ok(shrunk),
        Err(AllocError) => Err(NotShrunk::Refused(Reason::Memory)),
    }
}
