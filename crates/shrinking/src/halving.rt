//! Which parts of a text of any length are left out, one after another.

ghost use Rattle.std.specs.Prelude.{IfErr, IfNone, IfOk, IfSome, OnOk};
ghost use Rattle.shrinking.specs.Left.{AreLeft};
ghost use Rattle.shrinking.specs.Shrinking.{CanHangLong, IsNotShrunkLong, IsShrunkLong};

use crate::alone::cycle_alone;
use crate::driving::{Shrunk, shrunk_of};
use crate::excerpts::Excerpt;
use crate::leaving::{without_over, without_ranks, without_units};
use crate::running::{Hanging, improve_long, read_hanging};
use deciding::{Decision, Undecided, decide};
use std::alloc::{AllocError, Global};

/// Why there is no smaller text of a text of any length.
#[derive(Clone, Copy, Debug, PartialEq, Eq)]
pub enum NotShrunkLong {
    /// The run of the program that buffers least doesn't get stuck.
    NothingHangs,
    /// The text is no program's, or memory ran out.
    Undecided(Undecided),
}

/// What is left out of a text, some of it at once.
#[derive(Clone, Copy, PartialEq, Eq)]
enum Part {
    /// Ranks, with all that name them.
    Ranks,
    /// Units of calls.
    Units,
}

/// How many such parts the text has.
fn count_parts(best: &Hanging, part: Part) -> usize {
    match part {
        Part::Ranks => best.program.ranks() as usize,
        Part::Units => best.units.are_over.len(),
    }
}

/// The text without such parts, from one number to below another.
fn without_parts(
    alloc: Global,
    best: &Hanging,
    part: Part,
    from: usize,
    to: usize,
) -> Result<Excerpt, AllocError> {
    match part {
        Part::Ranks => without_ranks(alloc, best, from..to),
        Part::Units => without_units(alloc, best, from..to),
    }
}

/// Leaves out parts, so many at once that follow one another, the last ones first.
fn leave_out_spans(
    alloc: Global,
    best: &mut Hanging,
    part: Part,
    size: usize,
    left: &mut u64,
) -> Result<(), AllocError>
    requires { CanHangLong best.old.excerpt.text.items }
    ensures { OnOk result (IsShrunkLong best.old.excerpt.text.items best.new.excerpt.text.items) }
{
    let count = count_parts(best, part);
    let mut to = count;
    for _question in 0..count {
        if to == 0 || *left == 0 {
            break;
        }
        let from = to.saturating_sub(size);
        let candidate = without_parts(alloc, best, part, from, to)?;
        improve_long(alloc, best, candidate, left)?;
        to = from;
    }
    Ok(())
}

/// Leaves out parts: half of them at once, then fewer and fewer, at last one by one.
fn leave_out_parts(
    alloc: Global,
    best: &mut Hanging,
    part: Part,
    left: &mut u64,
) -> Result<(), AllocError>
    requires { CanHangLong best.old.excerpt.text.items }
    ensures { OnOk result (IsShrunkLong best.old.excerpt.text.items best.new.excerpt.text.items) }
{
    let mut size = count_parts(best, part);
    for _turn in 0..usize::BITS {
        size /= 2;
        if size > 0 {
            leave_out_spans(alloc, best, part, size, left)?;
        }
    }
    Ok(())
}

/// Leaves out all but a cycle of many ranks, each of which waits for one other only, if it is all
/// that is unfinished and hangs alone. Answers whether that is what is left.
fn leave_cycle(alloc: Global, best: &mut Hanging, left: &mut u64) -> Result<bool, AllocError>
    requires { CanHangLong best.old.excerpt.text.items }
    ensures { OnOk result (IsShrunkLong best.old.excerpt.text.items best.new.excerpt.text.items) }
{
    let found = cycle_alone(alloc, best)?;
    let Some(candidate) = found else {
        return Ok(false);
    };
    let length = candidate.text.len();
    improve_long(alloc, best, candidate, left)?;
    Ok(best.excerpt.text.len() == length && best.units.unbalanced.is_empty())
}

/// Leaves out what the run is done with, since the text is small without it, and then all but a
/// cycle. Answers whether a cycle alone is what is left.
fn leave_out_over(alloc: Global, best: &mut Hanging, left: &mut u64) -> Result<bool, AllocError>
    requires { CanHangLong best.old.excerpt.text.items }
    ensures { OnOk result (IsShrunkLong best.old.excerpt.text.items best.new.excerpt.text.items) }
{
    let unended = without_over(alloc, best)?;
    improve_long(alloc, best, unended, left)?;
    leave_cycle(alloc, best, left)
}

/// Leaves out ranks and units, again and again until nothing more can be left out or no work is
/// left, or a cycle alone is left: without one of its calls the ranks would go on. Answers whether
/// all was tried, or such a cycle is left.
fn leave_out_long(alloc: Global, best: &mut Hanging, work: u64) -> Result<bool, AllocError>
    requires { CanHangLong best.old.excerpt.text.items }
    ensures { OnOk result (IsShrunkLong best.old.excerpt.text.items best.new.excerpt.text.items) }
{
    let mut left = work;
    for _turn in 0..best.excerpt.text.len() {
        let before = best.excerpt.text.len();
        if leave_out_over(alloc, best, &mut left)? {
            return Ok(true);
        }
        leave_out_parts(alloc, best, Part::Ranks, &mut left)?;
        leave_out_parts(alloc, best, Part::Units, &mut left)?;
        if left == 0 || best.excerpt.text.len() == before {
            return Ok(left > 0);
        }
    }
    Ok(false)
}

/// The text with all left out that can be, by this work. None where the run of the text's program
/// that buffers least doesn't get stuck.
fn shrunk_long(alloc: Global, text: &[u8], work: u64) -> Result<Option<Shrunk>, AllocError>
    ensures shrunk { IfOk result (λ found. IfSome found (λ shrunk. IsShrunkLong text.now shrunk.text.items)) }
    ensures lines { IfOk result (λ found. IfSome found (λ shrunk. AreLeft text.now shrunk.text.items shrunk.lines.items)) }
    ensures given { IfOk result (λ found. IfSome found (λ shrunk. CanHangLong text.now)) }
{
    let found = read_hanging(alloc, Excerpt::whole(alloc, text)?)?;
    let Some(mut best) = found else {
        return Ok(None);
    };
    let complete = leave_out_long(alloc, &mut best, work)?;
    Ok(Some(shrunk_of(alloc, text, best.excerpt, complete)?))
}

/// Why a text of which that run doesn't get stuck has no smaller one.
fn not_shrunk(alloc: Global, text: &[u8]) -> NotShrunkLong
    ensures { IsNotShrunkLong text.now result }
{
    match decide(alloc, text) {
        Ok(Decision::NoDeadlock) => NotShrunkLong::NothingHangs,
        Ok(Decision::Race(_race)) => NotShrunkLong::NothingHangs,
        Ok(Decision::Deadlock(_steps)) => NotShrunkLong::Undecided(Undecided::Memory),
        Err(why) => NotShrunkLong::Undecided(why),
    }
}

/// A smaller program's text, for a text of any length, whose run that buffers least ends stuck: no
/// longer than the one given, and with no more lines. All calls that the run is done with are left
/// out at once. Where the others are then many ranks in a cycle, each of which waits for one other
/// only, all calls are left out but those that they wait for, and where these hang alone that is
/// all. Else ranks are left out, half of them at once and then fewer and fewer, with all calls that
/// name them; then calls, in the same way. With a send goes the call that took its message in the run,
/// or may take it, or misses it by a tag, a communicator or a rank alone; with a start its wait,
/// with a matched probe its receive. Where the sends and the takers of a channel differ in number,
/// the last one of a side stays as long as a call of the other side does. Each candidate is read
/// like any other text, and taken where that run of its program ends stuck.
///
/// `work` is how many lines of candidates are read and run at most, or few more; once none are
/// left, the smallest text so far is the answer. Each candidate takes time near linear in the text.
/// A text of which that run doesn't get stuck has no smaller one.
pub fn shrink_long(alloc: Global, text: &[u8], work: u64) -> Result<Shrunk, NotShrunkLong>
    ensures shrunk { IfOk result (λ shrunk. IsShrunkLong text.now shrunk.text.items) }
    ensures lines { IfOk result (λ shrunk. AreLeft text.now shrunk.text.items shrunk.lines.items) }
    ensures given { IfOk result (λ shrunk. CanHangLong text.now) }
    ensures why { IfErr result (IsNotShrunkLong text.now) }
{
    match shrunk_long(alloc, text, work) {
        Ok(Some(shrunk)) => Ok(shrunk),
        Ok(None) => Err(not_shrunk(alloc, text)),
        Err(AllocError) => Err(NotShrunkLong::Undecided(Undecided::Memory)),
    }
}
