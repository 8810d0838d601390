//! How far a search is at some moment, and the line that tells it.

ghost use Rattle.std.specs.Prelude.{◌≡◌, ◌≤◌, ◌^◌, ◌++◌, IfOk, OnOk, decimal};
ghost use Rattle.progress.specs.Telling.{formed_line, forming_line, log_percent, moment_line, percent, search_line, shares_text, tree_percent};

use itoa::Buffer;
use std::alloc::{AllocError, Global};

/// The share that the whole tree is.
pub(crate) const WHOLE: u64 = 1 << 56;

/// How far a search is at some moment.
#[derive(Clone, Copy, PartialEq, Eq)]
pub struct Moment {
    /// How many whole seconds have passed.
    pub seconds: u64,
    /// How many clauses the formula has; none before it is made.
    pub clauses: u64,
    /// Whether a worker has begun.
    pub is_begun: bool,
    /// How many cubes are open; none before the search begins.
    pub open: u64,
    /// How many cubes were refuted.
    pub closed: u64,
    /// How much of the tree is closed, of which the whole is 2^56: a cube whose path has d literals
    /// is 2^(56 - d).
    pub share: u64,
    /// How many lines were learnt from conflicts.
    pub lines: u64,
    /// How many conflicts were counted.
    pub conflicts: u64,
    /// How many lines the search over sets of matched calls wrote.
    pub set_lines: u64,
    /// The most that a worker has used of its budget.
    pub used: u64,
    /// How many conflicts each worker may count.
    pub budget: u32,
}

/// How many of a hundred parts this part of the whole is, rounded down, and at most all of them.
fn percent(part: u64, whole: u64) -> u64
    requires { whole ≤ 2 ^ 56 }
    ensures { result ≡ percent part whole }
{
    if whole == 0 {
        return 0;
    }
    part.min(whole) * 100 / whole
}

/// How many of a hundred parts of the tree are closed: not all of them while a cube is open.
fn tree_percent(moment: &Moment) -> u64
    ensures parts { result ≡ tree_percent moment.now }
    ensures all { result ≡ 100 → moment.now.open ≡ 0 }
{
    let closed = percent(moment.share, WHOLE);
    if moment.open == 0 {
        closed
    } else {
        closed.min(99)
    }
}

/// How many of a hundred parts of the log are used.
fn log_percent(moment: &Moment) -> u64
    ensures { result ≡ log_percent moment.now }
{
    percent(moment.lines.saturating_add(moment.set_lines), 1_000_000)
}

/// Writes words and then a number at the end.
fn put(line: &mut Vec<u8>, words: &str, number: u64) -> Result<(), AllocError>
    ensures { OnOk result (line.new.items ≡ line.old.items ++ (words.now ++ decimal number)) }
{
    line.extend_from_slice(words.as_bytes())?;
    let mut buffer = Buffer::new();
    line.extend_from_slice(buffer.format(number).as_bytes())?;
    Ok(())
}

/// Writes at the end how much of the tree is closed, and how much of a budget and of the log is
/// used.
fn put_shares(line: &mut Vec<u8>, moment: &Moment) -> Result<(), AllocError>
    ensures { OnOk result (line.new.items ≡ line.old.items ++ shares_text moment.now) }
{
    let budget = u64::from(moment.budget);
    put(line, ", ", tree_percent(moment))?;
    put(line, " % of the tree, ", percent(moment.used, budget))?;
    put(line, " % of the budget, ", log_percent(moment))?;
    line.extend_from_slice(b" % of the log\n")?;
    Ok(())
}

/// The line that tells that there is no formula yet.
fn forming_line(alloc: Global, seconds: u64) -> Result<Vec<u8>, AllocError>
    ensures { IfOk result (λ line. line.items ≡ forming_line seconds) }
{
    let mut line = Vec::new(alloc);
    put(&mut line, "progress ", seconds)?;
    line.extend_from_slice(b" s: runs are tried, and the formula is made\n")?;
    Ok(line)
}

/// The line that tells how many clauses the formula has.
fn formed_line(alloc: Global, seconds: u64, clauses: u64) -> Result<Vec<u8>, AllocError>
    ensures { IfOk result (λ line. line.items ≡ formed_line seconds clauses) }
{
    let mut line = Vec::new(alloc);
    put(&mut line, "progress ", seconds)?;
    put(&mut line, " s: the formula has ", clauses)?;
    line.extend_from_slice(b" clauses, and is searched next\n")?;
    Ok(line)
}

/// The line that tells it.
pub(crate) fn line_of(alloc: Global, moment: &Moment) -> Result<Vec<u8>, AllocError>
    ensures { IfOk result (λ line. line.items ≡ moment_line moment.now) }
{
    if moment.is_begun {
        return search_line(alloc, moment);
    }
    if moment.clauses == 0 {
        return forming_line(alloc, moment.seconds);
    }
    formed_line(alloc, moment.seconds, moment.clauses)
}

/// The line that tells how far the workers are.
fn search_line(alloc: Global, moment: &Moment) -> Result<Vec<u8>, AllocError>
    ensures { IfOk result (λ line. line.items ≡ search_line moment.now) }
{
    let mut line = Vec::new(alloc);
    put(&mut line, "progress ", moment.seconds)?;
    put(&mut line, " s: ", moment.open)?;
    put(&mut line, " cubes open, ", moment.closed)?;
    put(&mut line, " closed, ", moment.lines)?;
    put(&mut line, " lines, ", moment.conflicts)?;
    put(&mut line, " conflicts, ", moment.set_lines)?;
    line.extend_from_slice(b" set lines")?;
    put_shares(&mut line, moment)?;
    Ok(line)
}
