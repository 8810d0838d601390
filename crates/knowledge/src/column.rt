//! The column of a finder.

ghost use Rattle.std.specs.Prelude.{◌≡◌, ◌<◌, ℕ, IsTrue, IfOk, length, slice_set, replicate, true, false};
ghost use Rattle.races.specs.Tells.{Table, IsJustified};
ghost use Rattle.knowledge.specs.parts.Knowledge.{count_known, Covers, CoversJustified, FollowsFromColumn};
ghost use Rattle.knowledge.specs.Knowledge.{column_table, with_partners};

use crate::rules::{knows, tells_issue};
use callorder::LongProgram;
use std::alloc::{AllocError, Global};

/// Takes the call out of the column.
fn take_out(known: &mut Vec<bool>, call: usize)
    ensures { known.new.items ≡ slice_set known.old.items call false }
{
    if let Some(entry) = known.get_mut(call) {
        *entry = false;
    }
}

/// Takes the call out of the column where it doesn't follow from it, and tells whether it did.
fn take_out_untold(
    program: &LongProgram,
    partners: &[Option<usize>],
    known: &mut Vec<bool>,
    finder: usize,
    call: usize,
) -> bool
    ensures covers { CoversJustified program.now (with_partners partners.now) finder known.old.items →
        CoversJustified program.now (with_partners partners.now) finder known.new.items }
    ensures fewer { result ≡ true → count_known known.new.items < count_known known.old.items }
    ensures same { result ≡ false → known.new.items ≡ known.old.items }
    ensures told { result ≡ false → FollowsFromColumn program.now (with_partners partners.now) finder known.new.items call }
    ensures places { length known.new.items ≡ length known.old.items }
{
    if !knows(known.as_slice(), finder, call) {
        return false;
    }
    if tells_issue(program, partners, known.as_slice(), finder, call) {
        return false;
    }
    take_out(known, call);
    true
}

/// Takes out each call that doesn't follow from the column, by one pass over all calls, and tells
/// whether there was one.
fn take_out_all_untold(
    program: &LongProgram,
    partners: &[Option<usize>],
    known: &mut Vec<bool>,
    finder: usize,
) -> bool
    ensures covers { CoversJustified program.now (with_partners partners.now) finder known.old.items →
        CoversJustified program.now (with_partners partners.now) finder known.new.items }
    ensures fewer { result ≡ true → count_known known.new.items < count_known known.old.items }
    ensures told { result ≡ false → (c : ℕ) → FollowsFromColumn program.now (with_partners partners.now) finder known.new.items c }
{
    let mut changed = false;
    for call in 0..known.len() {
        let out = take_out_untold(program, partners, known, finder, call);
        changed |= out;
    }
    changed
}

/// Passes over all calls until one takes out none.
fn settle(program: &LongProgram, partners: &[Option<usize>], known: &mut Vec<bool>, finder: usize)
    ensures covers { CoversJustified program.now (with_partners partners.now) finder known.old.items →
        CoversJustified program.now (with_partners partners.now) finder known.new.items }
    ensures told { (c : ℕ) → FollowsFromColumn program.now (with_partners partners.now) finder known.new.items c }
{
    'passes: loop {
        let changed = take_out_all_untold(program, partners, known, finder);
        if !changed {
            return;
        }
    }
}

/// Every call. The only error is want of memory.
fn all_calls(alloc: Global, program: &LongProgram) -> Result<Vec<bool>, AllocError>
    ensures { IfOk result (λ known. known.items ≡ replicate (length program.now.calls) true) }
{
    vec![in alloc; true; program.calls().len()]
}

/// For each call of the program, whether the finder is known to have found wherever the call is
/// issued. Calls match, and probes see, by the list of partners: for each call what it is matched
/// with, or has seen, if there is anything.
///
/// It is all that the rules of `races` tell: the table of this column alone is justified, and no
/// justified table knows more of the finder.
///
/// The calls are looked at in the given order, such as that of `issue_order`, and then in that of
/// the program until nothing changes. So the order decides how long it takes, and nothing else;
/// places behind the last call are passed over. Calls, and so the finder, count from 0. The only
/// error is want of memory.
pub fn column_of(
    alloc: Global,
    program: &LongProgram,
    partners: &[Option<usize>],
    order: &[usize],
    finder: usize,
) -> Result<Vec<bool>, AllocError>
    ensures justified { IfOk result (λ known. IsJustified program.now (with_partners partners.now) (column_table finder known.items)) }
    ensures greatest { IfOk result (λ known. (knows : Table) →
        IsJustified program.now (with_partners partners.now) knows → (c : ℕ) → IsTrue (knows c finder) →
        IsTrue (column_table finder known.items c finder)) }
{
    let mut known = all_calls(alloc, program)?;
    for call in order {
        take_out_untold(program, partners, &mut known, finder, *call);
    }
    settle(program, partners, &mut known, finder);
    Ok(known)
}
