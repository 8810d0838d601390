//! Which ranks may finish a phase too early.

ghost use Rattle.std.specs.Prelude.{◌≡◌, IfOk, OnOk};
ghost use Rattle.knowledge.specs.Knowledge.{column_table, with_partners};
ghost use Rattle.sealing.specs.Sealing.{AreLoose};
ghost use Rattle.sealing.specs.parts.Ends.{tells_end, tells_finish, GainsEntries, AddsLoose, AreFindings, IsUntoldBelow};

use crate::finders::{Finder, finder_at};
use crate::lasts::last_calls;
use crate::loose::Loose;
use crate::partners::sure_partners;
use callorder::LongProgram;
use knowledge::{column_of, issue_order, knows, tells_return};
use leastrun::least_buffered_run;
use std::alloc::{AllocError, Global};

/// What is the same for all finders.
#[derive(Drop)]
pub struct Findings {
    /// For each call the partner that it is sure to have.
    pub partners: Vec<Option<usize>>,
    /// The calls in the order of a run.
    pub order: Vec<usize>,
    /// For each rank its last call, if it has one.
    pub lasts: Vec<Option<usize>>,
}

/// The order in which a run issues the calls.
fn order_of(alloc: Global, program: &LongProgram) -> Result<Vec<usize>, AllocError> {
    let (run, _) = least_buffered_run(alloc, program)?;
    issue_order(alloc, program, run.as_slice())
}

/// What is the same for all finders.
fn findings_of(alloc: Global, program: &LongProgram) -> Result<Findings, AllocError>
    ensures { IfOk result (λ findings. AreFindings program.now findings) }
{
    let partners = sure_partners(alloc, program)?;
    let order = order_of(alloc, program)?;
    let lasts = last_calls(alloc, program)?;
    Ok(Findings {
        partners,
        order,
        lasts,
    })
}

/// Whether the finder is known to have found where a rank is finished whose last call this is.
fn tells_end(
    program: &LongProgram,
    partners: &[Option<usize>],
    known: &[bool],
    finder: usize,
    last: Option<usize>,
) -> bool
    ensures { result ≡ tells_end program.now (with_partners partners.now) (column_table finder known.now) finder last }
{
    match last {
        None => false,
        Some(last) => {
            knows(known, finder, last) || tells_return(program, partners, known, finder, last)
        }
    }
}

/// Whether it is known so of the rank.
fn tells_finish(
    program: &LongProgram,
    findings: &Findings,
    known: &[bool],
    finder: usize,
    rank: u32,
) -> bool
    ensures { result ≡ tells_finish program.now findings.now known.now finder rank }
{
    let last = findings.lasts.get(rank as usize).copied().unwrap_or(None);
    tells_end(program, findings.partners.as_slice(), known, finder, last)
}

/// Adds what the ranks could send to the finder whose end doesn't tell that it has found.
fn add_untold(
    program: &LongProgram,
    findings: &Findings,
    known: &[bool],
    finder: Finder,
    loose: &mut Vec<Loose>,
) -> Result<(), AllocError>
    ensures { OnOk result (GainsEntries loose.old.items loose.new.items (IsUntoldBelow program.now findings.now
        known.now finder program.now.ranks)) }
{
    for source in 0..program.ranks() {
        if !tells_finish(program, findings, known, finder.place, source) {
            loose.push(Loose {
                source,
                destination: finder.rank,
                communicator: finder.communicator,
                tag: finder.tag,
            })?;
        }
    }
    Ok(())
}

/// Adds what ranks could send too early to the call at the place, if it is a finder of any source.
fn add_loose(
    alloc: Global,
    program: &LongProgram,
    findings: &Findings,
    place: usize,
    loose: &mut Vec<Loose>,
) -> Result<(), AllocError>
    requires { AreFindings program.now findings.now }
    ensures { OnOk result (AddsLoose program.now place loose.old.items loose.new.items) }
{
    let Some(finder) = finder_at(program, place) else {
        return Ok(());
    };
    let known = column_of(
        alloc,
        program,
        findings.partners.as_slice(),
        findings.order.as_slice(),
        place,
    )?;
    add_untold(program, findings, known.as_slice(), finder, loose)?;
    Ok(())
}

/// What ranks could send too early to finders of any source: for each such finder and each rank
/// whose end doesn't tell that the finder has found, as `Loose`. Each thing stands there once or
/// more.
///
/// What tells so is what the rules of `races` make of partners that are sure: those of an envelope
/// that all takers name which its messages fit. No more is told by any table that such partners
/// justify. A rank without calls is finished from the start, and tells nothing.
///
/// The only error is want of memory. The time is near linear in the calls and the ranks for each
/// finder of any source.
pub fn loose_ends(alloc: Global, program: &LongProgram) -> Result<Vec<Loose>, AllocError>
    ensures { IfOk result (λ list. AreLoose program.now list.items) }
{
    let findings = findings_of(alloc, program)?;
    let mut loose = Vec::new(alloc);
    for place in 0..program.calls().len() {
        add_loose(alloc, program, &findings, place, &mut loose)?;
    }
    Ok(loose)
}
