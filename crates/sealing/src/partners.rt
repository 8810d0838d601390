//! The partner that a call has in each run that finds it any.

ghost use Rattle.std.specs.Prelude.{◌≡◌, IfOk, map};
ghost use Rattle.std.specs.HashMap.{get};
ghost use Rattle.std.specs.HashSet.{contains};
ghost use Rattle.knowledge.specs.Knowledge.{with_partners};
ghost use Rattle.sealing.specs.Sealing.{HasSurePartners};
ghost use Rattle.sealing.specs.parts.Sides.{opposite, partner_in, same_occurrence, same_wanted, HasAllSure};

use crate::asked::{asked_by, is_exact};
use crate::occurrences::{Occurrence, occurrences_of, places_of};
use crate::sides::{Side, Wanted};
use callorder::LongProgram;
use std::alloc::{AllocError, Global};
use std::collections::{HashMap, HashSet};

/// As many stand before it on the other side.
fn opposite(one: Occurrence) -> Occurrence
    ensures { result ≡ opposite one }
{
    let side = Side {
        is_send: !one.side.is_send,
        ..one.side
    };
    Occurrence { side, ..one }
}

/// Where the one that belongs to this one stands.
fn partner_in(
    asked: &HashSet<Wanted>,
    places: &HashMap<Occurrence, usize>,
    occurrence: Option<Occurrence>,
) -> Option<usize>
    ensures { result ≡ partner_in (contains same_wanted asked.now) (get same_occurrence places.now) occurrence }
{
    let Some(one) = occurrence else {
        return None;
    };
    if !is_exact(asked, one.side) {
        return None;
    }
    places.get(&opposite(one)).copied()
}

/// The same of each of these.
fn partners_in(
    alloc: Global,
    asked: &HashSet<Wanted>,
    places: &HashMap<Occurrence, usize>,
    occurrences: &[Option<Occurrence>],
) -> Result<Vec<Option<usize>>, AllocError>
    ensures { IfOk result (λ partners.
        partners.items ≡
        map (partner_in (contains same_wanted asked.now) (get same_occurrence places.now)) occurrences.now) }
{
    let mut partners = Vec::new(alloc);
    for occurrence in occurrences {
        partners.push(partner_in(asked, places, *occurrence))?;
    }
    Ok(partners)
}

/// For each call its counterpart, if it has one: of an envelope that all takers name which its
/// messages fit, the first taker is that of the first send, the second that of the second, and so
/// on. The only error is want of memory. The time is linear in the calls.
pub fn sure_partners(alloc: Global, program: &LongProgram) -> Result<Vec<Option<usize>>, AllocError>
    ensures sure { IfOk result (λ partners. HasSurePartners program.now (with_partners partners.items)) }
    ensures all { IfOk result (λ partners. HasAllSure program.now (with_partners partners.items)) }
{
    let calls = program.calls();
    let asked = asked_by(alloc, calls)?;
    let occurrences = occurrences_of(alloc, calls)?;
    let places = places_of(alloc, &occurrences)?;
    partners_in(alloc, &asked, &places, &occurrences)
}
