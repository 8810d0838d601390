//! Whether phases make up a program.

ghost use Rattle.std.specs.Prelude.{◌≡◌, ◌<◌, ◌≤◌, ◌⊎◌, length, IfOk, IfErr, IfSome};
ghost use Rattle.calltext.specs.Grammar.{long};
ghost use Rattle.callorder.specs.Programs.{MpiProgram};
ghost use Rattle.semantics.specs.Headline.{IsNeverStuckWithin};
ghost use Rattle.phases.specs.Rests.{IsRest};
ghost use Rattle.phase_checker.specs.Dealing.{AreJoined, IsNotJoined, IsWrongAtPlace, KeepsToItself};
ghost use Rattle.phase_checker.specs.parts.Early.{HoldsAt};
ghost use Rattle.phase_checker.specs.parts.Parts.{IsDealtAt, IsFirstEarly, IsFirstWrong, IsUnkept, MakeUp};

use crate::early::first_early;
use crate::phase::Phase;
use crate::reason::NotJoined;
use callorder::LongProgram;
use deciding::program_of;
use phases::{first_places, is_all_dealt};
use std::alloc::{AllocError, Global};

/// Whether the phase at a place of the order keeps to itself, where `early` is the first place for
/// whose phase a later one may send too early; else what is wrong there.
fn check_kept(phase: &Phase, place: usize, early: Option<usize>) -> Result<(), NotJoined>
    requires { IfSome early (λ first. place ≤ first) }
    ensures kept { IfOk result (λ done. HoldsAt (λ phases order. KeepsToItself phases order place phase.now) early place phase.now) }
    ensures why { IfErr result (λ why. HoldsAt (λ phases order. IsUnkept phases order place phase.now why) early place phase.now) }
{
    if early == Some(place) {
        return Err(NotJoined::Source { place });
    }
    if !phase.leaves_nothing() {
        return Err(NotJoined::Uneven { place });
    }
    Ok(())
}

/// Takes the phase at a place of the order off what is left of the program; else tells what is
/// wrong there.
fn deal_at(
    program: &LongProgram,
    phases: &[Phase],
    order: &[usize],
    place: usize,
    early: Option<usize>,
    next: &mut [usize],
) -> Result<(), NotJoined>
    requires inside { place < length order.now }
    requires early { IsFirstEarly phases.now order.now early }
    requires before { IfSome early (λ first. place ≤ first) }
    requires places { length next.old ≡ program.now.ranks }
    ensures dealt { IfOk result (λ done. (q : MpiProgram) → IsRest program.now next.old q →
        IsDealtAt phases.now order.now place program.now q next.new) }
    ensures why { IfErr result (λ why. (q : MpiProgram) → IsRest program.now next.old q → IsWrongAtPlace phases.now order.now place q why) }
{
    let Some(phase) = phases.get(order[place]) else {
        return Err(NotJoined::NoPhase { place });
    };
    if !phase.deal(program, next) {
        return Err(NotJoined::Other { place });
    }
    if place + 1 == order.len() {
        return Ok(());
    }
    match check_kept(phase, place, early) {
        Ok(()) => Ok(()),
        Err(why) => Err(why),
    }
}

/// Whether the phases make up the program in this order, where `early` is the first place for whose
/// phase a later one may send too early; else the first thing that is wrong.
fn deal_all(
    alloc: Global,
    program: &LongProgram,
    phases: &[Phase],
    order: &[usize],
    early: Option<usize>,
) -> Result<(), NotJoined>
    requires { IsFirstEarly phases.now order.now early }
    ensures all { IfOk result (λ done. MakeUp phases.now order.now program.now) }
    ensures why { IfErr result (λ why. (why ≡ NotJoined.Memory) ⊎ IsFirstWrong phases.now order.now program.now why) }
{
    let Ok(mut next) = first_places(alloc, program) else {
        return Err(NotJoined::Memory);
    };
    for place in 0..order.len() {
        match deal_at(program, phases, order, place, early, &mut next) {
            Ok(()) => {}
            Err(why) => return Err(why),
        }
    }
    if !is_all_dealt(program, &next) {
        return Err(NotJoined::Left);
    }
    Ok(())
}

/// Shows that no run of the program of a text gets stuck, by the phases that it is made up of; else
/// tells the first thing that is wrong. The text has no limit but memory's and that numbers have 31
/// bits. `order` has for each phase, one after another, its place in `phases`, from 0. A phase may
/// stand there any number of times, and isn't judged anew.
///
/// The calls of each phase have to be, at each rank, the first that are left behind the phases
/// before it, and none may be left behind the last. Each phase but the last has to take all that is
/// sent in it. It may take and look for messages of any source where each rank that sends such a
/// message in a later phase finishes this one only after the receive or probe has found its own, as
/// messages tell whose partners are sure.
///
/// The time is linear in the text, in the calls of the phases, each counted as often as it occurs,
/// and in what it takes, once for each phase that doesn't name its sources and that others follow,
/// to tell which ranks may be finished before a receive or probe has found.
pub fn join(alloc: Global, text: &[u8], phases: &[Phase], order: &[usize]) -> Result<(), NotJoined>
    ensures never { IfOk result (λ done. IsNeverStuckWithin long text.now) }
    ensures joined { IfOk result (λ done. AreJoined text.now phases.now order.now) }
    ensures why { IfErr result (IsNotJoined text.now phases.now order.now) }
{
    let program = program_of(alloc, text)?;
    let Ok(early) = first_early(alloc, phases, order) else {
        return Err(NotJoined::Memory);
    };
    match deal_all(alloc, &program, phases, order, early) {
        Ok(()) => Ok(()),
        Err(why) => Err(why),
    }
}
