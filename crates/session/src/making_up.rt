//! Whether phases make up the program that was cut into them.
ghost use Rattle.std.specs.Prelude.{◌≡◌, ℕ, ◌<◌, [], Some, IfOk, IsTrue, OnOk, length, slice_get};
ghost use Rattle.callorder.specs.Programs.{MpiProgram};
ghost use Rattle.phases.specs.Rests.{IsRest, behind};
ghost use Rattle.session.specs.Phasing.{AreApart, AreDealtInOrder, ArePrograms, IsDealt, MakeUpProgram};

use callorder::LongProgram;
use cutting::Phases;
use deciding::program_of;
use interning::number;
use phases::{deal, first_places, is_all_dealt};
use std::alloc::{AllocError, Global};

/// The programs of these texts.
fn programs_of(alloc: Global, texts: &[Vec<u8>]) -> Result<Vec<LongProgram>, AllocError>
    ensures { IfOk result (λ programs. ArePrograms texts.now programs.items) }
{
    let mut programs = Vec::new(alloc);
    for text in texts {
        let Ok(program) = program_of(alloc, text) else {
            return Err(AllocError);
        };
        programs.push(program)?;
    }
    Ok(programs)
}

/// Takes the phase of this number, from 0, off what is left of the program.
fn deal_one(
    program: &LongProgram,
    programs: &[LongProgram],
    number: usize,
    next: &mut [usize],
) -> Result<(), AllocError>
    requires places { length next.old ≡ program.now.ranks }
    ensures { OnOk result ((q : MpiProgram) → IsRest program.now next.old q →
        (part : MpiProgram) × IsDealt programs.now number q part × IsRest program.now next.new (behind q part)) }
{
    let Some(part) = programs.get(number) else {
        return Err(AllocError);
    };
    if !deal(program, part, next) {
        return Err(AllocError);
    }
    Ok(())
}

/// Takes the phases of these numbers, from 0, off the program, one after another, until nothing is
/// left.
fn deal_all(
    alloc: Global,
    program: &LongProgram,
    programs: &[LongProgram],
    order: &[usize],
) -> Result<(), AllocError>
    ensures { OnOk result ((left : MpiProgram) × AreDealtInOrder programs.now program.now order.now left × (left.calls ≡ [])) }
{
    let mut next = first_places(alloc, program)?;
    for number in order {
        deal_one(program, programs, *number, &mut next)?;
    }
    if !is_all_dealt(program, &next) {
        return Err(AllocError);
    }
    Ok(())
}

/// Whether each of these numbers is its own place.
fn are_places(numbers: &[Option<usize>]) -> bool
    ensures { IsTrue result → (place : ℕ) → place < length numbers.now → slice_get numbers.now place ≡ Some (Some place) }
{
    for (place, number) in numbers.iter().enumerate() {
        if *number != Some(place) {
            return false;
        }
    }
    true
}

/// Whether no two of these texts are the same.
fn are_apart(alloc: Global, texts: &[Vec<u8>]) -> Result<bool, AllocError>
    ensures { IfOk result (λ apart. IsTrue apart → AreApart texts.now) }
{
    let mut names = Vec::new(alloc);
    for text in texts {
        names.push(Some(text.as_slice()))?;
    }
    let numbers = number(alloc, names)?;
    Ok(are_places(&numbers))
}

/// Tests that no two of these texts are the same.
fn keep_apart(alloc: Global, texts: &[Vec<u8>]) -> Result<(), AllocError>
    ensures { OnOk result (AreApart texts.now) }
{
    if !are_apart(alloc, texts)? {
        return Err(AllocError);
    }
    Ok(())
}

/// Tests that phases make up the program: at each rank the calls of each are the first that are
/// left behind those before it, and none is left behind the last; and that their texts differ.
/// Nobody trusts how a program is cut, so it is tested before anything is written; what is cut
/// wrongly, which doesn't come, is told as want of memory. The time is linear in the calls.
pub fn make_up(alloc: Global, program: &LongProgram, phases: &Phases) -> Result<(), AllocError>
    ensures { OnOk result (MakeUpProgram program.now phases.now) }
{
    let programs = programs_of(alloc, &phases.texts)?;
    deal_all(alloc, program, &programs, &phases.order)?;
    keep_apart(alloc, &phases.texts)?;
    Ok(())
}
