//! Channels whose sends and takers differ in number.

ghost use Rattle.std.specs.Prelude.{◌≡◌, ◌++◌, ◌∷◌, ℕ, List, [], IfOk, OnOk, Option, length, slice_get};
ghost use Rattle.interning.specs.Places.{AreBelow};
ghost use Rattle.balance.specs.Balance.{AreImbalances, is_send_at};
ghost use Rattle.balance.specs.Sides.{AreAllSides, AreNumberedSides};

use crate::channels::channels_of;
use callorder::LongProgram;
use interning::number;
use std::alloc::{AllocError, Global};

/// The sends and the takers of a channel, by their places in rising order.
#[derive(Drop)]
pub struct Imbalance {
    pub sends: Vec<usize>,
    pub takers: Vec<usize>,
}

impl Imbalance {
    fn new(alloc: Global) -> Imbalance
        ensures sends { result.sends.items ≡ [] }
        ensures takers { result.takers.items ≡ [] }
    {
        Imbalance {
            sends: Vec::new(alloc),
            takers: Vec::new(alloc),
        }
    }

    /// Adds the last numbered place to the sides of its number.
    fn add(&mut self, program: &LongProgram, place: usize) -> Result<(), AllocError>
        ensures { (numbers : List (Option ℕ)) (number : ℕ) → length numbers ≡ place →
            AreNumberedSides program.now numbers number self.old →
            OnOk result (AreNumberedSides program.now (numbers ++ Some number ∷ []) number self.new) }
    {
        if is_send(program, place) {
            self.sends.push(place)?;
        } else {
            self.takers.push(place)?;
        }
        Ok(())
    }
}

/// Whether the call at the place is a send.
fn is_send(program: &LongProgram, place: usize) -> bool
    ensures { result ≡ is_send_at program.now place }
{
    match program.call(place) {
        None => false,
        Some(call) => call.kind.message().is_some(),
    }
}

/// No sends and no takers, so many times.
fn empty_sides(alloc: Global, count: usize) -> Result<Vec<Imbalance>, AllocError>
    ensures size { IfOk result (λ table. length table.items ≡ count) }
    ensures each { IfOk result (λ table. (number : ℕ) (sides : Imbalance) →
        slice_get table.items number ≡ Some sides → (sides.sends.items ≡ []) × (sides.takers.items ≡ [])) }
{
    let mut table = Vec::new(alloc);
    for _ in 0..count {
        table.push(Imbalance::new(alloc))?;
    }
    Ok(table)
}

/// The sends and the takers of each channel, by the channel's number.
fn sides_of(
    alloc: Global,
    program: &LongProgram,
    numbers: &[Option<usize>],
) -> Result<Vec<Imbalance>, AllocError>
    requires { AreBelow (length numbers.now) numbers.now }
    ensures { IfOk result (λ table. AreAllSides program.now (length numbers.now) numbers.now table.items) }
{
    let mut table = empty_sides(alloc, numbers.len())?;
    for (place, number) in numbers.iter().enumerate() {
        if let Some(number) = number {
            table[*number].add(program, place)?;
        }
    }
    Ok(table)
}

/// The channels whose sends and takers differ in number, in the order of their first calls. The
/// only error is want of memory.
///
/// The time is linear in the calls.
pub fn imbalances(alloc: Global, program: &LongProgram) -> Result<Vec<Imbalance>, AllocError>
    ensures { IfOk result (λ told. AreImbalances program.now told.items) }
{
    let channels = channels_of(alloc, program)?;
    let numbers = number(alloc, channels)?;
    let mut told = sides_of(alloc, program, &numbers)?;
    told.retain(|sides| sides.sends.len() != sides.takers.len());
    Ok(told)
}
