//! What the clauses of a program are made from.

ghost use Rattle.std.specs.Prelude.{◌≡◌, [], IfOk, length, map, slice_index_or};
ghost use Rattle.candidates.specs.Pairs.{takers_of, pairs_of, pair_at, places};
ghost use Rattle.nonovertake.specs.Earlier.{earlier_of, earlier_sends, earlier_takers};
ghost use Rattle.formula.specs.Families.{sends_of};

use callorder::Program;
use candidates::Pairs;
use nonovertake::Earlier;
use std::alloc::{AllocError, Global};
use std::marker::Model;

/// A program with its pairs, the earlier calls of each pair, and the calls that each call fits.
#[derive(Drop)]
pub struct ProgramTables<'a> {
    program: &'a Program,
    pairs: &'a Pairs,
    earlier: &'a Earlier,
    takers: Vec<Vec<usize>>,
    sends: Vec<Vec<usize>>,
}

impl<'a> Model for ProgramTables<'a> {
    ghost use Rattle.std.specs.Prelude.{map};
    ghost use Rattle.callorder.specs.Programs.{MpiProgram};
    ghost use Rattle.formula_tables.specs.Numbers.{AreCalls};

    ghost Value = { MpiProgram };

    ghost view = { λ s. s.program.now };

    ghost invariant = { λ s. AreCalls s.program.now s.pairs.now s.earlier.now (map (λ row. row.items) s.takers.items) (map (λ row. row.items) s.sends.items) };
}

fn takers_of(alloc: Global, program: &Program, send: usize) -> Result<Vec<usize>, AllocError>
    ensures { IfOk result (λ takers. takers.items ≡ takers_of program.now send) }
{
    (0..program.calls().len())
        .filter(|taker| program.takes(send, *taker))
        .collect(alloc)
}

fn sends_of(alloc: Global, program: &Program, taker: usize) -> Result<Vec<usize>, AllocError>
    ensures { IfOk result (λ sends. sends.items ≡ sends_of program.now taker) }
{
    (0..program.calls().len())
        .filter(|send| program.are_fit(*send, taker))
        .collect(alloc)
}

/// For each call the takers that it fits.
fn all_takers(alloc: Global, program: &Program) -> Result<Vec<Vec<usize>>, AllocError>
    ensures { IfOk result (λ rows. map (λ row. row.items) rows.items ≡ map (takers_of program.now) (places program.now)) }
{
    let mut rows = Vec::new(alloc);
    for call in 0..program.calls().len() {
        rows.push(takers_of(alloc, program, call)?)?;
    }
    Ok(rows)
}

/// For each call the sends that fit it.
fn all_sends(alloc: Global, program: &Program) -> Result<Vec<Vec<usize>>, AllocError>
    ensures { IfOk result (λ rows. map (λ row. row.items) rows.items ≡ map (sends_of program.now) (places program.now)) }
{
    let mut rows = Vec::new(alloc);
    for call in 0..program.calls().len() {
        rows.push(sends_of(alloc, program, call)?)?;
    }
    Ok(rows)
}

fn row(rows: &Vec<Vec<usize>>, call: usize) -> &[usize]
    ensures { result.now ≡ slice_index_or (map (λ row. row.items) rows.now.items) call [] }
{
    match rows.get(call) {
        None => &[],
        Some(row) => row.as_slice(),
    }
}

impl<'a> ProgramTables<'a> {
    /// The program with these pairs and earlier calls. The only error is want of memory.
    pub fn make(
        alloc: Global,
        program: &'a Program,
        pairs: &'a Pairs,
        earlier: &'a Earlier,
    ) -> Result<ProgramTables<'a>, AllocError>
        requires pairs { pairs.now ≡ pairs_of program.now }
        requires earlier { earlier.now ≡ map (earlier_of program.now) (pairs_of program.now) }
        ensures { IfOk result (λ source. source ≡ program.now) }
    {
        let takers = all_takers(alloc, program)?;
        let sends = all_sends(alloc, program)?;
        Ok(ProgramTables {
            program,
            pairs,
            earlier,
            takers,
            sends,
        })
    }

    /// The program.
    pub fn program(&self) -> &'a Program
        ensures { result.now ≡ self.now }
    {
        self.program
    }

    /// How many calls there are.
    pub fn len(&self) -> usize
        ensures { result ≡ length self.now.calls }
    {
        self.program.calls().len()
    }

    /// How many pairs there are.
    pub fn pair_count(&self) -> usize
        ensures { result ≡ length (pairs_of self.now) }
    {
        self.pairs.len()
    }

    /// The send and the taker or probe of the pair at a place, from 0; (0, 0) past the last one.
    pub fn pair(&self, place: usize) -> (usize, usize)
        ensures { result ≡ pair_at (pairs_of self.now) place }
    {
        match self.pairs.as_slice().get(place) {
            None => (0, 0),
            Some(pair) => *pair,
        }
    }

    /// The takers that the send fits, rising.
    pub fn takers_of(&self, send: usize) -> &[usize]
        ensures { result.now ≡ takers_of self.now send }
    {
        row(&self.takers, send)
    }

    /// The sends that fit the taker or probe, rising.
    pub fn sends_of(&self, taker: usize) -> &[usize]
        ensures { result.now ≡ sends_of self.now taker }
    {
        row(&self.sends, taker)
    }

    /// The earlier sends of the send's rank that fit the taker or probe of the pair at a place,
    /// rising.
    pub fn earlier_sends(&self, place: usize) -> &[usize]
        ensures { let pair = pair_at (pairs_of self.now) place in result.now ≡ earlier_sends self.now pair.0 pair.1 }
    {
        self.earlier.sends(place)
    }

    /// The earlier takers of the taker's or probe's rank that the send of the pair at a place fits,
    /// rising.
    pub fn earlier_takers(&self, place: usize) -> &[usize]
        ensures { let pair = pair_at (pairs_of self.now) place in result.now ≡ earlier_takers self.now pair.0 pair.1 }
    {
        self.earlier.takers(place)
    }
}
