//! Whether a call is issued only where a finder has found, exactly: all that is known of one finder
//! at a time, where no count by the rank of the send that it found tells it before.

ghost use Rattle.std.specs.Prelude.{◌≡◌, ℕ, Some, IfOk, OnOk, true, false, slice_get};
ghost use Rattle.std.specs.Option.{unwrap_or};
ghost use Rattle.callorder.specs.Programs.{MpiProgram};
ghost use Rattle.knowledge.specs.Knowledge.{with_partners};
ghost use Rattle.clocks.specs.parts.Exact.{IsAsked, IsOrdered, IsOrderedAt, IsUnorderedBy};

use crate::columns::Columns;
use crate::race::Race;
use crate::rows::ordered_of;
use callorder::LongProgram;
use knowledge::column_of;
use semantics::Step;
use std::alloc::{AllocError, Global};
use std::marker::Model;

/// What is known of the finder that was asked for last, and of races that are asked about in turn.
#[derive(Drop)]
pub struct Exact {
    /// For each call what it is matched with, or has seen.
    partners: Vec<Option<usize>>,
    /// The calls, in the order of a run.
    order: Vec<usize>,
    finder: Option<usize>,
    /// For each call whether it is issued only where that finder has found.
    known: Vec<bool>,
    /// Races, in the order in which they will be asked about.
    races: Vec<Race>,
    /// For each of these whether its send is known to be issued only where its finder has found.
    ordered: Vec<bool>,
    /// The place of the race that is asked about next.
    next: usize,
    /// The send from which on races are to be noted.
    end: usize,
}

impl Model for Exact {
    ghost use Rattle.clocks.specs.parts.Exact.{Asked};

    ghost Value = { Asked };

    ghost view = { λ e. record { partners = e.partners.items; finder = e.finder; known = e.known.items; races = e.races.items; ordered = e.ordered.items } };
}

impl Exact {
    /// By these partners, where no finder was asked for yet, and no races are to be noted.
    pub fn new(alloc: Global, partners: Vec<Option<usize>>, order: Vec<usize>) -> Self
        ensures partners { result.partners ≡ partners.items }
        ensures asked { (p : MpiProgram) → IsAsked p result }
    {
        Exact {
            partners,
            order,
            finder: None,
            known: Vec::new(alloc),
            races: Vec::new(alloc),
            ordered: Vec::new(alloc),
            next: 0,
            end: usize::MAX,
        }
    }

    /// Has races be noted from this send on.
    pub fn note_from(&mut self, send: usize)
        ensures { self.new ≡ self.old }
    {
        self.end = send;
    }

    /// Whether the races of the send are to be noted next.
    pub fn is_noted_up_to(&self, send: usize) -> bool {
        self.end <= send
    }

    /// Notes which of these races, of sends up to the end, are ordered, by counts of finders in
    /// columns for these ranks, those of the sends that they found. The only error is want of
    /// memory.
    pub fn note(
        &mut self,
        alloc: Global,
        program: &LongProgram,
        run: &[Step],
        races: Vec<Race>,
        needed: &[bool],
        end: usize,
    ) -> Result<(), AllocError>
        requires { IsAsked program.now self.old }
        ensures partners { self.new.partners ≡ self.old.partners }
        ensures asked { IsAsked program.now self.new }
    {
        let partners = self.partners.as_slice();
        let columns = Columns::of_sends(alloc, program, partners, needed)?;
        let ordered = ordered_of(alloc, program, &columns, partners, races.as_slice(), run)?;
        self.races = races;
        self.ordered = ordered;
        self.next = 0;
        self.end = end;
        Ok(())
    }

    /// Whether the race at the place is noted as ordered.
    fn is_noted_at(&self, place: usize) -> bool
        ensures { result ≡ true → slice_get self.now.ordered place ≡ Some true }
    {
        self.ordered.get(place).copied() == Some(true)
    }

    /// Whether this race is the next one, and is noted as ordered. The next one is past then.
    fn is_next_ordered(&mut self, finder: usize, call: usize) -> bool
        ensures same { self.new ≡ self.old }
        ensures ordered { result ≡ true → (p : MpiProgram) → IsAsked p self.old → IsOrdered p (with_partners self.old.partners) call finder }
    {
        let place = self.next;
        let Some(race) = self.races.get(place).copied() else {
            return false;
        };
        if race.send != call || race.finder != finder {
            return false;
        }
        self.next = place.saturating_add(1);
        self.is_noted_at(place)
    }

    /// Asks for the finder. The only error is want of memory.
    fn ask(&mut self, alloc: Global, program: &LongProgram, finder: usize) -> Result<(), AllocError>
        requires { IsAsked program.now self.old }
        ensures partners { self.new.partners ≡ self.old.partners }
        ensures asked { IsAsked program.now self.new }
        ensures finder { OnOk result (self.new.finder ≡ Some finder) }
    {
        if self.finder == Some(finder) {
            return Ok(());
        }
        self.known = column_of(
            alloc,
            program,
            self.partners.as_slice(),
            self.order.as_slice(),
            finder,
        )?;
        self.finder = Some(finder);
        Ok(())
    }

    /// Whether the call is known.
    fn is_known(&self, call: usize) -> bool
        ensures { result ≡ unwrap_or (slice_get self.now.known call) false }
    {
        self.known.get(call).copied().unwrap_or(false)
    }

    /// Whether the call is issued only where the finder has found. The only error is want of
    /// memory.
    pub fn tells(
        &mut self,
        alloc: Global,
        program: &LongProgram,
        finder: usize,
        call: usize,
    ) -> Result<bool, AllocError>
        requires { IsAsked program.now self.old }
        ensures partners { self.new.partners ≡ self.old.partners }
        ensures asked { IsAsked program.now self.new }
        ensures ordered { IfOk result (λ tells. tells ≡ true → IsOrdered program.now (with_partners self.old.partners) call finder) }
        ensures unordered { IfOk result (λ tells. tells ≡ false → IsUnorderedBy program.now (with_partners self.old.partners) call finder) }
    {
        if self.is_next_ordered(finder, call) {
            return Ok(true);
        }
        self.ask(alloc, program, finder)?;
        Ok(self.is_known(call))
    }
}
