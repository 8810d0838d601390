//! The history with the reasons to leave, and the places that are kept in both.

ghost use Rattle.std.specs.Prelude.{◌≡◌, ◌+◌, ◌-◌, ◌<◌, ◌≤◌, ◌++◌, ◌∷◌, [], IsOk, IsSome, OnOk, OnErr};
ghost use Rattle.pool.specs.parts.Ledgers.{FitsCall, FitsReason, IsSameLedger};
ghost use Rattle.pool.specs.Reasons.{IsSmallest};
ghost use Rattle.pool.specs.States.{with_reason};

use crate::entry::{Entry, Operation};
use crate::why::{Why, smallest};
use std::alloc::{AllocError, Global};
use std::marker::Model;

/// The calls so far, with the reasons for which workers left.
#[derive(Drop)]
pub(crate) struct Ledger {
    history: Vec<Entry>,
    reasons: Vec<Why>,
    /// How many places of both are free for [`leave_kept`](Ledger::leave_kept) alone.
    places: usize,
}

impl Model for Ledger {
    ghost use Rattle.std.specs.Prelude.{◌+◌, ◌≤◌, vec_len, vec_capacity};
    ghost use Rattle.pool.specs.parts.Ledgers.{LedgerState};

    ghost Value = { LedgerState };

    ghost view = { λ l. record {
      history = l.history.items;
      reasons = l.reasons.items;
      places = l.places;
      calls_fit = vec_capacity l.history;
      reasons_fit = vec_capacity l.reasons;
    } };

    ghost invariant = { λ l. (vec_len l.history + l.places ≤ vec_capacity l.history) ×
        (vec_len l.reasons + l.places ≤ vec_capacity l.reasons) };
}

impl Ledger {
    pub(crate) fn new(alloc: Global) -> Ledger
        ensures history { result.history ≡ [] }
        ensures reasons { result.reasons ≡ [] }
        ensures places { result.places ≡ 0 }
    {
        Ledger {
            history: Vec::new(alloc),
            reasons: Vec::new(alloc),
            places: 0,
        }
    }

    pub(crate) fn history(&self) -> &[Entry]
        ensures { result.now ≡ self.now.history }
    {
        self.history.as_slice()
    }

    /// The smallest of the reasons.
    pub(crate) fn why(&self) -> Option<Why>
        ensures { IsSmallest self.now.reasons result }
    {
        smallest(&self.reasons)
    }

    /// Makes room for one more call, so that the places that are kept stay free.
    pub(crate) fn reserve(&mut self) -> Result<(), AllocError>
        ensures room { OnOk result (FitsCall self.new) }
        ensures same { IsSameLedger self.old self.new }
        ensures reasons_fit { self.new.reasons_fit ≡ self.old.reasons_fit }
        ensures free { FitsCall self.old → IsOk result }
    {
        self.history.reserve(self.places + 1)
    }

    /// Notes a call, for which there is room.
    fn note(&mut self, worker: u32, operation: Operation)
        requires { FitsCall self.old }
        ensures history { self.new.history ≡ self.old.history ++ (record { worker = worker; operation = operation }) ∷ [] }
        ensures reasons { self.new.reasons ≡ self.old.reasons }
        ensures places { self.new.places ≡ self.old.places }
    {
        self.history.push_reserved(Entry { worker, operation });
    }

    /// Notes a call, for which there is room, and hands back its reply.
    pub(crate) fn answer<A>(&mut self, worker: u32, operation: Operation, reply: A) -> A
        requires { FitsCall self.old }
        ensures reply { result ≡ reply }
        ensures history { self.new.history ≡ self.old.history ++ (record { worker = worker; operation = operation }) ∷ [] }
        ensures reasons { self.new.reasons ≡ self.old.reasons }
        ensures places { self.new.places ≡ self.old.places }
    {
        self.note(worker, operation);
        reply
    }

    /// Adds a reason, so that the places that are kept stay free.
    fn add_reason(&mut self, why: Option<Why>) -> Result<(), AllocError>
        ensures ok { OnOk result (self.new.reasons ≡ with_reason self.old.reasons why) }
        ensures err { OnErr result (self.new.reasons ≡ self.old.reasons) }
        ensures history { self.new.history ≡ self.old.history }
        ensures places { self.new.places ≡ self.old.places }
        ensures calls_fit { self.new.calls_fit ≡ self.old.calls_fit }
        ensures free { FitsReason self.old → IsOk result }
    {
        if let Some(why) = why {
            self.reasons.reserve(self.places + 1)?;
            self.reasons.push_reserved(why);
        }
        Ok(())
    }

    /// Notes a leave with its reason, so that the places that are kept stay free.
    pub(crate) fn leave(&mut self, worker: u32, why: Option<Why>) -> Result<(), AllocError>
        ensures history { OnOk result (self.new.history ≡
            self.old.history ++ (record { worker = worker; operation = Operation.Leave why }) ∷ []) }
        ensures reasons { OnOk result (self.new.reasons ≡ with_reason self.old.reasons why) }
        ensures places { OnOk result (self.new.places ≡ self.old.places) }
        ensures err { OnErr result (IsSameLedger self.old self.new) }
        ensures free { FitsCall self.old → FitsReason self.old → IsOk result }
    {
        self.reserve()?;
        self.add_reason(why)?;
        self.note(worker, Operation::Leave(why));
        Ok(())
    }

    /// The same by a place that is kept, if one is.
    pub(crate) fn leave_kept(&mut self, worker: u32, why: Option<Why>) -> Result<(), AllocError>
        ensures history { OnOk result (self.new.history ≡
            self.old.history ++ (record { worker = worker; operation = Operation.Leave why }) ∷ []) }
        ensures reasons { OnOk result (self.new.reasons ≡ with_reason self.old.reasons why) }
        ensures places { OnOk result (self.new.places ≡ self.old.places - 1) }
        ensures err { OnErr result (IsSameLedger self.old self.new) }
        ensures kept { 1 ≤ self.old.places → IsOk result }
    {
        self.places = self.places.saturating_sub(1);
        self.leave(worker, why)
    }

    /// Keeps so many more places.
    pub(crate) fn keep_places(&mut self, places: usize) -> Result<(), AllocError>
        ensures history { self.new.history ≡ self.old.history }
        ensures reasons { self.new.reasons ≡ self.old.reasons }
        ensures ok { OnOk result (self.new.places ≡ self.old.places + places) }
        ensures err { OnErr result (self.new.places ≡ self.old.places) }
    {
        let kept = self.places.saturating_add(places);
        self.history.reserve(kept)?;
        self.reasons.reserve(kept)?;
        self.places = kept;
        Ok(())
    }
}
