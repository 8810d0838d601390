//! Formulas in conjunctive normal form.

ghost use Rattle.std.specs.Prelude.{◌≡◌, ◌-◌, ◌≤◌, ◌↔◌, IfOk, IfErr, IfSome, IsOk, IsSome, IsTrue, Some, length, slice_get};
ghost use Rattle.clauses.specs.Clauses.{are_within, is_within};

use crate::clause::Clause;
use std::marker::Model;

/// A number of variables, and a list of clauses over these variables. It demands that each clause
/// is satisfied.
#[derive(Drop)]
pub struct Formula {
    variables: u32,
    clauses: Vec<Clause>,
}

impl Model for Formula {
    ghost use Rattle.std.specs.Prelude.{IsTrue};
    ghost use Rattle.clauses.specs.Clauses.{Conjunction, are_within};

    ghost Value = { Conjunction };

    ghost view = { λ f. record { variables = f.variables; clauses = f.clauses.items } };

    ghost invariant = { λ f. IsTrue (are_within f.variables f.clauses.items) };
}

fn are_within(variables: u32, clauses: &[Clause]) -> bool
    ensures { result ≡ are_within variables clauses.now }
{
    clauses.iter().all(|clause| clause.is_within(variables))
}

impl Formula {
    /// The formula of these clauses over the variables from 1 to `variables`. Takes no memory. The
    /// clauses come back exactly where one of them has a variable above `variables`.
    pub fn make(variables: u32, clauses: Vec<Clause>) -> Result<Formula, Vec<Clause>>
        ensures made { IfOk result (λ f. f ≡ record { variables = variables; clauses = clauses.items }) }
        ensures back { IfErr result (λ back. back ≡ clauses) }
        ensures when { IsOk result ↔ IsTrue (are_within variables clauses.items) }
    {
        if !are_within(variables, clauses.as_slice()) {
            return Err(clauses);
        }
        Ok(Formula { variables, clauses })
    }

    /// How many variables it has; they are numbered from 1. Not each need stand in a clause.
    pub fn variables(&self) -> u32
        ensures { result ≡ self.now.variables }
    {
        self.variables
    }

    /// Its clauses; the one at place 0 has the number 1.
    pub fn clauses(&self) -> &[Clause]
        ensures same { result.now ≡ self.now.clauses }
        ensures within { IsTrue (are_within self.now.variables self.now.clauses) }
    {
        self.clauses.as_slice()
    }

    /// How many clauses it has.
    pub fn len(&self) -> usize
        ensures { result ≡ length self.now.clauses }
    {
        self.clauses.len()
    }

    /// The clause of this number, counted from 1, in constant time. There is none for 0 and for a
    /// number above [`Formula::len`].
    pub fn clause(&self, number: usize) -> Option<&Clause>
        ensures same { IfSome result (λ clause. slice_get self.now.clauses (number - 1) ≡ Some clause.now) }
        ensures within { IfSome result (λ clause. IsTrue (is_within self.now.variables clause.now)) }
        ensures when { IsSome result ↔ ((1 ≤ number) × (number ≤ length self.now.clauses)) }
    {
        if number == 0 {
            return None;
        }
        self.clauses.get(number - 1)
    }
}
