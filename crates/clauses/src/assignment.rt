//! Assignments.

ghost use Rattle.std.specs.Prelude.{◌≡◌};
ghost use Rattle.clauses.specs.Clauses.{makes_true, satisfies, satisfies_clause, value_of};

use crate::clause::Clause;
use crate::formula::Formula;
use crate::literal::Lit;
use std::marker::Model;

/// A truth value for each variable. Those past the list that it was made of are false.
#[derive(Drop)]
pub struct Assignment {
    values: Vec<bool>,
}

impl Model for Assignment {
    ghost use Rattle.std.specs.Prelude.{List, Bool};

    ghost Value = { List Bool };

    ghost view = { λ a. a.values.items };
}

impl Assignment {
    /// The assignment whose value of variable v, from 1, stands at place v - 1, from 0; a variable
    /// past the list is false.
    pub fn make(values: Vec<bool>) -> Assignment
        ensures { result ≡ values.items }
    {
        Assignment { values }
    }

    /// The value of this variable, numbered from 1; 0 is no variable, and false.
    pub fn value(&self, variable: u32) -> bool
        ensures { result ≡ value_of self.now variable }
    {
        if variable == 0 {
            return false;
        }
        let place = variable as usize - 1;
        self.values.get(place).copied().unwrap_or(false)
    }

    /// Whether the literal is true.
    pub fn holds(&self, literal: &Lit) -> bool
        ensures { result ≡ makes_true (value_of self.now) literal.now }
    {
        self.value(literal.variable()) == literal.is_positive()
    }

    /// Whether some literal of the clause is true. Takes no memory.
    pub fn satisfies_clause(&self, clause: &Clause) -> bool
        ensures { result ≡ satisfies_clause (value_of self.now) clause.now }
    {
        clause.literals().iter().any(|literal| self.holds(literal))
    }

    /// Whether each clause of the formula has a literal that is true. Takes no memory.
    pub fn satisfies(&self, formula: &Formula) -> bool
        ensures { result ≡ satisfies (value_of self.now) formula.now.clauses }
    {
        formula
            .clauses()
            .iter()
            .all(|clause| self.satisfies_clause(clause))
    }
}
