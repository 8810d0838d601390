//! Literals, clauses, formulas in conjunctive normal form, and assignments.
//!
//! Variables are numbered from 1, and so are the clauses of a formula. `specs/Clauses.antt` says
//! which assignments satisfy a formula and which clauses follow from it.
#![tactic(auto)]

mod assignment;
mod clause;
mod formula;
mod laws;
mod literal;
mod storage;

pub use assignment::Assignment;
pub use clause::{Clause, ClauseFault};
pub use formula::Formula;
pub use laws::{
    each_clause_follows, empty_clause_is_never_satisfied, empty_clause_refutes,
    following_adds_nothing, later_variable_is_larger, negation_holds_where_literal_does_not,
};
pub use literal::{LARGEST_VARIABLE, Lit};
