//! Whether some run of a program finishes, where one run doesn't tell it: by a formula, which is
//! searched by one thread. A refutation is checked on the spot, and a run is taken step by step, so
//! that nothing of the search is trusted.
#![tactic(auto)]

mod asking;
mod checking;
mod endings;
mod finishing_formula;
mod following;
mod laws;
mod searching;

pub use asking::frequency_of_program;
pub use laws::{
    finished_runs_satisfy_formula, satisfiable_where_finished, satisfying_give_finished_runs,
    unsatisfiable_get_stuck,
};
pub use searching::frequency_of_encoded;
