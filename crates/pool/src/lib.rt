//! What the workers of one search share: the program with its formula, a tree of cubes with a
//! clause for each closed leaf, a log of proof lines, the schedule that was found, why workers
//! left, and the history of all calls.
//!
//! Workers, nodes and places of lines count from 0, variables and clauses from 1; the lines of the
//! log are numbered after the formula's clauses. `specs/States.antt` says what each call is
//! answered, and `specs/Calls.antt` what it makes of the pool.
#![tactic(auto)]

mod assembly;
mod derived;
mod entry;
mod events;
mod extend;
mod keep;
mod known;
mod laws;
mod ledger;
mod reading;
mod share;
mod why;

pub use assembly::{AssembleFault, schedule_of_run};
pub use derived::DerivedLines;
pub use entry::{
    CloseFault, Entry, FetchFault, FoundFault, LoggedCall, Operation, PathFault, PublishFault,
    SplitFault,
};
pub use events::{Event, Reply, run};
pub use extend::MOST_LINES;
pub use keep::Pool;
pub use known::derived_lines;
pub use laws::{
    bases_rise, batches_move, closed_pools_refute, leaves_cover, logs_grow, runs_are_legal,
    runs_lose_nothing, runs_stay_sound, told_stands,
};
pub use reading::Status;
pub use share::Share;
pub use why::{Why, smaller};
