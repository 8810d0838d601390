//! What is known of a program's state, rank by rank: where each rank stands, what it waits for, and
//! which ranks wait for one another in a cycle; and near misses: calls that would match with a call
//! that waits, but for one part of the matching rule.
//!
//! A call is named by its place, from 0, in the program's list of calls.
#![tactic(auto)]

mod cycles;
mod fates;
mod laws;
mod near;
mod needs;
mod parts;
mod senders;
mod standings;
mod waiting;

pub use cycles::cycle;
pub use fates::{Fate, fate_of, fits_with, fitting};
pub use laws::{
    fit_calls_are_not_both_open, fit_calls_miss_no_part, missed_parts_are_the_only_ones,
    needed_calls_are_not_open, no_rank_is_ready_where_stuck, stuck_ranks_wait_in_one_call,
    waiting_ranks_need,
};
pub use near::{misses_in, near_misses};
pub use needs::{Need, need_of, operation_of};
pub use parts::Mismatch;
pub use standings::{Standing, standing_of};
pub use waiting::edges;
