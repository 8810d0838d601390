//! Deques of cubes: an owner pushes and pops, thieves steal. Nothing is lost, doubled or made up.
//!
//! No call waits for another thread. Contracts see what each seat has pushed, popped or stolen as a
//! list; once all seats are together again, `settle` tells what is left. Several workers, each with
//! a deque of its own and a seat at every other, have a `Supply` each: `deal` makes them, and
//! `settle_all` tells what is left.
#![tactic(auto)]

mod deque;
mod rule;
mod seats;
mod supply;
mod tally;

pub use deque::{CubeDeque, Stolen};
pub use seats::{OwnerSeat, ThiefSeat};
pub use supply::{Supply, deal, settle_all, supplies_stay};
pub use tally::{SettleFault, Tally, Unsettled, settle};
