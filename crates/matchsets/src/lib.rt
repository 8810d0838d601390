//! What is known of the end of a stuck run: how a state is read off what holds, on which literals
//! it is branched, and whether the order that holds has a cycle.
//!
//! A state keeps which calls are matched, and forgets who is matched with whom as soon as nothing
//! rests on that any more. So it stands for all runs that took the same messages, in whatever
//! order. Look-ups are total: a place past the end has a value that means nothing, and nothing is
//! promised of a state: whoever takes the lines that a search writes checks them.
#![tactic(auto)]

mod choice;
mod cycles;
mod graph;
mod key;
mod making;
mod reading;
mod reality;
mod shape;
mod state;

pub use choice::choose;
pub use cycles::{Cycle, find_cycle};
pub use key::{Key, mixed};
pub use reading::read_off;
pub use shape::{PairShape, Shape};
pub use state::MatchState;
