//! A pool under a lock, with a seat for each worker.
//!
//! A seat's list has the items of all calls that were made with it: what was asked, what was
//! answered, and the lines and steps that were given or taken. Contracts alone see it. `finish`
//! takes all seats back and hands the pool out, and its contract says that there is one history of
//! calls and replies, which the pool's rules allow from the pool that was put under the lock to the
//! one that is handed out, and of which each seat's list is its worker's part.
//!
//! A pass of a cell beside the lock keeps each list. The cell's rule is that one pass at most knows
//! all items, that the list of each worker's pass is that worker's part of them, and that no worker
//! has two.
//!
//! A place in the history is kept for the first leave of each seat, so that this one is never
//! refused.
//!
//! Workers count from 0.
#![tactic(auto)]

mod laws;
mod locked;
mod note;
mod passes;
mod room;
mod seat;
mod shared;

pub use laws::nothing_seen_is_lost;
pub use room::{Cell, PoolName, Token};
pub use seat::Seat;
pub use shared::{FinishFault, SharedPool, open_room};
