//! Smaller programs that still hang: lines and ranks of a program's text are left out, as long as
//! what is left still ends stuck: some walk of it, or, of a text of any length, its one run that
//! buffers least.
#![tactic(auto)]

mod alone;
mod cutting;
mod driving;
mod excerpts;
mod groups;
mod halving;
mod laws;
mod leaving;
mod left;
mod lines;
mod mapping;
mod mates;
mod pairing;
mod ranks;
mod running;
mod telling;
mod tidying;
mod ties;
mod trying;
mod units;

pub use driving::{NotShrunk, Shrunk, shrink};
pub use halving::{NotShrunkLong, shrink_long};
pub use laws::{long_hangs_are_short, short_hangs_are_long};
pub use mapping::{left_map, shown};
pub use telling::left_line;
