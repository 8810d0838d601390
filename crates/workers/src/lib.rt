//! What one worker of a search does: it takes cubes, searches below each, and tells a share of the
//! pool what it found.
//!
//! Workers, cubes and places of lines count from 0, variables and clauses from 1; a cube has the
//! number of its leaf. A worker takes whatever its share replies: it promises nothing but that it
//! is safe.
#![tactic(auto)]

mod branching;
mod closed;
mod common;
mod cube_search;
mod events;
mod exploring;
mod gate;
mod imports;
mod kept;
mod numbers;
mod opening;
mod probing;
mod running;
mod source;
mod stop;
mod worker;

pub use closed::ClosedStates;
pub use common::{Exploring, Opening, SearchContext};
pub use events::EventCount;
pub use gate::{Gate, Searched};
pub use kept::KeptLines;
pub use opening::open;
pub use running::work;
pub use source::Cubes;
