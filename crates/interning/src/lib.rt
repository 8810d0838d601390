//! Names at the places of a list: the same name gets the same number, and each place learns where
//! its name stood before.
#![tactic(auto)]

mod laws;
mod numbers;
mod tables;

pub use laws::last_below_is_last;
pub use numbers::number;
pub use tables::{last_places, previous_places};
