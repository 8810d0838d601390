//! Programs that are cut into phases: what runs of the phases say of runs of the whole.
//!
//! A phase has at each rank some calls that follow one another; a cut between two is clean where in
//! no run a call on one side finds a message of the other. Ranks, and calls by their place in the
//! program's list, count from 0.
#![tactic(auto)]

mod dealing;
mod laws;
mod leaving;

pub use dealing::{deal, first_places, is_all_dealt};
pub use laws::{
    balanced_is_clean, counterparts_come_first, front_is_joined, join_is_joined, joined_is_cut,
    last_phase, leaves_nothing_is_balanced, messages_order, named_is_timely,
    named_phases_are_never_stuck, one_phase_more, ordered_is_timely,
    ordered_phases_are_never_stuck, programs_are_well_formed, timely_phases_are_never_stuck,
    whole_is_never_stuck,
};
pub use leaving::leaves_nothing;
