//! Laws of deadlocks that come in every run: a run that buffers all it may, and gets stuck, shows
//! that each run does.
#![tactic(auto)]

mod laws;

pub use laws::{
    blocks_are_greatest, blocks_stick_always, each_run_ends, greatest_sticks_always,
    named_sources_are_greatest, named_sources_stick_always, one_way_is_greatest,
    one_way_sticks_always, only_choice_mixes, ordered_is_greatest, ordered_sticks_always,
    table_is_greatest, table_of_blocks_is_greatest, table_of_blocks_sticks_always,
    table_sticks_always, two_runs_decide, unfinished_in_every_run,
};
