//! One run of the program: from its words to its exit status, over files and streams that the
//! caller gives.
#![tactic(auto)]

mod advice;
mod by_phases;
mod commands;
mod cut_files;
mod decide;
mod explained;
mod laws;
mod making_up;
mod mapped;
mod page;
mod racing;
mod run;
mod several;
mod shrunk;
mod status;
mod swept;
mod ties;
mod told;
mod unrolled;

pub use laws::{
    checked_deadlock_is_printed, checked_deadlock_is_shown, checked_safety_is_printed,
    checked_safety_is_true, cuts_are_written, cuts_stay_in_folder, decided_runs_are_right,
    each_run_is_right, encoded_formula_is_printed, explained_deadlock_is_shown,
    explained_safety_is_true, explained_unknown_finishes, exported_answer_is_printed,
    exported_proof_is_written, exported_safety_is_true, phases_are_joined,
    plain_words_are_answered, proved_deadlock_is_printed, proved_deadlock_is_shown,
    proved_safety_is_printed, proved_safety_is_true, proved_unknown_finishes,
    read_files_are_not_blamed, refuted_is_checked, replayed_deadlock_is_shown,
    replayed_run_is_printed, shown_deadlock_is_checked, shown_deadlock_is_replayed,
    told_deadlock_is_shown, trimmed_refutation_is_written, unrolled_runs_are_right,
    unrolled_text_is_printed, written_deadlock_is_shown, written_safety_is_refuted,
};
pub use run::session;
