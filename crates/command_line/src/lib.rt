//! What the words of a command line ask for.
#![tactic(auto)]

mod arguments;
mod commands;
mod help_ends;
mod laws;
mod request;

pub use commands::version_line;
pub use laws::{command_is_second, one_task_is_asked, option_words_are_read, plain_words_are_read};
pub use request::{
    Request, ToCheck, ToCut, ToDecide, ToDecideEach, ToDecidePhases, ToDecideUnrolled, ToEncode,
    ToExplain, ToExplainEach, ToExplainUnrolled, ToExport, ToJoin, ToProve, ToReplay, ToShrink,
    ToTrim, ToUnroll, color_of, request_of,
};
