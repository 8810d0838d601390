//! The text of a program of MPI calls: it is read, and printed again as it was.
//!
//! `specs/Grammar.antt` defines the text by its printer, `specs/Fault.antt` what is wrong with
//! bytes that are no program's text.
#![tactic(auto)]

mod body;
mod call;
mod calls;
mod fault;
mod heading;
mod laws;
mod limits;
mod line;
mod name;
mod printer;
mod reader;
mod refused;
mod source;
mod verb;
mod words;

pub use call::{CallLine, Mode, Policy};
pub use fault::ReadFault;
pub use laws::{
    one_fault, one_value, same_text_within, short_is_within_long, text_has_no_fault,
    words_fill_slots,
};
pub use limits::Limits;
pub use name::{Name, Names, is_name};
pub use printer::print;
pub use reader::{read, read_long};
pub use refused::RefusedWord;
pub use source::{LongSource, Source};
pub use verb::{Slot, Verb};
