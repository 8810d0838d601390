//! The prover's answers.

use checker::Reason;
use pool::Why;
use prooflog::Text;

/// What the prover says of a program's text.
#[derive(Drop)]
pub enum Answer {
    /// No run of the program ends stuck, with the text of an evidence that refutes its formula.
    NoDeadlock(Text),
    /// Some run of the program ends stuck, with the text of an evidence that shows it.
    Deadlock(Text),
    /// No answer is known, for this reason.
    Unknown(Why),
    /// The text is no program's, or its formula is beyond a limit, for this reason.
    Refused(Reason),
}
