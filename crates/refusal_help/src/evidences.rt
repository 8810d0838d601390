//! What is wrong with an evidence.

use crate::lines::lines_of;
use crate::told::{File, Help};
use prooflog::EvidenceFault;
use std::alloc::{AllocError, Global};

/// Tells which line of the evidence is meant.
fn put_evidence_line(
    help: &mut Help,
    alloc: Global,
    evidence: &[u8],
    number: usize,
) -> Result<(), AllocError> {
    let lines = lines_of(alloc, evidence)?;
    help.show(alloc, File::Evidence, &lines, number)
}

/// Tells what is wrong with the text of an evidence.
pub fn put_evidence(
    help: &mut Help,
    alloc: Global,
    evidence: &[u8],
    fault: EvidenceFault,
) -> Result<(), AllocError> {
    match fault {
        EvidenceFault::Memory => Ok(()),
        EvidenceFault::TooLarge => help.notes.push_str(
            "an evidence has at most 4096 steps, or 1000000 lines and 65536 nodes\n",
        ),
        EvidenceFault::Syntax { line } | EvidenceFault::Range { line } => {
            put_evidence_line(help, alloc, evidence, line as usize)?;
            if evidence.starts_with(b"ranks ") {
                return help.notes.push_str(
                    "this looks like a program: the order is PROGRAM, then EVIDENCE\n",
                );
            }
            help.notes.push_str("it isn't as prove writes it: was the file changed or cut?\n")
        }
    }
}

/// Tells which step of a schedule can't be taken.
pub fn put_step(
    help: &mut Help,
    alloc: Global,
    evidence: &[u8],
    at: usize,
) -> Result<(), AllocError> {
    put_evidence_line(help, alloc, evidence, at.saturating_add(2))?;
    help.notes.push_str("this step can't be taken there: is the evidence for another program?\n")
}
