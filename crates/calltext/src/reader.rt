//! Reading a program's text.

ghost use Rattle.std.specs.Prelude.{◌≡◌, IfOk, IfErr};
ghost use Rattle.calltext.specs.Readable.{IsText};
ghost use Rattle.calltext.specs.Grammar.{IsTextWithin, long};
ghost use Rattle.calltext.specs.Fault.{HasFault, HasFaultWithin};
ghost use Rattle.calltext.specs.WiderLimits.{AreLimits};
ghost use Rattle.calltext.specs.AtLine.{at_line};

use crate::body::ranks_from;
use crate::fault::ReadFault;
use crate::heading::{first_rank_line, policy_line, ranks_line};
use crate::limits::Limits;
use crate::line::CallLineFault;
use crate::source::{LongSource, Source};
use std::alloc::Global;

/// The line's fault, told with the line's number.
fn at_line(fault: CallLineFault, line: usize) -> ReadFault
    ensures { result ≡ at_line fault line }
{
    match fault {
        CallLineFault::Memory => ReadFault::Memory,
        CallLineFault::NotAscii => ReadFault::NotAscii { line },
        CallLineFault::Syntax => ReadFault::Syntax { line },
        CallLineFault::OutOfProfile(word) => ReadFault::OutOfProfile { line, word },
        CallLineFault::Range => ReadFault::Range { line },
    }
}

/// The program that the bytes are the text of within the limits, or the fault that they have.
fn read_within(alloc: Global, limits: Limits, bytes: &[u8]) -> Result<LongSource, ReadFault>
    requires { AreLimits limits }
    ensures text { IfOk result (λ source. IsTextWithin limits bytes.now source) }
    ensures fault { IfErr result (λ fault. HasFaultWithin limits bytes.now fault) }
{
    if bytes.len() > limits.bytes {
        return Err(ReadFault::TooLarge);
    }
    let (total, rest) = match ranks_line(alloc, limits, bytes) {
        Ok(found) => found,
        Err(fault) => return Err(at_line(fault, 1)),
    };
    let (policy, rest) = match policy_line(alloc, rest) {
        Ok(found) => found,
        Err(fault) => return Err(at_line(fault, 2)),
    };
    let rest = match first_rank_line(alloc, rest) {
        Ok(found) => found,
        Err(fault) => return Err(at_line(fault, 3)),
    };
    match ranks_from(alloc, limits, total, rest) {
        Ok(ranks) => Ok(LongSource::new(policy, ranks)),
        Err(stop) => Err(at_line(stop.fault, stop.line)),
    }
}

/// The program that the bytes are the text of, or the fault that they have.
///
/// `Ok` comes for a program's text alone, and `Err` for the fault alone that `ReadFault` tells of:
/// the first faulty line's. It takes time linear in the text's length.
pub fn read(alloc: Global, bytes: &[u8]) -> Result<Source, ReadFault>
    ensures text { IfOk result (λ source. IsText bytes.now source) }
    ensures fault { IfErr result (λ fault. HasFault bytes.now fault) }
{
    match read_within(alloc, Limits::short(), bytes) {
        Ok(source) => Ok(Source::of_long(source)),
        Err(fault) => Err(fault),
    }
}

/// The program that the bytes are the text of, or the fault that they have, as `read` tells it, for
/// a text of any length: the limits are the long ones. A text within the short ones is the same
/// program for both.
pub fn read_long(alloc: Global, bytes: &[u8]) -> Result<LongSource, ReadFault>
    ensures text { IfOk result (λ source. IsTextWithin long bytes.now source) }
    ensures fault { IfErr result (λ fault. HasFaultWithin long bytes.now fault) }
{
    read_within(alloc, Limits::long(), bytes)
}
