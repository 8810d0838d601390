//! The ranks and their calls.

ghost use Rattle.std.specs.Prelude.{◌≡◌, ◌≤◌, IfOk, IfErr, length};
ghost use Rattle.calltext.specs.WiderLimits.{AreLimits};
ghost use Rattle.calltext.specs.parts.Body.{HasRanks, IsStopped};
ghost use Rattle.calltext.specs.Body.{views};
ghost use Rattle.calltext.specs.declared.body.Stopped.{Stopped};
ghost use Rattle.calltext.specs.declared.line.CallLineFault.TheVariants.{Memory};

use crate::call::CallLine;
use crate::heading::unended;
use crate::limits::Limits;
use crate::line::{CallLineFault, Item, item_of};
use plaintext::next_line;
use std::alloc::{AllocError, AllocFailed, Global};
use std::mem;

/// Where reading stopped, and why.
#[derive(Clone, Copy)]
pub struct Stopped {
    pub fault: CallLineFault,
    pub line: usize,
}

impl Stopped {
    fn at(line: usize, fault: CallLineFault) -> Stopped
        ensures { result ≡ record { fault = fault; line = line } }
    {
        Stopped { fault, line }
    }
}

impl From<AllocError> for Stopped {
    ghost from_gives = { λ _ e. e.fault ≡ Memory };

    fn from(_e: AllocError) -> Stopped {
        Stopped {
            fault: CallLineFault::Memory,
            line: 0,
        }
    }
}

impl<T: Drop> From<AllocFailed<T>> for Stopped {
    ghost from_gives = { λ _ e. e.fault ≡ Memory };

    fn from(_e: AllocFailed<T>) -> Stopped {
        Stopped {
            fault: CallLineFault::Memory,
            line: 0,
        }
    }
}

/// The calls of each rank, from the line after the first rank's heading to the end of the text.
pub fn ranks_from(
    alloc: Global,
    limits: Limits,
    total: u32,
    bytes: &[u8],
) -> Result<Vec<Vec<CallLine>>, Stopped>
    requires limits { AreLimits limits }
    requires low { 1 ≤ total }
    requires high { total ≤ limits.ranks }
    requires small { length bytes.now ≤ limits.bytes }
    ensures ok { IfOk result (λ ranks. HasRanks limits total bytes.now (views ranks.items)) }
    ensures err { IfErr result (λ stop. IsStopped limits stop.fault stop.line total bytes.now) }
{
    let mut ranks: Vec<Vec<CallLine>> = Vec::new(alloc);
    let mut calls: Vec<CallLine> = Vec::new(alloc);
    let mut number: usize = 4;
    let mut rest = bytes;
    while let Some((line, after)) = next_line(rest) {
        let item = match item_of(alloc, limits, line, ranks.len() as u32 + 1, total) {
            Ok(item) => item,
            Err(fault) => return Err(Stopped::at(number, fault)),
        };
        match item {
            Item::Call(call) => calls.push(call)?,
            Item::Rank => {
                let full = mem::replace(&mut calls, Vec::new(alloc));
                ranks.push(full)?;
            }
        }
        number += 1;
        rest = after;
    }
    if !rest.is_empty() {
        return Err(Stopped::at(number, unended(rest)));
    }
    ranks.push(calls)?;
    if (ranks.len() as u32) < total {
        return Err(Stopped::at(number, CallLineFault::Syntax));
    }
    Ok(ranks)
}
