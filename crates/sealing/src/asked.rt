//! What takers ask for, and which envelopes they all name.

ghost use Rattle.std.specs.Prelude.{◌≡◌, IfOk, length};
ghost use Rattle.std.specs.HashSet.{contains};
ghost use Rattle.sealing.specs.parts.Sides.{is_exact, same_wanted, AreAsked};

use crate::sides::{Side, Wanted, wanted_of};
use callorder::Call;
use std::alloc::{AllocError, Global};
use std::collections::HashSet;

/// What the takers ask for. The only error is want of memory.
pub fn asked_by(alloc: Global, calls: &[Call]) -> Result<HashSet<Wanted>, AllocError>
    ensures { IfOk result (λ asked. AreAsked calls.now (length calls.now) (contains same_wanted asked)) }
{
    let mut asked = HashSet::new(alloc);
    for call in calls {
        if let Some(wanted) = wanted_of(call) {
            asked.insert(wanted)?;
        }
    }
    Ok(asked)
}

/// Whether no taker asks for messages with the side's envelope by a wildcard.
pub fn is_exact(asked: &HashSet<Wanted>, side: Side) -> bool
    ensures { result ≡ is_exact (contains same_wanted asked.now) side }
{
    let any = Wanted {
        source: None,
        destination: side.destination,
        tag: None,
        communicator: side.communicator,
    };
    let tagged = Wanted {
        tag: Some(side.tag),
        ..any
    };
    let from_source = Wanted {
        source: Some(side.source),
        ..any
    };
    !asked.contains(&any) && !asked.contains(&tagged) && !asked.contains(&from_source)
}
