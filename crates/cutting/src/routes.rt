//! Which messages are sure to be taken by one receive or matched probe.

use callorder::{Call, LongProgram, Pattern};
use std::alloc::{AllocError, Global};
use std::collections::HashMap;

/// What a receive or a matched probe names.
#[derive(Clone, Copy, PartialEq, Eq, Hash)]
struct Wanted {
    rank: u32,
    communicator: u32,
    source: Option<u32>,
    tag: Option<u32>,
}

/// What receives and matched probes name that take any source or any tag.
#[derive(Drop)]
pub struct Wildcards {
    wanted: HashMap<Wanted, ()>,
}

/// What a receive or a matched probe names.
fn taken(call: &Call) -> Option<Pattern> {
    if call.kind.is_probe() {
        return None;
    }
    call.kind.pattern()
}

impl Wildcards {
    pub fn of(alloc: Global, program: &LongProgram) -> Result<Wildcards, AllocError> {
        let mut wanted = HashMap::new(alloc);
        for call in program.calls() {
            if let Some(pattern) = taken(call) {
                if pattern.source.is_none() || pattern.tag.is_none() {
                    let entry = Wanted {
                        rank: call.rank,
                        communicator: pattern.communicator,
                        source: pattern.source,
                        tag: pattern.tag,
                    };
                    wanted.insert(entry, ())?;
                }
            }
        }
        Ok(Wildcards { wanted })
    }

    /// Whether the message that this receive or matched probe takes is sure: it names the source
    /// and the tag, and so does each other that the message fits.
    pub fn is_sure(&self, call: &Call) -> bool {
        let Some(pattern) = taken(call) else {
            return false;
        };
        if pattern.source.is_none() || pattern.tag.is_none() {
            return false;
        }
        let whole = Wanted {
            rank: call.rank,
            communicator: pattern.communicator,
            source: pattern.source,
            tag: pattern.tag,
        };
        let untagged = Wanted { tag: None, ..whole };
        let unnamed = Wanted {
            source: None,
            ..whole
        };
        let any = Wanted {
            tag: None,
            ..unnamed
        };
        !self.wanted.contains_key(&untagged)
            && !self.wanted.contains_key(&unnamed)
            && !self.wanted.contains_key(&any)
    }
}
