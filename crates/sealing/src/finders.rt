//! Finders of any source.

ghost use Rattle.std.specs.Prelude.{◌≡◌};
ghost use Rattle.sealing.specs.parts.Ends.{finder_at};

use callorder::LongProgram;

/// A receive, a matched probe or a probe that names no source.
#[derive(Clone, Copy)]
pub struct Finder {
    pub place: usize,
    pub rank: u32,
    pub communicator: u32,
    /// The tag that it names, if it names one.
    pub tag: Option<u32>,
}

/// The finder of any source at the place, if there is one.
pub fn finder_at(program: &LongProgram, place: usize) -> Option<Finder>
    ensures { result ≡ finder_at program.now place }
{
    let Some(call) = program.call(place) else {
        return None;
    };
    let Some(pattern) = call.kind.pattern() else {
        return None;
    };
    if pattern.source.is_some() {
        return None;
    }
    Some(Finder {
        place,
        rank: call.rank,
        communicator: pattern.communicator,
        tag: pattern.tag,
    })
}
