//! Why no answer is known.

ghost use Rattle.std.specs.Prelude.{◌≡◌, Some};
ghost use Rattle.pool.specs.Reasons.{why_number, why_word, smaller_of, IsSmallest};

use std::fmt;

/// Why a worker left without an answer. Of several reasons the earlier variant is told.
#[derive(Clone, Copy, Debug, PartialEq, Eq)]
pub enum Why {
    /// A worker's budget of conflicts is used up, with cubes left.
    Budget,
    /// The log of proof lines is full.
    Full,
    /// Memory ran out.
    Memory,
    /// Something is left open for another reason.
    Left,
}

impl fmt::Display for Why {
    ghost output = { λ why. Some (why_word why) };

    fn fmt<W: fmt::Write>(&self, f: &mut fmt::Formatter<W>) -> fmt::Result {
        f.write_str(self.word())
    }
}

impl Why {
    /// The word by which it is told.
    fn word(self) -> &'static str
        ensures { result.now ≡ why_word self }
    {
        match self {
            Why::Budget => "budget",
            Why::Full => "full",
            Why::Memory => "memory",
            Why::Left => "left",
        }
    }

    fn number(self) -> u32
        ensures { result ≡ why_number self }
    {
        match self {
            Why::Budget => 1,
            Why::Full => 2,
            Why::Memory => 3,
            Why::Left => 4,
        }
    }
}

/// The smallest of the reasons.
pub(crate) fn smallest(reasons: &[Why]) -> Option<Why>
    ensures { IsSmallest reasons.now result }
{
    let mut smallest = None;
    for why in reasons {
        smallest = match smallest {
            Some(known) => Some(smaller(known, *why)),
            None => Some(*why),
        };
    }
    smallest
}

/// Of two reasons the one that is told before the other.
pub fn smaller(one: Why, other: Why) -> Why
    ensures { result ≡ smaller_of one other }
{
    if one.number() <= other.number() {
        one
    } else {
        other
    }
}
