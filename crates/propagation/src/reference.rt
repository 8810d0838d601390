//! What names a clause: its place among the clauses of a search, and where it comes from.

ghost use Rattle.std.specs.Prelude.{◌≤◌};

use refutations::Hint;

/// A clause of an arena, or none.
#[derive(Clone, Copy, PartialEq, Eq)]
pub struct ClauseRef {
    place: u32,
}

impl ClauseRef {
    /// No clause, so one without literals. A decision has it for its reason.
    pub fn none() -> ClauseRef {
        ClauseRef { place: u32::MAX }
    }

    /// Whether it is no clause.
    pub fn is_none(self) -> bool {
        self.place == u32::MAX
    }

    /// The clause that begins at this place of the arena; none where the place has no number.
    pub(crate) fn at(place: usize) -> Option<ClauseRef> {
        match u32::try_from(place) {
            Ok(place) => Some(ClauseRef { place }),
            Err(_) => None,
        }
    }

    /// Where it begins.
    pub(crate) fn place(self) -> usize
        ensures { result ≤ 4294967295 }
    {
        self.place as usize
    }

    /// How many places there are behind it.
    pub(crate) fn behind(self) -> u32 {
        u32::MAX - self.place
    }
}

/// The first line of the batch; smaller numbers are those of clauses.
const OWN: u32 = 1 << 31;

/// Where a clause comes from: it is one of the formula or the log, by its number from 1, or a line
/// of the batch, by its place from 0. Both are below 2^31.
#[derive(Clone, Copy, PartialEq, Eq)]
pub struct Origin {
    packed: u32,
}

impl Origin {
    /// The clause of this number; none where no hint can have that: it is 0, or from 2^31 on.
    pub fn of_number(number: u32) -> Option<Origin> {
        if number == 0 || number >= OWN {
            return None;
        }
        Some(Origin { packed: number })
    }

    /// The line at this place of the batch; none from place 2^31 on.
    pub fn of_line(place: usize) -> Option<Origin> {
        if place >= OWN as usize {
            return None;
        }
        Some(Origin {
            packed: OWN + place as u32,
        })
    }

    /// What a hint names, where the batch that it belongs to is put behind so many lines. Where a
    /// place doesn't fit it counts as the last one that does.
    pub fn of_hint(hint: Hint, lines: usize) -> Origin {
        let packed = match hint {
            Hint::Known(number) => number,
            Hint::Own(place) => OWN
                .saturating_add(u32::try_from(lines).unwrap_or(u32::MAX))
                .saturating_add(place),
        };
        Origin { packed }
    }

    /// The hint that names it.
    pub fn hint(self) -> Hint {
        if self.packed >= OWN {
            Hint::Own(self.packed - OWN)
        } else {
            Hint::Known(self.packed)
        }
    }

    /// Its place in the batch, where it is a line of that.
    pub fn line(self) -> Option<u32> {
        self.packed.checked_sub(OWN)
    }

    /// As an arena keeps it.
    pub(crate) fn packed(self) -> u32 {
        self.packed
    }

    /// The one that an arena keeps so.
    pub(crate) fn of_packed(packed: u32) -> Origin {
        Origin { packed }
    }
}
