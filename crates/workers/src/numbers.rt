//! Numbers of clauses, whatever a share says.

ghost use Rattle.std.specs.Prelude.{◌≡◌};
ghost use Rattle.pool.specs.parts.Batches.{capped_hint};
ghost use Rattle.workers.specs.Numbers.{capped_place, log_place_of};

use refutations::Hint;

/// The number of what a hint names, where the batch's first line has this one. A number that
/// doesn't fit counts as the largest that does, which no clause has.
pub(crate) fn number_of(base: u32, hint: Hint) -> u32
    ensures { result ≡ capped_hint base hint }
{
    match hint {
        Hint::Known(number) => number,
        Hint::Own(place) => base.saturating_add(place),
    }
}

/// The number of the line at this place of the log, from 0, after so many clauses. A number that
/// doesn't fit counts as the largest that does, which no clause has.
pub(crate) fn line_number(clauses: usize, place: usize) -> u32
    ensures { result ≡ capped_place clauses place }
{
    let number = clauses.saturating_add(place).saturating_add(1);
    u32::try_from(number).unwrap_or(u32::MAX)
}

/// The place in the log, from 0, of the line that has this number, after so many clauses; 0 for one
/// of the clauses.
pub(crate) fn line_place(clauses: usize, number: u32) -> usize
    ensures { result ≡ log_place_of clauses number }
{
    (number as usize).saturating_sub(clauses).saturating_sub(1)
}
