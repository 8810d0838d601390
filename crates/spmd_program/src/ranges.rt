//! Numbers of ranks, as a command line tells them.

ghost use Rattle.std.specs.Prelude.{◌≡◌, IfNone, IfSome, false, length, true, ℕ};
ghost use Rattle.std.specs.List.{after_first, before_first};
ghost use Rattle.spmd_program.specs.Ranges.{AreRangeEnds, IsRankCount, IsRange, has_dot, is_dot};

/// The most ranks that there may be.
const MOST: u32 = 2_147_483_647;

/// Numbers of ranks, from the first to the last, both of them among these.
#[derive(Clone, Copy)]
pub struct Ranks {
    pub first: u32,
    pub last: u32,
}

/// The number of ranks that a text spells.
fn count_of(text: &str) -> Option<u32>
    ensures is { IfSome result (IsRankCount text.now) }
    ensures none { IfNone result ((ranks : ℕ) → IsRankCount text.now ranks → ⊥) }
{
    match text.parse::<u32>() {
        Ok(ranks) if ranks >= 1 && ranks <= MOST => Some(ranks),
        _ => None,
    }
}

/// The numbers from the one that the first text spells to the one that stands behind a dot in the
/// other.
fn several(before: &str, behind: &str) -> Option<Ranks>
    ensures is { IfSome result (λ ranks. AreRangeEnds before.now behind.now ranks.first ranks.last) }
    ensures none { IfNone result ((first last : ℕ) → AreRangeEnds before.now behind.now first last → ⊥) }
{
    let number = behind.strip_prefix('.')?;
    let first = count_of(before)?;
    let last = count_of(number)?;
    if first > last {
        return None;
    }
    Some(Ranks { first, last })
}

/// What stands before the first dot of a text, and behind it.
fn around_dot(text: &str) -> Option<(&str, &str)>
    ensures none { IfNone result (has_dot text.now ≡ false) }
    ensures some { IfSome result (λ parts. (has_dot text.now ≡ true) ×
        (parts.0.now ≡ before_first is_dot text.now) × (parts.1.now ≡ after_first is_dot text.now)) }
{
    text.split_once('.')
}

/// The numbers of ranks that a text tells: one, as `4`, or from a first to a last, which is as
/// large at least, as `2..16`. Each is 1 to 2,147,483,647.
pub fn ranks_of(text: &str) -> Option<Ranks>
    ensures is { IfSome result (λ ranks. IsRange text.now ranks.first ranks.last) }
    ensures none { IfNone result ((first last : ℕ) → IsRange text.now first last → ⊥) }
{
    let Some((before, behind)) = around_dot(text) else {
        let only = count_of(text)?;
        return Some(Ranks {
            first: only,
            last: only,
        });
    };
    several(before, behind)
}
