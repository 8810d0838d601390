//! One line of a map.

ghost use Rattle.std.specs.Prelude.{IfNone, IfSome, List, ℕ};
ghost use Rattle.places.specs.Maps.{IsLineOf};

use crate::marks::digits_of;

/// What a map says of a line of the text.
#[derive(Clone, Copy)]
pub struct MapEntry<'a> {
    /// The digits of the line's number.
    pub number: &'a [u8],
    /// What is said of it, behind its rank.
    pub words: &'a [u8],
}

/// What a line of a map says of a line of the text, where it says something of one.
pub fn entry_of(line: &[u8]) -> Option<MapEntry<'_>>
    ensures some { IfSome result (λ entry. IsLineOf line.now entry.number.now entry.words.now) }
    ensures none { IfNone result ((digits words : List ℕ) → IsLineOf line.now digits words → ⊥) }
{
    let rest = line.strip_prefix(b"line ")?;
    let (number, rest) = digits_of(rest);
    let rest = rest.strip_prefix(b": rank ")?;
    let (_rank, rest) = digits_of(rest);
    let words = rest.strip_prefix(b", ")?;
    Some(MapEntry { number, words })
}
