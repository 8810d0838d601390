//! Names as numbers.

ghost use Rattle.std.specs.Prelude.{IfOk};
ghost use Rattle.interning.specs.Places.{IsNumbering};

use indexmap::IndexSet;
use std::alloc::{AllocError, Global};
use std::hash::Hash;

/// A number for each name, from 0, in the order in which names are first used. A place without a
/// name has no number. The only error is want of memory.
pub fn number<K: Eq + Hash + Drop>(
    alloc: Global,
    names: Vec<Option<K>>,
) -> Result<Vec<Option<usize>>, AllocError>
    ensures { IfOk result (λ numbers. IsNumbering K.eq names.items numbers.items) }
{
    let mut seen = IndexSet::new(alloc);
    let mut numbers = Vec::new(alloc);
    for name in names {
        let number = match name {
            None => None,
            Some(name) => Some(seen.insert_full(name)?.0),
        };
        numbers.push(number)?;
    }
    Ok(numbers)
}
