//! Entries of lists.

/// The entry at a place, or 0 behind the end.
pub fn at(list: &[usize], place: usize) -> usize {
    list.get(place).copied().unwrap_or(0)
}

/// Puts an entry at a place, if there is one.
pub fn put(list: &mut [usize], place: usize, entry: usize) {
    if let Some(old) = list.get_mut(place) {
        *old = entry;
    }
}

/// How many entries of a rising list are at most the bound.
pub fn count_up_to(rising: &[usize], bound: usize) -> usize {
    rising.partition_point(|entry| *entry <= bound)
}
