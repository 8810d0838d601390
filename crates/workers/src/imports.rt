//! Which lines of others a worker takes in.

use matchset_search::SHORT;
use pages::Lines;

/// How many lines of others are taken in at a time, beside those short ones.
const MOST_LINES: usize = 1_000;

/// From this many literals on lengths aren't told apart.
const LENGTHS: usize = 128;

/// How many of the lines have each number of literals.
fn lengths(lines: &Lines) -> [usize; LENGTHS] {
    let mut counts = [0usize; LENGTHS];
    for place in 0..lines.len() {
        let Some(line) = lines.get(place) else {
            unreachable!()
        };
        let length = line.clause().literals().len().min(LENGTHS - 1);
        if let Some(count) = counts.get_mut(length) {
            *count = count.saturating_add(1);
        }
    }
    counts
}

/// How many literals a line has at most that is taken in: the shortest are, up to a number.
pub(crate) fn longest(lines: &Lines) -> usize {
    let mut sum: usize = 0;
    for (length, count) in lengths(lines).iter().enumerate() {
        sum = sum.saturating_add(*count);
        if sum > MOST_LINES && length > SHORT {
            return length - 1;
        }
    }
    usize::MAX
}
