//! In which order match variables are probed.

use encode::Encoded;
use std::alloc::{AllocError, Global};

/// How many pairs have the taker of the pair of this number, from 0.
fn choices(encoded: &Encoded, number: usize) -> usize {
    let pairs = encoded.pairs();
    match pairs.as_slice().get(number) {
        Some((_send, taker)) => pairs.with_taker(*taker).len(),
        None => 0,
    }
}

/// The match variables, which follow on each other in the order of their pairs: those first whose
/// takers have fewest pairs, and of two with as many the smaller one. Those of named takers are the
/// likeliest to fail, and mostly fail since earlier ones did.
pub(crate) fn probing_order(
    alloc: Global,
    encoded: &Encoded,
    variables: &[u32],
) -> Result<Vec<u32>, AllocError> {
    let first = variables.iter().copied().min().unwrap_or(0);
    let mut ranks = Vec::with_capacity(alloc, variables.len())?;
    for variable in variables {
        let number = variable.saturating_sub(first) as usize;
        ranks.push((choices(encoded, number), *variable))?;
    }
    ranks.sort()?;
    ranks.iter().map(|rank| rank.1).collect(alloc)
}
