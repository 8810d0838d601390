//! In which order pairs are branched on.

ghost use Rattle.std.specs.Prelude.{◌≡◌, ◌≤◌, IfOk, length, map};
ghost use Rattle.std.specs.List.{range_with_len};
ghost use Rattle.cubes.specs.Cubes.{branching_rank_of, IsBranchingOrder};

use candidates::Pairs;
use std::alloc::{AllocError, Global};

/// Of each of the first pairs how many have other takers, and its number, from 0.
fn ranks(alloc: Global, pairs: &Pairs, count: usize) -> Result<Vec<(usize, usize)>, AllocError>
    requires { count ≤ length pairs.now }
    ensures { IfOk result (λ ranks. ranks.items ≡ map (branching_rank_of pairs.now) (range_with_len 0 count)) }
{
    let listed = pairs.as_slice();
    let mut ranks = Vec::new(alloc);
    for number in 0..count {
        let (_send, taker) = listed[number];
        ranks.push((pairs.len() - pairs.with_taker(taker).len(), number))?;
    }
    Ok(ranks)
}

fn numbers_of(alloc: Global, ranks: &[(usize, usize)]) -> Result<Vec<usize>, AllocError>
    ensures { IfOk result (λ numbers. numbers.items ≡ map (λ rank. rank.1) ranks.now) }
{
    ranks.iter().map(|rank| rank.1).collect(alloc)
}

/// The numbers of the first pairs, from 0, where those whose takers have most pairs come first, and
/// of two with as many the one with the smaller number.
pub fn branching_order(alloc: Global, pairs: &Pairs, count: usize) -> Result<Vec<usize>, AllocError>
    requires { count ≤ length pairs.now }
    ensures { IfOk result (λ order. IsBranchingOrder pairs.now count order.items) }
{
    let mut ranks = ranks(alloc, pairs, count)?;
    ranks.sort()?;
    numbers_of(alloc, &ranks)
}
