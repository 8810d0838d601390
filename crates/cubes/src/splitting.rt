//! The split of a formula into cubes.

ghost use Rattle.std.specs.Prelude.{◌≡◌, ◌<◌, ◌≤◌, ◌↔◌, IfOk, length, map, not};
ghost use Rattle.std.specs.List.{All, filter};
ghost use Rattle.callorder.specs.Programs.{is_probe};
ghost use Rattle.candidates.specs.Pairs.{matching_pairs, pairs_of};
ghost use Rattle.formula.specs.Numbering.{formula_of};
ghost use Rattle.cubes.specs.Cubes.{IsCubeTree, match_variable, AreBranchingVariables, IsBranchingOrder};

use crate::fault::CubeFault;
use crate::levels::full_tree;
use crate::order::branching_order;
use callorder::Program;
use candidates::Pairs;
use encode::Encoded;
use formula::{Fact, Meaning};
use formula_tables::Variables;
use std::alloc::{AllocError, Global};
use trees::Tree;

/// The greatest depth of a tree of cubes.
pub const GREATEST_DEPTH: u32 = 15;

/// The variable that says that the pair of this number, from 0, is matched, or seen where it is
/// that of a probe.
fn match_variable(table: &Variables, pairs: &[(usize, usize)], number: usize) -> u32
    requires pairs { pairs.now ≡ pairs_of table.now }
    requires there { number < length pairs.now }
    ensures { result ≡ match_variable table.now number }
{
    let (send, taker) = pairs[number];
    let meaning = Meaning::OfFact(Fact::Matched(send, taker));
    table.literal(&meaning, true).variable()
}

/// The match variables of the pairs with these numbers, from 0.
fn match_variables(
    alloc: Global,
    table: &Variables,
    pairs: &[(usize, usize)],
    numbers: &[usize],
) -> Result<Vec<u32>, AllocError>
    requires pairs { pairs.now ≡ pairs_of table.now }
    requires there { All (λ k. k < length pairs.now) numbers.now }
    ensures { IfOk result (λ variables. variables.items ≡ map (match_variable table.now) numbers.now) }
{
    let mut variables = Vec::new(alloc);
    for number in numbers {
        variables.push(match_variable(table, pairs, *number))?;
    }
    Ok(variables)
}

/// How many of the pairs aren't those of probes.
fn count_taken(program: &Program, pairs: &[(usize, usize)]) -> usize
    ensures { result ≡ length (filter (λ pair. not (is_probe program.now pair.1)) pairs.now) }
{
    pairs
        .iter()
        .filter(|pair| !program.is_probe(pair.1))
        .count()
}

/// How many pairs may be matched, which are the first ones.
fn count_matching(program: &Program, pairs: &Pairs) -> usize
    requires { pairs.now ≡ pairs_of program.now }
    ensures same { result ≡ length (matching_pairs program.now) }
    ensures few { result ≤ length pairs.now }
{
    count_taken(program, pairs.as_slice())
}

/// The numbers, from 0, of the pairs that may be matched, in the order in which they are branched
/// on.
fn matching_order(alloc: Global, encoded: &Encoded) -> Result<Vec<usize>, AllocError>
    ensures { IfOk result (λ order. IsBranchingOrder encoded.now.pairs (length (matching_pairs encoded.now.program)) order.items) }
{
    let pairs = encoded.pairs();
    branching_order(alloc, pairs, count_matching(encoded.program(), pairs))
}

/// How many variables the formula has.
fn count_variables(encoded: &Encoded, table: &Variables) -> u32
    requires { table.now ≡ encoded.now.program }
    ensures same { result ≡ encoded.now.formula.variables }
    ensures are { encoded.now.formula ≡ formula_of encoded.now.program }
    ensures most { result ≤ 2147483647 }
{
    let _count = table.count();
    encoded.formula().variables()
}

/// The tree, over the table of the program's variables.
fn cube_tree_over(
    alloc: Global,
    encoded: &Encoded,
    table: &Variables,
    depth: u32,
) -> Result<Tree, AllocError>
    requires same { table.now ≡ encoded.now.program }
    requires shallow { depth ≤ GREATEST_DEPTH }
    ensures { IfOk result (λ tree. IsCubeTree encoded.now depth tree) }
{
    let pairs = encoded.pairs();
    let order = matching_order(alloc, encoded)?;
    let levels = order.len().min(depth as usize);
    let variables = match_variables(alloc, table, pairs.as_slice(), &order[..levels])?;
    full_tree(alloc, count_variables(encoded, table), &variables)
}

fn cube_tree(alloc: Global, encoded: &Encoded, depth: u32) -> Result<Tree, AllocError>
    requires { depth ≤ GREATEST_DEPTH }
    ensures { IfOk result (λ tree. IsCubeTree encoded.now depth tree) }
{
    let table = encoded.variables(alloc)?;
    cube_tree_over(alloc, encoded, &table, depth)
}

/// The match variables, over the table of the program's variables.
fn branching_variables_in(
    alloc: Global,
    encoded: &Encoded,
    table: &Variables,
) -> Result<Vec<u32>, AllocError>
    requires { table.now ≡ encoded.now.program }
    ensures { IfOk result (λ variables. AreBranchingVariables encoded.now.program variables.items) }
{
    let pairs = encoded.pairs();
    let order = matching_order(alloc, encoded)?;
    match_variables(alloc, table, pairs.as_slice(), &order)
}

/// The match variables of all pairs that may be matched, those of the pairs first whose takers have
/// most pairs, and of two pairs whose takers have as many that of the smaller number first. It is
/// the order in which [`split`] branches. What probes see has no place in it. The only error is
/// want of memory.
pub fn branching_variables(alloc: Global, encoded: &Encoded) -> Result<Vec<u32>, AllocError>
    ensures { IfOk result (λ variables. AreBranchingVariables encoded.now.program variables.items) }
{
    let table = encoded.variables(alloc)?;
    branching_variables_in(alloc, encoded, &table)
}

/// The full tree that branches at each depth on the match variable of one pair, those pairs first
/// whose takers have most pairs. Its depth is `depth`, or the number of pairs that may be matched
/// where these are fewer. Nodes are numbered level by level, the one for true before the one for
/// false. The only refusal beside want of memory is [`CubeFault::TooMany`], exactly where `depth`
/// is above [`GREATEST_DEPTH`].
pub fn split(alloc: Global, encoded: &Encoded, depth: u32) -> Result<Tree, CubeFault>
    ensures tree { IfOk result (λ tree. IsCubeTree encoded.now depth tree) }
    ensures too_many { result ≡ Err CubeFault.TooMany ↔ 15 < depth }
{
    if depth > GREATEST_DEPTH {
        return Err(CubeFault::TooMany);
    }
    match cube_tree(alloc, encoded, depth) {
        Ok(tree) => Ok(tree),
        Err(AllocError) => Err(CubeFault::Memory),
    }
}
