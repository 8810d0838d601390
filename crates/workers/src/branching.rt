//! The variable that a cube is split on.

ghost use Rattle.std.specs.Prelude.{◌≡◌, ◌++◌, ◌<◌, IfSome};
ghost use Rattle.std.specs.List.{find, range_with_len};
ghost use Rattle.workers.specs.parts.Branching.{IsOneOf, is_decided, is_free};

use cdcl::Solver;
use clauses::Lit;

/// Whether a literal of the path has this variable.
fn is_decided(path: &[Lit], variable: u32) -> bool
    ensures { result ≡ is_decided path.now variable }
{
    path.iter().any(|literal| literal.variable() == variable)
}

/// The first of these variables that the path lacks.
fn first_of(path: &[Lit], variables: &[u32]) -> Option<u32>
    ensures { result ≡ find (is_free path.now) variables.now }
{
    variables
        .iter()
        .copied()
        .find(|variable| !is_decided(path, *variable))
}

/// The first variable from 1 on that the path lacks, of so many.
fn first_below(path: &[Lit], count: u32) -> Option<u32>
    ensures { result ≡ find (is_free path.now) (range_with_len 1 count) }
{
    for place in 0..count {
        if !is_decided(path, place + 1) {
            return Some(place + 1);
        }
    }
    None
}

/// Of these variables the one that took part in most conflicts, and the first of several such, of
/// those that the path lacks and that have no value below it.
pub(crate) fn most_active(solver: &Solver<'_>, path: &[Lit], variables: &[u32]) -> Option<u32>
    ensures { IfSome result (IsOneOf path.now variables.now) }
{
    let mut best = None;
    let mut most = 0;
    for variable in variables {
        if is_decided(path, *variable) {
            continue;
        }
        if let Some(weight) = solver.weight(*variable, path.len())
            && (best.is_none() || weight > most)
        {
            best = Some(*variable);
            most = weight;
        }
    }
    best
}

/// The first variable that the path lacks: of the given ones, and then of those from 1 on, of which
/// there are so many.
pub(crate) fn branching_variable(path: &[Lit], variables: &[u32], count: u32) -> Option<u32>
    ensures { result ≡ find (is_free path.now) (variables.now ++ range_with_len 1 count) }
{
    match first_of(path, variables) {
        Some(variable) => Some(variable),
        None => first_below(path, count),
    }
}
