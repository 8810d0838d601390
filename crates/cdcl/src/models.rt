//! What is asked of an assignment before it is told as a model.

ghost use Rattle.std.specs.Prelude.{◌≡◌, IsTrue, IfSome};
ghost use Rattle.std.specs.List.{list_all};
ghost use Rattle.clauses.specs.Clauses.{makes_true, satisfies, value_of};

use clauses::{Assignment, Formula, Lit};

fn holds_all(assignment: &Assignment, cube: &[Lit]) -> bool
    ensures { result ≡ list_all (makes_true (value_of assignment.now)) cube.now }
{
    cube.iter().all(|literal| assignment.holds(literal))
}

/// The assignment of these values, where it satisfies the formula and the cube.
pub(crate) fn checked(formula: &Formula, cube: &[Lit], values: Vec<bool>) -> Option<Assignment>
    ensures formula { IfSome result (λ a. IsTrue (satisfies (value_of a) formula.now.clauses)) }
    ensures cube { IfSome result (λ a. IsTrue (list_all (makes_true (value_of a)) cube.now)) }
{
    let assignment = Assignment::make(values);
    if !assignment.satisfies(formula) {
        return None;
    }
    if !holds_all(&assignment, cube) {
        return None;
    }
    Some(assignment)
}
