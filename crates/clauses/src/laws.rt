//! What shows that the definitions of clauses mean what they say, apart from any code.

ghost use Rattle.clauses.specs.Laws.{EachClauseFollows, EmptyClauseIsNeverSatisfied, EmptyClauseRefutes, FollowingAddsNothing, LaterVariableIsLarger, NegationHoldsWhereLiteralDoesNot};

/// Under each assignment either a literal or its negation is true, and never both.
pub fn negation_holds_where_literal_does_not()
    ensures { NegationHoldsWhereLiteralDoesNot }
{}

/// Of two literals of a clause, the later one has the larger variable.
pub fn later_variable_is_larger()
    ensures { LaterVariableIsLarger }
{}

/// No assignment satisfies the empty clause.
pub fn empty_clause_is_never_satisfied()
    ensures { EmptyClauseIsNeverSatisfied }
{}

/// A clause that stands in a formula follows from it.
pub fn each_clause_follows()
    ensures { EachClauseFollows }
{}

/// What follows with the help of a clause that follows, follows without it.
pub fn following_adds_nothing()
    ensures { FollowingAddsNothing }
{}

/// A formula from which the empty clause follows is unsatisfiable.
pub fn empty_clause_refutes()
    ensures { EmptyClauseRefutes }
{}
