//! What the definitions of the formula mean.

ghost use Rattle.formula.specs.Laws.{NumberedClausesMeanSymbolic, ClausesRise, ClausesAreWithin, ClocksSuffice, RanksAreClocks, OrderGivesClocks, ClocksGiveOrder, TimesGiveOrder, UsedPairsSuffice, FactsSuffice, EventsStandOnce, StatedEventsAreListed, AssignmentsMeanAll, NumbersOfOrder, OrderIsInNormalForm, TimesHaveAssignments};

/// An assignment satisfies the numbered clauses exactly where the clauses are right that they were
/// made from.
pub fn numbered_clauses_mean_symbolic()
    ensures { NumberedClausesMeanSymbolic }
{}

/// In each clause of a formula the variables rise strictly, and none is 0.
pub fn clauses_rise()
    ensures { ClausesRise }
{}

/// The clauses of a program's formula name variables of the formula alone.
pub fn clauses_are_within()
    ensures { ClausesAreWithin }
{}

/// There are as many clocks as events.
pub fn clocks_suffice()
    ensures { ClocksSuffice }
{}

/// Whatever times events have, their places in the order of times are clocks.
pub fn ranks_are_clocks()
    ensures { RanksAreClocks }
{}

/// An assignment that satisfies the clauses on the order gives the events clocks that differ on
/// used pairs, and tells which is smaller.
pub fn order_gives_clocks()
    ensures { OrderGivesClocks }
{}

/// Whatever clocks the events have, different on used pairs, what they make of the variables
/// satisfies the clauses on the order.
pub fn clocks_give_order()
    ensures { ClocksGiveOrder }
{}

/// Whatever times the events have, each another one, what their order makes of the variables
/// satisfies the clauses on the order.
pub fn times_give_order()
    ensures { TimesGiveOrder }
{}

/// Each event stands in the list of events once.
pub fn events_stand_once()
    ensures { EventsStandOnce }
{}

/// The clauses of a program state the order of events of the program alone.
pub fn stated_events_are_listed()
    ensures { StatedEventsAreListed }
{}

/// Where an assignment tells the order of each used pair, it agrees with each statement on the
/// order.
pub fn used_pairs_suffice()
    ensures { UsedPairsSuffice }
{}

/// Where an assignment tells each fact of the formula, it agrees with each statement on a fact.
pub fn facts_suffice()
    ensures { FactsSuffice }
{}

/// For whatever is so, there is an assignment that makes it true.
pub fn assignments_mean_all()
    ensures { AssignmentsMeanAll }
{}

/// The variables on the order are numbered by arithmetic.
pub fn numbers_of_order()
    ensures { NumbersOfOrder }
{}

/// The clauses on the order are written in their normal form.
pub fn order_is_in_normal_form()
    ensures { OrderIsInNormalForm }
{}

/// Whatever facts there are and whatever times the events have, each another one, there is an
/// assignment that says so.
pub fn times_have_assignments()
    ensures { TimesHaveAssignments }
{}
