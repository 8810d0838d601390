//! The formulas of small programs, as they are known from elsewhere.

ghost use Rattle.std.specs.Prelude.{◌≡◌, true, length, take, map, ◌++◌, ◌∷◌, []};
ghost use Rattle.std.specs.List.{flat_map};
ghost use Rattle.clauses.specs.Clauses.{satisfies, value_of};
ghost use Rattle.formula.specs.Orders.{bits_for};
ghost use Rattle.formula.specs.Families.{families};
ghost use Rattle.formula.specs.Numbering.{numbered, formula_of};
ghost use Rattle.formula.specs.Examples.{probe_and_receive, sizes_of_probe_and_receive, event_counts, sizes_of_event_counts, signed_clauses, no_calls, one_receive, one_buffered_send, other_communicator, plus, clauses_of_other_communicator, send_to_itself, clauses_of_no_calls, clauses_of_one_receive, clauses_of_one_buffered_send, clauses_of_send_to_itself, sizes, head_to_head, nonblocking_exchange, any_tag_first, sizes_of_head_to_head, sizes_of_buffered_head_to_head, sizes_of_nonblocking_exchange, sizes_of_any_tag_first, waiting_in_send, probe_and_wildcards, clauses_of_probe_and_wildcards, sizes_of_probe_and_wildcards};
ghost use Rattle.calltext.specs.declared.call.Policy.TheVariants.{Any, Always};

/// Of a program without a call the formula is the empty clause, over no variable.
pub fn formula_of_no_calls()
    ensures variables { (formula_of no_calls).variables ≡ 0 }
    ensures clauses { signed_clauses (formula_of no_calls).clauses ≡ clauses_of_no_calls }
{}

/// The formula of a receive that nothing matches: two clauses over four variables.
pub fn formula_of_one_receive()
    ensures variables { (formula_of one_receive).variables ≡ 4 }
    ensures clauses { signed_clauses (formula_of one_receive).clauses ≡ clauses_of_one_receive }
{}

/// The formula of a send in buffered mode: three clauses over two variables.
pub fn formula_of_one_buffered_send()
    ensures variables { (formula_of one_buffered_send).variables ≡ 2 }
    ensures clauses { signed_clauses (formula_of one_buffered_send).clauses ≡ clauses_of_one_buffered_send }
{}

/// The formula of a rank that sends to itself and then receives: 44 clauses over 17 variables.
pub fn formula_of_send_to_itself()
    ensures variables { (formula_of (send_to_itself Any)).variables ≡ 17 }
    ensures clauses { signed_clauses (formula_of (send_to_itself Any)).clauses ≡ clauses_of_send_to_itself }
{}

/// The same where each send is buffered: one more clause, which says so.
pub fn formula_of_buffered_send_to_itself()
    ensures variables { (formula_of (send_to_itself Always)).variables ≡ 17 }
    ensures clauses { signed_clauses (formula_of (send_to_itself Always)).clauses ≡ clauses_of_send_to_itself ++ (plus 3 ∷ []) ∷ [] }
{}

/// The formula of a send and a receive that don't fit: five clauses over eleven variables, and no
/// order of events.
pub fn formula_of_other_communicator()
    ensures variables { (formula_of other_communicator).variables ≡ 11 }
    ensures clauses { signed_clauses (formula_of other_communicator).clauses ≡ clauses_of_other_communicator }
{}

/// How many variables the formula of two ranks that send to each other first has, and how many
/// clauses by family.
pub fn size_of_head_to_head()
    ensures variables { (formula_of (head_to_head Any)).variables ≡ 52 }
    ensures families { sizes (head_to_head Any) ≡ sizes_of_head_to_head }
    ensures clauses { length (formula_of (head_to_head Any)).clauses ≡ 155 }
{}

/// The same where each standard send is buffered.
pub fn size_of_buffered_head_to_head()
    ensures variables { (formula_of (head_to_head Always)).variables ≡ 52 }
    ensures families { sizes (head_to_head Always) ≡ sizes_of_buffered_head_to_head }
    ensures clauses { length (formula_of (head_to_head Always)).clauses ≡ 157 }
{}

/// The same of two ranks that exchange messages by nonblocking sends.
pub fn size_of_nonblocking_exchange()
    ensures variables { (formula_of nonblocking_exchange).variables ≡ 66 }
    ensures families { sizes nonblocking_exchange ≡ sizes_of_nonblocking_exchange }
    ensures clauses { length (formula_of nonblocking_exchange).clauses ≡ 193 }
{}

/// The same of two sends and two receives of which the first takes any tag.
pub fn size_of_any_tag_first()
    ensures variables { (formula_of any_tag_first).variables ≡ 56 }
    ensures families { sizes any_tag_first ≡ sizes_of_any_tag_first }
    ensures clauses { length (formula_of any_tag_first).clauses ≡ 183 }
{}

/// A rank that waits in its send to itself satisfies the formula, where the policy leaves buffering
/// open.
pub fn waiting_in_send_satisfies()
    ensures { satisfies (value_of waiting_in_send) (formula_of (send_to_itself Any)).clauses ≡ true }
{}

/// The clauses of a program with a matched probe, wildcards and waits, but for the order of events
/// and the policy.
pub fn formula_of_probe_and_wildcards()
    ensures variables { (formula_of probe_and_wildcards).variables ≡ 136 }
    ensures clauses { signed_clauses (flat_map (numbered probe_and_wildcards) (take 9 (families
        probe_and_wildcards))) ≡ clauses_of_probe_and_wildcards }
{}

/// How many clauses each family of that program has.
pub fn size_of_probe_and_wildcards()
    ensures families { sizes probe_and_wildcards ≡ sizes_of_probe_and_wildcards }
{}

/// How many bits the clocks of so many events have: more of them past each power of two.
pub fn sizes_of_clocks()
    ensures { map bits_for event_counts ≡ sizes_of_event_counts }
{}

/// The same of a send, a probe for its message and its receive.
pub fn size_of_probe_and_receive()
    ensures variables { (formula_of probe_and_receive).variables ≡ 44 }
    ensures families { sizes probe_and_receive ≡ sizes_of_probe_and_receive }
    ensures clauses { length (formula_of probe_and_receive).clauses ≡ 135 }
{}
