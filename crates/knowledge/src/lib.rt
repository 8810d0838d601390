//! Where a finder is known to have found, exactly: for one finder at a time, the calls that are
//! issued only where it has.
//!
//! A finder is a receive, a matched probe or a probe. That it has found where a call is issued
//! follows from what else is known, by the rule `tells_issue` of `races`: from the issue of the
//! call before it in its rank, and from what the return of that one waits for. A table each entry
//! of which follows so is justified, and there is a greatest one, since the rule tells no more of a
//! finder where less is known of it.
//!
//! The column of a finder begins with every call in it. A call that doesn't follow from the others
//! is taken out, in the order of a run first, and then over and over until a pass takes out none.
//! After the order of a run that matches so the first such pass is mostly the last one, so that the
//! time is near linear in the calls. Ranks, and calls by their place in the program's list, count
//! from 0.
#![tactic(auto)]

mod column;
mod laws;
mod order;
mod rules;

pub use column::column_of;
pub use laws::{
    columns_are_justified, tables_of_columns_are_justified, tells_less_by_less,
    unions_are_justified,
};
pub use order::issue_order;
pub use rules::{knows, tells_return};
