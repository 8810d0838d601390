//! What searches that propagate units stand on: a propagator of clauses, with the trail of values,
//! watched literals, and the lines of a batch.
//!
//! Look-ups are total: a place past the end has a value that its function names or that means
//! nothing. So no invariant ties the parts together, and nothing is promised of what propagation
//! finds: whoever takes the lines checks them.
#![tactic(auto)]

mod batch;
mod lines;
mod literal;
mod marks;
mod moves;
mod propagator;
mod reduction;
mod reference;
mod store;
mod trail;
mod units;
mod visiting;
mod watches;

pub use batch::{add_line, no_lines};
pub use literal::{LitIndex, fill, indices_of};
pub use marks::Marks;
pub use propagator::{Propagator, Refuting};
pub use reference::{ClauseRef, Origin};
pub use trail::{Trail, Truth};
