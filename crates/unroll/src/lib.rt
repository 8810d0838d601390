//! An SPMD text unrolled: for each rank the calls that it makes, and what is wrong first.
#![tactic(auto)]

mod arguments;
mod arithmetic;
mod call;
mod collecting;
mod collective;
mod expression;
mod laws;
mod machine;
mod members;
mod parts;
mod performing;
mod statement;
mod value;
mod waiting;
mod whole;

pub use call::{Fault, Group, Label, Placed, Turn, UnrolledCall};
pub use expression::evaluate;
pub use laws::{
    collectives_are_apart, groups_are_spelled_alike, numbers_stay, plain_forms_mean_the_same,
};
pub use value::{FaultReason, Value};
pub use whole::{Refusal, UnrollLimits, Unrolled, unroll};
