//! The syntax tree of an SPMD text: one text for all ranks, with loops and collective calls.
#![tactic(auto)]

mod tree;

pub use tree::{
    Arguments, CollectiveKind, Comparison, Expression, GroupForm, LabelForm, Labels, Operator,
    SendMode, SpmdStatement,
};
