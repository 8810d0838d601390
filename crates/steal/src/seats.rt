//! The seats of a deque: one that pushes and pops, and those that steal.

ghost use Rattle.std.specs.Prelude.{◌≡◌, ◌+◌, ◌≤◌, [], length};
ghost use Rattle.crossbeam_deque.specs.Handles.{view, IsPassOf, stealer_deque, stealer_flavor, worker_flavor, worker_view};
ghost use Rattle.steal.specs.Hands.{all_parts};

use crate::rule::{Owner, Thief, Token};
use std::alloc::Global;

/// The seat that pushes and pops. Contracts see the list of the cubes that it has pushed and of
/// those that it has popped.
#[derive(Drop)]
pub struct OwnerSeat {
    pub(crate) owner: Owner,
    pub(crate) alloc: Global,
    pub(crate) thieves: usize,
    // No fewer than the cubes pushed that this seat hasn't popped: what settling needs room for.
    pub(crate) unpopped: usize,
    pub ghost first_in_first_out: { worker_flavor owner ≡ 0 },
    pub ghost whole: { (worker_view owner).parts + thieves ≡ all_parts },
    pub ghost few: { thieves ≤ 64 },
    pub ghost bounded: { length (worker_view owner).pushed ≤ length (worker_view owner).taken + unpopped },
}

/// A seat that steals, in any thread. Contracts see the list of the cubes that it has stolen.
#[derive(Drop)]
pub struct ThiefSeat {
    pub(crate) thief: Thief,
    pub(crate) pass: Token,
    pub ghost of: { IsPassOf (stealer_deque thief) pass },
    pub ghost first_in_first_out: { stealer_flavor thief ≡ 0 },
    pub ghost part: { (view pass).parts ≡ 1 },
    pub ghost no_push: { (view pass).pushed ≡ [] },
}
