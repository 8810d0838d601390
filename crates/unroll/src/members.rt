//! The groups of collective calls: which ranks belong to one, and how many calls one made before.

ghost use Rattle.std.specs.Prelude.{◌≡◌, ◌≤◌, ◌<◌, IfOk, option_copied};
ghost use Rattle.std.specs.List.{filter};
ghost use Rattle.unroll.specs.Groups.{is_member, is_other_member, others, alike, calls_so_far, root_in, before, member_after};

use crate::call::{Attendance, Group};
use std::alloc::{AllocError, Global};

/// Whether the rank is one of the group.
pub(crate) fn is_member(group: Group, rank: u32) -> bool
    ensures { result ≡ is_member group rank }
{
    if group.step == 0 {
        return false;
    }
    if rank < group.first {
        return false;
    }
    if group.last < rank {
        return false;
    }
    (rank - group.first) % group.step == 0
}

/// Whether another rank than this one is of the group.
fn is_other(group: Group, rank: u32, other: u32) -> bool
    ensures { result ≡ is_other_member group rank other }
{
    is_member(group, other) && other != rank
}

/// The ranks of the group but this one, rising.
pub(crate) fn others(
    alloc: Global,
    group: Group,
    size: u32,
    rank: u32,
) -> Result<Vec<u32>, AllocError>
    ensures { IfOk result (λ found. found.items ≡ others group size rank) }
{
    (0..size)
        .filter(|other| is_other(group, rank, *other))
        .collect(alloc)
}

/// The spelling of a group's ranks that all groups with these ranks have: to the last one of them,
/// and by steps of 1 where there is one alone.
pub(crate) fn alike(group: Group) -> Group
    requires some { group.first ≤ group.last }
    requires rises { 0 < group.step }
    ensures { result ≡ alike group }
{
    let last = group.last - (group.last - group.first) % group.step;
    Group {
        first: group.first,
        last,
        step: if last == group.first { 1 } else { group.step },
    }
}

/// How many collective calls a rank made so far, by who attended last.
pub(crate) fn calls_so_far(attendance: Option<&Attendance>, rank: u32) -> u32
    ensures { result ≡ calls_so_far (option_copied attendance.entry) rank }
{
    match attendance {
        None => 0,
        Some(last) => { if last.rank == rank { last.calls } else { 0 } }
    }
}

/// The root: the first rank of the group, where none is named.
pub(crate) fn root_in(group: Group, root: Option<u32>) -> u32
    ensures { result ≡ root_in group root }
{
    match root {
        None => group.first,
        Some(root) => root,
    }
}

/// The rank of the group before this one, which is of it.
pub(crate) fn before(group: Group, rank: u32) -> Option<u32>
    ensures { result ≡ before group rank }
{
    if rank == group.first {
        return None;
    }
    Some(rank.saturating_sub(group.step))
}

/// The rank of the group after this one, which is of it.
pub(crate) fn after(group: Group, rank: u32) -> Option<u32>
    ensures { result ≡ member_after group rank }
{
    if group.last < rank {
        return None;
    }
    if group.last - rank < group.step {
        return None;
    }
    Some(rank + group.step)
}
