//! Ranks that wait alike.

use scene::Scene;
use std::alloc::{AllocError, Global};
use waits::{Standing, operation_of};

/// Ranks that wait alike, in rising order.
#[derive(Drop)]
pub struct AlikeRanks {
    /// The first of them.
    pub first: u32,
    /// All of them.
    pub ranks: Vec<u32>,
}

/// The first word of a call's line.
fn verb_of<'a>(scene: &'a Scene<'_>, call: usize) -> &'a [u8] {
    let words = match scene.labels.get(call) {
        None => b"",
        Some(label) => label.words(),
    };
    words.split(|byte| *byte == b' ').next().unwrap_or(b"")
}

/// Whether two ranks wait alike: in calls of one verb, for operations of one verb, whose channels
/// both balance, or both don't.
fn are_alike(scene: &Scene<'_>, one: u32, other: u32) -> bool {
    let (Standing::Waits { call: first }, Standing::Waits { call: second }) = (
        scene.standing(one),
        scene.standing(other),
    ) else {
        return false;
    };
    let (wanted, second_wanted) = (
        operation_of(scene.program, first),
        operation_of(scene.program, second),
    );
    verb_of(scene, first) == verb_of(scene, second)
        && verb_of(scene, wanted) == verb_of(scene, second_wanted)
        && scene.is_unbalanced(wanted) == scene.is_unbalanced(second_wanted)
}

/// The group of ranks that wait as this one does.
fn group_of(scene: &Scene<'_>, groups: &[AlikeRanks], rank: u32) -> Option<usize> {
    groups
        .iter()
        .position(|group| are_alike(scene, group.first, rank))
}

/// Adds a rank to its group.
fn join(
    alloc: Global,
    scene: &Scene<'_>,
    groups: &mut Vec<AlikeRanks>,
    rank: u32,
) -> Result<(), AllocError> {
    if let Some(place) = group_of(scene, groups, rank)
        && let Some(group) = groups.get_mut(place)
    {
        group.ranks.push(rank)?;
        return Ok(());
    }
    let mut ranks = Vec::new(alloc);
    ranks.push(rank)?;
    groups.push(AlikeRanks { first: rank, ranks })?;
    Ok(())
}

/// The ranks that aren't finished, of those that wait for nobody, or of the others; those that wait
/// alike in one group, in the order of their first ranks. There are few groups, as calls have few
/// verbs.
pub fn groups_of(
    alloc: Global,
    scene: &Scene<'_>,
    lack: bool,
) -> Result<Vec<AlikeRanks>, AllocError> {
    let mut groups: Vec<AlikeRanks> = Vec::new(alloc);
    for rank in 0..scene.program.ranks() {
        if scene.standing(rank) == Standing::Finished || scene.lacks(rank) != lack {
            continue;
        }
        join(alloc, scene, &mut groups, rank)?;
    }
    Ok(groups)
}
