//! The finders for which a send may race, in groups by what they ask for, and up to where in a group
//! a count tells that they have found.

ghost use Rattle.std.specs.Prelude.{◌≡◌, ◌≤◌, ◌<◌, ◌+◌, ◌⊎◌, ℕ, Bool, [], List, Some, IfOk, OnOk, IsTrue, false, length, slice_get};
ghost use Rattle.std.specs.Global.{Vec};
ghost use Rattle.callorder.specs.Programs.{call_at};
ghost use Rattle.clocks.specs.parts.Clocks.{IsCount, Numbering, block_of};
ghost use Rattle.clocks.specs.parts.Finders.{AreCovers, AreCoversOf, AreEmptyGroups, AreGroupedUpTo, covers_at, CannotRace, IsCountedAt, IsCover, IsListing, IsNumbered, IsPutIn, IsParting, IsRising, IsWider, group_at, group_of, group_of_call, mix, told};
ghost use Rattle.clocks.specs.Spans.{AreSpans};

use crate::columns::Columns;
use crate::rows::Count;
use crate::spans::is_single;
use callorder::LongProgram;
use std::alloc::{AllocError, Global};
use std::marker::Model;

/// Up to where in a group a count tells that finders have found.
#[derive(Clone, Copy)]
pub struct Cover {
    /// Whether all of the group up to this place are numbered in one column.
    pub is_one: bool,
    /// That column.
    pub column: usize,
    /// A number that none of theirs is above.
    pub last: usize,
}

/// The finders for which a send may race.
#[derive(Drop)]
pub struct Finders {
    /// These in groups, each in the order of the calls. All that ask for the same stand in one.
    groups: Vec<Vec<usize>>,
}

impl Model for Finders {
    ghost use Rattle.std.specs.Prelude.{ℕ, List};
    ghost use Rattle.std.specs.Global.{Vec};

    ghost Value = { List (Vec ℕ) };

    ghost view = { λ f. f.groups.items };
}

/// Whether a send may race for the call: it is a finder of any source, or its block has others.
fn may_race(program: &LongProgram, names: &[usize], call: usize) -> bool
    requires { AreSpans program.now (block_of names.now) }
    ensures { result ≡ false → CannotRace program.now (block_of names.now) call }
{
    let Some(known) = program.call(call) else {
        return false;
    };
    let Some(pattern) = known.kind.pattern() else {
        return false;
    };
    match pattern.source {
        None => true,
        Some(_) => !is_single(names, call),
    }
}

/// A number made of two others.
fn mix(one: u64, other: u64) -> u64
    ensures { result ≡ mix one other }
{
    one.wrapping_mul(11_400_714_819_323_198_485)
        .wrapping_add(other)
}

/// A number for a tag that is named, and another one for any.
fn told(tag: Option<u32>) -> u64
    ensures { result ≡ told tag }
{
    match tag {
        None => 0,
        Some(tag) => u64::from(tag) + 1,
    }
}

/// The group of what a rank is sent by this communicator, with this tag, or any.
pub fn group_of(groups: usize, rank: u32, communicator: u32, tag: Option<u32>) -> usize
    ensures { result ≡ group_of groups rank communicator tag }
{
    if groups == 0 {
        return 0;
    }
    let place = mix(mix(u64::from(rank), u64::from(communicator)), told(tag));
    (place % groups as u64) as usize
}

/// The group of a finder, and 0 for another call.
fn group_of_finder(groups: usize, program: &LongProgram, call: usize) -> usize
    ensures { result ≡ group_of_call groups (call_at program.now call) }
{
    let Some(known) = program.call(call) else {
        return 0;
    };
    let Some(pattern) = known.kind.pattern() else {
        return 0;
    };
    group_of(groups, known.rank, pattern.communicator, pattern.tag)
}

/// Puts the call behind the last one of the group. The only error is want of memory.
fn put(groups: &mut Vec<Vec<usize>>, place: usize, call: usize) -> Result<(), AllocError>
    ensures { OnOk result (IsPutIn groups.old.items place call groups.new.items) }
{
    if let Some(group) = groups.get_mut(place) {
        group.push(call)?;
    }
    Ok(())
}

/// Lists the call, where a send may race for it. The only error is want of memory.
fn list(
    program: &LongProgram,
    names: &[usize],
    groups: &mut Vec<Vec<usize>>,
    call: usize,
) -> Result<(), AllocError>
    requires { AreSpans program.now (block_of names.now) }
    ensures { OnOk result (AreGroupedUpTo program.now (block_of names.now) call groups.old.items →
        AreGroupedUpTo program.now (block_of names.now) (call + 1) groups.new.items) }
{
    if !may_race(program, names, call) {
        return Ok(());
    }
    let place = group_of_finder(groups.len(), program, call);
    put(groups, place, call)?;
    Ok(())
}

/// How many finders there are for which a send may race.
fn listed_count(program: &LongProgram, names: &[usize]) -> usize
    requires { AreSpans program.now (block_of names.now) }
{
    let mut count: usize = 0;
    for call in 0..program.calls().len() {
        if may_race(program, names, call) {
            count = count.saturating_add(1);
        }
    }
    count
}

/// One empty group more than so many. The only error is want of memory.
fn empty_groups(alloc: Global, count: usize) -> Result<Vec<Vec<usize>>, AllocError>
    ensures { IfOk result (λ groups. AreEmptyGroups groups.items) }
{
    let mut groups = Vec::new(alloc);
    groups.push(Vec::new(alloc))?;
    for _ in 0..count {
        groups.push(Vec::new(alloc))?;
    }
    Ok(groups)
}

/// The first place of the group whose finder is not before the call.
fn place_of(group: &[usize], call: usize) -> usize
    requires { IsRising group.now }
    ensures { IsParting group.now call result }
{
    group.partition_point(|finder| *finder < call)
}

impl Finders {
    /// Those of a program, by these names of blocks. The only error is want of memory.
    pub fn new(alloc: Global, program: &LongProgram, names: &[usize]) -> Result<Self, AllocError>
        requires { AreSpans program.now (block_of names.now) }
        ensures { IfOk result (IsListing program.now (block_of names.now)) }
    {
        let mut groups = empty_groups(alloc, listed_count(program, names))?;
        for call in 0..program.calls().len() {
            list(program, names, &mut groups, call)?;
        }
        Ok(Finders { groups })
    }

    /// How many groups there are.
    pub fn count(&self) -> usize
        ensures { result ≡ length self.now }
    {
        self.groups.len()
    }

    /// The finders of the group.
    fn calls(&self, group: usize) -> &[usize]
        ensures { result.now ≡ group_at self.now group }
    {
        match self.groups.get(group) {
            None => &[],
            Some(calls) => calls.as_slice(),
        }
    }

    /// The place in the group before which all finders are before the call.
    pub fn before(&self, group: usize, call: usize) -> usize
        requires { IsRising (group_at self.now group) }
        ensures { IsParting (group_at self.now group) call result }
    {
        place_of(self.calls(group), call)
    }

    /// The finder at this place of the group, if there is one.
    pub fn at(&self, group: usize, place: usize) -> Option<usize>
        ensures { result ≡ slice_get (group_at self.now group) place }
    {
        match self.groups.get(group) {
            None => None,
            Some(finders) => finders.as_slice().get(place).copied(),
        }
    }
}

/// For each place of each group of finders, up to where counts tell that they have found.
#[derive(Drop)]
pub struct Covers {
    covers: Vec<Vec<Cover>>,
}

impl Model for Covers {
    ghost use Rattle.std.specs.Prelude.{List};
    ghost use Rattle.std.specs.Global.{Vec};
    ghost use Rattle.clocks.specs.declared.finders.Cover.{Cover};

    ghost Value = { List (Vec Cover) };

    ghost view = { λ c. c.covers.items };
}

/// A cover of no finder.
fn no_cover() -> Cover
    ensures { result.is_one ≡ false }
{
    Cover {
        is_one: false,
        column: 0,
        last: 0,
    }
}

/// A cover of the finder alone.
fn cover_of(columns: &Columns, finder: usize) -> Cover
    ensures { IsTrue result.is_one → IsNumbered columns.now result.column result.last finder }
{
    let Some(mark) = columns.mark(finder) else {
        return no_cover();
    };
    let Some(found) = columns.listed(mark.number) else {
        return no_cover();
    };
    if found != finder || mark.number < columns.start(mark.column) {
        return no_cover();
    }
    Cover {
        is_one: true,
        column: mark.column,
        last: mark.number,
    }
}

/// A cover of what the two cover.
fn both(one: Cover, other: Cover) -> Cover
    ensures { IsTrue result.is_one → IsWider one result × IsWider other result }
{
    if !one.is_one || !other.is_one || one.column != other.column {
        return no_cover();
    }
    Cover {
        is_one: true,
        column: one.column,
        last: if one.last < other.last {
            other.last
        } else {
            one.last
        },
    }
}

/// The call at the place of the group, if there is one.
fn call_in(group: &[usize], place: usize) -> Option<usize>
    ensures { result ≡ slice_get group.now place }
{
    group.get(place).copied()
}

/// A cover of all of the group up to the place, from one of all before it.
fn cover_at(columns: &Columns, group: &[usize], place: usize, before: Cover) -> Cover
    requires { (i : ℕ) → i + 1 ≡ place → IsCover columns.now group.now i before }
    ensures { IsCover columns.now group.now place result }
{
    let Some(finder) = call_in(group, place) else {
        return no_cover();
    };
    let own = cover_of(columns, finder);
    if place == 0 {
        return own;
    }
    both(before, own)
}

/// For each place of the group a cover of all up to it. The only error is want of memory.
fn covers_of(alloc: Global, columns: &Columns, group: &[usize]) -> Result<Vec<Cover>, AllocError>
    ensures { IfOk result (λ covers. AreCoversOf columns.now group.now covers.items) }
{
    let mut covers = Vec::new(alloc);
    let mut whole = no_cover();
    for place in 0..group.len() {
        whole = cover_at(columns, group, place, whole);
        covers.push(whole)?;
    }
    Ok(covers)
}

/// Whether the count tells of all up to the cover's place that they have found.
fn is_counted(cover: &Cover, count: &Count) -> bool
    ensures { IsTrue result → IsTrue cover.now.is_one × (cover.now.column ≡ count.now.column) × (cover.now.last < count.now.count) }
{
    cover.is_one && cover.column == count.column && cover.last < count.count
}

/// Whether the count tells of all of the group up to the place that they have found.
fn is_counted_at(covers: &[Cover], place: usize, count: &Count) -> bool
    ensures { IsTrue result → IsCountedAt covers.now place count.now }
{
    match covers.get(place).copied() {
        None => false,
        Some(cover) => is_counted(&cover, count),
    }
}

/// A place of the group, up to which the count tells of all from the place on that they have found.
fn first_unknown(covers: &[Cover], count: &Count, place: usize) -> usize
    ensures { (numbering : Numbering) (known : ℕ → Bool) (calls : List ℕ) → AreCoversOf numbering calls covers.now →
        IsCount numbering known count.now.column count.now.count → (i finder : ℕ) → place ≤ i → i < result →
        slice_get calls i ≡ Some finder → IsTrue (known finder) }
{
    let end = covers.partition_point(|cover| is_counted(cover, count));
    if end <= place {
        return place;
    }
    if is_counted_at(covers, end - 1, count) {
        end
    } else {
        place
    }
}

impl Covers {
    /// None.
    pub fn none(alloc: Global) -> Self {
        Covers {
            covers: Vec::new(alloc),
        }
    }

    /// Those of the finders. The only error is want of memory.
    pub fn new(alloc: Global, columns: &Columns, finders: &Finders) -> Result<Self, AllocError>
        ensures { IfOk result (AreCovers columns.now finders.now) }
    {
        let mut covers = Vec::new(alloc);
        for group in 0..finders.groups.len() {
            let own = covers_of(alloc, columns, finders.calls(group))?;
            covers.push(own)?;
        }
        Ok(Covers { covers })
    }

    /// The covers of the group's places.
    fn covers(&self, group: usize) -> &[Cover]
        ensures { result.now ≡ covers_at self.now group }
    {
        match self.covers.get(group) {
            None => &[],
            Some(covers) => covers.as_slice(),
        }
    }

    /// A place of the group, up to which the count tells of all from this place on that they have
    /// found.
    pub fn first_unknown(&self, group: usize, count: &Count, place: usize) -> usize
        ensures { (numbering : Numbering) (known : ℕ → Bool) (groups : List (Vec ℕ)) → AreCovers numbering groups self.now →
            IsCount numbering known count.now.column count.now.count → (i finder : ℕ) → place ≤ i → i < result →
            slice_get (group_at groups group) i ≡ Some finder → IsTrue (known finder) }
    {
        first_unknown(self.covers(group), count, place)
    }
}
