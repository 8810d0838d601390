//! Clauses before their variables are numbered.

ghost use Rattle.std.specs.Prelude.{◌≡◌, ◌<◌, ◌≤◌, ◌-◌, take, drop, ◌++◌, ◌∷◌, [], OnOk, length, get_or};
ghost use Rattle.formula_families.specs.PackedLists.{parts, start_of, AreEnds};

use std::alloc::{AllocError, Global};
use std::marker::Model;

/// Clauses, each a list of items of which one is right. They stand one behind the other in one
/// list, so that a clause takes no block of memory of its own.
#[derive(Drop)]
pub struct Symbolic<Item> {
    entries: Vec<Item>,
    ends: Vec<usize>,
}

impl<Item> Model for Symbolic<Item> {
    ghost use Rattle.std.specs.Prelude.{List, length};
    ghost use Rattle.formula_families.specs.PackedLists.{parts, AreEnds};

    ghost Value = { List (List Item) };

    ghost view = { λ s. parts s.entries.items 0 s.ends.items };

    ghost invariant = { λ s. AreEnds 0 s.ends.items (length s.entries.items) };
}

/// Where the part at a place begins.
fn start(ends: &[usize], place: usize) -> usize
    requires { place < length ends.now }
    ensures { result ≡ start_of 0 ends.now place }
{
    if place == 0 {
        return 0;
    }
    ends[place - 1]
}

/// What stands from one place to another.
fn between<Item: Copy>(entries: &[Item], start: usize, end: usize) -> &[Item]
    requires rise { start ≤ end }
    requires within { end ≤ length entries.now }
    ensures { result.now ≡ take (end - start) (drop start entries.now) }
{
    &entries[start..end]
}

/// The part at a place.
fn part<'a, Item: Copy>(entries: &'a [Item], ends: &[usize], place: usize) -> &'a [Item]
    requires ends { AreEnds 0 ends.now (length entries.now) }
    requires inside { place < length ends.now }
    ensures { result.now ≡ get_or (parts entries.now 0 ends.now) place [] }
{
    between(entries, start(ends, place), ends[place])
}

/// Adds a part at the end. Without memory nothing is added.
fn add<Item: Copy>(
    entries: &mut Vec<Item>,
    ends: &mut Vec<usize>,
    part: &[Item],
) -> Result<(), AllocError>
    requires { AreEnds 0 ends.old.items (length entries.old.items) }
    ensures ends { AreEnds 0 ends.new.items (length entries.new.items) }
    ensures added { OnOk result (parts entries.new.items 0 ends.new.items ≡ parts entries.old.items 0 ends.old.items ++ part.now ∷ []) }
{
    let before = entries.len();
    entries.extend_from_slice(part)?;
    match ends.push(entries.len()) {
        Ok(()) => Ok(()),
        Err(_) => {
            entries.truncate(before);
            Err(AllocError)
        }
    }
}

impl<Item: Copy> Symbolic<Item> {
    /// No clause.
    pub fn new(alloc: Global) -> Symbolic<Item>
        ensures { result ≡ [] }
    {
        Symbolic {
            entries: Vec::new(alloc),
            ends: Vec::new(alloc),
        }
    }

    /// How many clauses there are.
    pub fn len(&self) -> usize
        ensures { result ≡ length self.now }
    {
        self.ends.len()
    }

    /// The clause at a place, from 0.
    pub fn clause(&self, place: usize) -> &[Item]
        requires { place < length self.now }
        ensures { result.now ≡ get_or self.now place [] }
    {
        part(self.entries.as_slice(), self.ends.as_slice(), place)
    }

    /// Adds a clause at the end. The only error is want of memory.
    pub fn add(&mut self, clause: &[Item]) -> Result<(), AllocError>
        ensures { OnOk result (self.new ≡ self.old ++ clause.now ∷ []) }
    {
        add(&mut self.entries, &mut self.ends, clause)
    }

    /// Takes all clauses away, and keeps their memory for others.
    pub fn clear(&mut self)
        ensures { self.new ≡ [] }
    {
        self.entries.clear();
        self.ends.clear();
    }
}
