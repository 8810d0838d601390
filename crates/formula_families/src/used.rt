//! The pairs of events of which some clause says that one is earlier.

ghost use Rattle.std.specs.Prelude.{◌≡◌, ◌<◌, ◌≤◌, ◌*◌, if◌then◌else◌, ◌∷◌, [], ◌++◌, ℕ, Bool, List, IfOk, OnOk, length, map};
ghost use Rattle.std.specs.List.{filter, flat_map};
ghost use Rattle.formula.specs.declared.facts.Statement.{Statement};
ghost use Rattle.formula.specs.Families.{events as events_of};
ghost use Rattle.formula.specs.Orders.{between, event_pairs, is_among, places_in, used_pairs};
ghost use Rattle.formula_families.specs.parts.Blocks.{AreMarks, orders_of, orders_of_family};

use crate::families::{Block, first_families, last_families, put_block, size_of, states_order};
use crate::symbolic::Symbolic;
use formula::{Family, Statement};
use formula_tables::{Events, ProgramTables};
use std::alloc::{AllocError, Global};

/// Marks two events, either way round, where both are among so many.
fn mark(marks: &mut [bool], most: usize, first: usize, second: usize)
    requires { length marks.old ≡ most * most }
    ensures { (orders : List (ℕ × ℕ)) → AreMarks most orders marks.old → AreMarks most (orders ++ (first, second) ∷ []) marks.new }
{
    if first < most && second < most {
        marks[first * most + second] = true;
        marks[second * most + first] = true;
    }
}

fn mark_statement(marks: &mut [bool], events: &Events<'_>, statement: &Statement)
    requires { length marks.old ≡ length (events_of events.now) * length (events_of events.now) }
    ensures { (orders : List (ℕ × ℕ)) → AreMarks (length (events_of events.now)) orders marks.old →
        AreMarks (length (events_of events.now)) (orders ++ places_in events.now statement.now) marks.new }
{
    if let Statement::Earlier(first, second) = *statement {
        let most = events.len();
        mark(
            marks,
            most,
            events.place_of(&first),
            events.place_of(&second),
        );
    }
}

fn mark_clause(marks: &mut [bool], events: &Events<'_>, clause: &[Statement])
    requires { length marks.old ≡ length (events_of events.now) * length (events_of events.now) }
    ensures { (orders : List (ℕ × ℕ)) → AreMarks (length (events_of events.now)) orders marks.old →
        AreMarks (length (events_of events.now)) (orders ++ flat_map (places_in events.now) clause.now)
        marks.new }
{
    for statement in clause {
        mark_statement(marks, events, statement);
    }
}

fn mark_clauses(marks: &mut [bool], events: &Events<'_>, clauses: &Symbolic<Statement>)
    requires { length marks.old ≡ length (events_of events.now) * length (events_of events.now) }
    ensures { (orders : List (ℕ × ℕ)) → AreMarks (length (events_of events.now)) orders marks.old →
        AreMarks (length (events_of events.now)) (orders ++ flat_map (flat_map (places_in events.now))
        clauses.now) marks.new }
{
    for place in 0..clauses.len() {
        mark_clause(marks, events, clauses.clause(place));
    }
}

/// Marks the events of which the clauses of the block say that one is earlier. The clauses are made
/// in `clauses`.
fn mark_block(
    marks: &mut [bool],
    clauses: &mut Symbolic<Statement>,
    alloc: Global,
    source: &ProgramTables<'_>,
    events: &Events<'_>,
    block: &Block,
) -> Result<(), AllocError>
    requires size { length marks.old ≡ length (events_of events.now) * length (events_of events.now) }
    requires one { events.now ≡ source.now }
    ensures { OnOk result ((orders : List (ℕ × ℕ)) →
        AreMarks (length (events_of source.now)) orders marks.old →
        AreMarks (length (events_of source.now)) (orders ++ orders_of source.now block.now) marks.new) }
{
    put_block(clauses, alloc, source, block)?;
    mark_clauses(marks, events, clauses);
    Ok(())
}

/// Marks them for each block of the family, if it states an order.
fn mark_family(
    marks: &mut [bool],
    clauses: &mut Symbolic<Statement>,
    alloc: Global,
    source: &ProgramTables<'_>,
    events: &Events<'_>,
    family: Family,
) -> Result<(), AllocError>
    requires size { length marks.old ≡ length (events_of events.now) * length (events_of events.now) }
    requires one { events.now ≡ source.now }
    ensures { OnOk result ((orders : List (ℕ × ℕ)) →
        AreMarks (length (events_of source.now)) orders marks.old →
        AreMarks (length (events_of source.now)) (orders ++ orders_of_family source.now family) marks.new) }
{
    if !states_order(family) {
        return Ok(());
    }
    for place in 0..size_of(source, family) {
        let block = Block { family, place };
        mark_block(marks, clauses, alloc, source, events, &block)?;
    }
    Ok(())
}

/// Marks them for each block of the families.
fn mark_families(
    marks: &mut [bool],
    alloc: Global,
    source: &ProgramTables<'_>,
    events: &Events<'_>,
    families: &[Family],
) -> Result<(), AllocError>
    requires size { length marks.old ≡ length (events_of events.now) * length (events_of events.now) }
    requires one { events.now ≡ source.now }
    ensures { OnOk result ((orders : List (ℕ × ℕ)) →
        AreMarks (length (events_of source.now)) orders marks.old →
        AreMarks (length (events_of source.now)) (orders ++ flat_map (orders_of_family source.now)
        families.now) marks.new) }
{
    let mut clauses = Symbolic::new(alloc);
    for family in families {
        mark_family(marks, &mut clauses, alloc, source, events, *family)?;
    }
    Ok(())
}

fn push_marked(
    used: &mut Vec<(usize, usize)>,
    is_marked: bool,
    first: usize,
    second: usize,
) -> Result<(), AllocError>
    ensures { OnOk result (used.new.items ≡ used.old.items ++ (if is_marked then (first, second) ∷ [] else [])) }
{
    if is_marked {
        used.push((first, second))?;
    }
    Ok(())
}

/// Adds the marked pairs with this first place.
fn push_row(
    used: &mut Vec<(usize, usize)>,
    marks: &[bool],
    most: usize,
    first: usize,
) -> Result<(), AllocError>
    requires size { length marks.now ≡ most * most }
    requires first { first < most }
    ensures { OnOk result ((orders : List (ℕ × ℕ)) → AreMarks most orders marks.now →
        used.new.items ≡ used.old.items ++ filter (is_among orders) (map (λ f.
        (first, f)) (between first most))) }
{
    for second in first + 1..most {
        push_marked(used, marks[first * most + second], first, second)?;
    }
    Ok(())
}

/// The marked pairs, by the first place, then by the second.
fn marked(alloc: Global, marks: &[bool], most: usize) -> Result<Vec<(usize, usize)>, AllocError>
    requires { length marks.now ≡ most * most }
    ensures { IfOk result (λ used. (orders : List (ℕ × ℕ)) → AreMarks most orders marks.now →
        used.items ≡ filter (is_among orders) (event_pairs most)) }
{
    let mut used = Vec::new(alloc);
    for first in 0..most {
        push_row(&mut used, marks, most, first)?;
    }
    Ok(used)
}

/// The used pairs, found on a table without marks.
fn marked_by(
    marks: &mut [bool],
    alloc: Global,
    source: &ProgramTables<'_>,
    events: &Events<'_>,
) -> Result<Vec<(usize, usize)>, AllocError>
    requires size { length marks.old ≡ length (events_of events.now) * length (events_of events.now) }
    requires one { events.now ≡ source.now }
    requires none { AreMarks (length (events_of source.now)) [] marks.old }
    ensures { IfOk result (λ used. used.items ≡ used_pairs source.now) }
{
    mark_families(marks, alloc, source, events, first_families())?;
    mark_families(marks, alloc, source, events, last_families())?;
    let used = marked(alloc, marks, events.len())?;
    Ok(used)
}

/// The used pairs of events: those of which some clause says that one is earlier, by their places,
/// the smaller one first. They are sorted by the first place, then by the second. The only error is
/// want of memory.
pub fn used_pairs(
    alloc: Global,
    source: &ProgramTables<'_>,
    events: &Events<'_>,
) -> Result<Vec<(usize, usize)>, AllocError>
    requires one { events.now ≡ source.now }
    requires few { length (events_of events.now) ≤ 1024 }
    ensures { IfOk result (λ used. used.items ≡ used_pairs source.now) }
{
    let most = events.len();
    let mut marks = vec![in alloc; false; most * most]?;
    let used = marked_by(marks.as_mut_slice(), alloc, source, events)?;
    Ok(used)
}
