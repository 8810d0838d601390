//! The lines that join the clauses of a tree's leaves.

ghost use Rattle.std.specs.Prelude.{◌≡◌, ◌+◌, ◌≤◌, ◌++◌, ◌∷◌, ◌||◌, [], not, length, vec_len, IfOk, IfSome, OnOk, IsSome, IsTrue, Some};
ghost use Rattle.std.specs.Option.{option_map};
ghost use Rattle.clauses.specs.Clauses.{rises, is_within};
ghost use Rattle.refutations.specs.Proofs.{is_proof_number, are_numbers};
ghost use Rattle.refutations.specs.Derivations.{clauses_before, clause_numbered, Derives};
ghost use Rattle.refutations.specs.Refutations.{AreDerived, Accepts};
ghost use Rattle.tree_lines.specs.parts.Entries.{IsEntry, IsAddedEntry, IsSplitEntry};
ghost use Rattle.tree_lines.specs.Joining.{Joins};
ghost use Rattle.tree_lines.specs.parts.LiteralSets.{are_sorted, is_set_enough};

use crate::literals::{has, resolvent};
use clauses::{Formula, Lit};
use refutations::{LARGEST_NUMBER, Line, Node, ProofTree};
use std::alloc::{AllocError, Global};

/// A set of literals that are all false on the path of a tree, and the number of the clause of
/// these literals; there is none where a variable stands with both signs, so that no clause has
/// them.
#[derive(Drop)]
struct Entry {
    literals: Vec<Lit>,
    number: Option<u32>,
}

/// The literals of the clause of this number.
fn literals_of<'a>(formula: &'a Formula, lines: &'a [Line], number: u32) -> Option<&'a [Lit]>
    requires { AreDerived formula.now lines.now }
    ensures named { option_map (λ c. c.now) result ≡ clause_numbered (clauses_before formula.now lines.now) number }
    ensures rises { IfSome result (λ c. IsTrue (rises c.now)) }
    ensures within { IfSome result (λ c. IsTrue (is_within formula.now.variables c.now)) }
{
    let number = number as usize;
    if number <= formula.len() {
        let clause = formula.clause(number)?;
        return Some(clause.literals());
    }
    let line = lines.get(number - formula.len() - 1)?;
    Some(line.literals())
}

/// The entry of a leaf that names this clause.
fn leaf_entry(
    alloc: Global,
    formula: &Formula,
    lines: &[Line],
    number: u32,
) -> Result<Entry, AllocError>
    requires named { IsSome (clause_numbered (clauses_before formula.now lines.now) number) }
    requires number { IsTrue (is_proof_number number) }
    requires derived { AreDerived formula.now lines.now }
    ensures literals { IfOk result (λ entry. clause_numbered (clauses_before formula.now lines.now) number ≡ Some entry.literals.items) }
    ensures entry { IfOk result (λ entry. IsEntry formula.now lines.now entry) }
{
    let Some(literals) = literals_of(formula, lines, number) else {
        unreachable!()
    };
    let literals = literals.to_vec(alloc)?;
    Ok(Entry {
        literals,
        number: Some(number),
    })
}

/// The number of the next line; none above [`LARGEST_NUMBER`].
fn next_number(formula: &Formula, lines: &[Line], added: &[Line]) -> Option<u32>
    ensures next { IfSome result (λ number. number ≡ length formula.now.clauses + length lines.now + length added.now + 1) }
    ensures number { IfSome result (λ number. IsTrue (is_proof_number number)) }
{
    let number = formula.clauses().len() + lines.len() + added.len() + 1;
    if number > LARGEST_NUMBER as usize {
        return None;
    }
    Some(number as u32)
}

/// The entry of these literals, with a line of these hints where they are a clause.
fn add_line(
    alloc: Global,
    formula: &Formula,
    lines: &[Line],
    added: &mut Vec<Line>,
    literals: Vec<Lit>,
    hints: Vec<u32>,
) -> Result<Entry, AllocError>
    requires derived { AreDerived formula.now (lines.now ++ added.old.items) }
    requires derives { IsTrue (rises literals.items) →
        Derives formula.now (lines.now ++ added.old.items) (record {
          literals = literals.items;
          hints =
              hints.items;
        }) }
    requires sorted { IsTrue (are_sorted literals.items) }
    requires within { IsTrue (is_within formula.now.variables literals.items) }
    requires hints { IsTrue (are_numbers hints.items) }
    ensures { IfOk result (λ entry. IsAddedEntry formula.now lines.now added.old.items added.new.items literals.items entry) }
{
    let copy = literals.as_slice().to_vec(alloc)?;
    let Some(line) = Line::from_vecs(copy, hints) else {
        return Ok(Entry {
            literals,
            number: None,
        });
    };
    let Some(number) = next_number(formula, lines, added.as_slice()) else {
        return Err(AllocError);
    };
    added.push(line)?;
    Ok(Entry {
        literals,
        number: Some(number),
    })
}

/// Whether a split's one entry is enough without the other: it lacks its literal of the split, or
/// the other one has that literal too, and then the path above the split has its negation.
fn is_enough(one: &Entry, other: &Entry, literal: &Lit) -> bool
    ensures { result ≡ is_set_enough one.now.literals.items other.now.literals.items literal.now }
{
    !has(one.literals.as_slice(), literal) || has(other.literals.as_slice(), literal)
}

/// The entry of a split by this literal, from those of the trees below it.
fn split_entry(
    alloc: Global,
    formula: &Formula,
    lines: &[Line],
    added: &mut Vec<Line>,
    first: Entry,
    second: Entry,
    literal: &Lit,
) -> Result<Entry, AllocError>
    requires derived { AreDerived formula.now (lines.now ++ added.old.items) }
    requires first { IsEntry formula.now (lines.now ++ added.old.items) first }
    requires second { IsEntry formula.now (lines.now ++ added.old.items) second }
    ensures { IfOk result (λ entry. IsSplitEntry formula.now lines.now added.old.items added.new.items literal.now first second entry) }
{
    if is_enough(&first, &second, &literal.negated()) {
        return Ok(first);
    }
    if is_enough(&second, &first, literal) {
        return Ok(second);
    }
    let literals = resolvent(
        alloc,
        first.literals.as_slice(),
        second.literals.as_slice(),
        literal,
    )?;
    let (Some(one), Some(other)) = (first.number, second.number) else {
        return Ok(Entry {
            literals,
            number: None,
        });
    };
    let hints = vec![in alloc; one, other]?;
    add_line(alloc, formula, lines, added, literals, hints)
}

/// The last two entries, the last one first.
fn pop_two(entries: &mut Vec<Entry>) -> (Entry, Entry)
    requires { 2 ≤ vec_len entries.old }
    ensures { entries.old.items ≡ entries.new.items ++ result.1 ∷ result.0 ∷ [] }
{
    let Some(first) = entries.pop() else {
        unreachable!()
    };
    let Some(second) = entries.pop() else {
        unreachable!()
    };
    (first, second)
}

/// Adds an empty line if the number is that of an empty clause of the formula.
fn close(
    alloc: Global,
    formula: &Formula,
    lines: &[Line],
    added: &mut Vec<Line>,
    number: u32,
) -> Result<(), AllocError>
    requires derived { AreDerived formula.now (lines.now ++ added.old.items) }
    requires empty { clause_numbered (clauses_before formula.now (lines.now ++ added.old.items)) number ≡ Some [] }
    ensures { OnOk result (Joins formula.now lines.now added.new.items) }
{
    if number as usize > formula.len() {
        return Ok(());
    }
    if next_number(formula, lines, added.as_slice()).is_none() {
        return Err(AllocError);
    }
    let Ok(line) = Line::make(alloc, &[], &[number]) else {
        return Err(AllocError);
    };
    added.push(line)?;
    Ok(())
}

/// The lines that join the clauses of the leaves of an accepted refutation to the empty clause.
/// They are numbered on from the formula's clauses and the lines. Each is made as a resolvent of
/// the two clauses that its hints name; where the formula itself has an empty clause, one line
/// without literals may come last, with its number as the one hint. What is promised is that each
/// derives from what stands before it, and that one has no literals. The only error is want of
/// memory, which is also told where there would be more than [`LARGEST_NUMBER`] clauses.
pub fn joining_lines(
    alloc: Global,
    formula: &Formula,
    lines: &[Line],
    tree: &ProofTree,
) -> Result<Vec<Line>, AllocError>
    requires { Accepts formula.now lines.now tree.now }
    ensures { IfOk result (λ added. Joins formula.now lines.now added.items) }
{
    let nodes = tree.nodes();
    let mut added = Vec::new(alloc);
    let mut entries = Vec::new(alloc);
    for place in (0..nodes.len()).rev() {
        let entry = match nodes[place] {
            Node::Leaf(number) => leaf_entry(alloc, formula, lines, number)?,
            Node::Split(variable) => {
                let Some(literal) = Lit::make(variable, true) else {
                    unreachable!()
                };
                let (first, second) = pop_two(&mut entries);
                split_entry(alloc, formula, lines, &mut added, first, second, &literal)?
            }
        };
        entries.push(entry)?;
    }
    let Some(root) = entries.pop() else {
        unreachable!()
    };
    let Some(number) = root.number else {
        unreachable!()
    };
    close(alloc, formula, lines, &mut added, number)?;
    Ok(added)
}
