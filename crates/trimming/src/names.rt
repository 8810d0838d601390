//! Numbers that name nothing.

ghost use Rattle.std.specs.Prelude.{◌≡◌, ◌+◌};
ghost use Rattle.std.specs.List.{list_all};
ghost use Rattle.trimming.specs.Needed.{is_clause_or_line, is_named_leaf, name_earlier, are_named};

use refutations::{Line, Node};

/// Whether the number is that of one of so many clauses and lines.
fn is_named(count: usize, number: u32) -> bool
    ensures { result ≡ is_clause_or_line count number }
{
    1 <= number && number as usize <= count
}

fn are_all_named(count: usize, numbers: &[u32]) -> bool
    ensures { result ≡ list_all (is_clause_or_line count) numbers.now }
{
    numbers.iter().all(|number| is_named(count, *number))
}

fn is_named_leaf(count: usize, node: &Node) -> bool
    ensures { result ≡ is_named_leaf count node.now }
{
    match node {
        Node::Split(_) => true,
        Node::Leaf(number) => is_named(count, *number),
    }
}

fn are_named_leaves(count: usize, nodes: &[Node]) -> bool
    ensures { result ≡ list_all (is_named_leaf count) nodes.now }
{
    nodes.iter().all(|node| is_named_leaf(count, node))
}

/// Whether each hint names a clause or an earlier line.
fn name_earlier(clauses: u32, lines: &[Line]) -> bool
    ensures { result ≡ name_earlier clauses lines.now }
{
    for (place, line) in lines.iter().enumerate() {
        let count = clauses as usize + place;
        if !are_all_named(count, line.hints()) {
            return false;
        }
    }
    true
}

/// Whether each hint names a clause or an earlier line, and each leaf a clause or a line, where so
/// many clauses stand before the lines.
pub fn are_named(clauses: u32, lines: &[Line], nodes: &[Node]) -> bool
    ensures { result ≡ are_named clauses lines.now nodes.now }
{
    let count = clauses as usize + lines.len();
    name_earlier(clauses, lines) && are_named_leaves(count, nodes)
}
