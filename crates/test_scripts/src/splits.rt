//! Trees whose leaves are split.
use crate::given::{Given, Show, put_all, tell};
use crate::reading::{all, cut, number};
use crate::report::Report;
use crate::scripts::{Section, Subject, judge_calls};
use clauses::LARGEST_VARIABLE;
use refutations::{Node, is_numbered};
use trees::{NodeKind, Tree};

pub fn judge(section: Section<'_>, given: &mut Given, report: &mut Report) {
    let variables = number(section.heading, given);
    if variables > LARGEST_VARIABLE {
        return given.refuse("too many variables");
    }
    match Tree::new(given.alloc, variables) {
        Ok(mut tree) => judge_calls(&mut tree, section.calls, given, report),
        Err(_error) => given.refuse("memory"),
    }
}

impl Subject for Tree {
    fn answer(&mut self, name: &str, words: &str, given: &mut Given) {
        match name {
            "split" => split(self, words, given),
            "nodes" => given.number(self.len()),
            "kind" => self.kind(number(words, given)).put(given),
            "path" => put_path(self, words, given),
            "paths" => self.put(given),
            "proof_tree" => put_preorder(self, words, given),
            _ => given.refuse("not made: no such call"),
        }
    }
}

/// The leaf of this number, or the last node's.
fn leaf_of(tree: &Tree, word: &str, given: &mut Given) -> u32 {
    if word == "last" {
        return tree.len().saturating_sub(1) as u32;
    }
    number(word, given)
}

/// Splits a leaf on a variable, such as `0 2`.
fn split(tree: &mut Tree, words: &str, given: &mut Given) {
    let (leaf, variable) = cut(words);
    let leaf = leaf_of(tree, leaf, given);
    let variable = number(variable, given);
    if !tree.is_leaf(leaf) {
        return given.refuse("not made: no leaf");
    }
    if variable == 0 || variable > tree.variables() {
        return given.refuse("not made: no variable");
    }
    tell(&tree.split_leaf(given.alloc, leaf, variable), given);
}

/// Such as `split 1 3 4`: the variable, and the nodes where it is true and where it is false.
impl Show for Option<NodeKind> {
    fn put(&self, given: &mut Given) {
        match *self {
            None => given.put("none"),
            Some(NodeKind::Leaf) => given.put("leaf"),
            Some(
                NodeKind::Split {
                    variable,
                    if_true,
                    if_false,
                },
            ) => {
                given.put("split");
                put_all(&[variable, if_true, if_false], given);
            }
        }
    }
}

fn put_path(tree: &Tree, word: &str, given: &mut Given) {
    let node = number(word, given);
    if node as usize >= tree.len() {
        return given.refuse("not made: no node");
    }
    put_all(tree.path(node), given);
}

/// The paths of all nodes, with a stroke between them.
impl Show for Tree {
    fn put(&self, given: &mut Given) {
        for node in 0..self.len() {
            if node > 0 {
                given.word("|");
            }
            put_all(self.path(node as u32), given);
        }
    }
}

/// The nodes in preorder, each leaf with the number at its place.
fn put_preorder(tree: &Tree, words: &str, given: &mut Given) {
    let numbers = all::<u32>(words, ' ', given);
    put_numbered(tree, numbers.as_slice(), given);
}

fn put_numbered(tree: &Tree, numbers: &[u32], given: &mut Given) {
    let are_numbers = numbers
        .iter()
        .all(|number| is_numbered(&Node::Leaf(*number)));
    if numbers.len() != tree.len() || !are_numbers {
        return given.refuse("not made: not the numbers of its nodes");
    }
    match tree.proof_tree(given.alloc, numbers) {
        Ok(proof) => put_all(proof.nodes(), given),
        Err(_error) => given.refuse("memory"),
    }
}
