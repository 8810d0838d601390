//! A node's line.

ghost use Rattle.std.specs.Prelude.{◌≡◌, ◌≢◌, ◌++◌, IfNone, IfSome, OnOk};
ghost use Rattle.refutations.specs.declared.tree.Node.{Node};
ghost use Rattle.prooflog.specs.Refutations.{node_words, item_line, a_node};
ghost use Rattle.prooflog.specs.parts.Reading.{words_of, capped_node};

use crate::words::cut_word;
use plaintext::{is_word, number_of, put_number};
use refutations::Node;
use std::alloc::AllocError;

/// The node of a line; a number above the largest is told as `plaintext::MOST`.
pub fn node_of(line: &[u8]) -> Option<Node>
    ensures none { IfNone result ((n : Node) → node_words n ≢ words_of line.now) }
    ensures some { IfSome result (λ found. (n : Node) × (node_words n ≡ words_of line.now) × (found ≡ capped_node n)) }
{
    let (kind, others) = cut_word(line);
    let Some(word) = others else {
        return None;
    };
    if is_word(kind, "split") {
        let Some(variable) = number_of(word) else {
            return None;
        };
        return Some(Node::Split(variable));
    }
    if is_word(kind, "leaf") {
        let Some(number) = number_of(word) else {
            return None;
        };
        return Some(Node::Leaf(number));
    }
    None
}

/// Writes the node's line at the end.
pub fn put_node(out: &mut Vec<u8>, node: Node) -> Result<(), AllocError>
    ensures { OnOk result (out.new.items ≡ out.old.items ++ item_line (a_node node)) }
{
    match node {
        Node::Split(variable) => {
            out.extend_from_slice(b"split ")?;
            put_number(out, variable)?;
        }
        Node::Leaf(number) => {
            out.extend_from_slice(b"leaf ")?;
            put_number(out, number)?;
        }
    }
    out.push(b'\n')?;
    Ok(())
}
