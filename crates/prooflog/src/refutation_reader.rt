//! The reader of refutations.

ghost use Rattle.std.specs.Prelude.{◌≡◌, ◌≢◌, ◌+◌, ◌<◌, ◌≤◌, ◌⊎◌, ◌++◌, ◌∷◌, [], ℕ, List, length, map, true, false, IsTrue, IfNone, IfSome, IfOk, IfErr};
ghost use Rattle.std.specs.List.{list_all};
ghost use Rattle.plaintext.specs.Plain.{text_lines};
ghost use Rattle.plaintext.specs.Fronts.{to_end};
ghost use Rattle.refutations.specs.Proofs.{ProofLine, is_tree, are_numbered};
ghost use Rattle.prooflog.specs.Refutations.{item_line, items, a_proof, a_node, the_tree, is_line_in_range, IsSmallRefutation, IsRefutation};
ghost use Rattle.prooflog.specs.parts.Reading.{words_of, capped, counts_words, opening_lines, above_tree, FitsAbove, HasFaultAfter, LinesSoFar};

use crate::ahead::Ahead;
use crate::fault::EvidenceFault;
use crate::node::node_of;
use crate::proof_line::{Unread, proof_line_of};
use crate::refutation::{MOST_DEPTH, MOST_LINES, MOST_NODES, Refutation, Version, push_children};
use crate::words::cut_word;
use plaintext::{is_word, next_line, number_of};
use refutations::{Line, Node, ProofTree, is_numbered};
use std::alloc::Global;

/// The counts of a refutation's heading, where it is one; each above 2,147,483,647 as
/// 2,147,483,648.
pub fn counts_of(line: &[u8]) -> Option<(u32, u32)>
    ensures none { IfNone result ((v c : ℕ) → counts_words v c ≢ words_of line.now) }
    ensures some { IfSome result (λ found. (v : ℕ) × (c : ℕ) × (counts_words v c ≡ words_of line.now) ×
        (found.0 ≡ capped v) × (found.1 ≡ capped c)) }
{
    let (kind, others) = cut_word(line);
    let Some(words) = others else {
        return None;
    };
    if !is_word(kind, "refutation") {
        return None;
    }
    let (first, others) = cut_word(words);
    let Some(second) = others else {
        return None;
    };
    let Some(variables) = number_of(first) else {
        return None;
    };
    let Some(clauses) = number_of(second) else {
        return None;
    };
    Some((variables, clauses))
}

/// The proof lines from the third line of the text on, and what follows the line `tree`. Some of
/// them were read before.
fn read_lines<'a>(
    alloc: Global,
    bytes: &'a [u8],
    before: Ahead<'a>,
) -> Result<(Vec<Line>, &'a [u8]), EvidenceFault>
    requires { LinesSoFar bytes.now before.rest.now (3 + length before.lines.items) before.lines.items }
    ensures cut { IfOk result (λ found.
        text_lines bytes.now ≡ map item_line (map a_proof found.0.items ++ the_tree ∷ []) ++ text_lines
        found.1.now) }
    ensures in_range { IfOk result (λ found. IsTrue (list_all is_line_in_range found.0.items)) }
    ensures few { IfOk result (λ found. length found.0.items ≤ 1000000) }
    ensures fault { IfErr result (λ fault. (version : Version) (v c : ℕ) → v ≤ 2147483647 → c ≤ 2147483647 →
        HasFaultAfter (opening_lines version v c) bytes.now fault) }
{
    let Ahead {
        mut lines,
        mut rest,
    } = before;
    let mut number = lines.len() as u32 + 3;
    while let Some((line, after)) = next_line(rest) {
        if is_word(line, "tree") {
            return Ok((lines, after));
        }
        match proof_line_of(alloc, line) {
            Err(Unread::Memory) => return Err(EvidenceFault::Memory),
            Err(Unread::Syntax) => return Err(EvidenceFault::Syntax { line: number }),
            Err(Unread::Range) => return Err(EvidenceFault::Range { line: number }),
            Ok(line) => {
                if lines.len() >= MOST_LINES {
                    return Err(EvidenceFault::TooLarge);
                }
                lines.push(line)?;
            }
        }
        number += 1;
        rest = after;
    }
    Err(EvidenceFault::Syntax { line: number })
}

/// Whether a node at this depth, after so many nodes, is one too many or stands too deep.
fn is_beyond(count: usize, depth: u32) -> bool
    ensures yes { result ≡ true → (65536 ≤ count) ⊎ (64 < depth) }
    ensures no { result ≡ false → (count < 65536) × (depth ≤ 64) }
{
    count >= MOST_NODES || depth > MOST_DEPTH
}

/// The nodes from the line `first` of the text to its end.
fn read_nodes(alloc: Global, bytes: &[u8], first: u32) -> Result<Vec<Node>, EvidenceFault>
    requires { first ≤ 1000004 }
    ensures cut { IfOk result (λ nodes. text_lines bytes.now ≡ to_end (map item_line (map a_node nodes.items))) }
    ensures small { IfOk result (λ nodes. IsSmallRefutation [] nodes.items) }
    ensures numbered { IfOk result (λ nodes. IsTrue (are_numbered nodes.items)) }
    ensures tree { IfOk result (λ nodes. IsTrue (is_tree nodes.items)) }
    ensures fault { IfErr result (λ fault. (version : Version) (v c : ℕ) (lines : List ProofLine) →
        FitsAbove v c lines → first ≡ length lines + 4 →
        HasFaultAfter (above_tree version v c lines) bytes.now fault) }
{
    let mut nodes: Vec<Node> = Vec::new(alloc);
    let mut waiting: Vec<u32> = Vec::new(alloc);
    waiting.push(0)?;
    let mut number = first;
    let mut rest = bytes;
    while let Some(depth) = waiting.pop() {
        let Some((line, after)) = next_line(rest) else {
            return Err(EvidenceFault::Syntax { line: number });
        };
        let Some(node) = node_of(line) else {
            return Err(EvidenceFault::Syntax { line: number });
        };
        if !is_numbered(&node) {
            return Err(EvidenceFault::Range { line: number });
        }
        if is_beyond(nodes.len(), depth) {
            return Err(EvidenceFault::TooLarge);
        }
        push_children(&mut waiting, depth, &node)?;
        nodes.push(node)?;
        number += 1;
        rest = after;
    }
    if !rest.is_empty() {
        return Err(EvidenceFault::Syntax { line: number });
    }
    Ok(nodes)
}

/// The refutation of these counts whose items stand from the third line of the text to its end,
/// some of its lines read before.
pub fn read_refutation<'a>(
    alloc: Global,
    bytes: &'a [u8],
    version: Version,
    variables: u32,
    clauses: u32,
    before: Ahead<'a>,
) -> Result<Refutation, EvidenceFault>
    requires variables { variables ≤ 2147483647 }
    requires clauses { clauses ≤ 2147483647 }
    requires before { LinesSoFar bytes.now before.rest.now (3 + length before.lines.items) before.lines.items }
    ensures counts { IfOk result (λ r. (r.version ≡ version) × (r.variables ≡ variables) × (r.clauses ≡ clauses)) }
    ensures limits { IfOk result (λ r. IsRefutation r) }
    ensures cut { IfOk result (λ r. text_lines bytes.now ≡ to_end (map item_line (items r))) }
    ensures fault { IfErr result (λ fault. HasFaultAfter (opening_lines version variables clauses) bytes.now fault) }
{
    let (lines, rest) = match read_lines(alloc, bytes, before) {
        Ok(found) => found,
        Err(fault) => return Err(fault),
    };
    let nodes = match read_nodes(alloc, rest, lines.len() as u32 + 4) {
        Ok(nodes) => nodes,
        Err(fault) => return Err(fault),
    };
    match ProofTree::make(nodes) {
        Ok(tree) => Ok(Refutation::of_checked(version, variables, clauses, lines, tree)),
        Err(_nodes) => unreachable!(),
    }
}
