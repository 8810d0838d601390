//! The graph of who waits for whom, in Graphviz's language.

ghost use Rattle.semantics.specs.Machine.{IsStuckRun};

use crate::circles::{Circles, components_of};
use crate::needing::MOST_MISSES;
use crate::wording::put_line;
use callorder::LongProgram;
use calltext::LongSource;
use scene::{Scene, part_word, scene_of};
use semantics::Step;
use std::alloc::{AllocError, Global};
use waits::{Need, Standing, misses_in, need_of, operation_of};

/// The most ranks that are laid out in layers.
const MOST_LAYERED: u32 = 16;

/// Adds how the graph is laid out: of many ranks on a circle.
fn put_layout(out: &mut String, ranks: u32) -> Result<(), AllocError> {
    if ranks <= MOST_LAYERED {
        return Ok(());
    }
    out.push_str("  layout=circo;\n")
}

/// How the node of a rank is drawn that waits: red where it is on a cycle, with a double border
/// where nothing can come.
fn node_style(scene: &Scene<'_>, circles: &Circles, rank: u32) -> &'static str {
    if circles.has_rank(rank, scene.awaited_by(rank)) {
        return ", color=red";
    }
    if scene.lacks(rank) {
        ", peripheries=2"
    } else {
        ""
    }
}

/// Adds the lines of a node's label: that of the call that its rank waits in, and that of the
/// operation that this waits for, where it stands in another line.
fn put_label(out: &mut String, scene: &Scene<'_>, call: usize) -> Result<(), AllocError> {
    put_line(out, scene, call)?;
    let operation = operation_of(scene.program, call);
    if scene.are_in_one_line(call, operation) {
        return Ok(());
    }
    out.push_str("\\nfor ")?;
    put_line(out, scene, operation)
}

/// Adds for how many ranks a rank waits, where not all edges are drawn.
fn put_count(out: &mut String, scene: &Scene<'_>, rank: u32) -> Result<(), AllocError> {
    let count = scene.awaited_by(rank).len();
    if count <= scene.most_of_large() {
        return Ok(());
    }
    write!(out, "\\nwaits for any of {count} ranks")
}

/// Adds the node of a rank: a box where it is finished, else with the call that it waits in.
fn put_node(
    out: &mut String,
    scene: &Scene<'_>,
    circles: &Circles,
    rank: u32,
) -> Result<(), AllocError> {
    let Standing::Waits { call } = scene.standing(rank) else {
        write!(out, "  r{rank} [shape=box, label=\"rank {rank}\\n")?;
        return out.push_str("finished\"];\n");
    };
    write!(out, "  r{rank} [label=\"rank {rank}\\n")?;
    put_label(out, scene, call)?;
    put_count(out, scene, rank)?;
    out.push('"')?;
    out.push_str(node_style(scene, circles, rank))?;
    out.push_str("];\n")
}

/// How an edge is drawn: dashed where it is one of several, red where it is on a cycle.
fn edge_style(is_one_of_several: bool, is_on_cycle: bool) -> &'static str {
    match (is_one_of_several, is_on_cycle) {
        (false, false) => "",
        (false, true) => " [color=red]",
        (true, false) => " [style=dashed]",
        (true, true) => " [style=dashed, color=red]",
    }
}

/// Adds the edges from a rank; in large programs the first ones, and one that is on a cycle, if
/// there is one.
fn put_edges(
    out: &mut String,
    scene: &Scene<'_>,
    circles: &Circles,
    rank: u32,
) -> Result<(), AllocError> {
    let awaited = scene.awaited_by(rank);
    let are_several = awaited.len() > 1;
    let most = scene.most_of_large();
    let mut some_on_cycle = false;
    for (place, other) in awaited.iter().enumerate() {
        let is_on_cycle = circles.has_edge(rank, *other);
        if place < most || (is_on_cycle && !some_on_cycle) {
            let style = edge_style(are_several, is_on_cycle);
            writeln!(out, "  r{rank} -> r{other}{style};")?;
            some_on_cycle |= is_on_cycle;
        }
    }
    Ok(())
}

/// Adds the edge from a rank to that of a call that misses an operation.
fn put_near_miss(
    out: &mut String,
    scene: &Scene<'_>,
    rank: u32,
    operation: usize,
    other: usize,
) -> Result<(), AllocError> {
    let (Some(part), Some(label)) = (
        misses_in(scene.program, operation, other),
        scene.labels.get(other),
    ) else {
        return Ok(());
    };
    let owner = label.rank();
    let line = label.line();
    write!(out, "  r{rank} -> r{owner} [style=dashed, color=gray, ")?;
    write!(out, "label=\"line {line}: other ")?;
    out.push_str(part_word(part))?;
    out.push_str("\"];\n")
}

/// Adds an edge from a rank for each near miss of the call that it waits in, where this waits for a
/// match.
fn put_near_misses(
    out: &mut String,
    alloc: Global,
    scene: &Scene<'_>,
    rank: u32,
) -> Result<(), AllocError> {
    let Standing::Waits { call } = scene.standing(rank) else {
        return Ok(());
    };
    let operation = operation_of(scene.program, call);
    let Some(Need::Match) = need_of(scene.program, &scene.state, operation) else {
        return Ok(());
    };
    let likely = scene.likely_misses(alloc, operation)?;
    for other in likely.iter().take(MOST_MISSES) {
        put_near_miss(out, scene, rank, operation, *other)?;
    }
    Ok(())
}

/// Adds the nodes of all ranks, and the edges from them.
fn put_ranks(
    out: &mut String,
    alloc: Global,
    scene: &Scene<'_>,
    circles: &Circles,
) -> Result<(), AllocError> {
    for rank in 0..scene.program.ranks() {
        put_node(out, scene, circles, rank)?;
        put_edges(out, scene, circles, rank)?;
        put_near_misses(out, alloc, scene, rank)?;
    }
    Ok(())
}

/// The graph of who waits for whom at the end of a run that ends stuck, in the language of
/// Graphviz: a node for each rank with the line and the words of the call that it waits in, a box
/// where it is finished, and with a double border where nothing can come; an edge for each rank
/// that is waited for, solid where that rank is needed and dashed where any of several is enough;
/// the nodes and the edges of all cycles in red; and dashed grey edges to near misses. More than 16
/// ranks are laid out on a circle. `text` is the program's text, `source` what it says, and
/// `program` its calls. The only error is want of memory.
pub fn wait_graph(
    alloc: Global,
    text: &[u8],
    source: &LongSource,
    program: &LongProgram,
    steps: &[Step],
) -> Result<Vec<u8>, AllocError>
    requires { IsStuckRun program.now steps.now }
{
    let scene = scene_of(alloc, text, source, program, steps, false)?;
    let circles = components_of(alloc, &scene.awaited)?;
    let mut out = String::from_str(alloc, "digraph waits {\n")?;
    put_layout(&mut out, program.ranks())?;
    put_ranks(&mut out, alloc, &scene, &circles)?;
    out.push_str("}\n")?;
    Ok(out.into_bytes())
}
