//! Which calls stand in one phase whatever is sent to finders of any source.

use crate::graph::Edge;
use callorder::{Kind, LongProgram};
use semantics::Step;
use std::alloc::{AllocError, Global};

/// Notes the partner of a call.
fn note(partners: &mut [Option<usize>], call: usize, partner: usize) {
    if let Some(entry) = partners.get_mut(call) {
        *entry = Some(partner);
    }
}

/// What each call is matched with, or has seen, behind these steps.
pub fn partners_of(
    alloc: Global,
    program: &LongProgram,
    run: &[Step],
) -> Result<Vec<Option<usize>>, AllocError> {
    let mut partners = vec![in alloc; None; program.calls().len()]?;
    for step in run {
        match step {
            Step::Issue { .. } => {}
            Step::Match { send, taker } => {
                note(&mut partners, *send, *taker);
                note(&mut partners, *taker, *send);
            }
            Step::See { send, probe } => note(&mut partners, *probe, *send),
        }
    }
    Ok(partners)
}

/// The partner of a call, if it has one.
pub fn partner(partners: &[Option<usize>], call: usize) -> Option<usize> {
    partners.get(call).copied().unwrap_or(None)
}

/// Has both calls in one phase.
fn tie(edges: &mut Vec<Edge>, one: usize, other: usize) -> Result<(), AllocError> {
    edges.push(Edge {
        from: one,
        to: other,
    })?;
    edges.push(Edge {
        from: other,
        to: one,
    })?;
    Ok(())
}

/// Ties each call to the one that it ends, and each finder to the send that it found.
pub fn tie_all(
    program: &LongProgram,
    partners: &[Option<usize>],
    edges: &mut Vec<Edge>,
) -> Result<(), AllocError> {
    let calls = program.calls();
    for place in 0..calls.len() {
        match calls[place].kind {
            Kind::Wait { operation } => tie(edges, place, operation)?,
            Kind::MatchedProbe { receive, .. } => tie(edges, place, receive)?,
            _ => {}
        }
        if calls[place].kind.pattern().is_some() {
            if let Some(send) = partner(partners, place) {
                tie(edges, place, send)?;
            }
        }
    }
    Ok(())
}
