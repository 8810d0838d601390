//! From a program to its phases.
ghost use Rattle.std.specs.Prelude.{IfOk, length};
ghost use Rattle.cutting.specs.Orders.{IsOrder};

use crate::clocks::{Known, seal_all};
use crate::finders::{RankColumns, waits_of};
use crate::graph::{Edge, Graph, Needs};
use crate::keys::{codes_of, numbers_of, part};
use crate::knots::{Tie, knots_of};
use crate::lists::{at, put};
use crate::printing::text_of;
use crate::routes::Wildcards;
use crate::strong::components;
use crate::tying::{partner, partners_of, tie_all};
use callorder::{Kind, LongProgram};
use leastrun::least_buffered_run;
use std::alloc::{AllocError, Global};

/// A program that is cut into phases.
#[derive(Drop)]
pub struct Phases {
    /// The text of each phase that differs from the others, as a program of its own.
    pub texts: Vec<Vec<u8>>,
    /// For each phase, one after another, the place of its text, from 0.
    pub order: Vec<usize>,
    /// Of texts with more than 1,024 events why they are no shorter, as far as that is known.
    pub ties: Vec<Tie>,
}

/// What phases need, and the partner of each call.
fn needs_of(
    alloc: Global,
    program: &LongProgram,
) -> Result<(Needs, Vec<Option<usize>>), AllocError> {
    let (run, _state) = least_buffered_run(alloc, program)?;
    let waits = waits_of(alloc, program)?;
    let columns = RankColumns::of(alloc, program, &waits)?;
    let known = Known {
        partners: partners_of(alloc, program, &run)?,
        waits,
        columns,
        wildcards: Wildcards::of(alloc, program)?,
    };
    let mut needs = Needs {
        edges: Vec::new(alloc),
        unordered: Vec::new(alloc),
    };
    tie_all(program, &known.partners, &mut needs.edges)?;
    seal_all(alloc, program, &run, &known, &mut needs)?;
    Ok((needs, known.partners))
}

/// The first component with a send that nobody takes, or a number that is too great for any.
fn first_left(program: &LongProgram, partners: &[Option<usize>], components: &[usize]) -> usize {
    let calls = program.calls();
    let mut first = usize::MAX;
    for place in 0..calls.len() {
        if calls[place].kind.message().is_some() && partner(partners, place).is_none() {
            first = first.min(at(components, place));
        }
    }
    first
}

/// For each call the number of its phase: that of its component, but all from the first on that
/// leaves a message are one phase, the last. Then the edges that aren't ordered.
fn phases_of(alloc: Global, program: &LongProgram) -> Result<(Vec<usize>, Vec<Edge>), AllocError> {
    let (needs, partners) = needs_of(alloc, program)?;
    let graph = Graph::of(alloc, program.calls().len(), &needs.edges)?;
    let mut phases = components(alloc, program, &graph)?;
    let last = first_left(program, &partners, &phases);
    for place in 0..phases.len() {
        let phase = at(&phases, place).min(last);
        put(&mut phases, place, phase);
    }
    Ok((phases, needs.unordered))
}

/// Where the calls of each phase begin in the list of all calls by phase, with the end behind the
/// last, and that list.
fn by_phase(alloc: Global, phases: &[usize]) -> Result<(Vec<usize>, Vec<usize>), AllocError> {
    let mut count = 0;
    for place in 0..phases.len() {
        count = at(phases, place)
            .saturating_add(1)
            .min(phases.len())
            .max(count);
    }
    let mut starts = vec![in alloc; 0; count.saturating_add(2)]?;
    for place in 0..phases.len() {
        let slot = at(phases, place).saturating_add(2);
        let more = at(&starts, slot).saturating_add(1);
        put(&mut starts, slot, more);
    }
    for phase in 1..starts.len() {
        let sum = at(&starts, phase).saturating_add(at(&starts, phase - 1));
        put(&mut starts, phase, sum);
    }
    let mut members = vec![in alloc; 0; phases.len()]?;
    for place in 0..phases.len() {
        let slot = at(phases, place).saturating_add(1);
        let next = at(&starts, slot);
        put(&mut members, next, place);
        put(&mut starts, slot, next.saturating_add(1));
    }
    let _end = starts.pop();
    Ok((starts, members))
}

/// For each receive on a handle its matched probe.
fn probes_of(alloc: Global, program: &LongProgram) -> Result<Vec<usize>, AllocError> {
    let calls = program.calls();
    let mut probes = vec![in alloc; 0; calls.len()]?;
    for place in 0..calls.len() {
        if let Kind::MatchedProbe { receive, .. } = calls[place].kind {
            put(&mut probes, receive, place);
        }
    }
    Ok(probes)
}

/// Cuts a program into phases, each as fine as may be; equal ones are told once. Each number of
/// the order is that of a text, from 0, and each text is in the order; nothing else is promised.
/// The only error is want of memory. Where the program has a run that gets stuck, the phases may be
/// anything.
pub fn cut(alloc: Global, program: &LongProgram) -> Result<Phases, AllocError>
    ensures { IfOk result (λ phases. IsOrder (length phases.texts.items) phases.order.items) }
{
    let (phases, unordered) = phases_of(alloc, program)?;
    let (starts, members) = by_phase(alloc, &phases)?;
    let codes = codes_of(alloc, program, &members)?;
    let numbers = numbers_of(alloc, &codes, &starts)?;
    let probes = probes_of(alloc, program)?;
    let mut knots = knots_of(alloc, program, &phases, &unordered)?;
    let mut texts = Vec::new(alloc);
    let mut order = Vec::new(alloc);
    for phase in 0..numbers.len() {
        let number = numbers[phase].unwrap_or(0).min(texts.len());
        if number == texts.len() {
            let end = at(&starts, phase.saturating_add(1));
            let calls = part(&members, at(&starts, phase), end);
            texts.push(text_of(alloc, program, calls, &probes)?)?;
            knots.note(program, calls, phase, number)?;
        }
        order.push(number)?;
    }
    let ties = knots.ties;
    Ok(Phases { texts, order, ties })
}
