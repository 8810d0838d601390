//! The events of a program, in a list.

ghost use Rattle.std.specs.Prelude.{◌≡◌, IfOk, get_or, map};
ghost use Rattle.std.specs.List.{filter};
ghost use Rattle.candidates.specs.Pairs.{places};
ghost use Rattle.formula.specs.declared.facts.RunEvent.TheVariants.{Issue as issue_of, Match as match_of};
ghost use Rattle.formula.specs.Families.{events as events_of, finds_message};

use callorder::Program;
use formula::RunEvent;
use formula_tables::is_finder;
use std::alloc::{AllocError, Global};

fn issues(alloc: Global, program: &Program) -> Result<Vec<RunEvent>, AllocError>
    ensures { IfOk result (λ events. events.items ≡ map issue_of (places program.now)) }
{
    (0..program.calls().len())
        .map(|call| RunEvent::Issue(call))
        .collect(alloc)
}

fn matches(alloc: Global, program: &Program) -> Result<Vec<RunEvent>, AllocError>
    ensures { IfOk result (λ events. events.items ≡ map match_of (filter (finds_message program.now) (places program.now))) }
{
    (0..program.calls().len())
        .filter(|call| is_finder(program, *call))
        .map(|finder| RunEvent::Match(finder))
        .collect(alloc)
}

/// The events of the program: the issue of each call, and then the match of each taker and the see
/// of each probe.
pub fn events_of(alloc: Global, program: &Program) -> Result<Vec<RunEvent>, AllocError>
    ensures { IfOk result (λ events. events.items ≡ events_of program.now) }
{
    let mut events = issues(alloc, program)?;
    let mut matches = matches(alloc, program)?;
    events.append(&mut matches)?;
    Ok(events)
}

/// The event at the place. Past the last one it is the issue of the first call, which no text
/// shows.
pub fn event_at(events: &[RunEvent], place: usize) -> RunEvent
    ensures { result ≡ get_or events.now place (issue_of 0) }
{
    match events.get(place) {
        Some(event) => *event,
        None => RunEvent::Issue(0),
    }
}
