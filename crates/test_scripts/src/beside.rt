//! Searches over sets of matched calls that tell each other which states they closed.
use crate::given::{Given, add};
use crate::reading::cut_number;
use crate::searches::{accept, next_number};
use cdcl::{Found, SolveFault};
use encode::Encoded;
use matchset_search::{ClosedState, InProgress, SHORT, StateSearch};
use pages::Lines;
use refutations::{Batch, Line};
use std::alloc::{AllocError, Global};
use std::mem;
use std::ops::Range;

/// A search, how many lines it has seen, and closed states, and where the lines stand that it wrote
/// last.
#[derive(Drop)]
struct Searcher<'e> {
    search: StateSearch<'e>,
    lines: usize,
    closed: usize,
    own: Range<usize>,
}

/// What all of them wrote and closed.
#[derive(Drop)]
struct Shared<'e> {
    encoded: &'e Encoded,
    lines: Vec<Line>,
    closed: Vec<ClosedState>,
}

/// Has so many searches take turns with this budget, each of a turn of its own, until one closes
/// the program: `COUNT BUDGET MOST`. Tells whether there are no more lines than so many then. The
/// first one may take one turn alone and leave.
pub fn beside(encoded: &Encoded, words: &str, leaves: bool, given: &mut Given) {
    let (count, words) = cut_number(words, given);
    let claims = InProgress::new(given.alloc);
    let mut searchers = Vec::new(given.alloc);
    begin(encoded, &claims, count, &mut searchers, given);
    if !given.is_refused() {
        search_all(encoded, searchers.as_mut_slice(), words, leaves, given);
    }
    mem::drop(searchers);
}

fn begin<'e>(
    encoded: &'e Encoded,
    claims: &'e InProgress,
    count: u32,
    searchers: &mut Vec<Searcher<'e>>,
    given: &mut Given,
) {
    for number in 0..count {
        begin_one(encoded, claims, number, searchers, given);
    }
}

fn begin_one<'e>(
    encoded: &'e Encoded,
    claims: &'e InProgress,
    number: u32,
    searchers: &mut Vec<Searcher<'e>>,
    given: &mut Given,
) {
    match StateSearch::new(given.alloc, encoded) {
        Ok(search) => add(searchers, begun(search, claims, number), given),
        Err(_error) => given.refuse("memory"),
    }
}

fn begun<'e>(mut search: StateSearch<'e>, claims: &'e InProgress, number: u32) -> Searcher<'e> {
    search.share(claims, number);
    Searcher {
        search,
        lines: 0,
        closed: 0,
        own: 0..0,
    }
}

/// Has the searches take turns: `BUDGET MOST`.
fn search_all(
    encoded: &Encoded,
    searchers: &mut [Searcher<'_>],
    words: &str,
    leaves: bool,
    given: &mut Given,
) {
    let (budget, words) = cut_number(words, given);
    let (most, _) = cut_number(words, given);
    let mut shared = Shared {
        encoded,
        lines: Vec::new(given.alloc),
        closed: Vec::new(given.alloc),
    };
    let is_closed = go_on(searchers, &mut shared, u64::from(budget), leaves, given);
    put_end(is_closed, shared.lines.len(), most as usize, given);
    mem::drop(shared);
}

/// Has one search close the program, and then another one, which is told of each state and lemma
/// the line of the next one: `BUDGET MOST`. Tells whether that closes the program, too, with no
/// more lines than so many.
pub fn misled(encoded: &Encoded, words: &str, given: &mut Given) {
    let (budget, words) = cut_number(words, given);
    let (most, _) = cut_number(words, given);
    let budget = u64::from(budget);
    let mut shared = Shared {
        encoded,
        lines: Vec::new(given.alloc),
        closed: Vec::new(given.alloc),
    };
    search_alone(&mut shared, budget, given);
    let before = shared.lines.len();
    mislead(shared.closed.as_mut_slice());
    let is_closed = search_alone(&mut shared, budget, given);
    let lines = shared.lines.len().saturating_sub(before);
    put_end(is_closed, lines, most as usize, given);
    mem::drop(shared);
}

/// Has one more search go on until it closes the program, which is told of all that was closed so
/// far, but imports no line of others. Answers whether it does.
fn search_alone(shared: &mut Shared<'_>, budget: u64, given: &mut Given) -> bool {
    let claims = InProgress::new(given.alloc);
    let mut searchers = Vec::new(given.alloc);
    begin(shared.encoded, &claims, 1, &mut searchers, given);
    for searcher in searchers.iter_mut() {
        if inform(searcher, shared, given.alloc).is_err() {
            given.refuse("memory");
        }
    }
    let is_closed = go_on(searchers.as_mut_slice(), shared, budget, false, given);
    mem::drop(searchers);
    is_closed
}

/// Gives each the line of the next one.
fn mislead(closings: &mut [ClosedState]) {
    for place in 1..closings.len() {
        let number = closings[place].number;
        closings[place].number = closings[place - 1].number;
        closings[place - 1].number = number;
    }
}

/// Tells whether there was an end, and of how many lines.
fn put_end(is_closed: bool, lines: usize, most: usize, given: &mut Given) {
    if !is_closed {
        given.put("no end");
    } else if lines <= most {
        given.put("closed");
    } else {
        given.number(lines);
        given.put(" lines");
    }
}

/// Goes on in rounds, and answers whether one of them closed the program.
fn go_on(
    searchers: &mut [Searcher<'_>],
    shared: &mut Shared<'_>,
    budget: u64,
    leaves: bool,
    given: &mut Given,
) -> bool {
    let mut first = 0usize;
    for _ in 0..1_000 {
        if go_round(searchers, first, shared, budget, given) {
            return true;
        }
        first = usize::from(leaves);
    }
    false
}

/// Has each from this place on take a turn.
fn go_round(
    searchers: &mut [Searcher<'_>],
    first: usize,
    shared: &mut Shared<'_>,
    budget: u64,
    given: &mut Given,
) -> bool {
    for (place, searcher) in searchers.iter_mut().enumerate() {
        if place >= first && take_turn(searcher, shared, budget, given) {
            return true;
        }
    }
    false
}

/// Has one of them search once, with all that the others wrote and closed, and answers whether it
/// closed the program.
fn take_turn(
    searcher: &mut Searcher<'_>,
    shared: &mut Shared<'_>,
    budget: u64,
    given: &mut Given,
) -> bool {
    if learn(searcher, shared, given.alloc).is_err() {
        given.refuse("memory");
        return true;
    }
    let found = searcher.search.search(given.alloc, budget);
    let is_end = take(searcher, shared, &found, given);
    mem::drop(found);
    is_end
}

/// Takes in what a search found, and answers whether it is an end.
fn take(
    searcher: &mut Searcher<'_>,
    shared: &mut Shared<'_>,
    found: &Result<Found, SolveFault>,
    given: &mut Given,
) -> bool {
    match found {
        Ok(Found::Budget(batch)) => {
            tell(searcher, shared, batch, given);
            false
        }
        Ok(Found::Closed(batch, _last)) => {
            tell(searcher, shared, batch, given);
            true
        }
        Ok(Found::Model(_assignment)) => {
            given.refuse("a model");
            true
        }
        Err(SolveFault::Memory) => {
            given.refuse("memory");
            true
        }
        Err(_fault) => {
            given.refuse("a refused search");
            true
        }
    }
}

/// Hands a search, as a worker does, of the lines that it hasn't seen its own and those of two
/// literals at most, and which states were closed meanwhile.
fn learn(
    searcher: &mut Searcher<'_>,
    shared: &Shared<'_>,
    alloc: Global,
) -> Result<(), AllocError> {
    import_new(searcher, shared, alloc)?;
    inform(searcher, shared, alloc)
}

/// Tells a search of the lines that it hasn't seen, and of which states were closed meanwhile.
fn inform(
    searcher: &mut Searcher<'_>,
    shared: &Shared<'_>,
    alloc: Global,
) -> Result<(), AllocError> {
    let lines = lines_of(alloc, shared.lines.get(searcher.lines..).unwrap_or(&[]))?;
    take_in_new(searcher, shared, lines)?;
    searcher.lines = shared.lines.len();
    searcher.closed = shared.closed.len();
    Ok(())
}

fn import_new(
    searcher: &mut Searcher<'_>,
    shared: &Shared<'_>,
    alloc: Global,
) -> Result<(), AllocError> {
    for place in searcher.lines..shared.lines.len() {
        let number = number_at(shared.encoded, place);
        let clause = shared.lines[place].clause();
        let is_taken = clause.literals().len() <= SHORT || searcher.own.contains(&place);
        if is_taken && searcher.search.import(alloc, number, clause).is_err() {
            return Err(AllocError);
        }
    }
    Ok(())
}

fn take_in_new(
    searcher: &mut Searcher<'_>,
    shared: &Shared<'_>,
    lines: Lines,
) -> Result<(), AllocError> {
    let closed = shared.closed.get(searcher.closed..).unwrap_or(&[]);
    match searcher.search.take_in(searcher.lines, lines, closed) {
        Ok(()) => Ok(()),
        Err(_fault) => Err(AllocError),
    }
}

/// The lines, once more.
fn lines_of(alloc: Global, lines: &[Line]) -> Result<Lines, AllocError> {
    let mut copies = Vec::new(alloc);
    match copy(alloc, lines, &mut copies) {
        Ok(()) => Lines::from_vec(alloc, copies),
        Err(error) => {
            mem::drop(copies);
            Err(error)
        }
    }
}

fn copy(alloc: Global, lines: &[Line], copies: &mut Vec<Line>) -> Result<(), AllocError> {
    for line in lines {
        let line = line.copy(alloc)?;
        copies.push(line)?;
    }
    Ok(())
}

/// The number of the line at this place.
fn number_at(encoded: &Encoded, place: usize) -> u32 {
    let number = encoded.formula().len().saturating_add(place);
    u32::try_from(number.saturating_add(1)).unwrap_or(u32::MAX)
}

/// Takes in what a search wrote and closed.
fn tell(searcher: &mut Searcher<'_>, shared: &mut Shared<'_>, batch: &Batch, given: &mut Given) {
    let before = shared.lines.len();
    let formula = shared.encoded.formula();
    let base = next_number(formula, shared.lines.as_slice());
    accept(formula, &mut shared.lines, batch, given);
    searcher.own = before..shared.lines.len();
    match searcher.search.closings(given.alloc, base) {
        Ok(closings) => add_all(&mut shared.closed, closings.as_slice(), given),
        Err(_error) => given.refuse("memory"),
    }
}

fn add_all(closed: &mut Vec<ClosedState>, closings: &[ClosedState], given: &mut Given) {
    for closing in closings {
        add(closed, *closing, given);
    }
}
