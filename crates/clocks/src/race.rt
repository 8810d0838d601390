//! The first race of a run.

ghost use Rattle.std.specs.Prelude.{◌≡◌, ◌⊎◌, ◌≤◌, ◌<◌, ℕ, IfOk, IfNone, IfSome, Bool, IsTrue, List, Option, Some, slice_get, true, false};
ghost use Rattle.semantics.specs.RunEnds.{IsFinishedRun};
ghost use Rattle.semantics.specs.Configurations.{IsConfigurationOf};
ghost use Rattle.semantics.specs.Machine.{opening, after_all, partner_of};
ghost use Rattle.races.specs.Races.{BuffersNoneByChoice, NamesSources};
ghost use Rattle.races.specs.Tells.{Table};
ghost use Rattle.semantics.specs.Headline.{NoStuckRun};
ghost use Rattle.std.specs.Global.{Vec};
ghost use Rattle.clocks.specs.parts.Clocks.{AreTold, IsCount, Numbering, IsChecked, IsTaken, block_of};
ghost use Rattle.knowledge.specs.Knowledge.{with_partners};
ghost use Rattle.clocks.specs.Clocks.{HasNoRaceShown, HasRaceOfBlocks, IsNoRace, IsOpenOfBlocks, IsRival, IsRivalOfBlock, IsSingle, IsSurePartner, IsUnordered};
ghost use Rattle.clocks.specs.parts.Exact.{IsAsked, IsUnorderedBy, ShowsFrom};
ghost use Rattle.clocks.specs.parts.Finders.{AreCovers, AreNoRaces, IsListing, IsLookedAt, IsRising, Sends, group_at};
ghost use Rattle.clocks.specs.Spans.{AreSpans};
ghost use Rattle.callorder.specs.Programs.{are_fit, are_of_one_rank};

use crate::classes::{Classes, end_open};
use crate::columns::Columns;
use crate::exact::Exact;
use crate::finders::{Covers, Finders, group_of};
use crate::rows::{Count, reaches, told_of};
use crate::spans::{is_single, name, names_of, no_names};
use crate::unsettled::{needed_ranks, note_first, note_next};
use callorder::{LongProgram, Message};
use knowledge::issue_order;
use leastrun::names_sources;
use semantics::{State, Step};
use std::alloc::{AllocError, Global};

/// A send that may get to a finder before that finder's own. Calls are named by their place in the
/// program's list, from 0.
#[derive(Clone, Copy, Debug, PartialEq, Eq)]
pub struct Race {
    /// The send.
    pub send: usize,
    /// The receive, matched probe or probe.
    pub finder: usize,
}

/// The count that is kept of the call.
fn count_at(told: &[Count], call: usize) -> Option<Count>
    ensures { result ≡ slice_get told.now call }
{
    told.get(call).copied()
}

/// Whether the finder is known to have found wherever the call is issued.
fn is_known(columns: &Columns, told: &[Count], call: usize, finder: usize) -> bool
    ensures { IsTrue result → (knows : Table) → AreTold columns.now knows told.now → IsTrue (knows call finder) }
{
    match count_at(told, call) {
        None => false,
        Some(count) => reaches(columns, &count, finder),
    }
}

/// Whether the send is matched with a call up to the finder, or within its block.
fn is_taken(state: &State, names: &[usize], send: usize, finder: usize) -> bool
    ensures taken { IsTrue result → IsTaken (block_of names.now) state.now send finder }
    ensures later { result ≡ false → (taker : ℕ) → partner_of state.now send ≡ Some taker →
        (taker ≤ finder) ⊎ (block_of names.now taker ≡ block_of names.now finder) → ⊥ }
{
    match state.partner(send) {
        None => false,
        Some(taker) => {
            if taker <= finder {
                return true;
            }
            name(names, taker) == name(names, finder)
        }
    }
}

/// Whether the other send is of the rank of the finder's own, and the finder is a block of its own.
fn is_of_own_rank(
    program: &LongProgram,
    names: &[usize],
    finder: usize,
    own: usize,
    other: usize,
) -> bool
    ensures one { IsTrue result → IsTrue (are_of_one_rank program.now own other) × IsSingle (block_of names.now) finder }
    ensures apart { result ≡ false →
        (are_of_one_rank program.now own other ≡ false) ⊎ (IsSingle (block_of names.now) finder → ⊥) }
{
    if !program.are_of_one_rank(own, other) {
        return false;
    }
    is_single(names, finder)
}

/// Whether it is shown that the other send doesn't race for the finder, which found its own.
fn is_no_race(
    program: &LongProgram,
    state: &State,
    columns: &Columns,
    told: &[Count],
    names: &[usize],
    finder: usize,
    own: usize,
    other: usize,
) -> bool
    requires { AreSpans program.now (block_of names.now) }
    ensures none { IsTrue result → (knows : Table) → AreTold columns.now knows told.now →
        IsNoRace program.now (block_of names.now) state.now knows finder own other }
    ensures rival { result ≡ false → partner_of state.now finder ≡ Some own →
        IsRivalOfBlock program.now (block_of names.now) state.now other finder }
{
    if !program.are_fit(other, finder) {
        return true;
    }
    if is_of_own_rank(program, names, finder, own, other) {
        return true;
    }
    if is_taken(state, names, other, finder) {
        return true;
    }
    is_known(columns, told, other, finder)
}

/// As `is_no_race`, of a finder that may have found nothing.
pub fn is_no_race_if_found(
    program: &LongProgram,
    state: &State,
    columns: &Columns,
    told: &[Count],
    names: &[usize],
    finder: usize,
    other: usize,
) -> bool
    requires { AreSpans program.now (block_of names.now) }
    ensures none { IsTrue result → (knows : Table) → AreTold columns.now knows told.now → (own : ℕ) →
        partner_of state.now finder ≡ Some own →
        IsNoRace program.now (block_of names.now) state.now knows finder own other }
    ensures rival { result ≡ false → IsRivalOfBlock program.now (block_of names.now) state.now other finder }
{
    match state.partner(finder) {
        None => true,
        Some(own) => is_no_race(program, state, columns, told, names, finder, own, other),
    }
}

/// A place of the group of finders: all that stand before it, from this place on, are known to have
/// found wherever the send is issued.
pub fn first_unknown(
    told: &[Count],
    covers: &Covers,
    send: usize,
    group: usize,
    place: usize,
) -> usize
    ensures { (numbering : Numbering) (groups : List (Vec ℕ)) (knows : Table) → AreCovers numbering groups covers.now →
        AreTold numbering knows told.now → (i finder : ℕ) → place ≤ i → i < result →
        slice_get (group_at groups group) i ≡ Some finder → IsTrue (knows send finder) }
{
    match count_at(told, send) {
        None => place,
        Some(count) => covers.first_unknown(group, &count, place),
    }
}

/// The finder at the place of the group, if the send races for it. The only error is want of memory.
fn race_at(
    alloc: Global,
    program: &LongProgram,
    state: &State,
    columns: &Columns,
    told: &[Count],
    names: &[usize],
    finders: &Finders,
    exact: &mut Exact,
    other: usize,
    group: usize,
    place: usize,
) -> Result<Option<usize>, AllocError>
    requires spans { AreSpans program.now (block_of names.now) }
    requires asked { IsAsked program.now exact.old }
    ensures partners { exact.new.partners ≡ exact.old.partners }
    ensures asked { IsAsked program.now exact.new }
    ensures none { IfOk result (λ found.
        IfNone found (ShowsFrom program.now (with_partners exact.old.partners) columns.now told.now
        (IsLookedAt program.now (block_of names.now) state.now (group_at finders.now group) place other))) }
    ensures rival { IfOk result (λ found. IfSome found (IsRivalOfBlock program.now (block_of names.now) state.now other)) }
    ensures unordered { IfOk result (λ found. IfSome found (λ finder.
        IsUnorderedBy program.now (with_partners exact.old.partners) other finder)) }
{
    let Some(finder) = finders.at(group, place) else {
        return Ok(None);
    };
    if is_no_race_if_found(program, state, columns, told, names, finder, other) {
        return Ok(None);
    }
    let is_ordered = exact.tells(alloc, program, finder, other)?;
    if is_ordered {
        return Ok(None);
    }
    Ok(Some(finder))
}

/// The first finder of the group, from one call up to another, for which the send races. The only
/// error is want of memory.
fn race_in_group(
    alloc: Global,
    program: &LongProgram,
    state: &State,
    columns: &Columns,
    told: &[Count],
    names: &[usize],
    finders: &Finders,
    covers: &Covers,
    exact: &mut Exact,
    other: usize,
    group: usize,
    first: usize,
    end: usize,
) -> Result<Option<usize>, AllocError>
    requires spans { AreSpans program.now (block_of names.now) }
    requires rising { IsRising (group_at finders.now group) }
    requires covers { AreCovers columns.now finders.now covers.now }
    requires asked { IsAsked program.now exact.old }
    ensures partners { exact.new.partners ≡ exact.old.partners }
    ensures asked { IsAsked program.now exact.new }
    ensures none { IfOk result (λ found.
        IfNone found (ShowsFrom program.now (with_partners exact.old.partners) columns.now told.now
        (AreNoRaces program.now (block_of names.now) state.now (group_at finders.now group) first end other))) }
    ensures rival { IfOk result (λ found. IfSome found (IsRivalOfBlock program.now (block_of names.now) state.now other)) }
    ensures unordered { IfOk result (λ found. IfSome found (λ finder.
        IsUnorderedBy program.now (with_partners exact.old.partners) other finder)) }
{
    let low = first_unknown(told, covers, other, group, finders.before(group, first));
    let high = finders.before(group, end);
    for place in low..high {
        let found = race_at(
            alloc, program, state, columns, told, names, finders, exact, other, group, place,
        )?;
        if let Some(finder) = found {
            return Ok(Some(finder));
        }
    }
    Ok(None)
}

/// The larger of two.
pub fn larger(one: usize, other: usize) -> usize
    ensures { (n : ℕ) → one ≤ n → other ≤ n → result ≤ n }
{
    if one < other { other } else { one }
}

/// The smaller of two.
pub fn smaller(one: usize, other: usize) -> usize
    ensures { (n : ℕ) → n < one → n < other → n < result }
{
    if one < other { one } else { other }
}

/// The first finder for which the send races, among those that it is to be looked at for, if it is
/// issued. The only error is want of memory.
fn race_of_send(
    alloc: Global,
    program: &LongProgram,
    state: &State,
    columns: &Columns,
    told: &[Count],
    names: &[usize],
    finders: &Finders,
    covers: &Covers,
    classes: &Classes,
    exact: &mut Exact,
    other: usize,
) -> Result<Option<usize>, AllocError>
    requires spans { AreSpans program.now (block_of names.now) }
    requires listing { IsListing program.now (block_of names.now) finders.now }
    requires covers { AreCovers columns.now finders.now covers.now }
    requires asked { IsAsked program.now exact.old }
    ensures partners { exact.new.partners ≡ exact.old.partners }
    ensures asked { IsAsked program.now exact.new }
    ensures none { IfOk result (λ found.
        IfNone found (ShowsFrom program.now (with_partners exact.old.partners) columns.now told.now (λ more.
        IsChecked program.now (block_of names.now) state.now more other))) }
    ensures rival { IfOk result (λ found. IfSome found (IsRivalOfBlock program.now (block_of names.now) state.now other)) }
    ensures unordered { IfOk result (λ found. IfSome found (λ finder.
        IsUnorderedBy program.now (with_partners exact.old.partners) other finder)) }
{
    if !state.is_issued(program, other) {
        return Ok(None);
    }
    let Some(message) = message_of(program, other) else {
        return Ok(None);
    };
    let start = classes.rank_start(program, other);
    let end = end_open(program, state, names, other);
    let last = classes.rank_end(program, other);
    let high = smaller(end, last);
    let groups = finders.count();
    let first = classes.first_open(program, state, names, other);
    let low = larger(first, start);
    let named = group_of(
        groups,
        message.destination,
        message.communicator,
        Some(message.tag),
    );
    let by_tag = race_in_group(
        alloc, program, state, columns, told, names, finders, covers, exact, other, named, low,
        high,
    )?;
    if let Some(finder) = by_tag {
        return Ok(Some(finder));
    }
    let first_any = classes.first_open_of_any(program, state, names, other);
    let low_any = larger(first_any, start);
    let any = group_of(groups, message.destination, message.communicator, None);
    let by_any = race_in_group(
        alloc, program, state, columns, told, names, finders, covers, exact, other, any, low_any,
        high,
    )?;
    Ok(by_any)
}

/// The message of the call, if it is a send.
pub fn message_of(program: &LongProgram, send: usize) -> Option<Message>
    ensures some { IfSome result (Sends program.now send) }
    ensures none { IfNone result ((finder : ℕ) → IsTrue (are_fit program.now send finder) → ⊥) }
{
    match program.call(send) {
        None => None,
        Some(call) => call.kind.message(),
    }
}

/// The first send that races, with the finder. The only error is want of memory.
fn race_in(
    alloc: Global,
    program: &LongProgram,
    state: &State,
    columns: &Columns,
    told: &[Count],
    names: &[usize],
    finders: &Finders,
    covers: &Covers,
    classes: &Classes,
    run: &[Step],
    exact: &mut Exact,
) -> Result<Option<Race>, AllocError>
    requires spans { AreSpans program.now (block_of names.now) }
    requires listing { IsListing program.now (block_of names.now) finders.now }
    requires covers { AreCovers columns.now finders.now covers.now }
    requires asked { IsAsked program.now exact.old }
    ensures none { IfOk result (λ found.
        IfNone found (ShowsFrom program.now (with_partners exact.old.partners) columns.now told.now (λ more.
        (other : ℕ) → IsChecked program.now (block_of names.now) state.now more other))) }
    ensures rival { IfOk result (λ found. IfSome found (λ race.
        IsRivalOfBlock program.now (block_of names.now) state.now race.send race.finder)) }
    ensures unordered { IfOk result (λ found. IfSome found (IsUnordered program.now (with_partners exact.old.partners))) }
{
    for send in 0..program.calls().len() {
        note_next(
            alloc, program, state, columns, told, names, finders, covers, classes, run, exact, send,
        )?;
        let found = race_of_send(
            alloc, program, state, columns, told, names, finders, covers, classes, exact, send,
        )?;
        if let Some(finder) = found {
            return Ok(Some(Race { send, finder }));
        }
    }
    Ok(None)
}

/// The state after the run. The only error is want of memory.
fn last_state(alloc: Global, program: &LongProgram, run: &[Step]) -> Result<State, AllocError>
    requires { IsFinishedRun program.now run.now }
    ensures after { IfOk result (λ state. state ≡ after_all (opening program.now) run.now) }
    ensures of { IfOk result (IsConfigurationOf program.now) }
{
    let mut state = State::start(alloc, program)?;
    for step in run {
        state.apply(program, *step);
    }
    Ok(state)
}

/// The partner of the call, where neither of the two is of a block with others.
fn sure_partner(state: &State, names: &[usize], call: usize) -> Option<usize>
    ensures sure { IfSome result (λ partner. IsSurePartner (block_of names.now) state.now call partner) }
    ensures none { IfNone result ((partner : ℕ) → IsSurePartner (block_of names.now) state.now call partner → ⊥) }
    ensures all { ((c : ℕ) → IsSingle (block_of names.now) c) → result ≡ partner_of state.now call }
{
    match state.partner(call) {
        None => None,
        Some(partner) => {
            if !is_single(names, call) {
                return None;
            }
            if !is_single(names, partner) {
                return None;
            }
            Some(partner)
        }
    }
}

/// For each call its partner, where neither of the two is of a block with others. The only error is
/// want of memory.
fn partners_of(
    alloc: Global,
    program: &LongProgram,
    state: &State,
    names: &[usize],
) -> Result<Vec<Option<usize>>, AllocError>
    requires { IsConfigurationOf program.now state.now }
    ensures sure { IfOk result (λ partners. (c x : ℕ) → partner_of (with_partners partners.items) c ≡ Some x →
        IsSurePartner (block_of names.now) state.now c x) }
    ensures every { IfOk result (λ partners. (c x : ℕ) → IsSurePartner (block_of names.now) state.now c x →
        partner_of (with_partners partners.items) c ≡ Some x) }
    ensures all { IfOk result (λ partners. ((c : ℕ) → IsSingle (block_of names.now) c) → (c : ℕ) →
        partner_of (with_partners partners.items) c ≡ partner_of state.now c) }
{
    let mut partners = Vec::new(alloc);
    for call in 0..program.calls().len() {
        partners.push(sure_partner(state, names, call))?;
    }
    Ok(partners)
}

/// The first race with spans of receives as blocks; where there is one, that with each finder as a
/// block of its own. The only error is want of memory.
fn race_of(
    alloc: Global,
    program: &LongProgram,
    state: &State,
    run: &[Step],
) -> Result<Option<Race>, AllocError>
    requires { IsConfigurationOf program.now state.now }
    ensures none { IfOk result (λ found. IfNone found (HasNoRaceShown program.now state.now)) }
    ensures rival { IfOk result (λ found. IfSome found (IsRival program.now state.now)) }
    ensures unordered { IfOk result (λ found. IfSome found (IsUnordered program.now state.now)) }
    ensures blocks { IfOk result (λ found. IfSome found (λ _race. HasRaceOfBlocks program.now state.now)) }
{
    let names = names_of(alloc, program, state)?;
    match race_by(alloc, program, state, names.as_slice(), run) {
        Err(error) => Err(error),
        Ok(None) => Ok(None),
        Ok(Some(_)) => race_alone(alloc, program, state, run),
    }
}

/// As `race_by`, with each finder as a block of its own. The only error is want of memory.
fn race_alone(
    alloc: Global,
    program: &LongProgram,
    state: &State,
    run: &[Step],
) -> Result<Option<Race>, AllocError>
    requires { IsConfigurationOf program.now state.now }
    ensures none { IfOk result (λ found. IfNone found (HasNoRaceShown program.now state.now)) }
    ensures rival { IfOk result (λ found. IfSome found (IsRival program.now state.now)) }
    ensures unordered { IfOk result (λ found. IfSome found (IsUnordered program.now state.now)) }
{
    let names = no_names(alloc, program);
    race_by(alloc, program, state, names.as_slice(), run)
}

/// The first race, with these names of blocks. The only error is want of memory.
fn race_by(
    alloc: Global,
    program: &LongProgram,
    state: &State,
    names: &[usize],
    run: &[Step],
) -> Result<Option<Race>, AllocError>
    requires spans { AreSpans program.now (block_of names.now) }
    requires of { IsConfigurationOf program.now state.now }
    ensures none { IfOk result (λ found. IfNone found (HasNoRaceShown program.now state.now)) }
    ensures rival { IfOk result (λ found. IfSome found (λ race.
        IsRivalOfBlock program.now (block_of names.now) state.now race.send race.finder)) }
    ensures unordered { IfOk result (λ found. IfSome found (λ race. ((c : ℕ) →
        IsSingle (block_of names.now) c) → IsUnordered program.now state.now race)) }
    ensures blocks { IfOk result (λ found. IfSome found (IsOpenOfBlocks program.now (block_of names.now) state.now)) }
{
    let _calls = program.calls();
    let partners = partners_of(alloc, program, state, names)?;
    let classes = Classes::new(alloc, program)?;
    let none = Columns::none(alloc);
    let finders = Finders::new(alloc, program, names)?;
    let needed = needed_ranks(alloc, program, state, &none, names, &finders, &classes)?;
    let columns = Columns::new(alloc, program, needed.as_slice())?;
    let covers = Covers::new(alloc, &columns, &finders)?;
    let told = told_of(alloc, program, &columns, partners.as_slice(), run)?;
    let order = issue_order(alloc, program, run)?;
    let mut exact = Exact::new(alloc, partners, order);
    note_first(
        alloc,
        program,
        state,
        &columns,
        told.as_slice(),
        names,
        &finders,
        &covers,
        &classes,
        &mut exact,
    )?;
    let found = race_in(
        alloc,
        program,
        state,
        &columns,
        told.as_slice(),
        names,
        &finders,
        &covers,
        &classes,
        run,
        &mut exact,
    )?;
    Ok(found)
}

/// A send that may get to a receive, matched probe or probe before the send that it found in the
/// run, as far as the run tells, and `None` where there is no such send. The run is one that
/// finishes, and in which a standard send is issued as buffered only where the policy has each one
/// buffered, as in what `least_buffered_run` makes.
///
/// Where there is none, no run of the program is stuck. There is none where each receive, matched
/// probe and probe names its source. A race is told only where receives that may stand for one
/// another, taken together as far as they may be, leave one open too. Of the one that is told no rule
/// tells that the send is issued
/// only where the finder has found, but it proves nothing: it may be that no run is stuck even so.
/// Calls, in the steps and in the race, count from 0. The only error is want of memory.
pub fn first_race(
    alloc: Global,
    program: &LongProgram,
    run: &[Step],
) -> Result<Option<Race>, AllocError>
    requires finished { IsFinishedRun program.now run.now }
    requires choice { BuffersNoneByChoice program.now run.now }
    ensures none { result ≡ Ok None → NoStuckRun program.now }
    ensures named { NamesSources program.now → result ≡ Ok None }
    ensures race { IfOk result (λ found. IfSome found (IsRival program.now (after_all (opening program.now) run.now))) }
    ensures unordered { IfOk result (λ found. IfSome found (IsUnordered program.now (after_all (opening program.now) run.now))) }
    ensures blocks { IfOk result (λ found. IfSome found (λ _race. HasRaceOfBlocks program.now (after_all (opening program.now) run.now))) }
{
    let _calls = program.calls();
    if names_sources(program) {
        return Ok(None);
    }
    let state = last_state(alloc, program, run)?;
    race_of(alloc, program, &state, run)
}

/// Whether it is shown that no messages race in a run that ends in this state, stuck or not: no
/// send that it has issued may get to a receive, matched probe or probe before the send that this
/// one found. That it isn't shown proves nothing. The only error is want of memory.
pub fn shows_no_race(
    alloc: Global,
    program: &LongProgram,
    state: &State,
    run: &[Step],
) -> Result<bool, AllocError>
    requires { IsConfigurationOf program.now state.now }
    ensures { result ≡ Ok true → HasNoRaceShown program.now state.now }
{
    let found = race_of(alloc, program, state, run)?;
    Ok(found.is_none())
}
