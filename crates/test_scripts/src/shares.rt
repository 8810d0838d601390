//! A pool's calls: by the pool itself, by one `run`, and under a lock by two workers with their
//! seats.
ghost use Rattle.std.specs.Prelude.{◌≡◌, IfSome, [], length};
ghost use Rattle.crossbeam_utils.specs.Seq.{cell_view};
ghost use Rattle.pool.specs.Moves.{AreOfBatch};
ghost use Rattle.pool.specs.Replies.{resolved_lines, DeriveAfter};
ghost use Rattle.pool.specs.States.{next_number};
ghost use Rattle.sharedpool.specs.Views.{knower};

use crate::encodings::encoded;
use crate::given::{Given, Show, add, put_all, tell};
use crate::reading::{cut, event, number, why_of};
use crate::report::{Call, Report};
use crate::scripts::{Section, Subject, judge_calls};
use clauses::LARGEST_VARIABLE;
use encode::Encoded;
use pool::{DerivedLines, Event, Pool, Reply, Share, Status, derived_lines, run};
use refutations::{Batch, PartialAssignment};
use sharedpool::{Cell, PoolName, SharedPool, Token, open_room};
use std::alloc::{AllocError, Global};
use std::marker::Brand;
use std::mem;
use std::sync::Wait;
use std::thread::Threads;
use trees::Tree;

/// A pool, how many calls each worker made before it was handed out, and the reply that is kept.
#[derive(Drop)]
struct Handed {
    pool: Pool,
    counts: Vec<usize>,
    kept: Reply,
}

/// Judges calls of a pool, before which workers made so many.
fn judge_handed(
    pool: Pool,
    counts: Vec<usize>,
    calls: &[Call<'_>],
    given: &mut Given,
    report: &mut Report,
) {
    let mut handed = Handed {
        pool,
        counts,
        kept: Reply::Leave,
    };
    judge_calls(&mut handed, calls, given, report);
    mem::drop(handed);
}

/// Judges calls of a new pool.
pub fn judge_pool<R: Threads + Sync>(
    rt: &R,
    section: Section<'_>,
    given: &mut Given,
    report: &mut Report,
) {
    if let Some(pool) = fresh(rt, section.heading, given) {
        judge_handed(pool, Vec::new(given.alloc), section.calls, given, report);
    }
}

/// A pool with a tree of one leaf over a text's program.
fn fresh<R: Threads + Sync>(rt: &R, text: &str, given: &mut Given) -> Option<Pool>
    ensures { IfSome result (λ pool. pool.history ≡ []) }
{
    match encoded(rt, text, given) {
        Some(encoded) => fresh_of(given.alloc, encoded),
        None => None,
    }
}

fn fresh_of(alloc: Global, encoded: Encoded) -> Option<Pool>
    ensures { IfSome result (λ pool. pool.history ≡ []) }
{
    match one_leaf(alloc, &encoded) {
        Some(tree) => Pool::new(alloc, encoded, tree).ok(),
        None => {
            mem::drop(encoded);
            None
        }
    }
}

fn one_leaf(alloc: Global, encoded: &Encoded) -> Option<Tree>
    ensures { IfSome result (λ tree. tree.variables ≡ encoded.now.formula.variables) }
{
    let variables = encoded.formula().variables();
    if variables > LARGEST_VARIABLE {
        return None;
    }
    Tree::new(alloc, variables).ok()
}

impl Subject for Handed {
    fn answer(&mut self, name: &str, words: &str, given: &mut Given) {
        match name {
            "then" => put_all(self.counts.as_slice(), given),
            "kept" => self.kept.put(given),
            _ => called(&mut self.pool, &mut self.kept, name, words, given),
        }
    }
}

/// Makes a call of the pool.
fn called(pool: &mut Pool, kept: &mut Reply, name: &str, words: &str, given: &mut Given) {
    match name {
        "status" => pool.status().put(given),
        "history" => given.number(pool.history().len()),
        "path" => put_path(pool, words, given),
        "evidence" => put_evidence(pool, given),
        "publish_derived" => publish_derived(pool, words, given),
        "keep_places" => keep_places(pool, words, given),
        "leave_kept" => leave_kept(pool, words, given),
        _ => make(pool, kept, name, words, given),
    }
}

fn put_evidence(pool: &Pool, given: &mut Given) {
    let reply = pool.assemble(given.alloc);
    tell(&reply, given);
    mem::drop(reply);
}

/// Publishes a batch that was derived from the whole log before.
fn publish_derived(pool: &mut Pool, words: &str, given: &mut Given) {
    match event("publish", words, given) {
        Some(Event::Publish { worker, batch }) => {
            match derived_once_more(given.alloc, pool, &batch) {
                Some(lines) => {
                    tell(
                        &pool.publish_as(given.alloc, worker, &batch, Some(lines)),
                        given,
                    );
                }
                None => given.put("not derived"),
            }
            mem::drop(batch);
        }
        other => mem::drop(other),
    }
}

/// The lines, asked for twice where there are none: memory may have been wanting the first time.
fn derived_once_more(alloc: Global, pool: &Pool, batch: &Batch) -> Option<DerivedLines>
    ensures lines { IfSome result (λ d. AreOfBatch batch.now.lines.items d) }
    ensures derived { IfSome result (λ _.
        DeriveAfter pool.now.held.formula pool.now.held.log (resolved_lines (next_number pool.now.held)
        batch.now.lines.items)) }
{
    match derived(alloc, pool, batch) {
        Some(lines) => Some(lines),
        None => derived(alloc, pool, batch),
    }
}

fn derived(alloc: Global, pool: &Pool, batch: &Batch) -> Option<DerivedLines>
    ensures lines { IfSome result (λ d. AreOfBatch batch.now.lines.items d) }
    ensures derived { IfSome result (λ _.
        DeriveAfter pool.now.held.formula pool.now.held.log (resolved_lines (next_number pool.now.held)
        batch.now.lines.items)) }
{
    let _history = pool.history();
    let formula = pool.formula();
    match PartialAssignment::new(alloc, formula.variables()) {
        Ok(mut known) => derived_lines(alloc, &mut known, formula, pool.log(), &batch.lines),
        Err(AllocError) => None,
    }
}

/// Makes a worker's call.
fn make(pool: &mut Pool, kept: &mut Reply, name: &str, words: &str, given: &mut Given) {
    if let Some(event) = event(name, words, given) {
        let reply = made(given.alloc, pool, event);
        put_and_keep(kept, reply, given);
    }
}

/// Writes the reply, and keeps it where it is one to a `fetch`.
fn put_and_keep(kept: &mut Reply, reply: Result<Reply, AllocError>, given: &mut Given) {
    tell(&reply, given);
    if let Ok(Reply::Fetch(lines)) = reply {
        let _before = mem::replace(kept, Reply::Fetch(lines));
    }
}

fn put_path(pool: &Pool, leaf: &str, given: &mut Given) {
    let leaf = number(leaf, given);
    tell(&pool.path(given.alloc, leaf), given);
}

/// Keeps so many places; `most` for the largest number.
fn keep_places(pool: &mut Pool, word: &str, given: &mut Given) {
    let places = if word == "most" {
        usize::MAX
    } else {
        number(word, given) as usize
    };
    tell(&pool.keep_places(places), given);
}

fn leave_kept(pool: &mut Pool, words: &str, given: &mut Given) {
    let (worker, word) = cut(words);
    let worker = number(worker, given);
    tell(&pool.leave_kept(worker, why_of(word)), given);
}

/// Makes a call of the pool.
fn made(alloc: Global, pool: &mut Pool, event: Event) -> Result<Reply, AllocError> {
    match event {
        Event::Publish { worker, batch } => Ok(Reply::Publish(pool.publish(alloc, worker, &batch))),
        Event::Fetch { worker, from } => Ok(Reply::Fetch(pool.fetch(alloc, worker, from))),
        Event::Close {
            worker,
            leaf,
            number,
        } => Ok(Reply::Close(pool.close(worker, leaf, number))),
        Event::Split {
            worker,
            leaf,
            variable,
        } => Ok(Reply::Split(pool.split_leaf(alloc, worker, leaf, variable))),
        Event::Found { worker, steps } => Ok(Reply::Found(pool.found(alloc, worker, steps))),
        Event::Leave { worker, why } => match pool.leave(worker, why) {
            Ok(()) => Ok(Reply::Leave),
            Err(error) => Err(error),
        },
    }
}

/// What a call of a pool was answered.
impl Show for Reply {
    fn put(&self, given: &mut Given) {
        match self {
            Reply::Publish(answer) => tell(answer, given),
            Reply::Fetch(answer) => tell(answer, given),
            Reply::Close(answer) => tell(answer, given),
            Reply::Split(answer) => tell(answer, given),
            Reply::Found(answer) => tell(answer, given),
            Reply::Leave => given.put("ok"),
        }
    }
}

/// Such as `found, 2 open, budget`.
impl Show for Status {
    fn put(&self, given: &mut Given) {
        if self.is_found {
            given.put("found, ");
        }
        given.show(self.open_leaves);
        given.put(" open");
        if let Some(why) = self.why {
            given.put(", ");
            given.show(why);
        }
    }
}

/// Judges the calls before `then` by one run of them all, and the others on the pool that it
/// leaves.
pub fn judge_run<R: Threads + Sync>(
    rt: &R,
    section: Section<'_>,
    given: &mut Given,
    report: &mut Report,
) {
    let events = events_of(section.calls, given);
    if let Some(encoded) = encoded(rt, section.heading, given) {
        judge_run_of(encoded, events.as_slice(), section, given, report);
    }
    mem::drop(events);
}

fn judge_run_of(
    encoded: Encoded,
    events: &[Event],
    section: Section<'_>,
    given: &mut Given,
    report: &mut Report,
) {
    match pool_after(given.alloc, encoded, events) {
        Some((pool, replies)) => {
            let went_on = judge_replies(replies.as_slice(), section.calls, given, report);
            mem::drop(replies);
            let later = if went_on { section.later } else { &[] };
            judge_handed(pool, Vec::new(given.alloc), later, given, report);
        }
        None => given.refuse("not run"),
    }
}

fn pool_after(alloc: Global, encoded: Encoded, events: &[Event]) -> Option<(Pool, Vec<Reply>)> {
    match one_leaf(alloc, &encoded) {
        Some(tree) => run(alloc, encoded, tree, events).ok(),
        None => {
            mem::drop(encoded);
            None
        }
    }
}

fn events_of(calls: &[Call<'_>], given: &mut Given) -> Vec<Event> {
    let mut events = Vec::new(given.alloc);
    for call in calls {
        let (name, words) = cut(&call.text);
        if let Some(event) = event(name, words, given) {
            add(&mut events, event, given);
        }
    }
    events
}

/// Judges calls by these replies, up to one that lacked memory. Answers whether there is none.
fn judge_replies(
    replies: &[Reply],
    calls: &[Call<'_>],
    given: &mut Given,
    report: &mut Report,
) -> bool {
    for (call, reply) in calls.iter().zip(replies) {
        reply.put(given);
        if given.was_memory() {
            return false;
        }
        note(call, given, report);
    }
    true
}

/// Notes the reply that a call was given, and forgets it.
fn note(call: &Call<'_>, given: &mut Given, report: &mut Report) {
    report.note(call, given.reply());
    given.clear();
}

/// Judges the calls before `then` with the seats of two workers, and the others on the pool that is
/// handed out.
pub fn judge_seats<R: Threads + Wait + Sync>(
    rt: &R,
    section: Section<'_>,
    given: &mut Given,
    report: &mut Report,
) {
    if let Some(pool) = fresh(rt, section.heading, given) {
        judge_seats_of(rt, pool, section, given, report);
    }
}

fn judge_seats_of<R: Wait>(
    rt: &R,
    pool: Pool,
    section: Section<'_>,
    given: &mut Given,
    report: &mut Report,
)
    requires { pool.history ≡ [] }
{
    match finished_in(rt, pool, section.calls, given, report) {
        Some((pool, counts)) => judge_handed(pool, counts, section.later, given, report),
        None => given.refuse("not finished"),
    }
}

fn finished_in<R: Wait>(
    rt: &R,
    pool: Pool,
    calls: &[Call<'_>],
    given: &mut Given,
    report: &mut Report,
) -> Option<(Pool, Vec<usize>)>
    requires { pool.history ≡ [] }
{
    match open_room(given.alloc) {
        Ok((cell, keeper)) => finished::<Brand, R>(rt, cell, keeper, pool, calls, given, report),
        Err(_error) => {
            mem::drop(pool);
            None
        }
    }
}

/// The pool after the calls, in a room that has a name, and how many calls each worker made.
fn finished<B: PoolName, R: Wait>(
    rt: &R,
    cell: Cell,
    keeper: Token,
    pool: Pool,
    calls: &[Call<'_>],
    given: &mut Given,
    report: &mut Report,
) -> Option<(Pool, Vec<usize>)>
    requires room { (cell.table.shared.table_id ≡ B.table) × (keeper.table_id ≡ B.table) × (cell_view keeper ≡ knower 0 []) }
    requires fresh { (pool.history ≡ []) × (pool.held ≡ B.opening) }
    requires workers { B.workers ≡ 2 }
{
    let alloc = given.alloc;
    let Ok((shared, mut seats)) = SharedPool::<B>::new(alloc, cell, keeper, pool, 2) else {
        return None;
    };
    judge_shared(rt, &shared, seats.as_mut_slice(), calls, given, report);
    seats.reverse();
    shared.finish(rt, alloc, seats).ok()
}

fn judge_shared<S: Share, R: Wait>(
    rt: &R,
    shared: &S,
    seats: &mut [S::Seat],
    calls: &[Call<'_>],
    given: &mut Given,
    report: &mut Report,
) {
    let mut kept = Reply::Leave;
    for call in calls {
        answer(rt, shared, seats, &call.text, &mut kept, given);
        if given.was_memory() {
            answer(rt, shared, seats, &call.text, &mut kept, given);
        }
        note(call, given, report);
    }
    mem::drop(kept);
}

/// Makes a call that takes no seat, or one that a worker makes with its own.
fn answer<S: Share, R: Wait>(
    rt: &R,
    shared: &S,
    seats: &mut [S::Seat],
    call: &str,
    kept: &mut Reply,
    given: &mut Given,
) {
    let (name, words) = cut(call);
    match name {
        "kept" => kept.put(given),
        "status" => shared.status(rt).put(given),
        "path" => put_shared_path(rt, shared, words, given),
        "evidence" => put_shared_evidence(rt, shared, given),
        _ => {
            if let Some(event) = event(name, words, given) {
                ask(rt, shared, seats, event, kept, given);
            }
        }
    }
}

fn put_shared_evidence<S: Share, R: Wait>(rt: &R, shared: &S, given: &mut Given) {
    let reply = shared.assemble(rt, given.alloc);
    tell(&reply, given);
    mem::drop(reply);
}

fn ask<S: Share, R: Wait>(
    rt: &R,
    shared: &S,
    seats: &mut [S::Seat],
    event: Event,
    kept: &mut Reply,
    given: &mut Given,
) {
    let reply = asked(rt, given.alloc, shared, seats, event);
    put_and_keep(kept, reply, given);
}

fn put_shared_path<S: Share, R: Wait>(rt: &R, shared: &S, leaf: &str, given: &mut Given) {
    let leaf = number(leaf, given);
    tell(&shared.path(rt, given.alloc, leaf), given);
}

/// Makes a worker's call with its seat.
fn asked<S: Share, R: Wait>(
    rt: &R,
    alloc: Global,
    shared: &S,
    seats: &mut [S::Seat],
    event: Event,
) -> Result<Reply, AllocError> {
    match seats.get_mut(worker_of(&event) as usize) {
        Some(seat) => asked_at(rt, alloc, shared, seat, event),
        None => {
            mem::drop(event);
            Err(AllocError)
        }
    }
}

fn asked_at<S: Share, R: Wait>(
    rt: &R,
    alloc: Global,
    shared: &S,
    seat: &mut S::Seat,
    event: Event,
) -> Result<Reply, AllocError> {
    match event {
        Event::Publish { batch, .. } => {
            let number = shared.publish(rt, alloc, seat, &batch);
            mem::drop(batch);
            Ok(Reply::Publish(number))
        }
        Event::Fetch { from, .. } => Ok(Reply::Fetch(shared.fetch(rt, alloc, seat, from))),
        Event::Close { leaf, number, .. } => Ok(Reply::Close(shared.close(rt, seat, leaf, number))),
        Event::Split { leaf, variable, .. } => Ok(Reply::Split(shared.split_leaf(
            rt, alloc, seat, leaf, variable,
        ))),
        Event::Found { steps, .. } => Ok(Reply::Found(shared.found(rt, alloc, seat, steps))),
        Event::Leave { why, .. } => match shared.leave(rt, seat, why) {
            Ok(()) => Ok(Reply::Leave),
            Err(error) => Err(error),
        },
    }
}

/// The worker that makes the call.
fn worker_of(event: &Event) -> u32 {
    match event {
        Event::Publish { worker, .. } => *worker,
        Event::Fetch { worker, .. } => *worker,
        Event::Close { worker, .. } => *worker,
        Event::Split { worker, .. } => *worker,
        Event::Found { worker, .. } => *worker,
        Event::Leave { worker, .. } => *worker,
    }
}
