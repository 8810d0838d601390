//! Logs of proof lines.

ghost use Rattle.std.specs.Prelude.{◌≡◌, ◌+◌, ◌++◌, ◌∷◌, [], ◌*◌, ◌≤◌, ◌<◌, ◌^◌, drop, take, length, IfOk, OnOk, OnErr, slice_get, vec_capacity, vec_len};
ghost use Rattle.std.specs.Option.{option_map};
ghost use Rattle.pages.specs.Pages.{joined_pages};

use crate::copies::{are_first, copies};
use crate::counted::{Counted, CountedList, all_counted, all_lines};
use crate::lines::Lines;
use crate::page::{LINES_PER_PAGE, Page, copied, page_of, shared};
use refutations::{Line, LineList};
use std::alloc::{AllocError, Global};
use std::marker::Model;
use std::mem;

/// The largest length of a log. Memory ends long before, but only with a limit are the sums of
/// lengths known to fit.
const LARGEST_LENGTH: usize = usize::MAX / 2;

/// A list of proof lines to which lines are appended. It keeps full pages of 256 lines, which it
/// shares with the lists that it hands out, and the fewer than 256 lines after them.
///
/// It has fewer than 2^63 lines; more are refused as want of memory, which comes long before.
#[derive(Debug, Drop)]
pub struct Log {
    pages: Vec<Page>,
    last: Vec<Counted>,
}

impl Model for Log {
    ghost use Rattle.std.specs.Prelude.{◌++◌, List};
    ghost use Rattle.refutations.specs.Proofs.{ProofLine};
    ghost use Rattle.pages.specs.Pages.{joined_pages, IsPaged};
    ghost use Rattle.pages.specs.declared.page.TheConstants.{LINES_PER_PAGE};

    ghost Value = { List ProofLine };

    ghost view = { λ log. joined_pages log.pages.items ++ log.last.items };

    ghost invariant = { λ log. IsPaged LINES_PER_PAGE log.pages.items log.last.items };
}

/// The log of these lines, of which none is copied.
pub(crate) fn paged(alloc: Global, lines: Vec<Counted>) -> Result<Log, AllocError>
    ensures { IfOk result (λ log. log ≡ lines.items) }
{
    let mut log = Log::new(alloc);
    for line in lines {
        log.push(alloc, line)?;
    }
    Ok(log)
}

/// The lines of these pages, one after another, with room for so many.
fn joined(alloc: Global, pages: Vec<Page>, count: usize) -> Result<Vec<Line>, AllocError>
    ensures { IfOk result (λ lines. lines.items ≡ joined_pages pages.items) }
{
    let mut lines = Vec::with_capacity(alloc, count)?;
    for page in pages {
        lines.append(&mut page.into_lines(alloc)?)?;
    }
    Ok(lines)
}

/// Appends a page and those after it, for which there is room.
fn push_pages(pages: &mut Vec<Page>, page: Page, later: &mut Vec<Page>)
    requires { vec_len pages.old + vec_len later.old + 1 ≤ vec_capacity pages.old }
    ensures { pages.new.items ≡ pages.old.items ++ page ∷ later.old.items }
{
    pages.push(page).unwrap();
    pages.append(later).unwrap();
}

/// The first of these pages and then others, for which there is room behind all.
fn put_behind(pages: &mut Vec<Page>, kept: usize, later: &mut Vec<Page>)
    requires { vec_len pages.old + vec_len later.old ≤ vec_capacity pages.old }
    ensures { pages.new.items ≡ take kept pages.old.items ++ later.old.items }
{
    pages.truncate(kept);
    pages.append(later).unwrap();
}

impl Log {
    /// A log without lines. Takes no memory.
    pub fn new(alloc: Global) -> Log
        ensures { result ≡ [] }
    {
        Log {
            pages: Vec::new(alloc),
            last: Vec::new(alloc),
        }
    }

    /// How many lines it has. Takes no memory.
    pub fn len(&self) -> usize
        ensures same { result ≡ length self.now }
        ensures small { result < 2 ^ 63 }
    {
        self.pages.len() * LINES_PER_PAGE + self.last.len()
    }

    /// The line at this place, counted from 0, in constant time and without memory; there is none
    /// from the length on.
    pub fn get(&self, place: usize) -> Option<&Line>
        ensures { option_map (λ line. line.now) result ≡ slice_get self.now place }
    {
        match self.held_at(place) {
            Some(held) => Some(held.line()),
            None => None,
        }
    }

    /// The line at this place, as it is kept; there is none from the length on.
    pub(crate) fn held_at(&self, place: usize) -> Option<&Counted>
        ensures { option_map (λ line. line.now) result ≡ slice_get self.now place }
    {
        match self.pages.get(place / LINES_PER_PAGE) {
            Some(page) => page.get(place % LINES_PER_PAGE),
            None => self.last.get(place - self.pages.len() * LINES_PER_PAGE),
        }
    }

    /// Appends one line. Where memory runs out, lines may be lost.
    fn push(&mut self, alloc: Global, line: Counted) -> Result<(), AllocError>
        requires { length self.old + 1 < 2 ^ 63 }
        ensures { OnOk result (self.new ≡ self.old ++ line ∷ []) }
    {
        self.last.push(line)?;
        if self.last.len() < LINES_PER_PAGE {
            return Ok(());
        }
        let last = mem::replace(&mut self.last, Vec::new(alloc));
        let Ok(page) = Page::new(alloc, last) else {
            return Err(AllocError);
        };
        self.pages.push(page)?;
        Ok(())
    }

    /// Appends these lines, of which none is copied. Where memory runs out, the log stays as it
    /// was.
    pub fn append(&mut self, alloc: Global, lines: Vec<Line>) -> Result<(), AllocError>
        ensures appended { OnOk result (self.new ≡ self.old ++ lines.items) }
        ensures unchanged { OnErr result (self.new ≡ self.old) }
    {
        self.append_counted(alloc, all_counted(alloc, lines)?)
    }

    /// Appends these lines. Where memory runs out, the log stays as it was.
    fn append_counted(&mut self, alloc: Global, mut lines: Vec<Counted>) -> Result<(), AllocError>
        ensures appended { OnOk result (self.new ≡ self.old ++ lines.items) }
        ensures unchanged { OnErr result (self.new ≡ self.old) }
    {
        if lines.len() > LARGEST_LENGTH - self.len() {
            return Err(AllocError);
        }
        let room = LINES_PER_PAGE - self.last.len();
        if lines.len() < room {
            self.last.append(&mut lines)?;
            return Ok(());
        }
        let later = paged(alloc, lines.split_off(room)?)?;
        let Log {
            pages: mut later,
            last,
        } = later;
        self.pages.reserve(later.len() + 1)?;
        let page = page_of(alloc, &mut self.last, &mut lines)?;
        push_pages(&mut self.pages, page, &mut later);
        self.last = last;
        Ok(())
    }

    /// All lines. Those that are shared with nobody are moved out, and others copied.
    pub fn into_lines(self, alloc: Global) -> Result<Vec<Line>, AllocError>
        ensures { IfOk result (λ lines. lines.items ≡ self) }
    {
        let count = self.len();
        let Log { pages, last } = self;
        let mut lines = joined(alloc, pages, count)?;
        lines.append(&mut all_lines(alloc, last)?)?;
        Ok(lines)
    }

    /// Keeps its first pages, and has all lines of another log follow, whose full pages are shared.
    /// The lines after them are counted. Where memory runs out, it stays as it was.
    fn share(&mut self, alloc: Global, kept: usize, other: &Log) -> Result<(), AllocError>
        requires within { kept * 256 ≤ length self.old }
        requires few { kept * 256 + length other.now < 2 ^ 63 }
        ensures shared { OnOk result (self.new ≡ take (kept * 256) self.old ++ other.now) }
        ensures unchanged { OnErr result (self.new ≡ self.old) }
    {
        let mut later = shared(alloc, &other.pages, 0)?;
        self.pages.reserve(later.len())?;
        let last = copied(alloc, &other.last, 0)?;
        self.last = last;
        put_behind(&mut self.pages, kept, &mut later);
        Ok(())
    }

    /// Keeps its first `from` lines, and has these follow, each of which is counted. Where memory
    /// runs out, it stays as it was.
    fn copy_behind(&mut self, alloc: Global, from: usize, lines: &Lines) -> Result<(), AllocError>
        requires within { from ≤ length self.old }
        requires few { from + length lines.now < 2 ^ 63 }
        ensures copied { OnOk result (self.new ≡ take from self.old ++ lines.now) }
        ensures unchanged { OnErr result (self.new ≡ self.old) }
    {
        let kept = from / LINES_PER_PAGE;
        let mut tail = copies(alloc, self, kept * LINES_PER_PAGE, from)?;
        tail.append(&mut copies(alloc, lines, 0, lines.len())?)?;
        let later = paged(alloc, tail)?;
        self.share(alloc, kept, &later)
    }

    /// Keeps its first `from` lines, and has these follow them. What [`after`](Log::after) handed
    /// out, from this place on, of a log that begins with the same lines, costs as little as there:
    /// its full pages are shared, also in place of lines that this log has, and the lines after them
    /// are counted. Of any other list each line is counted, as far as the log doesn't have it. No
    /// line is copied. Where memory runs out, the log stays as it was; 2^63 lines are refused as
    /// want of memory.
    pub fn follow(&mut self, alloc: Global, from: usize, lines: &Lines) -> Result<(), AllocError>
        requires { from ≤ length self.old }
        ensures followed { OnOk result (self.new ≡ take from self.old ++ lines.now) }
        ensures unchanged { OnErr result (self.new ≡ self.old) }
    {
        let held = self.len() - from;
        if lines.len() > LARGEST_LENGTH - from {
            return Err(AllocError);
        }
        let (log, hidden) = lines.parts();
        let place = from % LINES_PER_PAGE;
        if hidden == place && are_first(self, from - place, place, log) {
            return self.share(alloc, from / LINES_PER_PAGE, log);
        }
        if are_first(self, from, held, lines) {
            return self.append_counted(alloc, copies(alloc, lines, held, lines.len())?);
        }
        self.copy_behind(alloc, from, lines)
    }

    /// Has these lines follow its first `from` ones, of which those in the last page may become
    /// others: pages are shared without a comparison. For a reader who trusts no line. Where
    /// memory runs out, the log stays as it was; 2^63 lines are refused as want of memory.
    pub fn follow_unseen(
        &mut self,
        alloc: Global,
        from: usize,
        lines: &Lines,
    ) -> Result<(), AllocError>
        requires { from ≤ length self.old }
        ensures behind { OnOk result (drop from self.new ≡ lines.now) }
        ensures unchanged { OnErr result (self.new ≡ self.old) }
    {
        if lines.len() > LARGEST_LENGTH - from.min(self.len()) {
            return Err(AllocError);
        }
        let (log, hidden) = lines.parts();
        if hidden == from % LINES_PER_PAGE {
            return self.share(alloc, from / LINES_PER_PAGE, log);
        }
        self.follow(alloc, from, lines)
    }

    /// The lines after the first `from` ones, as they are now. Full pages are shared, so this takes
    /// time in proportion to the pages; at most 255 lines are counted.
    pub fn after(&self, alloc: Global, from: usize) -> Result<Lines, AllocError>
        requires { from ≤ length self.now }
        ensures { IfOk result (λ lines. lines ≡ drop from self.now) }
    {
        let page = from / LINES_PER_PAGE;
        if page < self.pages.len() {
            let pages = shared(alloc, &self.pages, page)?;
            let last = copied(alloc, &self.last, 0)?;
            return Ok(Lines::make(Log { pages, last }, from % LINES_PER_PAGE));
        }
        let start = from - self.pages.len() * LINES_PER_PAGE;
        let last = copied(alloc, &self.last, start)?;
        Ok(Lines::make(
            Log {
                pages: Vec::new(alloc),
                last,
            },
            0,
        ))
    }
}

impl CountedList for Log {
    ghost lines = { λ list. list };

    fn held_at(&self, place: usize) -> Option<&Counted> {
        self.held_at(place)
    }
}

impl LineList for Log {
    ghost lines = { λ list. list };

    fn len(&self) -> usize {
        self.len()
    }

    fn get(&self, place: usize) -> Option<&Line> {
        self.get(place)
    }
}
