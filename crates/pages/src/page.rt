//! Shared pages.

ghost use Rattle.std.specs.Prelude.{◌≡◌, ◌≤◌, ◌++◌, [], drop, length, IfOk, IfErr, OnOk, OnErr, slice_get};
ghost use Rattle.std.specs.Option.{option_map};

use crate::counted::{Counted, all_lines};
use refutations::Line;
use std::alloc::{AllocError, Global};
use std::marker::Model;
use std::mem;
use std::sync::Arc;

/// How many lines a full page has.
pub(crate) const LINES_PER_PAGE: usize = 256;

/// Lines that several owners may share.
#[derive(Debug, Drop)]
pub(crate) struct Page {
    lines: Arc<Vec<Counted>>,
}

impl Model for Page {
    ghost use Rattle.std.specs.Prelude.{List};
    ghost use Rattle.std.specs.Arc.{arc_value};
    ghost use Rattle.refutations.specs.Proofs.{ProofLine};

    ghost Value = { List ProofLine };

    ghost view = { λ page. (arc_value page.lines).items };
}

impl Page {
    /// A page of these lines, which come back where memory runs out.
    pub(crate) fn new(alloc: Global, lines: Vec<Counted>) -> Result<Page, Vec<Counted>>
        ensures made { IfOk result (λ page. page ≡ lines.items) }
        ensures back { IfErr result (λ back. back ≡ lines) }
    {
        match Arc::new(alloc, lines) {
            Ok(lines) => Ok(Page { lines }),
            Err(failed) => Err(failed.value),
        }
    }

    /// The line at this place of the page.
    pub(crate) fn get(&self, place: usize) -> Option<&Counted>
        ensures { option_map (λ line. line.now) result ≡ slice_get self.now place }
    {
        self.lines.get(place)
    }

    /// The lines of the page. Those that nobody else has are moved out, and others copied.
    pub(crate) fn into_lines(self, alloc: Global) -> Result<Vec<Line>, AllocError>
        ensures { IfOk result (λ lines. lines.items ≡ self) }
    {
        match Arc::try_unwrap(self.lines) {
            Ok(lines) => all_lines(alloc, lines),
            Err(shared) => all_lines(alloc, copied(alloc, &shared, 0)?),
        }
    }

    /// The same page once more. Copies no line.
    pub(crate) fn share(&self) -> Result<Page, AllocError>
        ensures { IfOk result (λ page. page ≡ self.now) }
    {
        let lines = Arc::try_clone(&self.lines)?;
        Ok(Page { lines })
    }
}

/// The page of these lines and the others after them, both of which are moved out. Where memory
/// runs out, the first ones are put back.
pub(crate) fn page_of(
    alloc: Global,
    first: &mut Vec<Counted>,
    others: &mut Vec<Counted>,
) -> Result<Page, AllocError>
    ensures made { IfOk result (λ page. page ≡ first.old.items ++ others.old.items) }
    ensures moved { OnOk result (first.new.items ≡ []) }
    ensures unchanged { OnErr result (first.new.items ≡ first.old.items) }
{
    let before = first.len();
    first.reserve_exact(others.len())?;
    first.append(others)?;
    match Page::new(alloc, mem::replace(first, Vec::new(alloc))) {
        Ok(page) => Ok(page),
        Err(mut lines) => {
            lines.truncate(before);
            *first = lines;
            Err(AllocError)
        }
    }
}

/// The same pages once more, from this place on. Copies no line.
pub(crate) fn shared(alloc: Global, pages: &[Page], from: usize) -> Result<Vec<Page>, AllocError>
    requires { from ≤ length pages.now }
    ensures { IfOk result (λ shared. shared.items ≡ drop from pages.now) }
{
    let mut shared = Vec::new(alloc);
    for page in &pages[from..] {
        shared.push(page.share()?)?;
    }
    Ok(shared)
}

/// The same lines once more, from this place on. Copies nothing of them.
pub(crate) fn copied(
    alloc: Global,
    lines: &[Counted],
    from: usize,
) -> Result<Vec<Counted>, AllocError>
    requires { from ≤ length lines.now }
    ensures { IfOk result (λ copied. copied.items ≡ drop from lines.now) }
{
    let mut copied = Vec::with_capacity(alloc, lines.len() - from)?;
    for line in &lines[from..] {
        copied.push(line.share()?)?;
    }
    Ok(copied)
}
