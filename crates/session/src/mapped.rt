//! The command `explain` with the map of a program's text.
ghost use Rattle.std.specs.Prelude.{◌≡◌, IfErr, IfOk, List, string_bytes, ℕ};
ghost use Rattle.command_line.specs.Requests.{path_of};
ghost use Rattle.places.specs.Maps.{AreFrom};
ghost use Rattle.places.specs.Woven.{HasPlaces};
ghost use Rattle.session.specs.Explaining.{IsExplainFile, IsExplainPage};
ghost use Rattle.session.specs.Mapping.{IsMapRefused, IsMapped, IsMappedFile, IsPlacedPage, IsPlacedFile, map_words};
ghost use Rattle.session.specs.parts.Pages.{StopsBy};

use crate::commands::{Stop, is_object};
use crate::decide::read_whole;
use crate::explained::explain_page;
use crate::page::{Page, page_with};
use crate::status::REFUSED;
use command_line::ToExplain;
use files::FileSet;
use options::Form;
use places::{MapFault, Places, read_map, with_places};
use std::alloc::{AllocError, Global};
use std::sync::Wait;
use std::thread::Threads;

/// Explains as `explain_page` does, and where a map is named with the places that it has for the
/// lines that are named. No file changes.
pub fn mapped_page<'a, R: Threads + Wait + Sync, F: FileSet>(
    rt: &R,
    alloc: Global,
    asked: ToExplain<'a>,
    files: &mut F,
) -> Result<Page, Stop<'a>>
    ensures page { IfOk result (λ page.
        IsMapped (F.held files.old) asked.entry.program.now asked.entry.form (path_of asked.entry.map)
        (IsExplainPage (F.held files.old) asked.entry.program.now (path_of asked.entry.evidence)
        asked.entry.options.budget asked.entry.form)
        page.text.items page.status) }
    ensures same { F.held files.new ≡ F.held files.old }
    ensures stop { IfErr result (StopsBy
        (IsMappedFile (F.reads files.old) asked.entry.program.now (path_of asked.entry.map)
        (IsExplainFile (F.reads files.old) asked.entry.program.now (path_of asked.entry.evidence)))
        (F.held files.old) (F.held files.new)) }
{
    match asked.map {
        None => explain_page(rt, alloc, asked, files),
        Some(map) => placed_page(rt, alloc, asked, map, files),
    }
}

/// Explains with the places of a map, or tells why it is none of the program's. No file changes.
fn placed_page<'a, R: Threads + Wait + Sync, F: FileSet>(
    rt: &R,
    alloc: Global,
    asked: ToExplain<'a>,
    map: &'a str,
    files: &mut F,
) -> Result<Page, Stop<'a>>
    ensures page { IfOk result (λ page.
        IsPlacedPage (F.held files.old asked.entry.program.now) (F.held files.old map.entry.now) asked.entry.form
        (IsExplainPage (F.held files.old) asked.entry.program.now (path_of asked.entry.evidence)
        asked.entry.options.budget asked.entry.form)
        page.text.items page.status) }
    ensures same { F.held files.new ≡ F.held files.old }
    ensures stop { IfErr result (StopsBy
        (IsPlacedFile (F.reads files.old) asked.entry.program.now map.entry.now
        (IsExplainFile (F.reads files.old) asked.entry.program.now (path_of asked.entry.evidence)))
        (F.held files.old) (F.held files.new)) }
{
    let bytes = read_whole(alloc, map, files)?;
    let text = read_whole(alloc, asked.program, files)?;
    match read_map(alloc, &bytes, &text) {
        Err(MapFault::Memory) => Err(Stop::Memory),
        Err(fault) => Ok(map_refused(alloc, fault, is_object(asked.form))?),
        Ok(places) => {
            let page = explain_page(rt, alloc, asked, files)?;
            Ok(woven_page(alloc, page, asked.form, &places)?)
        }
    }
}

/// The page with the places of the lines that it names.
pub fn woven_page(
    alloc: Global,
    page: Page,
    form: Form,
    places: &Places<'_>,
) -> Result<Page, AllocError>
    ensures text { IfOk result (λ woven. (map : List ℕ) → AreFrom map places.now → HasPlaces form map page.text.items woven.text.items) }
    ensures status { IfOk result (λ woven. woven.status ≡ page.status) }
{
    let text = with_places(alloc, &page.text, form, places)?;
    let status = page.status;
    Ok(Page { text, status })
}

/// The words that tell why a map is refused.
fn map_words(alloc: Global, fault: MapFault) -> Result<String, AllocError>
    ensures { IfOk result (λ words. string_bytes words ≡ map_words fault) }
{
    match fault {
        MapFault::Memory => String::from_str(alloc, "refused memory"),
        MapFault::OtherText => String::from_str(alloc, "refused map of another text"),
        MapFault::Line { line } => {
            let mut words = String::from_str(alloc, "refused map line ")?;
            words.push_str(&line.to_string(alloc)?)?;
            Ok(words)
        }
    }
}

/// The page that tells why a map is refused.
fn map_refused(alloc: Global, fault: MapFault, json: bool) -> Result<Page, AllocError>
    ensures { IfOk result (λ page. IsMapRefused json fault page.text.items page.status) }
{
    let words = map_words(alloc, fault)?;
    page_with(alloc, words, REFUSED, json)
}
