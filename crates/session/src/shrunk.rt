//! The command `shrink`, from the file that it names to the page that it prints.
ghost use Rattle.std.specs.Prelude.{◌≡◌, ◌++◌, IfErr, IfOk, OnOk, codes};
ghost use Rattle.command_line.specs.Requests.{path_of};
ghost use Rattle.session.specs.parts.Pages.{StopsBy};
ghost use Rattle.session.specs.Pages.{ChangesAtMost, IsWritten};
ghost use Rattle.session.specs.Unrolling.{ChangesAtMostTwo, IsFileOf, IsNamedPath};
ghost use Rattle.shrinking.specs.Left.{AreLeft};
ghost use Rattle.shrinking.specs.Mapping.{map_text};
ghost use Rattle.shrinking.specs.Told.{left_text};
ghost use Rattle.session.specs.parts.Shrinking.{IsNotSmaller, IsUnshrunkPage};
ghost use Rattle.session.specs.Shrinking.{AreWritten, IsBeyond, IsMadeSmaller, IsShrinkFile, IsSmaller, IsSmallerPage};

use crate::commands::{Stop, write};
use crate::decide::read_whole;
use crate::explained::undecided_page;
use crate::page::Page;
use crate::status::UNKNOWN;
use crate::told::Outcome;
use command_line::ToShrink;
use deciding::Undecided;
use files::FileSet;
use options::Form;
use prooflog::Text;
use prover::Reason;
use shrinking::{NotShrunk, NotShrunkLong, Shrunk, left_line, left_map, shrink, shrink_long};
use std::alloc::{AllocError, Global};

/// How many walks are taken at most to make a program smaller, or few more.
const WALKS: u32 = 20_000;

/// How many lines are read and run at most to make a program smaller that is beyond the limits of
/// `prove`, or few more.
const WORK: u64 = 50_000_000;

/// Makes the program of a file smaller, so that it still gets stuck: the page is the smaller
/// program, or it is written to the file that is named, and the page tells a deadlock and which
/// lines are left. Its map is written where a file is named for that. No other file changes. The
/// page and the map are made before the files are, so that no file changes where memory runs out.
pub fn shrink_page<'a, F: FileSet>(
    alloc: Global,
    asked: ToShrink<'a>,
    files: &mut F,
) -> Result<Page, Stop<'a>>
    ensures page { IfOk result (λ page.
        IsMadeSmaller F.tells_written (F.held files.old) (F.held files.new) asked.entry.program.now
        (path_of asked.entry.out) (path_of asked.entry.map) page.text.items page.status) }
    ensures others { ChangesAtMostTwo (path_of asked.entry.out) (path_of asked.entry.map) (F.held files.old) (F.held files.new) }
    ensures stop { IfErr result (StopsBy
        (IsShrinkFile (F.reads files.old) asked.entry.program.now (path_of asked.entry.out) (path_of asked.entry.map)
        (F.held files.old) (F.held files.new))
        (F.held files.old) (F.held files.new)) }
{
    let text = read_whole(alloc, asked.program, files)?;
    match smaller_program(alloc, &text) {
        Ok(shrunk) => smaller_page(alloc, asked, shrunk, files),
        Err(why) => Ok(unshrunk_page(alloc, &text, why)?),
    }
}

/// A smaller program, or why there is none: within the limits of `prove` by walks, and beyond them
/// by one run.
fn smaller_program(alloc: Global, text: &[u8]) -> Result<Shrunk, NotShrunkLong>
    ensures smaller { IfOk result (λ shrunk. IsSmaller text.now shrunk.text.items) }
    ensures left { IfOk result (λ shrunk. AreLeft text.now shrunk.text.items shrunk.lines.items) }
    ensures why { IfErr result (IsNotSmaller text.now) }
{
    match shrink(alloc, text, WALKS) {
        Ok(shrunk) => Ok(shrunk),
        Err(NotShrunk::NothingHangs) => Err(NotShrunkLong::NothingHangs),
        Err(NotShrunk::Refused(reason)) => {
            if reason == Reason::Memory {
                return Err(NotShrunkLong::Undecided(Undecided::Memory));
            }
            smaller_long_program(alloc, text)
        }
    }
}

/// The same of a text that is beyond those limits.
fn smaller_long_program(alloc: Global, text: &[u8]) -> Result<Shrunk, NotShrunkLong>
    requires { IsBeyond text.now }
    ensures smaller { IfOk result (λ shrunk. IsSmaller text.now shrunk.text.items) }
    ensures left { IfOk result (λ shrunk. AreLeft text.now shrunk.text.items shrunk.lines.items) }
    ensures why { IfErr result (IsNotSmaller text.now) }
{
    match shrink_long(alloc, text, WORK) {
        Ok(shrunk) => Ok(shrunk),
        Err(why) => Err(why),
    }
}

/// The page of a smaller program, which is made before the files are written.
fn smaller_page<'a, F: FileSet>(
    alloc: Global,
    asked: ToShrink<'a>,
    shrunk: Shrunk,
    files: &mut F,
) -> Result<Page, Stop<'a>>
    ensures page { IfOk result (λ page. IsSmallerPage (path_of asked.entry.out) shrunk.text.items shrunk.lines.items page.text.items) }
    ensures status { IfOk result (λ page. page.status ≡ 1) }
    ensures written { OnOk result (AreWritten F.tells_written (F.held files.old) (F.held files.new)
        (path_of asked.entry.out) (path_of asked.entry.map) shrunk.text.items
        (map_text asked.entry.program.now shrunk.text.items shrunk.lines.items)) }
    ensures others { ChangesAtMostTwo (path_of asked.entry.out) (path_of asked.entry.map) (F.held files.old) (F.held files.new) }
    ensures stop { IfErr result (StopsBy (IsNamedPath (path_of asked.entry.out) (path_of asked.entry.map))
        (F.held files.old) (F.held files.new)) }
{
    let places = left_map(alloc, asked.program, &shrunk.text, &shrunk.lines)?;
    let places = Text::of(alloc, places);
    let status = Outcome::Deadlock.status();
    match asked.out {
        None => {
            write_places(asked.map, &places, files)?;
            Ok(Page {
                text: shrunk.text,
                status,
            })
        }
        Some(path) => {
            let text = told_left(alloc, &shrunk.lines)?;
            write(path, &Text::of(alloc, shrunk.text), files)?;
            write_places(asked.map, &places, files)?;
            Ok(Page { text, status })
        }
    }
}

/// The lines that tell a deadlock, and which lines of the given program are left.
fn told_left(alloc: Global, lines: &[usize]) -> Result<Vec<u8>, AllocError>
    ensures { IfOk result (λ text. text.items ≡ codes "deadlock\n" ++ left_text lines.now) }
{
    let mut text = Vec::from_slice(alloc, b"deadlock\n")?;
    let line = left_line(alloc, lines)?;
    text.extend_from_slice(&line)?;
    Ok(text)
}

/// Writes a map to the file that is named for it. Want of memory there is told as that of the file,
/// since another file may be written already.
fn write_places<'a, F: FileSet>(
    map: Option<&'a str>,
    places: &Text,
    files: &mut F,
) -> Result<(), Stop<'a>>
    ensures written { OnOk result (IsWritten F.tells_written (F.held files.old) (F.held files.new) (path_of map.entry) places.now) }
    ensures others { ChangesAtMost (path_of map.entry) (F.held files.old) (F.held files.new) }
    ensures stop { IfErr result (IsFileOf (path_of map.entry)) }
{
    let Some(path) = map else {
        return Ok(());
    };
    match write(path, places, files) {
        Ok(()) => Ok(()),
        Err(_) => Err(Stop::File(path)),
    }
}

/// The page that tells why there is no smaller program.
fn unshrunk_page(alloc: Global, program: &[u8], why: NotShrunkLong) -> Result<Page, AllocError>
    ensures { IfOk result (λ page. IsUnshrunkPage why page.text.items page.status) }
{
    match why {
        NotShrunkLong::NothingHangs => {
            let text = Vec::from_slice(alloc, b"unknown walks\n")?;
            Ok(Page {
                text,
                status: UNKNOWN,
            })
        }
        NotShrunkLong::Undecided(why) => undecided_page(alloc, program, &why, Form::Brief),
    }
}
