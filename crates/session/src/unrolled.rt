//! The command `unroll`, from the file that it names to the page that it prints.
ghost use Rattle.std.specs.Prelude.{◌≡◌, IfErr, IfOk, List, OnOk, is_some, map, option_map, ℕ};
ghost use Rattle.command_line.specs.Requests.{path_of};
ghost use Rattle.session.specs.parts.Pages.{StopsBy};
ghost use Rattle.session.specs.Pages.{ChangesAtMost, IsWritten};
ghost use Rattle.session.specs.Unrolling.{AreWritten, ChangesAtMostTwo, IsFileOf, IsNamedPath, IsProgramPage, IsUnrollFile, IsUnrolledPage, barriers_in, refused_text};
ghost use Rattle.spmd_program.specs.Unrolling.{IsMapWanted};

use crate::commands::{Stop, write};
use crate::decide::read_whole;
use crate::page::Page;
use crate::status::{NO_DEADLOCK, REFUSED};
use command_line::ToUnroll;
use files::FileSet;
use prooflog::Text;
use spmd_program::{NotUnrolled, Unrolling, unrolled};
use std::alloc::{AllocError, Global};

/// Whether collective calls wait for all, as barriers do, by the text behind `--collectives`, where
/// there is one: `least`, which is usual, or `most`. No other text is one.
pub fn barriers_in(collectives: Option<&str>) -> Option<bool>
    ensures { result ≡ barriers_in (path_of collectives.entry) }
{
    match collectives {
        None | Some("least") => Some(false),
        Some("most") => Some(true),
        Some(_) => None,
    }
}

/// Unrolls the SPMD text of a file, where collective calls are barriers or not: the page is the
/// text of the program, or that is written to the file that is named for it; its map is written
/// where a file is named for that. No other file changes. The page is made before the files are, so
/// that none changes where memory runs out.
pub fn unroll_page<'a, F: FileSet>(
    alloc: Global,
    asked: &ToUnroll<'a>,
    barriers: bool,
    files: &mut F,
) -> Result<Page, Stop<'a>>
    ensures page { IfOk result (λ page.
        IsUnrolledPage F.tells_written (F.held files.old) (F.held files.new) asked.now.program.now asked.now.ranks
        (map (λ s. s.now) asked.now.settings.items) barriers (path_of asked.now.out) (path_of asked.now.map)
        page.text.items page.status) }
    ensures others { ChangesAtMostTwo (path_of asked.now.out) (path_of asked.now.map) (F.held files.old) (F.held files.new) }
    ensures stop { IfErr result (StopsBy
        (IsUnrollFile (F.reads files.old) asked.now.program.now asked.now.ranks
        (map (λ s. s.now) asked.now.settings.items) barriers (path_of asked.now.out) (path_of asked.now.map)
        (F.held files.old) (F.held files.new))
        (F.held files.old) (F.held files.new)) }
{
    let source = read_whole(alloc, asked.program, files)?;
    let made = unrolled(
        alloc,
        asked.program,
        &source,
        asked.ranks,
        &asked.settings,
        barriers,
        asked.map.is_some(),
    );
    match made {
        Ok(made) => made_page(alloc, made, asked.out, asked.map, files),
        Err(NotUnrolled::Memory) => Err(Stop::Memory),
        Err(NotUnrolled::Refused(told)) => Ok(refused_page(alloc, &told)?),
    }
}

/// The page of a program that a text is unrolled to.
fn made_page<'a, F: FileSet>(
    alloc: Global,
    made: Unrolling,
    out: Option<&'a str>,
    map: Option<&'a str>,
    files: &mut F,
) -> Result<Page, Stop<'a>>
    ensures page { IfOk result (λ page. IsProgramPage (path_of out.entry) made.program.items page.text.items) }
    ensures status { IfOk result (λ page. page.status ≡ 0) }
    ensures written { OnOk result (AreWritten F.tells_written (F.held files.old) (F.held files.new) (path_of out.entry) (path_of map.entry)
        made.program.items (option_map (λ m. m.items) made.map)) }
    ensures others { ChangesAtMostTwo (path_of out.entry) (path_of map.entry) (F.held files.old) (F.held files.new) }
    ensures stop { IfErr result (StopsBy (IsNamedPath (path_of out.entry) (path_of map.entry))
        (F.held files.old) (F.held files.new)) }
{
    let Unrolling {
        program,
        map: places,
    } = made;
    match out {
        None => {
            write_map(alloc, places, map, files)?;
            Ok(Page {
                text: program,
                status: NO_DEADLOCK,
            })
        }
        Some(path) => {
            let text = Vec::from_slice(alloc, b"unrolled\n")?;
            write(path, &Text::of(alloc, program), files)?;
            write_map(alloc, places, map, files)?;
            Ok(Page {
                text,
                status: NO_DEADLOCK,
            })
        }
    }
}

/// Writes a map to the file that is named for it. Want of memory there is told as that of the file,
/// since another file may be written already.
fn write_map<'a, F: FileSet>(
    alloc: Global,
    places: Option<Vec<u8>>,
    map: Option<&'a str>,
    files: &mut F,
) -> Result<(), Stop<'a>>
    ensures written { OnOk result ((wanted : List ℕ) → IsMapWanted (is_some (path_of map.entry)) wanted (option_map (λ m. m.items) places)
        → IsWritten F.tells_written (F.held files.old) (F.held files.new) (path_of map.entry) wanted) }
    ensures others { ChangesAtMost (path_of map.entry) (F.held files.old) (F.held files.new) }
    ensures stop { IfErr result (IsFileOf (path_of map.entry)) }
{
    let Some(path) = map else {
        return Ok(());
    };
    let Some(places) = places else {
        return Ok(());
    };
    match write(path, &Text::of(alloc, places), files) {
        Ok(()) => Ok(()),
        Err(_) => Err(Stop::File(path)),
    }
}

/// The page of what is wrong with a text.
pub fn refused_page(alloc: Global, told: &[u8]) -> Result<Page, AllocError>
    ensures text { IfOk result (λ page. page.text.items ≡ refused_text told.now) }
    ensures status { IfOk result (λ page. page.status ≡ 3) }
{
    let mut text = Vec::from_slice(alloc, b"refused ")?;
    text.extend_from_slice(told)?;
    text.push(b'\n')?;
    Ok(Page {
        text,
        status: REFUSED,
    })
}
