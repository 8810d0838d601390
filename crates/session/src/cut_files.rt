//! The command `phases`, from the file that it names to the files that it writes and the page that
//! it prints.
ghost use Rattle.std.specs.Prelude.{◌≡◌, ◌↔◌, ℕ, ◌+◌, ◌<◌, Bool, true, IsTrue, List, [], ◌∷◌, ◌++◌, length, map, Some, Err, IfErr, IfOk, OnOk, codes, decimal, slice_get, string_bytes};
ghost use Rattle.cutting.specs.Orders.{IsOrder};
ghost use Rattle.session.specs.parts.Pages.{StopsBy};
ghost use Rattle.session.specs.parts.Phasing.{ArePathsApart, AreOutputs, AreTexts, IsPageOf, files_of};
ghost use Rattle.session.specs.Phasing.{ChangesThese, ChangesWithin, HaveTexts, Hold, IsCutFile, IsCutPage, IsPartOfCut, IsWrittenCut, Part, cut_line, order_lines, path_in};

use crate::by_phases::{file_name, is_race, path_in};
use crate::commands::{Stop, write};
use crate::decide::{decision_line, read_whole};
use crate::making_up::make_up;
use crate::page::Page;
use crate::status::NO_DEADLOCK;
use crate::ties::told_ties;
use command_line::ToCut;
use cutting::{Phases, cut};
use deciding::{Decision, Undecided, decide, program_of};
use files::FileSet;
use prooflog::Text;
use std::alloc::{AllocError, Global};

/// A file to write.
#[derive(Drop)]
pub struct Output {
    pub path: String,
    pub text: Text,
}

/// What is written of a program that is cut.
#[derive(Drop)]
pub struct Outputs {
    pub files: Vec<Output>,
    pub phases: usize,
    pub different: usize,
    pub jobs: usize,
}

/// Adds a file in a folder.
fn put_file(
    files: &mut Vec<Output>,
    alloc: Global,
    folder: &str,
    name: &str,
    text: Vec<u8>,
) -> Result<(), AllocError>
    ensures { OnOk result (files_of files.new.items ≡
        files_of files.old.items ++ record { path = path_in folder.now name.now; text = text.items } ∷ []) }
{
    let path = path_in(alloc, folder, name)?;
    let text = Text::of(alloc, text);
    files.push(Output { path, text })?;
    Ok(())
}

/// Whether the phase of a text has to be proved: one run doesn't tell.
fn is_job(alloc: Global, text: &[u8]) -> Result<bool, AllocError>
    ensures { IfOk result (λ job. IsPartOfCut (record { text = text.now; job = job })) }
{
    let decision = decide(alloc, text);
    if is_memory(&decision) {
        return Err(AllocError);
    }
    Ok(is_race(&decision))
}

/// Whether memory ran out.
fn is_memory(decided: &Result<Decision, Undecided>) -> bool
    ensures { (result ≡ true) ↔ (decided.now ≡ Err Undecided.Memory) }
{
    match decided {
        Err(Undecided::Memory) => true,
        Err(_why) => false,
        Ok(_decision) => false,
    }
}

/// The texts of phases as files, the paths of those that have to be proved, one a line, and how
/// many these are.
#[derive(Drop)]
pub struct Texts {
    pub files: Vec<Output>,
    pub list: String,
    pub jobs: usize,
}

impl Texts {
    ghost use Rattle.std.specs.Prelude.{◌<◌, cond};
    ghost use Rattle.session.specs.parts.Phasing.{AreTexts};
    ghost use Rattle.session.specs.Phasing.{Part};

    /// Notes of a phase, whose file has this name, whether it has to be proved.
    fn note(&mut self, alloc: Global, folder: &str, name: &str, job: bool) -> Result<(), AllocError>
        ensures files { self.new.files ≡ self.old.files }
        ensures list { OnOk result (string_bytes self.new.list ≡
            string_bytes self.old.list ++ cond job (path_in folder.now name.now ++ codes "\n") []) }
        ensures jobs { OnOk result (self.old.jobs < 18446744073709551615 → self.new.jobs ≡ cond job (self.old.jobs + 1) self.old.jobs) }
    {
        if job {
            self.list.push_str(&path_in(alloc, folder, name)?)?;
            self.list.push('\n')?;
            self.jobs = self.jobs.saturating_add(1);
        }
        Ok(())
    }

    /// Adds the phase behind those that are there.
    fn put(&mut self, alloc: Global, folder: &str, text: Vec<u8>) -> Result<(), AllocError>
        ensures { (parts : List Part) → AreTexts folder.now parts self.old →
            OnOk result ((job : Bool) × AreTexts folder.now (parts ++ record { text = text.items; job = job } ∷ []) self.new) }
    {
        let name = file_name(alloc, self.files.len() + 1, ".mpi")?;
        let job = is_job(alloc, &text)?;
        self.note(alloc, folder, &name, job)?;
        put_file(&mut self.files, alloc, folder, &name, text)?;
        Ok(())
    }
}

/// The files of these texts.
fn texts_of(alloc: Global, folder: &str, texts: Vec<Vec<u8>>) -> Result<Texts, AllocError>
    ensures { IfOk result (λ made. (parts : List Part) × AreTexts folder.now parts made × HaveTexts parts texts.items) }
{
    let mut made = Texts {
        files: Vec::new(alloc),
        list: String::new(alloc),
        jobs: 0,
    };
    for text in texts {
        made.put(alloc, folder, text)?;
    }
    Ok(made)
}

/// The numbers of the phases, from 1, one a line.
fn order_text(alloc: Global, order: &[usize]) -> Result<Vec<u8>, AllocError>
    requires { (place number : ℕ) → slice_get order.now place ≡ Some number → number < 18446744073709551615 }
    ensures { IfOk result (λ text. text.items ≡ order_lines (map (λ number. number + 1) order.now)) }
{
    let mut text = String::new(alloc);
    for place in order {
        text.push_str(&(place + 1).to_string(alloc)?)?;
        text.push('\n')?;
    }
    Ok(text.into_bytes())
}

/// The files of these phases: their texts, then the paths of those that have to be proved, and at
/// last their order, so that no order is there unless all else is.
fn outputs_of(alloc: Global, folder: &str, phases: Phases) -> Result<Outputs, AllocError>
    requires { IsOrder (length phases.texts.items) phases.order.items }
    ensures { IfOk result (AreOutputs folder.now phases) }
{
    let different = phases.texts.len();
    let order = order_text(alloc, &phases.order)?;
    let count = phases.order.len();
    let texts = texts_of(alloc, folder, phases.texts)?;
    let mut files = texts.files;
    put_file(&mut files, alloc, folder, "jobs", texts.list.into_bytes())?;
    put_file(&mut files, alloc, folder, "phases", order)?;
    Ok(Outputs {
        files,
        phases: count,
        different,
        jobs: texts.jobs,
    })
}

/// Writes these files. One that can't be written is told as its folder.
fn write_all<'a, F: FileSet>(
    folder: &'a str,
    outputs: &[Output],
    files: &mut F,
) -> Result<(), Stop<'a>>
    requires { ArePathsApart (files_of outputs.now) }
    ensures held { OnOk result (IsTrue F.tells_written → Hold (files_of outputs.now) (F.held files.new)) }
    ensures others { ChangesThese (files_of outputs.now) (F.held files.old) (F.held files.new) }
    ensures stop { IfErr result (λ stop. stop ≡ Stop.File folder.entry) }
{
    for output in outputs {
        match write(&output.path, &output.text, files) {
            Ok(()) => {}
            Err(_stop) => return Err(Stop::File(folder)),
        }
    }
    Ok(())
}

/// Adds a number behind some words.
fn put_count(
    words: &mut String,
    alloc: Global,
    front: &str,
    number: usize,
) -> Result<(), AllocError>
    ensures { OnOk result (string_bytes words.new ≡ string_bytes words.old ++ (front.now ++ decimal number)) }
{
    words.push_str(front)?;
    words.push_str(&number.to_string(alloc)?)?;
    Ok(())
}

/// The line that tells into how many phases a program is cut, how many of them differ, and how many
/// of those have to be proved.
fn cut_words(
    alloc: Global,
    phases: usize,
    different: usize,
    jobs: usize,
) -> Result<String, AllocError>
    ensures { IfOk result (λ words. string_bytes words ≡ cut_line phases different jobs) }
{
    let mut words = String::new(alloc);
    put_count(&mut words, alloc, "phases ", phases)?;
    put_count(&mut words, alloc, ", different ", different)?;
    put_count(&mut words, alloc, ", to prove ", jobs)?;
    words.push_str("\n")?;
    Ok(words)
}

/// The page that tells how a program is cut, and what is told of phases that are too large.
fn cut_page_of(alloc: Global, outputs: &Outputs, told: &str) -> Result<Page, AllocError>
    ensures { IfOk result (λ page. IsPageOf outputs.now told.now page.text.items page.status) }
{
    let mut words = cut_words(alloc, outputs.phases, outputs.different, outputs.jobs)?;
    words.push_str(told)?;
    let text = words.into_bytes();
    let status = NO_DEADLOCK;
    Ok(Page { text, status })
}

/// Cuts the program of a text, and writes the phases to a folder. All is made before the first file
/// is written, so that none changes where memory runs out.
fn written_page<'a, F: FileSet>(
    alloc: Global,
    text: &[u8],
    folder: &'a str,
    files: &mut F,
) -> Result<Page, Stop<'a>>
    ensures page { IfOk result (λ page.
        IsWrittenCut F.tells_written (F.held files.old) (F.held files.new) folder.entry.now text.now
        page.text.items page.status) }
    ensures within { ChangesWithin folder.entry.now (F.held files.old) (F.held files.new) }
    ensures stop { IfErr result (StopsBy (λ path. path ≡ folder.entry.now) (F.held files.old) (F.held files.new)) }
{
    // The program was made of this text before, so want of memory alone can be met.
    let Ok(program) = program_of(alloc, text) else {
        return Err(Stop::Memory);
    };
    let phases = cut(alloc, &program)?;
    make_up(alloc, &program, &phases)?;
    let told = told_ties(alloc, text, &program, &phases)?;
    let outputs = outputs_of(alloc, folder, phases)?;
    let page = cut_page_of(alloc, &outputs, &told)?;
    write_all(folder, &outputs.files, files)?;
    Ok(page)
}

/// Cuts the program of a file into phases, and writes them to a folder, unless one run decides it;
/// then its decision is told, and no file changes.
pub fn cut_page<'a, F: FileSet>(
    alloc: Global,
    asked: ToCut<'a>,
    files: &mut F,
) -> Result<Page, Stop<'a>>
    ensures page { IfOk result (λ page.
        IsCutPage F.tells_written (F.held files.old) (F.held files.new) asked.entry.program.now asked.entry.out.now
        page.text.items page.status) }
    ensures within { ChangesWithin asked.entry.out.now (F.held files.old) (F.held files.new) }
    ensures stop { IfErr result (StopsBy
        (IsCutFile (F.reads files.old) asked.entry.program.now asked.entry.out.now (F.held files.old) (F.held files.new))
        (F.held files.old) (F.held files.new)) }
{
    let text = read_whole(alloc, asked.program, files)?;
    let decision = decide(alloc, &text);
    if is_race(&decision) {
        return written_page(alloc, &text, asked.out, files);
    }
    Ok(decision_line(alloc, &text, &decision, false)?)
}
