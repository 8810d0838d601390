//! From the bytes of an SPMD text to the text of a program.

ghost use Rattle.std.specs.Prelude.{◌≡◌, ◌++◌, IfErr, IfOk, Ok, OnOk, codes, map, option_map};
ghost use Rattle.plaintext.specs.Plain.{numeral};
ghost use Rattle.unroll.specs.Statements.{text_run};
ghost use Rattle.spmd_program.specs.Maps.{program_map};
ghost use Rattle.spmd_program.specs.Programs.{IsProgramText};
ghost use Rattle.spmd_program.specs.Requests.{AreOrdered, AreUnordered};
ghost use Rattle.spmd_program.specs.Settings.{values_of_settings};
ghost use Rattle.spmd_program.specs.Told.{fault_text};
ghost use Rattle.spmd_program.specs.Unrolling.{IsMapWanted, IsMissetOf, IsRefusal, IsToldUnread, IsUnrolling, IsUnrollingOf, IsWrongOf, TellsRefusal, setting_text, setting_words, told_at};
ghost use Rattle.spmd_program.specs.declared.unrolling.NotUnrolled.TheVariants.{Memory};

use crate::maps::map_text;
use crate::program::program_text;
use crate::requests::ordered;
use crate::settings::{SettingFault, set_all, unset};
use crate::told::{put, put_fault};
use plaintext::put_number;
use spmd_text::{ParseFault, ParseReason, SpmdText, TextFault, parse};
use std::alloc::{AllocError, Global};
use unroll::{Fault, Refusal, Turn, UnrollLimits, Unrolled, Value, unroll};

/// How many turns of loops all ranks together may make: this bounds the time of a text whose loops
/// make no calls.
const TURNS: u64 = 10_000_000;

/// What a text is unrolled to: the text of a program, and its map, where that is wanted.
#[derive(Drop)]
pub struct Unrolling {
    pub program: Vec<u8>,
    pub map: Option<Vec<u8>>,
}

/// Why a text isn't unrolled.
#[derive(Drop)]
pub enum NotUnrolled {
    /// Memory ran out.
    Memory,
    /// What is wrong, in the language's own lines.
    Refused(Vec<u8>),
}

impl From<AllocError> for NotUnrolled {
    ghost from_gives = { λ _ e. e ≡ Memory };

    fn from(_e: AllocError) -> NotUnrolled {
        NotUnrolled::Memory
    }
}

/// Adds the place of a fault of reading.
fn put_line(out: &mut Vec<u8>, path: &str, line: u32) -> Result<(), AllocError>
    ensures { OnOk result (out.new.items ≡ out.old.items ++ (path.now ++ (codes ":" ++ (numeral line ++ codes ": ")))) }
{
    put(out, path)?;
    put(out, ":")?;
    put_number(out, line)?;
    put(out, ": ")
}

/// What is told of a line that can't be read.
fn told_at(alloc: Global, path: &str, fault: ParseFault) -> Result<Vec<u8>, AllocError>
    ensures { IfOk result (λ told. told.items ≡ told_at path.now fault) }
{
    let mut told = Vec::new(alloc);
    put_line(&mut told, path, fault.line)?;
    put(&mut told, fault.reason.text())?;
    Ok(told)
}

/// What is told of bytes that are no text.
fn unread(alloc: Global, path: &str, fault: TextFault) -> NotUnrolled
    ensures { TellsRefusal (IsToldUnread path.now fault) result }
{
    let fault = match fault {
        TextFault::Memory => return NotUnrolled::Memory,
        TextFault::TooLarge => ParseFault {
            line: 1,
            reason: ParseReason::TextTooLarge,
        },
        TextFault::Pieces(fault) | TextFault::Grammar(fault) => fault,
    };
    match told_at(alloc, path, fault) {
        Err(_) => NotUnrolled::Memory,
        Ok(told) => NotUnrolled::Refused(told),
    }
}

fn setting_words(fault: SettingFault) -> &'static str
    ensures { result.now ≡ setting_words fault }
{
    match fault {
        SettingFault::NoEquals => "it is not written NAME=VALUE",
        SettingFault::NoNumber => "the value is no number",
        SettingFault::NoParameter => "the text has no such parameter",
        SettingFault::Twice => "the parameter is set twice",
    }
}

/// What is told of a setting that is wrong.
fn setting_text(
    alloc: Global,
    path: &str,
    word: &str,
    fault: SettingFault,
) -> Result<Vec<u8>, AllocError>
    ensures { IfOk result (λ told. told.items ≡ setting_text path.now (record { word = word.now; why = fault })) }
{
    let mut told = Vec::new(alloc);
    put(&mut told, path)?;
    put(&mut told, ", --set ")?;
    put(&mut told, word)?;
    put(&mut told, ": ")?;
    put(&mut told, setting_words(fault))?;
    Ok(told)
}

/// What is told of a fault of unrolling.
fn fault_text(
    alloc: Global,
    path: &str,
    names: &[Vec<u8>],
    ranks: u32,
    turns: &[Turn],
    fault: Fault,
) -> Result<Vec<u8>, AllocError>
    ensures { IfOk result (λ told. told.items ≡ fault_text path.now names.now ranks turns.now fault) }
{
    let mut told = Vec::new(alloc);
    put_fault(alloc, &mut told, path, names, ranks, turns, fault)?;
    Ok(told)
}

/// The map, where it is wanted.
fn map_wanted(
    alloc: Global,
    path: &str,
    source: &[u8],
    names: &[Vec<u8>],
    unrolled: &Unrolled,
    program: &[u8],
    mapped: bool,
) -> Result<Option<Vec<u8>>, AllocError>
    ensures { IfOk result (λ map. IsMapWanted mapped
        (program_map path.now names.now source.now unrolled.now.turns.items unrolled.now.calls.items program.now)
        (option_map (λ m. m.items) map)) }
{
    if !mapped {
        return Ok(None);
    }
    let map = map_text(
        alloc,
        path,
        source,
        names,
        &unrolled.turns,
        &unrolled.calls,
        program,
    )?;
    Ok(Some(map))
}

/// The program's text, and its map; or what is wrong with requests and handles.
fn printed(
    alloc: Global,
    path: &str,
    source: &[u8],
    ranks: u32,
    text: &SpmdText,
    unrolled: &Unrolled,
    mapped: bool,
) -> Result<Unrolling, NotUnrolled>
    ensures program { IfOk result (λ made.
        IsProgramText text.now.policy text.now.names.items ranks unrolled.now.calls.items made.program.items) }
    ensures ordered { OnOk result (AreOrdered text.now.policy text.now.names.items ranks unrolled.now.calls.items) }
    ensures map { IfOk result (λ made. IsMapWanted mapped
        (program_map path.now text.now.names.items source.now unrolled.now.turns.items unrolled.now.calls.items made.program.items)
        (option_map (λ m. m.items) made.map)) }
    ensures wrong { IfErr result (TellsRefusal (AreUnordered path.now text.now.policy text.now.names.items ranks
        unrolled.now.turns.items unrolled.now.calls.items)) }
{
    let program = program_text(alloc, text.policy, &text.names, ranks, &unrolled.calls)?;
    ordered(alloc, path, ranks, text, unrolled, &program)?;
    let map = map_wanted(alloc, path, source, &text.names, unrolled, &program, mapped)?;
    Ok(Unrolling { program, map })
}

/// The values that settings give to the parameters of a text.
fn values_of(
    alloc: Global,
    path: &str,
    text: &SpmdText,
    settings: &[&str],
) -> Result<Vec<Option<Value>>, NotUnrolled>
    ensures values { IfOk result (λ values. values_of_settings text.now (map (λ s. s.now) settings.entry.now) ≡ Ok values.items) }
    ensures wrong { IfErr result (TellsRefusal (IsMissetOf path.now (map (λ s. s.now) settings.entry.now) text.now)) }
{
    let mut values = unset(alloc, &text.names)?;
    match set_all(text, &mut values, settings) {
        Ok(()) => Ok(values),
        Err(bad) => Err(NotUnrolled::Refused(setting_text(alloc, path, bad.word, bad.fault)?)),
    }
}

/// Unrolls the SPMD text of these bytes, which stand at a path, for so many ranks, 1 to
/// 2,147,483,647, with these settings of its parameters, each written NAME=VALUE, where each
/// collective call is a barrier or waits as little as MPI guarantees. The answer is the
/// text of the program whose call lines are the calls of the text's meaning, as
/// `unroll/specs/Statements.antt` defines it, and the map of that text, where it is wanted. Else it
/// is what is wrong: a fault of the bytes, the first setting that is wrong, or the first fault of
/// the meaning. There is no limit of calls; loops make 10,000,000 turns at most.
pub fn unrolled(
    alloc: Global,
    path: &str,
    source: &[u8],
    ranks: u32,
    settings: &[&str],
    barriers: bool,
    mapped: bool,
) -> Result<Unrolling, NotUnrolled>
    ensures unrolled { IfOk result (λ made.
        IsUnrolling path.now source.now ranks (map (λ s. s.now) settings.entry.now) barriers mapped made.program.items (option_map (λ m. m.items) made.map)) }
    ensures refused { IfErr result (TellsRefusal (IsRefusal path.now source.now ranks (map (λ s. s.now) settings.entry.now) barriers)) }
{
    let text = match parse(alloc, source) {
        Err(fault) => return Err(unread(alloc, path, fault)),
        Ok(text) => text,
    };
    let values = match values_of(alloc, path, &text, settings) {
        Err(why) => return Err(why),
        Ok(values) => values,
    };
    unrolled_with(alloc, path, source, ranks, &text, &values, barriers, mapped)
}

/// Unrolls a text with these values of its parameters.
fn unrolled_with(
    alloc: Global,
    path: &str,
    source: &[u8],
    ranks: u32,
    text: &SpmdText,
    values: &[Option<Value>],
    barriers: bool,
    mapped: bool,
) -> Result<Unrolling, NotUnrolled>
    ensures unrolled { IfOk result (λ made.
        IsUnrollingOf (text_run text.now.program values.now ranks barriers 18446744073709551615 10000000)
        path.now source.now ranks text.now mapped made.program.items (option_map (λ m. m.items) made.map)) }
    ensures refused { IfErr result (TellsRefusal (IsWrongOf (text_run text.now.program values.now ranks barriers
        18446744073709551615 10000000) path.now ranks text.now)) }
{
    let limits = UnrollLimits {
        calls: u64::MAX,
        turns: TURNS,
    };
    match unroll(alloc, &text.program, values, ranks, barriers, limits) {
        Ok(unrolled) => printed(alloc, path, source, ranks, text, &unrolled, mapped),
        Err(Refusal::Memory) => Err(NotUnrolled::Memory),
        Err(Refusal::Faulty { fault, turns }) => Err(NotUnrolled::Refused(fault_text(
            alloc,
            path,
            &text.names,
            ranks,
            &turns,
            fault,
        )?)),
    }
}
