//! The reader.

ghost use Rattle.std.specs.Prelude.{◌≡◌, ◌≢◌, ◌+◌, ◌++◌, ◌∷◌, [], codes, length, map, true, false, IfNone, IfSome, IfOk, IfErr};
ghost use Rattle.plaintext.specs.Plain.{text_lines};
ghost use Rattle.prooflog.specs.Steps.{IsSchedule, written, step_line, schedule_line};
ghost use Rattle.prooflog.specs.Grammar.{IsEvidenceText, heading_line};
ghost use Rattle.prooflog.specs.declared.refutation.Version.TheVariants.{One};
ghost use Rattle.prooflog.specs.Fault.{HasEvidenceFault};
ghost use Rattle.prooflog.specs.parts.Reading.{HasFaultAfter, IsOpened, LinesSoFar};

use crate::ahead::{Ahead, lines_ahead, no_lines};
use crate::evidence::Evidence;
use crate::fault::EvidenceFault;
use crate::refutation::Version;
use crate::refutation_reader::{counts_of, read_refutation};
use crate::schedule::{MOST_STEPS, Schedule};
use crate::step::{step_in_range, step_of};
use plaintext::{is_word, next_line};
use refutations::LARGEST_NUMBER;
use semantics::Step;
use std::alloc::Global;
use std::thread::Threads;

/// The steps from the third line to the end of the text.
fn read_steps(alloc: Global, bytes: &[u8]) -> Result<Schedule, EvidenceFault>
    ensures limits { IfOk result (λ steps. IsSchedule steps) }
    ensures found { IfOk result (λ steps. text_lines bytes.now ≡ map step_line (map written steps) ++ [] ∷ []) }
    ensures fault { IfErr result (λ fault. HasFaultAfter (heading_line One ∷ schedule_line ∷ []) bytes.now fault) }
{
    let mut steps: Vec<Step> = Vec::new(alloc);
    let mut number: u32 = 3;
    let mut rest = bytes;
    while let Some((line, after)) = next_line(rest) {
        let Some(written) = step_of(line) else {
            return Err(EvidenceFault::Syntax { line: number });
        };
        let Some(step) = step_in_range(written) else {
            return Err(EvidenceFault::Range { line: number });
        };
        if steps.len() >= MOST_STEPS {
            return Err(EvidenceFault::TooLarge);
        }
        steps.push(step)?;
        number += 1;
        rest = after;
    }
    if !rest.is_empty() {
        return Err(EvidenceFault::Syntax { line: number });
    }
    Ok(Schedule::of_checked(steps))
}

/// What the second line of an evidence's text says: which kind of evidence follows.
#[derive(Clone, Copy)]
pub enum EvidenceKind {
    /// Steps.
    Schedule,
    /// Proof lines and a tree, for a formula with these counts.
    Refutation {
        version: Version,
        variables: u32,
        clauses: u32,
    },
}

/// The kind of an evidence's text, and what follows its first two lines.
#[derive(Clone, Copy)]
struct Opening<'a> {
    kind: EvidenceKind,
    rest: &'a [u8],
}

/// The version that an evidence's first line tells, which stands here without its LF.
fn version_of(line: &[u8]) -> Option<Version>
    ensures none { IfNone result ((version : Version) → heading_line version ≢ line.now ++ 10 ∷ []) }
    ensures some { IfSome result (λ version. heading_line version ≡ line.now ++ 10 ∷ []) }
{
    if is_word(line, "evidence 1") {
        return Some(Version::One);
    }
    if is_word(line, "evidence 2") {
        return Some(Version::Two);
    }
    None
}

/// Whether an evidence of this version is a schedule, as its second line says. Schedules have
/// version 1 alone.
fn is_schedule(version: Version, line: &[u8]) -> bool
    ensures yes { result ≡ true → (version ≡ Version.One) × (line.now ≡ codes "schedule") }
    ensures no { result ≡ false → version ≡ Version.One → line.now ≢ codes "schedule" }
{
    match version {
        Version::One => is_word(line, "schedule"),
        Version::Two => false,
    }
}

/// The opening of a text, or the fault of the first or second line.
fn opening_of(bytes: &[u8]) -> Result<Opening<'_>, EvidenceFault>
    ensures opened { IfOk result (λ opening. IsOpened bytes.now opening.kind opening.rest.now) }
    ensures fault { IfErr result (λ fault. HasEvidenceFault bytes.now fault) }
{
    let Some((heading, rest)) = next_line(bytes) else {
        return Err(EvidenceFault::Syntax { line: 1 });
    };
    let Some(version) = version_of(heading) else {
        return Err(EvidenceFault::Syntax { line: 1 });
    };
    let Some((kind, rest)) = next_line(rest) else {
        return Err(EvidenceFault::Syntax { line: 2 });
    };
    if is_schedule(version, kind) {
        return Ok(Opening {
            kind: EvidenceKind::Schedule,
            rest,
        });
    }
    let Some((variables, clauses)) = counts_of(kind) else {
        return Err(EvidenceFault::Syntax { line: 2 });
    };
    if variables > LARGEST_NUMBER || clauses > LARGEST_NUMBER {
        return Err(EvidenceFault::Range { line: 2 });
    }
    Ok(Opening {
        kind: EvidenceKind::Refutation {
            version,
            variables,
            clauses,
        },
        rest,
    })
}

/// The evidence whose text opens so. Where it is a refutation, some of its lines were read before.
fn read_opened<'a>(
    alloc: Global,
    bytes: &'a [u8],
    opening: Opening<'a>,
    before: Ahead<'a>,
) -> Result<Evidence, EvidenceFault>
    requires opened { IsOpened bytes.now opening.kind opening.rest.now }
    requires before { LinesSoFar opening.rest.now before.rest.now (3 + length before.lines.items) before.lines.items }
    ensures found { IfOk result (λ evidence. IsEvidenceText bytes.now evidence) }
    ensures fault { IfErr result (λ fault. HasEvidenceFault bytes.now fault) }
{
    match opening.kind {
        EvidenceKind::Schedule => match read_steps(alloc, opening.rest) {
            Ok(schedule) => Ok(Evidence::Schedule(schedule)),
            Err(fault) => Err(fault),
        },
        EvidenceKind::Refutation {
            version,
            variables,
            clauses,
        } => match read_refutation(alloc, opening.rest, version, variables, clauses, before) {
            Ok(refutation) => Ok(Evidence::Refutation(refutation)),
            Err(fault) => Err(fault),
        },
    }
}

/// The evidence that the bytes are the text of, or the fault of their first faulty line.
///
/// It goes over the bytes a fixed number of times, so it takes time linear in their number, and
/// keeps nothing but the evidence, whose literals and hints take four bytes each. `Memory` may be
/// answered for any bytes, and only where a growth was refused.
pub fn read_evidence(alloc: Global, bytes: &[u8]) -> Result<Evidence, EvidenceFault>
    ensures found { IfOk result (λ evidence. IsEvidenceText bytes.now evidence) }
    ensures fault { IfErr result (λ fault. HasEvidenceFault bytes.now fault) }
{
    let opening = match opening_of(bytes) {
        Ok(opening) => opening,
        Err(fault) => return Err(fault),
    };
    read_opened(alloc, bytes, opening, no_lines(alloc, opening.rest))
}

/// The same answer, want of memory aside, with the proof lines of a refutation read in so many
/// parts of about the same size, each in a thread of its own where one can be started, and else by
/// the calling thread. Lines from the first part on that has a fault, or for which memory ran out,
/// are read once more by the calling thread.
pub fn read_evidence_in<R: Threads + Sync>(
    rt: &R,
    alloc: Global,
    bytes: &[u8],
    parts: usize,
) -> Result<Evidence, EvidenceFault>
    ensures found { IfOk result (λ evidence. IsEvidenceText bytes.now evidence) }
    ensures fault { IfErr result (λ fault. HasEvidenceFault bytes.now fault) }
{
    let opening = match opening_of(bytes) {
        Ok(opening) => opening,
        Err(fault) => return Err(fault),
    };
    let before = lines_ahead(rt, alloc, opening.rest, parts);
    read_opened(alloc, bytes, opening, before)
}
