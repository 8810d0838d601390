//! The formula of a program, if it has one, and what it tells.

ghost use Rattle.std.specs.Prelude.{◌≡◌, IfOk, IfSome, map};
ghost use Rattle.candidates.specs.Pairs.{pairs_of};
ghost use Rattle.nonovertake.specs.Earlier.{earlier_of};
ghost use Rattle.frequency.specs.Frequencies.{IsFrequency};

use crate::searching::frequency_of_encoded;
use callorder::Program;
use candidates::{PairFault, Pairs, pairs};
use encode::{EncodeFault, Encoded, encode};
use frequency::Frequency;
use nonovertake::{Earlier, earlier};
use std::alloc::{AllocError, Global};
use std::thread::Threads;

/// The fitting pairs of the program; none where there are more than 8,192.
fn few_pairs(alloc: Global, program: &Program) -> Result<Option<Pairs>, AllocError>
    ensures { IfOk result (λ found. IfSome found (λ pairs. pairs ≡ pairs_of program.now)) }
{
    match pairs(alloc, program) {
        Ok(pairs) => Ok(Some(pairs)),
        Err(PairFault::Memory) => Err(AllocError),
        Err(PairFault::TooMany) => Ok(None),
    }
}

/// The program with its formula; none where there are more than 1,024 events or 4,000,000 clauses.
fn encoded_of(
    alloc: Global,
    program: Program,
    pairs: Pairs,
    earlier: &Earlier,
) -> Result<Option<Encoded>, AllocError>
    requires pairs { pairs ≡ pairs_of program }
    requires earlier { earlier.now ≡ map (earlier_of program) (pairs_of program) }
    ensures { IfOk result (λ found. IfSome found (λ encoded. encoded.program ≡ program)) }
{
    match encode(alloc, program, pairs, earlier) {
        Ok(encoded) => Ok(Some(encoded)),
        Err(refused) => match refused.fault {
            EncodeFault::Memory => Err(AllocError),
            EncodeFault::TooManyEvents => Ok(None),
            EncodeFault::TooManyClauses => Ok(None),
        },
    }
}

/// What the formula of the program with these pairs and earlier calls tells, if it has one.
fn frequency_with(
    alloc: Global,
    program: Program,
    pairs: Pairs,
    earlier: &Earlier,
    conflicts: u64,
) -> Result<Frequency, AllocError>
    requires pairs { pairs ≡ pairs_of program }
    requires earlier { earlier.now ≡ map (earlier_of program) (pairs_of program) }
    requires unknown { IsFrequency program Frequency.Unknown }
    ensures { IfOk result (IsFrequency program) }
{
    let made = encoded_of(alloc, program, pairs, earlier)?;
    match made {
        None => Ok(Frequency::Unknown),
        Some(encoded) => frequency_of_encoded(alloc, &encoded, conflicts),
    }
}

/// How often the runs of a program get stuck, by a formula that is satisfied where some run
/// finishes, where one run doesn't tell it: as [`frequency_of_encoded`] tells it of the program
/// with its formula.
///
/// `Unknown` is told, too, of a program that is too large for a formula: one with more than 8,192
/// fitting pairs of a send and a finder, 1,024 events or 4,000,000 clauses. A call is an event, and
/// each receive, matched probe and probe is one more. Threads find the earlier calls of its pairs;
/// what is told doesn't depend on how many. The only error is want of memory.
pub fn frequency_of_program(
    rt: &(impl Threads + Sync),
    alloc: Global,
    program: Program,
    conflicts: u64,
) -> Result<Frequency, AllocError>
    requires { IsFrequency program Frequency.Unknown }
    ensures { IfOk result (IsFrequency program) }
{
    let found = few_pairs(alloc, &program)?;
    match found {
        None => Ok(Frequency::Unknown),
        Some(pairs) => {
            let earlier = earlier(rt, alloc, &program, &pairs)?;
            frequency_with(alloc, program, pairs, &earlier, conflicts)
        }
    }
}
