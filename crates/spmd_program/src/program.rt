//! The text of a program.

ghost use Rattle.std.specs.Prelude.{◌≡◌, ◌++◌, ◌≤◌, ◌<◌, [], IfOk, OnErr, OnOk};
ghost use Rattle.std.specs.List.{AllByRecursion};
ghost use Rattle.calltext.specs.Grammar.{policy_word};
ghost use Rattle.calltext.specs.parts.Body.{heads, rank_text};
ghost use Rattle.spmd_program.specs.Lines.{lines_of_calls};
ghost use Rattle.spmd_program.specs.parts.Programs.{IsRankWritten};
ghost use Rattle.spmd_program.specs.Programs.{IsProgramText, policy_of_buffering};

use crate::lines::put_lines;
use plaintext::put_number;
use spmd_text::SpmdPolicy;
use std::alloc::{AllocError, Global};
use unroll::Placed;

/// The calls of this rank, which stand first, and the others.
fn of_rank(calls: &[Placed], rank: u32) -> (&[Placed], &[Placed])
    ensures parts { calls.now ≡ result.0.now ++ result.1.now }
    ensures own { AllByRecursion (λ p. p.rank ≡ rank) result.0.now }
{
    let mut count = 0;
    for placed in calls {
        if placed.rank != rank {
            break;
        }
        count += 1;
    }
    calls.split_at(count)
}

fn policy_word(policy: SpmdPolicy) -> &'static str
    ensures { result.now ≡ policy_word (policy_of_buffering policy) }
{
    match policy {
        SpmdPolicy::Any => "any",
        SpmdPolicy::Never => "none",
        SpmdPolicy::Always => "all",
    }
}

/// Adds the two headings.
fn put_heads(out: &mut Vec<u8>, ranks: u32, policy: SpmdPolicy) -> Result<(), AllocError>
    ensures { OnOk result (out.new.items ≡ out.old.items ++ heads ranks (policy_of_buffering policy)) }
{
    out.extend_from_slice(b"ranks ")?;
    put_number(out, ranks)?;
    out.extend_from_slice(b"\npolicy ")?;
    out.extend_from_slice(policy_word(policy).as_bytes())?;
    out.push(b'\n')?;
    Ok(())
}

/// Adds a rank's heading and its calls.
fn put_rank(
    alloc: Global,
    out: &mut Vec<u8>,
    names: &[Vec<u8>],
    rank: u32,
    calls: &[Placed],
) -> Result<(), AllocError>
    ensures { OnOk result (IsRankWritten rank (lines_of_calls names.now calls.now) out.old.items out.new.items) }
{
    out.extend_from_slice(b"rank ")?;
    put_number(out, rank)?;
    out.push(b'\n')?;
    put_lines(alloc, out, names, calls)
}

/// That a text can have so many ranks.
fn some_ranks(ranks: u32) -> Result<(), AllocError>
    ensures some { OnOk result (1 ≤ ranks) }
    ensures most { OnOk result (ranks ≤ 2147483647) }
    ensures none { OnErr result (1 ≤ ranks → 2147483647 < ranks) }
{
    if ranks == 0 || ranks > 2_147_483_647 {
        return Err(AllocError);
    }
    Ok(())
}

/// That no call is left.
fn none_left(calls: &[Placed]) -> Result<(), AllocError>
    ensures none { OnOk result (calls.now ≡ []) }
    ensures some { OnErr result (calls.now ≡ [] → ⊥) }
{
    if calls.is_empty() {
        return Ok(());
    }
    Err(AllocError)
}

/// The text of the program of so many ranks, 1 to 2,147,483,647, with these calls, which stand rank
/// by rank; names have these letters. The text can be read again within the long limits, and is
/// that of this program alone. The only error is want of memory, as which is told too what no text
/// unrolls to: a number of more than 31 bits, a request or handle that is no name, and a call that
/// stands behind those of a higher rank.
pub fn program_text(
    alloc: Global,
    policy: SpmdPolicy,
    names: &[Vec<u8>],
    ranks: u32,
    calls: &[Placed],
) -> Result<Vec<u8>, AllocError>
    ensures { IfOk result (λ text. IsProgramText policy names.now ranks calls.now text.items) }
{
    some_ranks(ranks)?;
    let mut out = Vec::new(alloc);
    put_heads(&mut out, ranks, policy)?;
    let mut left = calls;
    for rank in 0..ranks {
        let parts = of_rank(left, rank);
        put_rank(alloc, &mut out, names, rank, parts.0)?;
        left = parts.1;
    }
    none_left(left)?;
    Ok(out)
}
