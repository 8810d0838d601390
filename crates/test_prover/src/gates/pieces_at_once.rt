//! Pieces of a check that run at once.

ghost use Rattle.std.specs.Prelude.{◌≤◌, ◌<◌};

use prover::{PieceGate, Verdict, verdict_in};
use std::alloc::Global;
use std::sync::atomic::{AtomicBool, AtomicU64, Ordering};
use std::test::Fail;
use std::thread;
use std::thread::Threads;

/// Holds the first piece back until the second one has asked, but not for ever.
#[derive(Drop)]
struct SecondFirst {
    second: AtomicBool,
    asked: AtomicU64,
    ran_out: AtomicBool,
}

impl PieceGate for SecondFirst {
    fn before(&self, piece: usize) {
        self.asked.fetch_add(1, Ordering::SeqCst);
        if piece > 0 {
            self.second.store(true, Ordering::SeqCst);
            return;
        }
        for _ in 0..1_000_000_u32 {
            if self.second.load(Ordering::SeqCst) {
                return;
            }
            thread::yield_now();
        }
        self.ran_out.store(true, Ordering::SeqCst);
    }
}

/// What the checker says, with so many pieces, of a refutation whose second line of four isn't
/// derived and whose fourth has an idle hint; and how many pieces asked.
fn judged<R: Threads + Sync>(rt: &R, alloc: Global, pieces: usize) -> Result<(String, u64), Fail>
    requires some { 0 < pieces }
    requires few { pieces ≤ 64 }
{
    let program = b"ranks 1\npolicy any\nrank 0\nbsend 0 1\n";
    let evidence =
        b"evidence 1\nrefutation 2 3\nline : 1 3 2\nline : 1 3\nline : 1 3 2\nline : 1 1 3 2\ntree\nleaf 4\n";
    let gate = SecondFirst {
        second: AtomicBool::new(false),
        asked: AtomicU64::new(0),
        ran_out: AtomicBool::new(false),
    };
    let Verdict::Refused(reason) = verdict_in(rt, alloc, program, evidence, pieces, &gate) else {
        return Err(Fail::from("accepted"));
    };
    if gate.ran_out.load(Ordering::SeqCst) {
        return Err(Fail::from("the second piece never asked"));
    }
    Ok((reason.to_string(alloc)?, gate.asked.load(Ordering::SeqCst)))
}

#[test]
fn gate_two_pieces(rt: HostRuntime) -> Result<(), Fail> {
    let (told, asked) = judged(&rt, rt.alloc(), 2)?;
    assert_eq!(rt; told.as_str(), "proof line 5 no conflict");
    assert_eq!(rt; asked, 2);
    Ok(())
}

#[test]
fn each_piece_asks_once(rt: HostRuntime) -> Result<(), Fail> {
    let (told, asked) = judged(&rt, rt.alloc(), 7)?;
    assert_eq!(rt; told.as_str(), "proof line 5 no conflict");
    assert_eq!(rt; asked, 7);
    Ok(())
}
