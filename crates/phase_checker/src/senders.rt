//! What phases send, and how late in the order.

ghost use Rattle.std.specs.Prelude.{◌≡◌, OnOk};
ghost use Rattle.std.specs.List.{list_any};
ghost use Rattle.phase_checker.specs.parts.Early.{is_same, is_sent, place_sent, IsRaisedToPlace};
ghost use Rattle.sealing.specs.declared.loose.Loose.{Loose};

use callorder::Call;
use sealing::Loose;
use std::alloc::{AllocError, Global};
use std::collections::HashMap;

/// For each key the last place of an order of phases, from 0, whose phase has a send that the key
/// stands for. Nothing is told of the place 0, which is behind no other.
#[derive(Drop)]
pub struct Senders {
    places: HashMap<Loose, usize>,
}

impl Senders {
    /// Nothing is sent.
    pub fn new(alloc: Global) -> Senders
        ensures { (key : Loose) → place_sent result key ≡ 0 }
    {
        Senders {
            places: HashMap::new(alloc),
        }
    }

    /// The last place, but for 0, at which what the key stands for is sent; 0 where there is none.
    pub fn place(&self, key: &Loose) -> usize
        ensures { result ≡ place_sent self.now key.now }
    {
        self.places.get(key).copied().unwrap_or(0)
    }

    /// What the key stands for is sent at the place too.
    fn put(&mut self, key: Loose, place: usize) -> Result<(), AllocError>
        ensures { OnOk result (IsRaisedToPlace (is_same key) place self.old self.new) }
    {
        if place <= self.place(&key) {
            return Ok(());
        }
        self.places.insert(key, place)?;
        Ok(())
    }

    /// The call is made at the place too: it may be found by whoever names its tag, or none.
    fn put_call(&mut self, call: &Call, place: usize) -> Result<(), AllocError>
        ensures { OnOk result (IsRaisedToPlace (λ key. is_sent key call.now) place self.old self.new) }
    {
        let Some(message) = call.kind.message() else {
            return Ok(());
        };
        let key = Loose {
            source: call.rank,
            destination: message.destination,
            communicator: message.communicator,
            tag: None,
        };
        self.put(key, place)?;
        self.put(
            Loose {
                tag: Some(message.tag),
                ..key
            },
            place,
        )
    }

    /// The calls are made at the place too. The only error is want of memory.
    pub fn put_calls(&mut self, calls: &[Call], place: usize) -> Result<(), AllocError>
        ensures { OnOk result (IsRaisedToPlace (λ key. list_any (is_sent key) calls.now) place self.old self.new) }
    {
        for call in calls {
            self.put_call(call, place)?;
        }
        Ok(())
    }
}
