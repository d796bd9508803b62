//! The last two samples of a connection.
ghost use Rattle.std.specs.Prelude.{◌≡◌, ◌+◌, ◌-◌, ◌^◌, ◌<◌, ◌++◌, ◌∷◌, [], ℕ, min, IfSome};
ghost use Rattle.scene_model.specs.Tables.{value_in};
ghost use Rattle.port_inbox.specs.Due.{items_numbered};
ghost use Rattle.port_inbox.specs.KeptSamples.{AreIndices, AreKept, IsKept, blocks_kept, sample_kept, value_kept};
ghost use Rattle.port_inbox.specs.Samples.{IsPlaceOf, last_one};

use crate::kept_sample::KeptSample;
use music_base::{Block, Items};

/// The sender's indices, how many blocks were admitted, and the last two of them.
#[derive(Debug, Drop)]
pub struct KeptSamples {
    pub indices: Items<u32>,
    pub admitted: u64,
    earlier: Option<KeptSample>,
    latest: Option<KeptSample>,
}

impl KeptSamples {
    /// No block yet.
    pub fn new(indices: Items<u32>) -> KeptSamples
        requires { AreIndices indices }
        ensures kept { AreKept result }
        ensures blocks { blocks_kept result ≡ [] }
        ensures count { result.admitted ≡ 0 }
    {
        KeptSamples {
            indices,
            admitted: 0,
            earlier: None,
            latest: None,
        }
    }

    /// One block more: the last one becomes the earlier one.
    pub fn push(&mut self, block: Block)
        requires kept { AreKept self.old }
        requires count { self.old.admitted < 2 ^ 64 - 1 }
        ensures kept { AreKept self.new }
        ensures blocks { blocks_kept self.new ≡ last_one (blocks_kept self.old) ++ block ∷ [] }
        ensures count { self.new.admitted ≡ self.old.admitted + 1 }
    {
        let kept = KeptSample::new(self.indices.as_slice(), block);
        self.admitted += 1;
        self.earlier = self.latest.take();
        self.latest = Some(kept);
    }

    /// Sample k, or the last one before it.
    pub fn at(&self, k: u64) -> Option<&KeptSample>
        requires { AreKept self.now }
        ensures kept { IfSome result (λ kept. IsKept self.now.indices kept.now) }
        ensures value { (g : ℕ) → value_kept result g ≡ sample_kept self.now g k }
    {
        let number = k.min(self.admitted.saturating_sub(1));
        if let Some(kept) = &self.earlier {
            if kept.block.number == number {
                return Some(kept);
            }
        }
        match &self.latest {
            Some(kept) if kept.block.number == number => Some(kept),
            _ => None,
        }
    }
}
