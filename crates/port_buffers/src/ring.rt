ghost use Rattle.std.specs.Prelude.{◌≡◌, ◌≤◌, [], IfOk, length};
ghost use Rattle.circular_buffer.specs.Buffer.{buffer};
ghost use Rattle.port_buffers.specs.declared.ring.TheConstants.{MOST_BLOCKS};

use crate::{Full, PutEnd, TakeEnd};
use circular_buffer::HeapCircularBuffer;
use music_base::{Block, NoMemory};
use std::alloc::Global;
use std::marker::Model;

/// How many blocks a ring can be made for.
pub const MOST_BLOCKS: u64 = 1_000_000;

/// The blocks of a connection in one thread, at most so many as its limit. Contracts see the blocks, the first put first,
/// and the limit as their capacity.
#[derive(Debug, Drop)]
pub struct Ring {
    blocks: HeapCircularBuffer<Block>,
}

impl Model for Ring {
    ghost use Rattle.circular_buffer.specs.Buffer.{Buffer};
    ghost use Rattle.music_base.specs.declared.item.Block.{Block};

    ghost Value = { Buffer Block };

    ghost view = { λ ring. ring.blocks };
}

impl Ring {
    /// A ring without blocks. Its memory is taken here: no put and no take asks for any.
    ///
    /// The limit is 1 to 1,000,000.
    pub fn make(alloc: Global, limit: u64) -> Result<Ring, NoMemory>
        requires least { 1 ≤ limit }
        requires most { limit ≤ MOST_BLOCKS }
        ensures { IfOk result (λ ring. ring ≡ buffer [] limit) }
    {
        let blocks = HeapCircularBuffer::with_capacity(alloc, limit as usize)?;
        Ok(Ring { blocks })
    }

    /// How many blocks there are, which is at most the limit.
    pub fn held(&self) -> u64
        ensures held { result ≡ length self.now.items }
        ensures limit { length self.now.items ≤ self.now.capacity }
    {
        let _ = self.blocks.capacity();
        self.blocks.len() as u64
    }
}

impl PutEnd for Ring {
    ghost use Rattle.std.specs.Prelude.{◌≡◌, ◌++◌, ◌∷◌, [], ◌<◌, length};
    ghost use Rattle.circular_buffer.specs.Buffer.{buffer};

    ghost accepts = { λ ring block. Unit {0} };

    ghost was_put = { λ ring block after. (length ring.items < ring.capacity) × (after ≡ buffer (ring.items ++ block ∷ []) ring.capacity) };

    ghost found_full = { λ ring after. (length ring.items ≡ ring.capacity) × (after ≡ ring) };

    fn put(&mut self, block: Block) -> Result<(), Full> {
        let held = self.blocks.len();
        if held < self.blocks.capacity() {
            drop(self.blocks.push_back(block));
            Ok(())
        } else {
            Err(Full(block))
        }
    }
}

impl TakeEnd for Ring {
    ghost use Rattle.std.specs.Prelude.{◌≡◌, ◌∷◌, []};
    ghost use Rattle.circular_buffer.specs.Buffer.{buffer};

    ghost was_taken = { λ ring block after. (ring.items ≡ block ∷ after.items) × (after.capacity ≡ ring.capacity) };

    ghost found_empty = { λ ring after. (ring.items ≡ []) × (after ≡ ring) };

    fn take(&mut self) -> Option<Block> {
        self.blocks.pop_front()
    }
}
