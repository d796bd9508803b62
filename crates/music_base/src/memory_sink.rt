ghost use Rattle.std.specs.Prelude.{◌≡◌, ◌≤◌, ◌<◌, ◌^◌, ◌↔◌, [], IfOk, IsErr, OnErr, Some, length, min, take};
ghost use Rattle.music_base.specs.Causes.{HasCause};
ghost use Rattle.music_base.specs.InMemory.{after_refusal, after_taking, room_left, taken_count};

use crate::{Failed, NoMemory, Sink};
use std::alloc::Global;
use std::marker::Model;

/// A sink that takes bytes, in pieces, until its room is used up. It takes its memory when it is made, and none later.
#[derive(Debug, Drop)]
pub struct MemorySink {
    bytes: Vec<u8>,
    piece: u64,
    room: usize,
    calls: u64,
    faults: u64,
}

impl Model for MemorySink {
    ghost use Rattle.std.specs.Prelude.{◌≤◌, length, vec_capacity};
    ghost use Rattle.music_base.specs.InMemory.{SinkInMemory};

    ghost Value = { SinkInMemory };

    ghost view = { λ s. record { taken = s.bytes.items; piece = s.piece; room = s.room; calls = s.calls; faults = s.faults } };

    ghost invariant = { λ s. (length s.bytes.items ≤ s.room) × (s.room ≤ vec_capacity s.bytes) × (1 ≤ s.piece) };
}

/// How many bytes of those that are offered are taken: as many as a call may take, and as there is room for.
fn count_taken(piece: u64, offered: usize, room: usize) -> usize
    ensures { result ≡ min (min piece offered) room }
{
    let fit = offered.min(room);
    piece.min(fit as u64) as usize
}

impl MemorySink {
    /// A sink with room for so many bytes, which takes at most `piece` of them in one call. The room is at most
    /// 10^9 bytes, and `piece` is at least 1.
    pub fn make(alloc: Global, piece: u64, room: u64) -> Result<MemorySink, NoMemory>
        requires piece { 1 ≤ piece }
        requires room { room ≤ 10 ^ 9 }
        ensures { IfOk result (λ sink. sink ≡ record { taken = []; piece = piece; room = room; calls = 0; faults = 0 }) }
    {
        let bytes = Vec::with_capacity(alloc, room as usize)?;
        Ok(MemorySink {
            bytes,
            piece,
            room: room as usize,
            calls: 0,
            faults: 0,
        })
    }

    /// The bytes that it took.
    pub fn taken(&self) -> &[u8]
        ensures { result.now ≡ self.now.taken }
    {
        &self.bytes
    }
}

impl Sink for MemorySink {
    ghost taken = { λ s. Some s.taken };

    ghost faults = { λ s. s.faults };

    fn write(&mut self, from: &[u8]) -> Result<usize, Failed>
        ensures full { IsErr result ↔ ((0 < length from.now) × (room_left self.old ≡ 0)) }
        ensures failed { OnErr result (self.new ≡ after_refusal self.old) }
        ensures count { IfOk result (λ n. n ≡ taken_count self.old (length from.now)) }
        ensures bytes { IfOk result (λ n. self.new ≡ after_taking self.old (take n from.now)) }
        ensures some { IfOk result (λ n. 0 < length from.now → 0 < n) }
        ensures cause { HasCause self.old.faults self.new.faults result }
    {
        self.calls = self.calls.saturating_add(1);
        let left = self.room - self.bytes.len();
        if left == 0 && !from.is_empty() {
            self.faults = self.faults.saturating_add(1);
            return Err(Failed);
        }
        let count = count_taken(self.piece, from.len(), left);
        self.bytes.extend_from_slice(&from[..count]).unwrap();
        Ok(count)
    }
}
