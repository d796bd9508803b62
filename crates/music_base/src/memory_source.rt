ghost use Rattle.std.specs.Prelude.{◌≡◌, ◌≤◌, ◌<◌, ◌↔◌, IfOk, IsErr, OnErr, Some, [], length, min, take};
ghost use Rattle.std.specs.List.{Contains};
ghost use Rattle.music_base.specs.Causes.{HasCause};
ghost use Rattle.music_base.specs.InMemory.{next_call, after_fault, given_count, after_giving};

use crate::{Failed, Source};
use std::marker::Model;

/// A source that gives the bytes that it was made of, in pieces, and fails the calls that it was told to fail.
#[derive(Debug, Drop)]
pub struct MemorySource {
    bytes: Vec<u8>,
    given: usize,
    piece: u64,
    fails: Vec<u64>,
    calls: u64,
    faults: u64,
}

impl Model for MemorySource {
    ghost use Rattle.std.specs.Prelude.{◌≤◌, length, drop};
    ghost use Rattle.music_base.specs.InMemory.{SourceInMemory};

    ghost Value = { SourceInMemory };

    ghost view = { λ s. record { left = drop s.given s.bytes.items; piece = s.piece; fails = s.fails.items; calls = s.calls; faults = s.faults } };

    ghost invariant = { λ s. (s.given ≤ length s.bytes.items) × (1 ≤ s.piece) };
}

impl MemorySource {
    /// A source of these bytes, which gives at most `piece` of them in one call and fails the calls whose numbers, from
    /// 1, are listed. It takes no memory.
    /// `piece` is at least 1.
    pub fn make(bytes: Vec<u8>, piece: u64, fails: Vec<u64>) -> MemorySource
        requires { 1 ≤ piece }
        ensures { result ≡ record { left = bytes.items; piece = piece; fails = fails.items; calls = 0; faults = 0 } }
    {
        MemorySource {
            bytes,
            given: 0,
            piece,
            fails,
            calls: 0,
            faults: 0,
        }
    }

    /// The bytes that were not read yet.
    pub fn left(&self) -> &[u8]
        ensures { result.now ≡ self.now.left }
    {
        &self.bytes[self.given..]
    }
}

// Copies the least of `most`, what there is and what there is room for, and answers how many bytes that were.
fn copy_front(from: &[u8], into: &mut [u8], most: u64) -> usize
    ensures count { result ≡ min (min most (length into.old)) (length from.now) }
    ensures bytes { take result into.new ≡ take result from.now }
{
    let fit = into.len().min(from.len());
    let count = most.min(fit as u64) as usize;
    into[..count].copy_from_slice(&from[..count]);
    count
}

impl Source for MemorySource {
    ghost left = { λ s. Some s.left };

    ghost faults = { λ s. s.faults };

    fn read(&mut self, into: &mut [u8]) -> Result<usize, Failed>
        ensures fails { IsErr result ↔ Contains self.old.fails (next_call self.old) }
        ensures failed { OnErr result (self.new ≡ after_fault self.old) }
        ensures count { IfOk result (λ n. n ≡ given_count self.old (length into.old)) }
        ensures bytes { IfOk result (λ n. take n into.new ≡ take n self.old.left) }
        ensures rest { IfOk result (λ n. self.new ≡ after_giving self.old n) }
        ensures end { IfOk result (λ n. n ≡ 0 → 0 < length into.old → self.new.left ≡ []) }
        ensures cause { HasCause self.old.faults self.new.faults result }
    {
        self.calls = self.calls.saturating_add(1);
        let call = self.calls;
        if self.fails.contains(&call) {
            self.faults = self.faults.saturating_add(1);
            return Err(Failed);
        }
        let count = copy_front(&self.bytes[self.given..], into, self.piece);
        self.given += count;
        Ok(count)
    }
}
