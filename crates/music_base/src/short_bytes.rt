ghost use Rattle.std.specs.Prelude.{◌≡◌, ◌<◌, [], length, min, IfNone, IfSome};

use std::marker::Model;

/// At most `N` bytes, and at most 255, which lie in the value itself. Contracts see the bytes.
#[derive(Debug, Drop)]
pub struct ShortBytes<const N: usize> {
    len: u8,
    bytes: [u8; N],
}

impl<const N: usize> Model for ShortBytes<N> {
    ghost use Rattle.std.specs.Prelude.{List, ℕ, ◌≤◌, length, take};

    ghost Value = { List ℕ };

    ghost view = { λ s. take s.len s.bytes };

    ghost invariant = { λ s. s.len ≤ length s.bytes };
}

impl<const N: usize> ShortBytes<N> {
    /// No bytes. It takes no memory.
    pub fn new() -> ShortBytes<N>
        ensures { result ≡ [] }
    {
        ShortBytes {
            len: 0,
            bytes: [0u8; N],
        }
    }

    /// A copy of the bytes, where there is room for them. It takes no memory.
    #[inline(always)]
    pub fn from_slice(from: &[u8]) -> Option<ShortBytes<N>>
        ensures bytes { IfSome result (λ short. short ≡ from.now) }
        ensures no_room { IfNone result (min N 255 < length from.now) }
    {
        if from.len() > N || from.len() > 255 {
            return None;
        }
        let mut bytes = [0u8; N];
        bytes[..from.len()].copy_from_slice(from);
        Some(ShortBytes {
            len: from.len() as u8,
            bytes,
        })
    }

    pub fn as_slice(&self) -> &[u8]
        ensures { result.now ≡ self.now }
    {
        &self.bytes[..self.len as usize]
    }
}
