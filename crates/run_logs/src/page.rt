//! Bytes in an array of fixed size.
ghost use Rattle.std.specs.Prelude.{◌≡◌, ◌<◌, ◌≤◌, ◌+◌, ◌++◌, ◌∷◌, [], length, nat_le, IfOk};
ghost use Rattle.std.specs.Fmt.{decimal, signed_decimal};

use crate::fields::{digits, signed_digits};
use itoa::Buffer;
use music_base::NoMemory;
use std::alloc::Global;
use std::marker::Model;

/// How many bytes a page holds at most.
const CAPACITY: usize = 65_536;

// Numbers below it are written digit by digit.
const SHORT: u64 = 1000;

/// A list of bytes that asks for its memory once, when it is made.
#[derive(Drop)]
pub struct Page {
    bytes: Box<[u8; CAPACITY]>,
    len: usize,
}

impl Model for Page {
    ghost use Rattle.std.specs.Prelude.{◌≡◌, ◌≤◌, ℕ, List, length, take};

    ghost Value = { List ℕ };

    ghost view = { λ page. take page.len page.bytes.value };

    ghost invariant = { λ page. (page.len ≤ 65536) × (length page.bytes.value ≡ 65536) };
}

impl Page {
    /// An empty page.
    pub fn make(alloc: Global) -> Result<Page, NoMemory>
        ensures { IfOk result (λ page. page ≡ []) }
    {
        let bytes = Box::new(alloc, [0; CAPACITY])?;
        Ok(Page { bytes, len: 0 })
    }

    /// Whether so many bytes more fit.
    #[inline]
    pub fn has_room(&self, count: usize) -> bool
        ensures { result ≡ nat_le (length self.now + count) 65536 }
    {
        count <= CAPACITY - self.len
    }

    /// Forgets all bytes.
    pub fn clear(&mut self)
        ensures { self.new ≡ [] }
    {
        self.len = 0;
    }

    pub fn as_slice(&self) -> &[u8]
        ensures { result.now ≡ self.now }
    {
        &self.bytes[..self.len]
    }

    /// Appends a byte, for which there is room.
    #[inline(always)]
    pub fn push(&mut self, byte: u8)
        requires room { length self.old < 65536 }
        ensures text { self.new ≡ self.old ++ byte ∷ [] }
        ensures long { length self.new ≡ length self.old + 1 }
    {
        let end = self.len;
        self.bytes[end] = byte;
        self.len = end + 1;
    }

    /// Appends the bytes, for which there is room.
    #[inline(always)]
    pub fn append(&mut self, piece: &[u8])
        requires room { length self.old + length piece.now ≤ 65536 }
        ensures text { self.new ≡ self.old ++ piece.now }
        ensures long { length self.new ≡ length self.old + length piece.now }
    {
        let end = self.len + piece.len();
        self.bytes[self.len..end].copy_from_slice(piece);
        self.len = end;
    }

    // Appends a number below a thousand in decimal digits.
    #[inline(always)]
    fn short_number(&mut self, number: u64)
        requires below { number < 1000 }
        requires room { length self.old + 20 ≤ 65536 }
        ensures text { self.new ≡ self.old ++ decimal number }
        ensures short { length self.new ≤ length self.old + 20 }
    {
        if number < 10 {
            self.push(b'0' + number as u8);
        } else if number < 100 {
            self.push(b'0' + (number / 10) as u8);
            self.push(b'0' + (number % 10) as u8);
        } else {
            self.push(b'0' + (number / 100) as u8);
            self.push(b'0' + (number / 10 % 10) as u8);
            self.push(b'0' + (number % 10) as u8);
        }
    }

    // Appends a number in decimal digits, whatever its size.
    fn long_number(&mut self, number: u64)
        requires room { length self.old + 20 ≤ 65536 }
        ensures text { self.new ≡ self.old ++ decimal number }
        ensures short { length self.new ≤ length self.old + 20 }
    {
        let mut buffer = Buffer::new();
        self.append(digits(&mut buffer, number));
    }

    /// Appends a number in decimal digits. There is room for twenty bytes.
    #[inline(always)]
    pub fn number(&mut self, number: u64)
        requires room { length self.old + 20 ≤ 65536 }
        ensures text { self.new ≡ self.old ++ decimal number }
        ensures short { length self.new ≤ length self.old + 20 }
    {
        if number < SHORT {
            self.short_number(number);
        } else {
            self.long_number(number);
        }
    }

    /// Appends a number in decimal digits, behind a '-' where it is negative. There is room for twenty bytes.
    pub fn signed(&mut self, number: i64)
        requires room { length self.old + 20 ≤ 65536 }
        ensures text { self.new ≡ self.old ++ signed_decimal number }
        ensures short { length self.new ≤ length self.old + 20 }
    {
        let mut buffer = Buffer::new();
        self.append(signed_digits(&mut buffer, number));
    }
}
