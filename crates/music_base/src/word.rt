ghost use Rattle.std.specs.Prelude.{◌≡◌, ◌==◌, [], IfOk};
ghost use Rattle.std.specs.Cmp.Lexicographic.{pointwise};
ghost use Rattle.std.specs.Cmp.Rules.{comparing};
ghost use Rattle.std.proofs.Common.{rules};
ghost use Rattle.music_base.specs.Held.{word_bytes};

use crate::short_bytes::ShortBytes;
use crate::{NoMemory, TryCopy};
use std::alloc::Global;
use std::marker::Model;

// The bytes of a word: up to 14 in the value itself, and more in memory of their own.
#[derive(Debug, Drop)]
enum WordBytes {
    Short(ShortBytes<14>),
    Long(Box<Vec<u8>>),
}

#[inline(always)]
fn word_bytes(alloc: Global, bytes: &[u8]) -> Result<WordBytes, NoMemory>
    ensures { IfOk result (λ held. word_bytes held ≡ bytes.now) }
{
    match ShortBytes::from_slice(bytes) {
        Some(short) => Ok(WordBytes::Short(short)),
        None => {
            let long = Vec::from_slice(alloc, bytes)?;
            Ok(WordBytes::Long(Box::new(alloc, long)?))
        }
    }
}

/// A text of any bytes. Contracts see its bytes.
#[derive(Debug, Drop)]
pub struct Word {
    bytes: WordBytes,
}

impl Model for Word {
    ghost use Rattle.std.specs.Prelude.{List, ℕ};
    ghost use Rattle.music_base.specs.Held.{word_bytes};

    ghost Value = { List ℕ };

    ghost view = { λ word. word_bytes word.bytes };
}

impl Word {
    /// The word of no bytes. It takes no memory.
    pub fn new() -> Word
        ensures { result ≡ [] }
    {
        Word {
            bytes: WordBytes::Short(ShortBytes::new()),
        }
    }

    /// A word of the same bytes.
    #[inline(always)]
    pub fn from_slice(alloc: Global, bytes: &[u8]) -> Result<Word, NoMemory>
        ensures { IfOk result (λ word. word ≡ bytes.now) }
    {
        let bytes = word_bytes(alloc, bytes)?;
        Ok(Word { bytes })
    }

    pub fn as_slice(&self) -> &[u8]
        ensures { result.now ≡ self.now }
    {
        match &self.bytes {
            WordBytes::Short(bytes) => bytes.as_slice(),
            WordBytes::Long(bytes) => bytes.as_slice(),
        }
    }
}

impl TryCopy for Word {
    fn copy(&self, alloc: Global) -> Result<Word, NoMemory> {
        Word::from_slice(alloc, self.as_slice())
    }
}

impl PartialEq for Word {
    ghost eq = { pointwise ◌==◌ };

    ghost laws = { Prim.search (comparing, rules) };

    fn eq(&self, other: &Word) -> bool {
        self.as_slice() == other.as_slice()
    }
}

impl Eq for Word {
    ghost laws = { Prim.search (comparing, rules) };
}
