//! Where bytes come from and where they go.
ghost use Rattle.std.specs.Prelude.{◌≡◌, ◌<◌, ◌≤◌, List, ℕ, length, take, Option, IfOk, OnErr};
ghost use Rattle.music_base.specs.Causes.{HasCause};
ghost use Rattle.music_base.specs.Outside.{Gave, IsAtEnd, Took};

use crate::Failed;

/// Where bytes come from.
pub trait Source {
    /// The bytes that were not read yet, where the source tells them.
    ghost left: { Self → Option (List ℕ) };

    /// How often it failed. This number never falls, and stays once it is 2^64 - 1.
    ghost faults: { Self → ℕ };

    /// Reads the next bytes into the front of the slice, and answers how many they were. 0 into a slice that is not empty is
    /// the end. A call that fails takes no byte of a source that tells its bytes.
    fn read(&mut self, into: &mut [u8]) -> Result<usize, Failed>
        ensures within { IfOk result (λ n. n ≤ length into.old) }
        ensures bytes { IfOk result (λ n. Gave (left self.old) (take n into.new) (left self.new)) }
        ensures end { IfOk result (λ n. n ≡ 0 → 0 < length into.old → IsAtEnd (left self.new)) }
        ensures failed { OnErr result (left self.new ≡ left self.old) }
        ensures cause { HasCause (faults self.old) (faults self.new) result };
}

/// Where bytes go.
pub trait Sink {
    /// The bytes that the sink took, where it tells them.
    ghost taken: { Self → Option (List ℕ) };

    /// How often it failed. This number never falls, and stays once it is 2^64 - 1.
    ghost faults: { Self → ℕ };

    /// Takes the first bytes of the piece, and answers how many they were: at least one of a piece that is not empty. A
    /// sink that tells its bytes takes none in a call that fails.
    fn write(&mut self, from: &[u8]) -> Result<usize, Failed>
        ensures within { IfOk result (λ n. n ≤ length from.now) }
        ensures some { IfOk result (λ n. 0 < length from.now → 0 < n) }
        ensures bytes { IfOk result (λ n. Took (taken self.old) (take n from.now) (taken self.new)) }
        ensures failed { OnErr result (taken self.new ≡ taken self.old) }
        ensures cause { HasCause (faults self.old) (faults self.new) result };
}
