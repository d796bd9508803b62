//! The two ends of a connection, as a machine sees them. What a call did is said by relations of the end before and after
//! it, which each kind of end states for itself.
ghost use Rattle.std.specs.Prelude.{◌≡◌, MatchOption, MatchResult};
ghost use Rattle.music_base.specs.declared.item.Block.{Block};

use music_base::Block;

/// The end had no room. It hands the block back.
#[derive(Debug, Drop)]
pub struct Full(pub Block);

/// Where blocks are put.
pub trait PutEnd {
    /// The end takes this block, where it has room.
    ghost accepts: { Self → Block → Type 0 };

    /// What the end is after a call that put the block.
    ghost was_put: { Self → Block → Self → Type 0 };

    /// What the end is after a call that found no room.
    ghost found_full: { Self → Self → Type 0 };

    /// Puts the block, or hands the same block back where there is no room.
    ///
    /// The end accepts the block.
    fn put(&mut self, block: Block) -> Result<(), Full>
        requires { accepts self.old block }
        ensures { MatchResult result (λ _. was_put self.old block self.new) (λ full. (full.0 ≡ block) × found_full self.old self.new) };
}

/// Where blocks are taken.
pub trait TakeEnd {
    /// What the end is after a call that took the block.
    ghost was_taken: { Self → Block → Self → Type 0 };

    /// What the end is after a call that found nothing.
    ghost found_empty: { Self → Self → Type 0 };

    /// Takes a block. `None` where the end found nothing.
    fn take(&mut self) -> Option<Block>
        ensures { MatchOption result (found_empty self.old self.new) (λ block. was_taken self.old block self.new) };
}
