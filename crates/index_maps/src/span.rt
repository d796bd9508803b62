ghost use Rattle.std.specs.Prelude.{◌≡◌, ◌==◌, ◌+◌, ◌≤◌, ◌&&◌, nat_le, nat_lt, slice_get};
ghost use Rattle.std.specs.List.{list_any, position, range_with_len};

use std::marker::Model;

/// Global indices are the numbers below this one.
pub const INDEX_LIMIT: u32 = 65_536;

/// Consecutive global indices: as many as the size says, from the base on.
#[derive(Clone, Copy, Debug)]
pub struct Span {
    base: u32,
    size: u32,
}

impl Model for Span {
    ghost use Rattle.std.specs.Prelude.{◌+◌, ◌≤◌};
    ghost use Rattle.index_maps.specs.Indices.{Extent};
    ghost use Rattle.index_maps.specs.declared.span.TheConstants.{INDEX_LIMIT};

    ghost Value = { Extent };

    ghost view = { λ span. record { base = span.base; size = span.size } };

    ghost invariant = { λ span. span.base + span.size ≤ INDEX_LIMIT };

    ghost inverse = { λ extent. record { base = extent.base; size = extent.size } };
}

fn is_between(first: u32, after: u32, index: u32) -> bool
    ensures { result ≡ (nat_le first index && nat_lt index after) }
{
    first <= index && index < after
}

impl Span {
    /// The indices from `base` up to `base + size`, the latter excluded.
    /// They are below the limit: `base + size` is at most 65,536.
    pub fn new(base: u32, size: u32) -> Span
        requires { base + size ≤ INDEX_LIMIT }
        ensures base { result.base ≡ base }
        ensures size { result.size ≡ size }
    {
        Span { base, size }
    }

    /// The first index, where the span is not empty.
    pub fn base(self) -> u32
        ensures base { result ≡ self.base }
        ensures limit { self.base + self.size ≤ INDEX_LIMIT }
    {
        self.base
    }

    /// How many indices there are.
    pub fn size(self) -> u32
        ensures size { result ≡ self.size }
        ensures limit { self.base + self.size ≤ INDEX_LIMIT }
    {
        self.size
    }

    /// The index at a local place, where the place is below the size.
    #[tactic(auto, using(crate::proofs::Ranges::slice_get_range))]
    pub fn global_of(self, local: u32) -> Option<u32>
        ensures { result ≡ slice_get (range_with_len self.base self.size) local }
    {
        if local < self.size {
            Some(self.base + local)
        } else {
            None
        }
    }

    /// Whether the index is in the span.
    #[tactic(auto, using(crate::proofs::Ranges::list_any_range))]
    pub fn holds(self, global: u32) -> bool
        ensures { result ≡ list_any (λ i. i == global) (range_with_len self.base self.size) }
    {
        is_between(self.base(), self.base() + self.size(), global)
    }

    /// The local place of an index, where it is in the span.
    #[tactic(auto, using(crate::proofs::Ranges::position_within, crate::proofs::Ranges::position_outside))]
    pub fn local_of(self, global: u32) -> Option<u32>
        ensures place { result ≡ position (λ i. i == global) (range_with_len self.base self.size) }
        ensures limit { self.base + self.size ≤ INDEX_LIMIT }
    {
        if self.holds(global) {
            Some(global - self.base())
        } else {
            None
        }
    }
}
