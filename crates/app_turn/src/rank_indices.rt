//! The indices of one rank of a port, looked up once for all rows of a step.
ghost use Rattle.std.specs.Prelude.{◌≡◌, ◌==◌, ◌<◌, true, length, slice_get, IfSome};
ghost use Rattle.std.specs.List.{position};
ghost use Rattle.index_maps.specs.Indices.{are_indices};
ghost use Rattle.index_maps.specs.Maps.{globals_of, rank_count};
ghost use Rattle.app_turn.specs.Rows.{IsSpanOf};

use index_maps::{PortMap, RankMap, Span};
use music_base::Rank;

/// The indices of a rank, where they are consecutive.
pub fn span_at(ports: &PortMap, rank: Rank) -> Option<Span>
    requires { rank < rank_count ports.now }
    ensures { IfSome result (IsSpanOf (globals_of ports.now rank)) }
{
    match ports.rank_map(rank) {
        RankMap::Linear(span) => Some(span),
        RankMap::Permutation(_) => None,
    }
}

/// How many indices the rank has, by their span if there is one.
pub fn size_by(ports: &PortMap, rank: Rank, span: &Option<Span>) -> u32
    requires rank { rank < rank_count ports.now }
    requires span { IfSome span.now (IsSpanOf (globals_of ports.now rank)) }
    ensures { result ≡ length (globals_of ports.now rank) }
{
    match span {
        Some(span) => span.size(),
        None => ports.size_at(rank),
    }
}

/// The index at a local place of the rank, by their span if there is one.
pub fn global_by(ports: &PortMap, rank: Rank, span: &Option<Span>, local: u32) -> Option<u32>
    requires rank { rank < rank_count ports.now }
    requires span { IfSome span.now (IsSpanOf (globals_of ports.now rank)) }
    ensures { result ≡ slice_get (globals_of ports.now rank) local }
{
    match span {
        Some(span) => span.global_of(local),
        None => ports.global_at(rank, local),
    }
}

/// The local place of an index at the rank, by their span if there is one.
pub fn local_by(ports: &PortMap, rank: Rank, span: &Option<Span>, global: u32) -> Option<u32>
    requires rank { rank < rank_count ports.now }
    requires span { IfSome span.now (IsSpanOf (globals_of ports.now rank)) }
    ensures place { result ≡ position (λ i. i == global) (globals_of ports.now rank) }
    ensures indices { are_indices (globals_of ports.now rank) ≡ true }
{
    match span {
        Some(span) => span.local_of(global),
        None => ports.local_at(rank, global),
    }
}
