//! How many values an application puts out and reads.
ghost use Rattle.std.specs.Prelude.{◌≡◌, ◌*◌, ◌≤◌, ◌<◌, ◌^◌, length, min, nat_le};
ghost use Rattle.music_base.specs.Clocks.{steps_until};
ghost use Rattle.index_maps.specs.Maps.{globals};
ghost use Rattle.index_maps.specs.declared.map.PortMap.TheVariants.{Each, Split};
ghost use Rattle.scene_model.specs.Limits.{most_steps, most_values};
ghost use Rattle.scene_model.specs.Values.{indices_mapped, values_by, values_in_step};

use index_maps::{IndexMap, PortMap};
use music_base::Rank;
use scene_model::{MOST_VALUES, PortDecl, PortKind};

/// How many indices a rank maps.
#[tactic(auto, using(index_maps::proofs::Ranges::length_range))]
fn size_of(map: &IndexMap) -> u32
    ensures { result ≡ length (globals map.now) }
{
    match map {
        IndexMap::Linear(span) => span.size(),
        IndexMap::Permutation(list) => list.len(),
    }
}

/// How many indices the ranks map, or `u64::MAX` where that is less.
#[tactic(auto, unfolding(scene_model::specs::Values::indices_mapped))]
fn indices_mapped(map: &PortMap) -> u64
    ensures { result ≡ min (indices_mapped map.now) u64.MAX }
{
    let mut total = 0u64;
    match map {
        PortMap::Each(maps) => {
            for map in maps.as_slice() {
                total = total.saturating_add(u64::from(size_of(map)));
            }
        }
        PortMap::Split { ranks, .. } => {
            for rank in 0..*ranks {
                total = total.saturating_add(u64::from(map.rank_map(Rank(rank)).size()));
            }
        }
    }
    total
}

/// How many values the port has in each step, or `u64::MAX` where that is less.
fn values_by(port: &PortDecl) -> u64
    ensures { result ≡ min (values_by port.now.kind port.now.map) u64.MAX }
{
    match port.kind {
        PortKind::Values => indices_mapped(&port.map),
        PortKind::Events | PortKind::Messages => 0,
    }
}

/// How many values all ports have in each step, or `u64::MAX` where that is less.
#[tactic(auto, unfolding(scene_model::specs::Values::values_in_step))]
fn values_in_step(ports: &[PortDecl]) -> u64
    ensures { result ≡ min (values_in_step ports.now) u64.MAX }
{
    let mut total = 0u64;
    for port in ports {
        total = total.saturating_add(values_by(port));
    }
    total
}

/// Whether the ports have few enough values in so many steps.
#[tactic(auto, using(crate::proofs::Capped::few_values))]
pub fn has_few_values(steps: u64, ports: &[PortDecl]) -> bool
    ensures { result ≡ nat_le (steps * values_in_step ports.now) most_values }
{
    steps.saturating_mul(values_in_step(ports)) <= MOST_VALUES
}
