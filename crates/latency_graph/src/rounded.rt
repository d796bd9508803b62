//! The allowance of a connection in whole steps of both clocks.
ghost use Rattle.std.specs.Prelude.{◌≡◌, ◌<◌, ◌≤◌, ◌+◌, ◌*◌, ◌^◌, length, pos, ◌+ℤ◌, ◌≤ℤ◌};
ghost use Rattle.std.specs.Int.RustNames.{unsigned_abs};
ghost use Rattle.scene_model.specs.Clocks.{allowance, tick};
ghost use Rattle.scene_model.specs.Faults.{IsFaultless};
ghost use Rattle.scene_model.specs.Scenes.{receiver};
ghost use Rattle.scene_model.specs.Waits.{common_divisor, rounded};

use music_base::{LinkId, Nanos, floor_to, gcd};
use scene_model::{Scene, allowance_of};

/// What the ticks at both ends of the connection are multiples of.
pub(crate) fn common_divisor(scene: &Scene, link: LinkId) -> Nanos
    requires scene { IsFaultless scene.now }
    requires link { link < length scene.now.links }
    ensures value { result ≡ common_divisor scene.now link }
    ensures some { 1 ≤ result }
    ensures within { result ≤ tick scene.now (receiver scene.now link) }
{
    gcd(scene.sender_of(link).tick, scene.receiver_of(link).tick)
}

/// The allowance of the connection, rounded down to a multiple of what both ticks are multiples of.
pub(crate) fn rounded_allowance(scene: &Scene, link: LinkId) -> i128
    requires scene { IsFaultless scene.now }
    requires link { link < length scene.now.links }
    ensures value { result ≡ rounded scene.now link }
    ensures near { unsigned_abs result ≤ 10 ^ 16 }
{
    let common_divisor = common_divisor(scene, link);
    let allowance = allowance_of(scene, link);
    floor_to(common_divisor, allowance)
}
