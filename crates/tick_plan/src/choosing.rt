//! The limits of a scene, connection by connection.
ghost use Rattle.std.specs.Prelude.{◌≡◌, ◌<◌, ◌++◌, length, map, Some, All, IfOk};
ghost use Rattle.std.specs.Int.{IsInRange};
ghost use Rattle.scene_model.specs.Cover.{AllCovered, IsWithin};
ghost use Rattle.scene_model.specs.Faults.{IsFaultless};
ghost use Rattle.scene_model.specs.Waits.{AreLimits, IsLawfulLimit, greatest_limit, stated_limits, waits};
ghost use Rattle.tick_plan.specs.Choices.{AreSame, HasChosenBelow, IsBelowUnless, IsChosen, IsLeastAt, room_chosen};

use crate::least::least_limit;
use crate::room::RoomWait;
use latency_graph::room_wait;
use music_base::{LinkId, NoMemory};
use scene_model::{Scene, Wait};
use std::alloc::Global;

/// The least limit of the connection with which every cycle of these waits and of its wait for room is covered.
fn least_at(alloc: Global, scene: &Scene, link: LinkId, waits: &[Wait]) -> Result<u64, NoMemory>
    requires scene { IsFaultless scene.now }
    requires link { link < length scene.now.links }
    requires within { All (IsWithin (length scene.now.apps)) waits.now }
    requires covered { AllCovered waits.now }
    ensures below { IfOk result (λ m. m < greatest_limit) }
    ensures least { IfOk result (IsLeastAt scene.now waits.now link) }
{
    let room = RoomWait {
        without_room: room_wait(scene, link, 0),
        step: scene.sender_of(link).tick.0,
    };
    least_limit(alloc, scene.apps.len() as u32, waits, &room)
}

/// The limit that the connection states, or else the least, whose wait for room counts from then on.
fn choose(
    alloc: Global,
    scene: &Scene,
    link: LinkId,
    stated: Option<u64>,
    counting: &mut Vec<Wait>,
) -> Result<u64, NoMemory>
    requires scene { IsFaultless scene.now }
    requires link { link < length scene.now.links }
    requires lawful { IsLawfulLimit stated }
    requires within { All (IsWithin (length scene.now.apps)) counting.old.items }
    requires covered { AllCovered counting.old.items }
    ensures in_range { IfOk result (IsInRange 1 greatest_limit) }
    ensures below { IfOk result (IsBelowUnless stated) }
    ensures chosen { IfOk result (IsChosen scene.now counting.old.items link stated) }
    ensures counting { IfOk result (λ m. counting.new.items ≡ counting.old.items ++ room_chosen scene.now link stated m) }
{
    match stated {
        Some(limit) => Ok(limit),
        None => {
            let limit = least_at(alloc, scene, link, counting)?;
            counting.push(room_wait(scene, link, limit))?;
            Ok(limit)
        }
    }
}

/// The limits of a scene of which every cycle of waits under stated limits is covered. The waits that count are those
/// at first, and then also the waits for room under the limits that are chosen.
pub(crate) fn limits_in_turn(
    alloc: Global,
    scene: &Scene,
    stated: &[Option<u64>],
    counting: &mut Vec<Wait>,
) -> Result<Vec<u64>, NoMemory>
    requires scene { IsFaultless scene.now }
    requires stated { stated.now ≡ stated_limits scene.now }
    requires lawful { All IsLawfulLimit stated.now }
    requires counting { counting.old.items ≡ waits scene.now (stated_limits scene.now) }
    requires within { All (IsWithin (length scene.now.apps)) counting.old.items }
    requires covered { AllCovered counting.old.items }
    ensures limits { IfOk result (λ limits. AreLimits scene.now limits.items) }
    ensures in_range { IfOk result (λ limits. All (IsInRange 1 greatest_limit) limits.items) }
    ensures below { IfOk result (λ limits. HasChosenBelow scene.now limits.items) }
    ensures counting { IfOk result (λ limits. AreSame counting.new.items (waits scene.now (map (λ m. Some m) limits.items))) }
    ensures within { IfOk result (λ _. All (IsWithin (length scene.now.apps)) counting.new.items) }
    ensures covered { IfOk result (λ _. AllCovered counting.new.items) }
{
    let mut limits = Vec::new(alloc);
    for (c, limit) in stated.iter().enumerate() {
        let limit = choose(alloc, scene, LinkId(c as u32), *limit, counting)?;
        limits.push(limit)?;
    }
    Ok(limits)
}
