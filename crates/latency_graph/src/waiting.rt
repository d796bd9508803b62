//! The waits of a scene.
ghost use Rattle.std.specs.Prelude.{◌≡◌, ◌<◌, ◌≤◌, ◌+◌, ◌*◌, ◌^◌, ◌++◌, length, pos, ◌-ℤ◌, All, IfOk, OnOk};
ghost use Rattle.std.specs.Int.{IsInRange};
ghost use Rattle.std.specs.Int.RustNames.{unsigned_abs};
ghost use Rattle.scene_model.specs.Cover.{IsWithin};
ghost use Rattle.scene_model.specs.Faults.{IsFaultless};
ghost use Rattle.scene_model.specs.Limits.{longest_tick};
ghost use Rattle.scene_model.specs.Waits.{IsLawfulLimit, block_wait, greatest_limit, room_wait, waits, waits_of};

use crate::rounded::{common_divisor, rounded_allowance};
use crate::{Wait, WaitKind};
use music_base::{LinkId, Nanos, NoMemory};
use scene_model::Scene;
use std::alloc::Global;

/// How much longer the tick is than the other span.
fn time_beyond(tick: Nanos, span: Nanos) -> i128
    ensures { result ≡ pos tick -ℤ pos span }
{
    i128::from(tick.0) - i128::from(span.0)
}

/// The wait of the connection's receiver for a block.
fn block_wait(scene: &Scene, link: LinkId) -> Wait
    requires scene { IsFaultless scene.now }
    requires link { link < length scene.now.links }
    ensures { result ≡ block_wait scene.now link }
{
    let ends = scene.link(link);
    let tick = scene.receiver_of(link).tick;
    Wait {
        waiter: ends.to_app,
        awaited: ends.from_app,
        link,
        kind: WaitKind::ForBlock,
        allowance: rounded_allowance(scene, link),
        burden: time_beyond(tick, common_divisor(scene, link)),
    }
}

/// The allowance of a wait for room: the time of so many ticks of the sender and one more, and of a tick of the receiver,
/// less the rounded allowance.
fn room_allowance(limit: u64, send_tick: Nanos, receive_tick: Nanos, rounded: i128) -> i128
    requires limit { limit ≤ greatest_limit }
    requires send_tick { send_tick ≤ longest_tick }
    requires receive_tick { receive_tick ≤ longest_tick }
    requires rounded { unsigned_abs rounded ≤ 10 ^ 16 }
    ensures { result ≡ pos ((limit + 1) * send_tick + receive_tick) -ℤ rounded }
{
    let time = (u128::from(limit) + 1) * u128::from(send_tick.0) + u128::from(receive_tick.0);
    time as i128 - rounded
}

/// The wait of the connection's sender for room, where at most so many blocks are kept.
///
/// The scene has no fault, the connection is one of its own, and the limit is at most `GREATEST_LIMIT`.
pub fn room_wait(scene: &Scene, link: LinkId, limit: u64) -> Wait
    requires scene { IsFaultless scene.now }
    requires link { link < length scene.now.links }
    requires limit { limit ≤ greatest_limit }
    ensures { result ≡ room_wait scene.now link limit }
{
    let ends = scene.link(link);
    let (sender, receiver) = (scene.sender_of(link), scene.receiver_of(link));
    let rounded = rounded_allowance(scene, link);
    Wait {
        waiter: ends.from_app,
        awaited: ends.to_app,
        link,
        kind: WaitKind::ForRoom,
        allowance: room_allowance(limit, sender.tick, receiver.tick, rounded),
        burden: 0,
    }
}

/// Appends the waits of a connection: its receiver's for a block, and its sender's for room where it has a limit.
fn push_waits(
    waits: &mut Vec<Wait>,
    scene: &Scene,
    link: LinkId,
    limit: Option<u64>,
) -> Result<(), NoMemory>
    requires scene { IsFaultless scene.now }
    requires link { link < length scene.now.links }
    requires limit { IsLawfulLimit limit }
    ensures { OnOk result (waits.new.items ≡ waits.old.items ++ waits_of scene.now link limit) }
{
    waits.push(block_wait(scene, link))?;
    if let Some(limit) = limit {
        waits.push(room_wait(scene, link, limit))?;
    }
    Ok(())
}

/// Which application may have to wait for which, connection by connection: the receiver for a block, and where the
/// connection has a limit, the sender for room.
///
/// There is one limit for each connection, at least 1 and at most `GREATEST_LIMIT`, or none.
/// The scene has no fault.
pub fn waits(alloc: Global, scene: &Scene, limits: &[Option<u64>]) -> Result<Vec<Wait>, NoMemory>
    requires scene { IsFaultless scene.now }
    requires counted { length limits.now ≡ length scene.now.links }
    requires lawful { All IsLawfulLimit limits.now }
    ensures waits { IfOk result (λ found. found.items ≡ waits scene.now limits.now) }
    ensures within { IfOk result (λ found. All (IsWithin (length scene.now.apps)) found.items) }
{
    let mut waits = Vec::new(alloc);
    for (c, limit) in limits.iter().enumerate() {
        push_waits(&mut waits, scene, LinkId(c as u32), *limit)?;
    }
    Ok(waits)
}
