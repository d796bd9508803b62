//! The limits that connections and their ends state.
ghost use Rattle.std.specs.Prelude.{◌≡◌, ◌<◌, ◌≤◌, ◌*◌, ◌/◌, ◌^◌, length, All, IfOk, IfSome};
ghost use Rattle.std.specs.Int.{IsInRange};
ghost use Rattle.scene_model.specs.Faults.{IsFaultless};
ghost use Rattle.scene_model.specs.Limits.{longest_tick, most_buffered};
ghost use Rattle.scene_model.specs.Waits.{IsLawfulLimit, in_sender_ticks, stated, stated_by, stated_limits};

use music_base::{LinkId, Nanos, NoMemory};
use scene_model::Scene;
use std::alloc::Global;

/// How many blocks a connection may keep at most, whatever is stated.
pub const GREATEST_LIMIT: u64 = 100_000_000_000_000_000;

/// So many ticks of the receiver, in whole ticks of the sender.
fn in_ticks(ticks: u64, receive_tick: Nanos, send_tick: Nanos) -> u64
    requires ticks { ticks ≤ most_buffered }
    requires receive_tick { receive_tick ≤ longest_tick }
    requires send_tick { 1 ≤ send_tick }
    ensures { result ≡ ticks * receive_tick / send_tick }
{
    ticks * receive_tick.0 / send_tick.0
}

/// So many ticks of the connection's receiver, in whole ticks of its sender.
fn in_sender_ticks(scene: &Scene, link: LinkId, ticks: u64) -> u64
    requires scene { IsFaultless scene.now }
    requires link { link < length scene.now.links }
    requires ticks { ticks ≤ most_buffered }
    ensures { result ≡ in_sender_ticks scene.now link ticks }
{
    in_ticks(
        ticks,
        scene.receiver_of(link).tick,
        scene.sender_of(link).tick,
    )
}

/// What the ends of a connection state together, in ticks of the sender.
fn stated_by(scene: &Scene, link: LinkId, output: Option<u64>, input: Option<u64>) -> Option<u64>
    requires scene { IsFaultless scene.now }
    requires link { link < length scene.now.links }
    requires output { IfSome output (IsInRange 1 most_buffered) }
    requires input { IfSome input (IsInRange 1 most_buffered) }
    ensures value { result ≡ stated_by scene.now link output input }
    ensures some { IfSome result (λ limit. 1 ≤ limit) }
{
    match (output, input) {
        (None, None) => None,
        (Some(a), None) => Some(a),
        (None, Some(b)) => Some(in_sender_ticks(scene, link, b).max(1)),
        (Some(a), Some(b)) => Some(a.min(in_sender_ticks(scene, link, b)).max(1)),
    }
}

/// The stated limit of a connection.
fn stated_limit(scene: &Scene, link: LinkId) -> Option<u64>
    requires scene { IsFaultless scene.now }
    requires link { link < length scene.now.links }
    ensures value { result ≡ stated scene.now link }
    ensures lawful { IsLawfulLimit result }
{
    let (output, input) = (scene.output_of(link), scene.input_of(link));
    let own = scene.link(link).buffered;
    match own.or(stated_by(scene, link, output.buffered, input.buffered)) {
        None => None,
        Some(limit) => Some(limit.min(GREATEST_LIMIT)),
    }
}

/// For each connection of the scene how many blocks it keeps at most, where the connection or one of its ends states that.
/// A block is one tick of the sender.
///
/// The number of blocks that a connection states counts as it stands. Where it states none, the ticks that its ends buffer
/// count: those of the output as they stand, those of the input as so many whole ticks of the sender as their time holds,
/// and of both the lesser number. A limit is at least 1, and one above `GREATEST_LIMIT` is taken as that.
///
/// The scene has no fault.
pub fn stated_limits(alloc: Global, scene: &Scene) -> Result<Vec<Option<u64>>, NoMemory>
    requires { IsFaultless scene.now }
    ensures limits { IfOk result (λ limits. limits.items ≡ stated_limits scene.now) }
    ensures lawful { IfOk result (λ limits. All IsLawfulLimit limits.items) }
{
    let mut limits = Vec::new(alloc);
    for c in 0..scene.links.len() {
        limits.push(stated_limit(scene, LinkId(c as u32)))?;
    }
    Ok(limits)
}
