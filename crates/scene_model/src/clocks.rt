//! How late things may come, and when blocks are wanted.
ghost use Rattle.std.specs.Prelude.{◌≡◌, ◌<◌, ◌≤◌, ◌^◌, length, pos, ◌-ℤ◌};
ghost use Rattle.std.specs.Int.RustNames.{unsigned_abs};
ghost use Rattle.scene_model.specs.Clocks.{allowance, allowance_by, delay, latency, wanted_blocks};
ghost use Rattle.scene_model.specs.Faults.{IsFaultless};

use crate::{AppDecl, PortDecl, PortKind, Scene};
use music_base::{LinkId, Nanos, wanted};

/// The latency of a connection, for events and messages, in ns: the one that it states, or else that of its input.
///
/// The scene has no fault, and the connection is one of its own.
pub fn latency_of(scene: &Scene, link: LinkId) -> Nanos
    requires scene { IsFaultless scene.now }
    requires link { link < length scene.now.links }
    ensures value { result ≡ latency scene.now link }
    ensures within { result ≤ 10 ^ 15 }
{
    let own = scene.link(link).latency;
    own.unwrap_or(scene.input_of(link).latency)
}

/// The delay of a connection, for continuous values, in ns: the latency that it states, or else the delay of its input.
///
/// The scene has no fault, and the connection is one of its own.
pub fn delay_of(scene: &Scene, link: LinkId) -> Nanos
    requires scene { IsFaultless scene.now }
    requires link { link < length scene.now.links }
    ensures value { result ≡ delay scene.now link }
    ensures within { result ≤ 10 ^ 15 }
{
    let own = scene.link(link).latency;
    own.unwrap_or(scene.input_of(link).delay)
}

/// The allowance of a connection of this latency or this delay to an input, between applications of these ticks that start
/// together.
fn allowance_by(
    input: &PortDecl,
    latency: Nanos,
    delay: Nanos,
    send_tick: Nanos,
    receive_tick: Nanos,
) -> i128
    ensures value { result ≡ allowance_by input.now.kind input.now.interpolate latency delay send_tick receive_tick }
    ensures near { unsigned_abs result ≤ 2 ^ 66 }
{
    match input.kind {
        PortKind::Events | PortKind::Messages => i128::from(latency.0),
        PortKind::Values => {
            let before = if input.interpolate { send_tick.0 } else { 1 };
            i128::from(delay.0) + i128::from(receive_tick.0) - i128::from(before)
        }
    }
}

/// How much later than the receiver the sender starts, in ns. It is negative where the sender starts first.
fn later_start(sender: &AppDecl, receiver: &AppDecl) -> i128
    ensures value { result ≡ pos sender.now.start -ℤ pos receiver.now.start }
    ensures near { unsigned_abs result ≤ 2 ^ 64 }
{
    i128::from(sender.start.0) - i128::from(receiver.start.0)
}

/// How much later than its sender's clock a block of the connection may come, in ns, where the clocks of both applications
/// are counted from their own starts. It may be negative.
///
/// It is how much later the sender starts than the receiver, together with the latency of events and messages. Of values
/// it is in place of the latency the delay and the receiver's tick, less the sender's tick where the input interpolates,
/// and less 1 ns where it holds them. A latency that the connection states counts as the latency and as the delay, and
/// otherwise the input's own do.
///
/// The scene has no fault, and the connection is one of its own.
pub fn allowance_of(scene: &Scene, link: LinkId) -> i128
    requires scene { IsFaultless scene.now }
    requires link { link < length scene.now.links }
    ensures value { result ≡ allowance scene.now link }
    ensures near { unsigned_abs result ≤ 10 ^ 16 }
{
    let (sender, receiver) = (scene.sender_of(link), scene.receiver_of(link));
    let (latency, delay) = (latency_of(scene, link), delay_of(scene, link));
    let together = allowance_by(
        scene.input_of(link),
        latency,
        delay,
        sender.tick,
        receiver.tick,
    );
    later_start(sender, receiver) + together
}

/// How many of the connection's blocks some step of the receiver wants. They are the first ones.
///
/// The scene has no fault, and the connection is one of its own.
pub fn wanted_blocks(scene: &Scene, link: LinkId) -> u64
    requires scene { IsFaultless scene.now }
    requires link { link < length scene.now.links }
    ensures { result ≡ wanted_blocks scene.now link }
{
    let (sender, receiver) = (scene.sender_of(link), scene.receiver_of(link));
    let sent = sender.steps();
    match receiver.steps().checked_sub(1) {
        None => 0,
        Some(last) => {
            let allowance = allowance_of(scene, link);
            wanted(sender.tick, allowance, receiver.tick, sent, last)
        }
    }
}
