ghost use Rattle.std.specs.Prelude.{◌<◌, ◌≤◌, ◌^◌, length};
ghost use Rattle.scene_model.specs.Faults.{IsFaultless};
ghost use Rattle.port_inbox.specs.Holding.{IsLinkOf};

use event_routes::Target;
use music_base::{AppId, Items, LinkId, Nanos, PortId, Word};
use scene_model::{Scene, latency_of};

/// What an inbox knows of a connection: the places of the application and the port that send on it, and its latency.
#[derive(Clone, Copy, Debug)]
pub struct InboxLink {
    pub from_app: AppId,
    pub from_port: PortId,
    pub latency: Nanos,
}

/// What an inbox has to know of a connection of a scene.
///
/// The scene has no fault, and the connection is one of its own.
pub fn inbox_link_of(scene: &Scene, link: LinkId) -> InboxLink
    requires scene { IsFaultless scene.now }
    requires link { link < length scene.now.links }
    ensures link { IsLinkOf scene.now link result }
    ensures late { result.latency ≤ 10 ^ 16 }
{
    let latency = latency_of(scene, link);
    let ends = scene.link(link);
    InboxLink {
        from_app: ends.from_app,
        from_port: ends.from_port,
        latency,
    }
}

/// An event that is due in a step, with the ranks that its index goes to.
#[derive(Debug, Drop)]
pub struct Arrival {
    pub time: Nanos,
    pub global: u32,
    pub targets: Items<Target>,
}

/// A message that is due in a step.
#[derive(Debug, Drop)]
pub struct Heard {
    pub time: Nanos,
    pub word: Word,
}
