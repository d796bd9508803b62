//! The shape of a connection's blocks.
ghost use Rattle.std.specs.Prelude.{◌≡◌, ◌<◌, length, IfOk};
ghost use Rattle.scene_model.specs.Faults.{IsFaultless};
ghost use Rattle.app_turn.specs.Shapes.{shape};

use music_base::{LinkId, NoMemory};
use port_buffers::BlockShape;
use scene_model::{PortKind, Scene};
use std::alloc::Global;

/// What the blocks of a connection may hold: events and messages of its sender's steps and of the indices that its output
/// maps, or a value for each of these.
///
/// The scene has no fault, and the connection is one of its own.
#[tactic(auto, unfolding(crate::specs::Shapes::shape, scene_model::specs::Clocks::start, scene_model::specs::Clocks::tick))]
pub fn shape_of(alloc: Global, scene: &Scene, link: LinkId) -> Result<BlockShape, NoMemory>
    requires scene { IsFaultless scene.now }
    requires link { link < length scene.now.links }
    ensures { IfOk result (λ s. s ≡ shape scene.now link) }
{
    let output = scene.output_of(link);
    let sender = scene.sender_of(link);
    let (start, tick) = (sender.start, sender.tick);
    match output.kind {
        PortKind::Events => Ok(BlockShape::Events {
            start,
            tick,
            indices: output.map.indices(alloc)?,
        }),
        PortKind::Values => Ok(BlockShape::Values {
            indices: output.map.indices(alloc)?,
        }),
        PortKind::Messages => Ok(BlockShape::Messages { start, tick }),
    }
}
