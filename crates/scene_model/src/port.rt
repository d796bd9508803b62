use index_maps::PortMap;
use music_base::{Name, Nanos, NoMemory, TryCopy};
use std::alloc::Global;

/// Whether a port is published as an output or as an input.
#[derive(Clone, Copy, Debug, PartialEq, Eq)]
pub enum Direction {
    Output,
    Input,
}

/// What a port carries: events, continuous values or messages.
#[derive(Clone, Copy, Debug, PartialEq, Eq)]
pub enum PortKind {
    Events,
    Values,
    Messages,
}

/// A port of an application.
///
/// The map has a map for each rank of the application. A message output maps index 0 at rank 0 alone, a message input
/// index 0 at each rank.
#[derive(Debug, Drop)]
pub struct PortDecl {
    pub name: Name,
    pub direction: Direction,
    pub kind: PortKind,
    pub map: PortMap,
    /// How much later than its time an event or a message may be delivered, in ns, on connections that state no latency.
    /// 0 but at event and message inputs.
    pub latency: Nanos,
    /// How far behind the receiver's clock a value is read, in ns, on connections that state no latency. 0 but at continuous
    /// inputs.
    pub delay: Nanos,
    /// Whether a value is read between two samples, or held from the last one. It counts at continuous inputs alone.
    pub interpolate: bool,
    /// How many ticks of this application the port may buffer, where that is stated. It counts on connections that state
    /// nothing of it.
    pub buffered: Option<u64>,
}

impl TryCopy for PortDecl {
    fn copy(&self, alloc: Global) -> Result<PortDecl, NoMemory> {
        let name = self.name.copy(alloc)?;
        let map = self.map.copy(alloc)?;
        Ok(PortDecl {
            name,
            direction: self.direction,
            kind: self.kind,
            map,
            latency: self.latency,
            delay: self.delay,
            interpolate: self.interpolate,
            buffered: self.buffered,
        })
    }
}
