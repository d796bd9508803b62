use crate::{PortDecl, Rule};
use music_base::{AppId, Items, Name, Nanos, NoMemory, PortId, TryCopy};
use std::alloc::Global;

/// An application: its ports, and the rules by which it steps.
#[derive(Debug, Drop)]
pub struct AppDecl {
    pub name: Name,
    /// How many processes it has, each a rank.
    pub np: u32,
    /// The clock of its first step, in ns.
    pub start: Nanos,
    /// It runs the steps whose clock is before this time, in ns: none where it is not after the start.
    pub stop: Nanos,
    /// The time from one step to the next, in ns.
    pub tick: Nanos,
    pub ports: Items<PortDecl>,
    pub rules: Items<Rule>,
}

/// A connection from an output of one application to an input of one, which may be the same.
#[derive(Clone, Copy, Debug)]
pub struct Link {
    pub from_app: AppId,
    pub from_port: PortId,
    pub to_app: AppId,
    pub to_port: PortId,
    /// How many global indices there are, where that is stated.
    pub width: Option<u32>,
    /// How much later than its time an event or a message may be delivered, or how far behind the receiver's clock a value is
    /// read, in ns, where the connection states that. It then counts in place of the latency or the delay of the input.
    pub latency: Option<Nanos>,
    /// How many blocks the connection keeps at most, one for each tick of the sender, where it states that. It then counts in
    /// place of what the two ports state.
    pub buffered: Option<u64>,
}

/// What runs: applications and connections in the order of the text.
#[derive(Debug, Drop)]
pub struct Scene {
    /// The stop of the applications whose sections state none, in ns. Each application has its own in its declaration, so
    /// nothing is run by this one.
    pub stop: Nanos,
    pub apps: Items<AppDecl>,
    pub links: Items<Link>,
}

impl TryCopy for AppDecl {
    fn copy(&self, alloc: Global) -> Result<AppDecl, NoMemory> {
        let name = self.name.copy(alloc)?;
        let ports = self.ports.copy(alloc)?;
        let rules = self.rules.copy(alloc)?;
        Ok(AppDecl {
            name,
            np: self.np,
            start: self.start,
            stop: self.stop,
            tick: self.tick,
            ports,
            rules,
        })
    }
}

impl TryCopy for Link {
    fn copy(&self, _: Global) -> Result<Link, NoMemory> {
        Ok(*self)
    }
}

impl TryCopy for Scene {
    fn copy(&self, alloc: Global) -> Result<Scene, NoMemory> {
        let apps = self.apps.copy(alloc)?;
        let links = self.links.copy(alloc)?;
        Ok(Scene {
            stop: self.stop,
            apps,
            links,
        })
    }
}
