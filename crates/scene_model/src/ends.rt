//! Applications, connections and their ends, by their places.
use crate::{AppDecl, Link, PortDecl, Scene};
use music_base::{AppId, LinkId, Nanos, PortId, steps_of};

impl AppDecl {
    ghost use Rattle.std.specs.Prelude.{◌≡◌, ◌≤◌, ◌<◌, length, slice_index_or};
    ghost use Rattle.music_base.specs.Clocks.{steps_until};
    ghost use Rattle.scene_model.specs.Clocks.{span};
    ghost use Rattle.scene_model.specs.Scenes.{no_port};

    /// How many steps the application runs: those whose clock is before its stop, and none where it does not start before
    /// that. Its tick is at least 1 ns.
    pub fn steps(&self) -> u64
        requires { 1 ≤ self.now.tick }
        ensures { result ≡ steps_until (span self.now) self.now.tick }
    {
        let span = Nanos(self.stop.0.saturating_sub(self.start.0));
        steps_of(span, self.tick)
    }

    /// The port at a place, at which one stands.
    pub fn port(&self, port: PortId) -> &PortDecl
        requires { port < length self.now.ports }
        ensures { result.now ≡ slice_index_or self.now.ports port no_port }
    {
        &self.ports.as_slice()[port.0 as usize]
    }
}

impl Scene {
    ghost use Rattle.std.specs.Prelude.{◌≡◌, ◌<◌, length};
    ghost use Rattle.scene_model.specs.Faults.{IsFaultless};
    ghost use Rattle.scene_model.specs.Scenes.{app_at, input_of, link_at, output_of, receiver, sender};

    /// The application at a place, at which one stands.
    pub fn app(&self, app: AppId) -> &AppDecl
        requires { app < length self.now.apps }
        ensures { result.now ≡ app_at self.now app }
    {
        &self.apps.as_slice()[app.0 as usize]
    }

    /// The connection at a place, at which one stands.
    pub fn link(&self, link: LinkId) -> Link
        requires { link < length self.now.links }
        ensures { result ≡ link_at self.now link }
    {
        self.links.as_slice()[link.0 as usize]
    }

    /// The application that sends on a connection of a scene without a fault.
    pub fn sender_of(&self, link: LinkId) -> &AppDecl
        requires scene { IsFaultless self.now }
        requires link { link < length self.now.links }
        ensures { result.now ≡ app_at self.now (sender self.now link) }
    {
        self.app(self.link(link).from_app)
    }

    /// The application that receives on a connection of a scene without a fault.
    pub fn receiver_of(&self, link: LinkId) -> &AppDecl
        requires scene { IsFaultless self.now }
        requires link { link < length self.now.links }
        ensures { result.now ≡ app_at self.now (receiver self.now link) }
    {
        self.app(self.link(link).to_app)
    }

    /// The output that a connection of a scene without a fault begins at.
    pub fn output_of(&self, link: LinkId) -> &PortDecl
        requires scene { IsFaultless self.now }
        requires link { link < length self.now.links }
        ensures { result.now ≡ output_of self.now link }
    {
        self.sender_of(link).port(self.link(link).from_port)
    }

    /// The input that a connection of a scene without a fault leads to.
    pub fn input_of(&self, link: LinkId) -> &PortDecl
        requires scene { IsFaultless self.now }
        requires link { link < length self.now.links }
        ensures { result.now ≡ input_of self.now link }
    {
        self.receiver_of(link).port(self.link(link).to_port)
    }
}
