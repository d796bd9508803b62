//! The ends of a connection: applications and ports by their names.
ghost use Rattle.std.specs.Prelude.{◌≡◌, ◌≤◌, ◌<◌, ℕ, true, length, IfSome, IfOk};
ghost use Rattle.std.specs.List.{list_any};
ghost use Rattle.scene_model.specs.Limits.{most_apps, most_ports};
ghost use Rattle.scene_model.specs.Links.{app_of, has_end, has_ends, input_of, output_of, port_of, same_ends, same_input};
ghost use Rattle.port_match.specs.Links.{app_place, ends_of, is_fed_by, port_place};

use crate::LinkKind;
use config_text::LinkText;
use music_base::{AppId, Name, PortId};
use scene_model::{AppDecl, Link, PortDecl, PortKind};

/// The place of the application of this name.
fn app_place(apps: &[AppDecl], name: &Name) -> Option<usize>
    ensures place { result ≡ app_place apps.now name.now }
    ensures stands { IfSome result (λ a. a < length apps.now) }
{
    let name = name.as_slice();
    apps.iter().position(|app| app.name.as_slice() == name)
}

/// The place of the port of this name.
fn port_place(app: &AppDecl, name: &Name) -> Option<usize>
    ensures place { result ≡ port_place app.now name.now }
    ensures stands { IfSome result (λ p. p < length app.now.ports) }
{
    let name = name.as_slice();
    app.ports
        .as_slice()
        .iter()
        .position(|port| port.name.as_slice() == name)
}

fn app_of(apps: &[AppDecl], a: usize) -> &AppDecl
    requires { a < length apps.now }
    ensures { result.now ≡ app_of apps.now a }
{
    &apps[a]
}

fn port_of(app: &AppDecl, p: usize) -> &PortDecl
    requires { p < length app.now.ports }
    ensures { result.now ≡ port_of app.now p }
{
    &app.ports.as_slice()[p]
}

/// The port at a place of the application at a place.
fn port_at(apps: &[AppDecl], a: AppId, p: PortId) -> &PortDecl
    requires { has_end apps.now a p ≡ true }
    ensures { result.now ≡ port_of (app_of apps.now a) p }
{
    port_of(app_of(apps, a.0 as usize), p.0 as usize)
}

/// The port that the link begins at.
#[tactic(auto, unfolding(scene_model::specs::Links::output_of, scene_model::specs::Links::has_ends))]
pub fn output_of<'a>(apps: &'a [AppDecl], link: &Link) -> &'a PortDecl
    requires { has_ends apps.now link.now ≡ true }
    ensures { result.now ≡ output_of apps.now link.now }
{
    port_at(apps, link.from_app, link.from_port)
}

/// The port that the link leads to.
#[tactic(auto, unfolding(scene_model::specs::Links::input_of, scene_model::specs::Links::has_ends))]
pub fn input_of<'a>(apps: &'a [AppDecl], link: &Link) -> &'a PortDecl
    requires { has_ends apps.now link.now ≡ true }
    ensures { result.now ≡ input_of apps.now link.now }
{
    port_at(apps, link.to_app, link.to_port)
}

/// The link between the ports that the connection names. It states what the connection states.
#[tactic(auto, unfolding(crate::specs::Links::ends_of, scene_model::specs::Links::has_ends))]
pub fn ends_of(apps: &[AppDecl], text: &LinkText) -> Result<Link, LinkKind>
    requires apps { length apps.now ≤ most_apps }
    requires ports { (a : ℕ) → a < length apps.now → length (app_of apps.now a).ports ≤ most_ports }
    ensures ends { result ≡ ends_of apps.now text.now }
    ensures stand { IfOk result (λ link. has_ends apps.now link ≡ true) }
{
    let a = app_place(apps, &text.from_app).ok_or(LinkKind::UnknownApp)?;
    let b = app_place(apps, &text.to_app).ok_or(LinkKind::UnknownApp)?;
    let p = port_place(app_of(apps, a), &text.from_port).ok_or(LinkKind::UnknownPort)?;
    let q = port_place(app_of(apps, b), &text.to_port).ok_or(LinkKind::UnknownPort)?;
    Ok(Link {
        from_app: AppId(a as u32),
        from_port: PortId(p as u32),
        to_app: AppId(b as u32),
        to_port: PortId(q as u32),
        width: text.width,
        latency: text.latency,
        buffered: text.buffered,
    })
}

/// Whether both lead to the same port.
fn same_input(link: &Link, other: &Link) -> bool
    ensures { result ≡ same_input link.now other.now }
{
    link.to_app.0 == other.to_app.0 && link.to_port.0 == other.to_port.0
}

/// Whether both join the same two ports.
fn same_ends(link: &Link, other: &Link) -> bool
    ensures { result ≡ same_ends link.now other.now }
{
    link.from_app.0 == other.from_app.0
        && link.from_port.0 == other.from_port.0
        && same_input(link, other)
}

/// Whether an earlier link joins the same two ports.
pub fn is_joined(before: &[Link], link: &Link) -> bool
    ensures { result ≡ list_any (same_ends link.now) before.now }
{
    before.iter().any(|other| same_ends(link, other))
}

/// Whether an earlier link leads to the same port.
fn is_fed(before: &[Link], link: &Link) -> bool
    ensures { result ≡ list_any (same_input link.now) before.now }
{
    before.iter().any(|other| same_input(link, other))
}

/// Whether an earlier link leads to the same port, where that one takes values.
pub fn is_fed_by(kind: PortKind, before: &[Link], link: &Link) -> bool
    ensures { result ≡ is_fed_by kind before.now link.now }
{
    match kind {
        PortKind::Values => is_fed(before, link),
        PortKind::Events | PortKind::Messages => false,
    }
}
