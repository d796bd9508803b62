//! The applications of a ring, and the connections from each to the next one.
ghost use Rattle.std.specs.Prelude.{◌≡◌, ◌≤◌, ◌<◌, IfOk};
ghost use Rattle.std.specs.List.{flat_map};
ghost use Rattle.music_base.specs.Numbers.{below};
ghost use Rattle.scene_make.specs.Made.{app_name, event_link, links_from, value_link};

use config_text::{LinkText, Links};
use music_base::{Name, NoMemory};
use std::alloc::Global;

/// The name of an application, by its place.
#[tactic(auto, using(crate::proofs::Spelled::name_is_name))]
pub fn app_name(alloc: Global, place: u32) -> Result<Name, NoMemory>
    requires { place < 8 }
    ensures { IfOk result (λ name. name ≡ app_name place) }
{
    let text = format!(in alloc; "a{place}")?;
    Name::from_slice(alloc, text.as_bytes())
}

/// The connection that carries the events of an application.
fn event_link(alloc: Global, from: u32, to: u32) -> Result<LinkText, NoMemory>
    requires from { from < 8 }
    requires to { to < 8 }
    ensures { IfOk result (λ link. link ≡ event_link from to) }
{
    Ok(LinkText {
        from_app: app_name(alloc, from)?,
        from_port: Name::from_slice(alloc, b"out")?,
        to_app: app_name(alloc, to)?,
        to_port: Name::from_slice(alloc, b"in")?,
        width: Some(100),
        latency: None,
        buffered: None,
    })
}

/// The connection that carries its values.
fn value_link(alloc: Global, from: u32, to: u32) -> Result<LinkText, NoMemory>
    requires from { from < 8 }
    requires to { to < 8 }
    ensures { IfOk result (λ link. link ≡ value_link from to) }
{
    Ok(LinkText {
        from_app: app_name(alloc, from)?,
        from_port: Name::from_slice(alloc, b"c")?,
        to_app: app_name(alloc, to)?,
        to_port: Name::from_slice(alloc, b"d")?,
        width: Some(4),
        latency: None,
        buffered: None,
    })
}

/// The connections of so many applications: two from each to the next one, and from the last to the first.
pub fn ring_links(alloc: Global, count: u32) -> Result<Links, NoMemory>
    requires { count ≤ 8 }
    ensures { IfOk result (λ links. links ≡ flat_map (links_from count) (below count)) }
{
    let mut links = Links::new(alloc);
    for place in 0..count {
        let next = (place + 1) % count;
        links.push(event_link(alloc, place, next)?)?;
        links.push(value_link(alloc, place, next)?)?;
    }
    Ok(links)
}
