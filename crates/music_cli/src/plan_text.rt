//! The text of a plan.
ghost use Rattle.std.specs.Prelude.{◌≡◌, ◌<◌, ◌++◌, length, OnOk, IfOk};
ghost use Rattle.scene_model.specs.Faults.{IsFaultless};
ghost use Rattle.music_setup.specs.Setups.{IsSound};
ghost use Rattle.music_cli.specs.PlanTexts.{columns_line, ends_text, how_text, plan_line, plan_text, port_text};

use itoa::Buffer;
use music_base::{LinkId, NoMemory};
use scene_model::{AppDecl, PortDecl, Scene};
use std::alloc::Global;
use tick_plan::Plan;

/// Appends the names of an application and of one of its ports.
fn push_port(text: &mut Vec<u8>, app: &AppDecl, port: &PortDecl) -> Result<(), NoMemory>
    ensures { OnOk result (text.new.items ≡ text.old.items ++ port_text app.now port.now) }
{
    text.extend_from_slice(app.name.as_slice())?;
    text.extend_from_slice(b".")?;
    text.extend_from_slice(port.name.as_slice())?;
    Ok(())
}

/// Appends which connection it is, counted from 1, and its two ends.
fn push_ends(text: &mut Vec<u8>, scene: &Scene, link: LinkId) -> Result<(), NoMemory>
    requires scene { IsFaultless scene.now }
    requires link { link < length scene.now.links }
    ensures { OnOk result (text.new.items ≡ text.old.items ++ ends_text scene.now link) }
{
    let mut digits = Buffer::new();
    text.extend_from_slice(digits.format(u64::from(link.0) + 1).as_bytes())?;
    text.extend_from_slice(b",")?;
    push_port(text, scene.sender_of(link), scene.output_of(link))?;
    text.extend_from_slice(b",")?;
    push_port(text, scene.receiver_of(link), scene.input_of(link))?;
    Ok(())
}

/// Whether an end of a connection states its limit.
fn how_text(is_stated: bool) -> &'static [u8]
    ensures { result.now ≡ how_text is_stated }
{
    if is_stated { b"stated" } else { b"chosen" }
}

/// Appends the line of a connection.
fn push_line(
    text: &mut Vec<u8>,
    scene: &Scene,
    link: LinkId,
    limit: u64,
    is_stated: bool,
) -> Result<(), NoMemory>
    requires scene { IsFaultless scene.now }
    requires link { link < length scene.now.links }
    ensures { OnOk result (text.new.items ≡ text.old.items ++ plan_line scene.now link limit is_stated) }
{
    push_ends(text, scene, link)?;
    text.extend_from_slice(b",")?;
    let mut digits = Buffer::new();
    text.extend_from_slice(digits.format(limit).as_bytes())?;
    text.extend_from_slice(b",")?;
    text.extend_from_slice(how_text(is_stated))?;
    text.extend_from_slice(b"\n")?;
    Ok(())
}

/// The line of the columns' names.
#[tactic(auto, unfolding(crate::specs::PlanTexts::columns_line))]
fn columns_line() -> &'static [u8]
    ensures { result.now ≡ columns_line }
{
    b"link,from,to,limit,how\n"
}

/// The text of a plan: the names of the columns, and a line for each connection, with its number from 1, its two ends, its
/// limit, and whether that is stated or chosen. The plan is the scene's own.
pub fn plan_text(alloc: Global, scene: &Scene, plan: &Plan) -> Result<Vec<u8>, NoMemory>
    requires { IsSound (record { scene = scene.now; plan = plan.now }) }
    ensures { IfOk result (λ text. text.items ≡ plan_text scene.now plan.now.limits.items) }
{
    let mut text = Vec::from_slice(alloc, columns_line())?;
    for c in 0..scene.links.len() {
        push_line(
            &mut text,
            scene,
            LinkId(c as u32),
            plan.limits[c],
            plan.stated[c],
        )?;
    }
    Ok(text)
}
