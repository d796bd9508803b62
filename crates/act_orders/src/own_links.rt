//! The connections of one application, listed once, so that no test looks at all connections of the scene.
ghost use Rattle.std.specs.Prelude.{◌≡◌, ◌==◌, ◌<◌, ◌≤◌, ◌↔◌, ℕ, IfOk, IsTrue, length, map, min, slice_index};
ghost use Rattle.music_base.specs.Numbers.{below};
ghost use Rattle.scene_model.specs.Faults.{IsFaultless};
ghost use Rattle.scene_model.specs.Scenes.{receiver, sender};
ghost use Rattle.act_orders.specs.OwnLinks.{into_of, out_of};

use music_base::{AppId, Items, LinkId, NoMemory};
use scene_model::Scene;
use std::alloc::Global;

/// Whether the connection begins at the application.
#[tactic(auto, unfolding(scene_model::specs::Scenes::sender))]
fn sends(scene: &Scene, app: AppId, link: LinkId) -> bool
    requires { link < length scene.now.links }
    ensures { result ≡ (sender scene.now link == app) }
{
    scene.link(link).from_app == app
}

/// Whether the connection leads to the application.
#[tactic(auto, unfolding(scene_model::specs::Scenes::receiver))]
fn receives(scene: &Scene, app: AppId, link: LinkId) -> bool
    requires { link < length scene.now.links }
    ensures { result ≡ (receiver scene.now link == app) }
{
    scene.link(link).to_app == app
}

/// The connections that lead to the application.
#[tactic(auto, unfolding(crate::specs::OwnLinks::into_of))]
fn links_into(alloc: Global, scene: &Scene, app: AppId) -> Result<Vec<LinkId>, NoMemory>
    requires { length scene.now.links ≤ 64 }
    ensures { IfOk result (λ links. links.items ≡ into_of scene.now app) }
{
    let mut links = Vec::new(alloc);
    for link in 0..scene.links.len() {
        if receives(scene, app, LinkId(link as u32)) {
            links.push(LinkId(link as u32))?;
        }
    }
    Ok(links)
}

/// The connections that begin at the application.
#[tactic(auto, unfolding(crate::specs::OwnLinks::out_of))]
fn links_out_of(alloc: Global, scene: &Scene, app: AppId) -> Result<Vec<LinkId>, NoMemory>
    requires { length scene.now.links ≤ 64 }
    ensures { IfOk result (λ links. links.items ≡ out_of scene.now app) }
{
    let mut links = Vec::new(alloc);
    for link in 0..scene.links.len() {
        if sends(scene, app, LinkId(link as u32)) {
            links.push(LinkId(link as u32))?;
        }
    }
    Ok(links)
}

/// For each application the connections that lead to it.
pub fn into_each(alloc: Global, scene: &Scene) -> Result<Vec<Items<LinkId>>, NoMemory>
    requires { IsFaultless scene.now }
    ensures { IfOk result (λ all. all.items ≡ map (into_of scene.now) (below (length scene.now.apps))) }
{
    let mut all = Vec::new(alloc);
    for app in 0..scene.apps.len() as u32 {
        let links = links_into(alloc, scene, AppId(app))?;
        all.push(Items::from_vec(links))?;
    }
    Ok(all)
}

/// For each application the connections that begin there.
pub fn out_of_each(alloc: Global, scene: &Scene) -> Result<Vec<Items<LinkId>>, NoMemory>
    requires { IsFaultless scene.now }
    ensures { IfOk result (λ all. all.items ≡ map (out_of scene.now) (below (length scene.now.apps))) }
{
    let mut all = Vec::new(alloc);
    for app in 0..scene.apps.len() as u32 {
        let links = links_out_of(alloc, scene, AppId(app))?;
        all.push(Items::from_vec(links))?;
    }
    Ok(all)
}

/// Whether of each of these connections as many blocks were taken as are needed.
pub fn all_taken(into: &[LinkId], taken: &[u64], needs: &[u64]) -> bool
    requires taken { (i : ℕ) → i < length into.now → slice_index into.now i < length taken.now }
    requires needs { length needs.now ≡ length taken.now }
    ensures { IsTrue result ↔ ((i : ℕ) → i < length into.now → slice_index taken.now (slice_index into.now i) ≡ slice_index needs.now (slice_index into.now i)) }
{
    for place in 0..into.len() {
        let link = into[place];
        if taken[link.0 as usize] != needs[link.0 as usize] {
            return false;
        }
    }
    true
}

/// Whether on each of these connections all blocks were put that are wanted of so many steps.
pub fn all_put(out: &[LinkId], put: &[u64], most: &[u64], ran: u64) -> bool
    requires put { (i : ℕ) → i < length out.now → slice_index out.now i < length put.now }
    requires most { length most.now ≡ length put.now }
    ensures { IsTrue result ↔ ((i : ℕ) → i < length out.now → slice_index put.now (slice_index out.now i) ≡ min ran (slice_index most.now (slice_index out.now i))) }
{
    for place in 0..out.len() {
        let link = out[place];
        if put[link.0 as usize] != ran.min(most[link.0 as usize]) {
            return false;
        }
    }
    true
}
