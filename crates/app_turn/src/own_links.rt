//! The connections of one application, listed once, so that no test looks at all connections of the scene.
ghost use Rattle.std.specs.Prelude.{◌≡◌, ◌==◌, ◌<◌, ◌≤◌, ◌↔◌, ℕ, IfOk, IsTrue, None, length, slice_index, slice_index_or};
ghost use Rattle.scene_model.specs.Scenes.{receiver, sender};
ghost use Rattle.app_turn.specs.OwnLinks.{into_of, out_of};

use music_base::{AppId, Block, LinkId, NoMemory};
use scene_model::Scene;
use std::alloc::Global;

/// Whether the connection begins at the application.
#[tactic(auto, unfolding(scene_model::specs::Scenes::sender))]
pub fn sends(scene: &Scene, app: AppId, link: LinkId) -> bool
    requires { link < length scene.now.links }
    ensures { result ≡ (sender scene.now link == app) }
{
    scene.link(link).from_app == app
}

/// Whether the connection leads to the application.
#[tactic(auto, unfolding(scene_model::specs::Scenes::receiver))]
pub fn receives(scene: &Scene, app: AppId, link: LinkId) -> bool
    requires { link < length scene.now.links }
    ensures { result ≡ (receiver scene.now link == app) }
{
    scene.link(link).to_app == app
}

/// The connections that lead to the application.
#[tactic(auto, unfolding(crate::specs::OwnLinks::into_of))]
pub fn links_into(alloc: Global, scene: &Scene, app: AppId) -> Result<Vec<LinkId>, NoMemory>
    requires { length scene.now.links ≤ 64 }
    ensures { IfOk result (λ links. links.items ≡ into_of scene.now app) }
{
    let mut links = Vec::new(alloc);
    for link in 0..scene.links.len() {
        if receives(scene, app, LinkId(link as u32)) {
            links.push(LinkId(link as u32))?;
        }
    }
    Ok(links)
}

/// The connections that begin at the application.
#[tactic(auto, unfolding(crate::specs::OwnLinks::out_of))]
pub fn links_out_of(alloc: Global, scene: &Scene, app: AppId) -> Result<Vec<LinkId>, NoMemory>
    requires { length scene.now.links ≤ 64 }
    ensures { IfOk result (λ links. links.items ≡ out_of scene.now app) }
{
    let mut links = Vec::new(alloc);
    for link in 0..scene.links.len() {
        if sends(scene, app, LinkId(link as u32)) {
            links.push(LinkId(link as u32))?;
        }
    }
    Ok(links)
}

/// Whether of each of these connections as many blocks were taken as are needed.
pub fn all_taken(into: &[LinkId], taken: &[u64], needs: &[u64]) -> bool
    requires taken { (i : ℕ) → i < length into.now → slice_index into.now i < length taken.now }
    requires needs { length needs.now ≡ length taken.now }
    ensures { IsTrue result ↔ ((i : ℕ) → i < length into.now → slice_index taken.now (slice_index into.now i) ≡ slice_index needs.now (slice_index into.now i)) }
{
    for place in 0..into.len() {
        let link = into[place];
        if taken[link.0 as usize] != needs[link.0 as usize] {
            return false;
        }
    }
    true
}

/// Whether none of these connections has a block to put.
pub fn all_put(out: &[LinkId], pending: &[Option<Block>]) -> bool
    requires { (i : ℕ) → i < length out.now → slice_index out.now i < length pending.now }
    ensures { IsTrue result ↔ ((i : ℕ) → i < length out.now → slice_index_or pending.now (slice_index out.now i) None ≡ None) }
{
    for place in 0..out.len() {
        let link = out[place];
        if pending[link.0 as usize].is_some() {
            return false;
        }
    }
    true
}
