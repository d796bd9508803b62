//! The blocks of a step. The last connection of an output gets the items themselves, and the others copies.
ghost use Rattle.std.specs.Prelude.{◌≡◌, ◌==◌, ◌<◌, ℕ, Option, None, [], IfOk, OnOk, false, length, map, slice_index, slice_index_or, slice_set};
ghost use Rattle.std.specs.Bool.{OnTrue};
ghost use Rattle.music_base.specs.declared.item.Block.{Block};
ghost use Rattle.scene_model.specs.Scenes.{link_at};
ghost use Rattle.app_turn.specs.Steps.{begins_at, block_for};

use music_base::{Block, Item, Items, LinkId, NoMemory, PortId, TryCopy};
use scene_model::Scene;
use std::alloc::Global;
use std::mem::replace;

/// Whether an output put anything out.
fn has_items(outputs: &[Items<Item>], port: PortId) -> bool
    ensures there { OnTrue result (port < length outputs.now) }
    ensures none { result ≡ false → slice_index_or outputs.now port [] ≡ [] }
{
    match outputs.get(port.0 as usize) {
        Some(items) => !items.is_empty(),
        None => false,
    }
}

fn begins_with(scene: &Scene, link: LinkId, port: PortId) -> bool
    requires { link < length scene.now.links }
    ensures { result ≡ ((link_at scene.now link).from_port == port) }
{
    scene.link(link).from_port == port
}

/// Whether no later one of these connections begins at the same output.
fn is_last(scene: &Scene, out: &[LinkId], place: usize) -> bool
    requires links { (i : ℕ) → i < length out.now → slice_index out.now i < length scene.now.links }
    requires place { place < length out.now }
    ensures { OnTrue result ((i : ℕ) → place < i → i < length out.now → begins_at scene.now out.now i ≡ begins_at scene.now out.now place → ⊥) }
{
    let port = scene.link(out[place]).from_port;
    for later in place + 1..out.len() {
        if begins_with(scene, out[later], port) {
            return false;
        }
    }
    true
}

/// Takes the items of an output out, and leaves none.
fn moved_out(alloc: Global, outputs: &mut Vec<Items<Item>>, port: PortId) -> Items<Item>
    requires { port < length outputs.old.items }
    ensures items { result ≡ slice_index_or outputs.old.items port [] }
    ensures left { outputs.new.items ≡ slice_set outputs.old.items port [] }
{
    replace(&mut outputs[port.0 as usize], Items::new(alloc))
}

fn copied(alloc: Global, outputs: &[Items<Item>], port: PortId) -> Result<Items<Item>, NoMemory>
    requires { port < length outputs.now }
    ensures { IfOk result (λ items. items ≡ slice_index_or outputs.now port []) }
{
    outputs[port.0 as usize].copy(alloc)
}

/// The items for one connection: a copy of its output's, and to the last connection of an output the items themselves. What
/// later connections begin at stays.
fn items_for(
    alloc: Global,
    scene: &Scene,
    outputs: &mut Vec<Items<Item>>,
    out: &[LinkId],
    place: usize,
) -> Result<Items<Item>, NoMemory>
    requires links { (i : ℕ) → i < length out.now → slice_index out.now i < length scene.now.links }
    requires place { place < length out.now }
    ensures items { IfOk result (λ items. items ≡ slice_index_or outputs.old.items (begins_at scene.now out.now place) []) }
    ensures later { (i : ℕ) → place < i → i < length out.now → slice_index_or outputs.new.items (begins_at scene.now out.now i) [] ≡ slice_index_or outputs.old.items (begins_at scene.now out.now i) [] }
{
    let port = scene.link(out[place]).from_port;
    if !has_items(outputs, port) {
        return Ok(Items::new(alloc));
    }
    if is_last(scene, out, place) {
        return Ok(moved_out(alloc, outputs, port));
    }
    copied(alloc, outputs, port)
}

/// The block of a step for one connection, of which so many blocks are wanted.
fn block_of(
    alloc: Global,
    scene: &Scene,
    step: u64,
    most: u64,
    outputs: &mut Vec<Items<Item>>,
    out: &[LinkId],
    place: usize,
) -> Result<Option<Block>, NoMemory>
    requires links { (i : ℕ) → i < length out.now → slice_index out.now i < length scene.now.links }
    requires place { place < length out.now }
    ensures block { IfOk result (λ block. block ≡ block_for scene.now step outputs.old.items most (slice_index out.now place)) }
    ensures later { (i : ℕ) → place < i → i < length out.now → slice_index_or outputs.new.items (begins_at scene.now out.now i) [] ≡ slice_index_or outputs.old.items (begins_at scene.now out.now i) [] }
{
    if most <= step {
        return Ok(None);
    }
    let items = items_for(alloc, scene, outputs, out, place)?;
    Ok(Some(Block {
        number: step,
        items,
    }))
}

/// Fills a list with the blocks of a step for these connections, and moves or copies the items of the outputs into them.
pub fn fill_blocks(
    alloc: Global,
    scene: &Scene,
    step: u64,
    most: &[u64],
    outputs: &mut Vec<Items<Item>>,
    out: &[LinkId],
    blocks: &mut Vec<Option<Block>>,
) -> Result<(), NoMemory>
    requires links { (i : ℕ) → i < length out.now → slice_index out.now i < length scene.now.links }
    requires most { length most.now ≡ length scene.now.links }
    ensures { OnOk result (blocks.new.items ≡ map (λ c. block_for scene.now step outputs.old.items (slice_index most.now c) c) out.now) }
{
    blocks.clear();
    for place in 0..out.len() {
        let link = out[place];
        let most = most[link.0 as usize];
        let block = block_of(alloc, scene, step, most, outputs, out, place)?;
        blocks.push(block)?;
    }
    Ok(())
}

/// Hands these blocks to the connections, each in its turn. It takes no memory.
pub fn owe(out: &[LinkId], blocks: &mut Vec<Option<Block>>, pending: &mut Vec<Option<Block>>)
    requires counted { length blocks.old.items ≡ length out.now }
    requires links { (i : ℕ) → i < length out.now → slice_index out.now i < length pending.old.items }
    ensures count { length pending.new.items ≡ length pending.old.items }
    ensures each { (f : ℕ → Option Block) → blocks.old.items ≡ map f out.now →
        (i : ℕ) → i < length out.now → slice_index_or pending.new.items (slice_index out.now i) None ≡ f (slice_index out.now i) }
{
    for place in 0..out.len() {
        let link = out[place];
        pending[link.0 as usize] = blocks[place].take();
    }
}
