//! The rows of a step, made of what its inputs read.
ghost use Rattle.std.specs.Prelude.{◌≡◌, ◌++◌, ◌≤◌, ◌<◌, length, IfOk, OnOk};
ghost use Rattle.std.specs.Bool.{OnTrue};
ghost use Rattle.index_maps.specs.Maps.{rank_count};
ghost use Rattle.scene_model.specs.Clocks.{clock};
ghost use Rattle.scene_model.specs.Faults.{IsFaultless};
ghost use Rattle.scene_model.specs.Logs.{step_rows_in};
ghost use Rattle.scene_model.specs.Scenes.{app_at};
ghost use Rattle.scene_model.specs.declared.port.Direction.TheVariants.{Input};
ghost use Rattle.scene_model.specs.declared.port.PortKind.TheVariants.{Events};
ghost use Rattle.rule_turns.specs.Turning.{AreInputs, IsInput};
ghost use Rattle.app_turn.specs.Rows.{HasNoRows, port_rows_of};

use crate::by_rank::push_sorted;
use crate::rows::{ReadAt, push_rank, rank_count};
use index_maps::PortMap;
use music_base::{AppId, Item, Items, Nanos, NoMemory, PortId, Rank};
use scene_model::{Direction, PortDecl, PortKind, Row, Scene};
use std::alloc::Global;

/// Adds what the ranks of a port get, rank by rank.
fn push_each_rank(
    alloc: Global,
    rows: &mut Items<Row>,
    clock: Nanos,
    app: AppId,
    port: PortId,
    decl: &PortDecl,
    items: &[Item],
) -> Result<(), NoMemory>
    requires few { rank_count decl.now.map ≤ 64 }
    requires shaped { IsInput decl.now.direction decl.now.kind decl.now items.now }
    ensures { OnOk result (rows.new ≡ rows.old ++ port_rows_of decl.now clock app port items.now) }
{
    for rank in 0..rank_count(&decl.map) {
        let place = ReadAt {
            clock,
            app,
            port,
            rank: Rank(rank),
        };
        push_rank(alloc, rows, &place, decl, items)?;
    }
    Ok(())
}

/// So many ranks are asked one after another, rather than that the arrivals are sorted by them first.
const FEW_RANKS: u32 = 4;

/// Whether a port hears events whose indices are split over many ranks, so that each is of one rank at most.
fn splits_events(decl: &PortDecl) -> bool
    ensures { OnTrue result ((decl.now.direction ≡ Input) × (decl.now.kind ≡ Events)) }
{
    match (decl.direction, decl.kind, &decl.map) {
        (Direction::Input, PortKind::Events, PortMap::Split { span: _, ranks }) => FEW_RANKS
            < *ranks,
        _ => false,
    }
}

/// Whether nothing came to a port whose ranks have a row of each item alone. An output is such a port.
fn is_quiet(decl: &PortDecl, items: &[Item]) -> bool
    ensures { OnTrue result (HasNoRows decl.now items.now) }
{
    match (decl.direction, decl.kind) {
        (Direction::Input, PortKind::Values) => false,
        _ => items.is_empty(),
    }
}

/// Adds what the ranks of a port get, rank by rank. Events that are split over many ranks are sorted by them first, and where
/// nothing came no rank is asked.
fn push_port(
    alloc: Global,
    rows: &mut Items<Row>,
    clock: Nanos,
    app: AppId,
    port: PortId,
    decl: &PortDecl,
    items: &[Item],
) -> Result<(), NoMemory>
    requires few { rank_count decl.now.map ≤ 64 }
    requires shaped { IsInput decl.now.direction decl.now.kind decl.now items.now }
    ensures { OnOk result (rows.new ≡ rows.old ++ port_rows_of decl.now clock app port items.now) }
{
    if is_quiet(decl, items) {
        return Ok(());
    }
    if splits_events(decl) {
        push_sorted(alloc, rows, clock, app, port, decl, items)
    } else {
        push_each_rank(alloc, rows, clock, app, port, decl, items)
    }
}

/// The clock of a step of an application, in ns.
#[tactic(auto, unfolding(scene_model::specs::Clocks::start, scene_model::specs::Clocks::tick))]
pub fn clock_of(scene: &Scene, app: AppId, step: u64) -> Nanos
    requires faultless { IsFaultless scene.now }
    requires app { app < length scene.now.apps }
    requires step { step ≤ 1_000_000 }
    ensures { result ≡ clock scene.now app step }
{
    let decl = scene.app(app);
    Nanos(decl.start.0 + step * decl.tick.0)
}

/// How many items were read: mostly as many as there are rows, so that room for them is asked for once.
fn items_in(inputs: &[Items<Item>]) -> usize {
    let mut count = 0usize;
    for items in inputs {
        count = count.saturating_add(items.len());
    }
    count
}

/// The rows of a step whose ports read these items: port by port, and rank by rank.
pub fn rows_of(
    alloc: Global,
    scene: &Scene,
    app: AppId,
    step: u64,
    inputs: &[Items<Item>],
) -> Result<Items<Row>, NoMemory>
    requires faultless { IsFaultless scene.now }
    requires app { app < length scene.now.apps }
    requires step { step ≤ 1_000_000 }
    requires counted { length inputs.now ≡ length (app_at scene.now app).ports }
    requires shaped { AreInputs (app_at scene.now app).ports inputs.now }
    ensures { IfOk result (λ rows. rows ≡ step_rows_in scene.now app step inputs.now) }
{
    let decl = scene.app(app);
    let clock = clock_of(scene, app, step);
    let mut rows = Items::from_vec(Vec::with_capacity(alloc, items_in(inputs))?);
    for port in 0..inputs.len() {
        let id = PortId(port as u32);
        push_port(
            alloc,
            &mut rows,
            clock,
            app,
            id,
            decl.port(id),
            inputs[port].as_slice(),
        )?;
    }
    Ok(rows)
}
