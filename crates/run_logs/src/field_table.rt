//! The fields of all ranks of a scene.
ghost use Rattle.std.specs.Prelude.{◌≡◌, ◌<◌, ◌≤◌, length, IfOk, IfSome};
ghost use Rattle.scene_model.specs.Scenes.{app_at};
ghost use Rattle.scene_model.specs.declared.scene.Scene.{Scene};
ghost use Rattle.run_logs.specs.QuickLines.{AreOfApp, AreOfPort, AreOfScene, AreRankFields};

use crate::ranks::RankFields;
use music_base::{AppId, Items, NoMemory, PortId, Rank};
use scene_model::{Direction, MOST_RANKS, Row, Scene};
use std::alloc::Global;

/// For each application, port and rank the fields of their lines.
pub type FieldTable = Items<Items<Items<RankFields>>>;

/// The fields of so many ranks of a port.
fn fields_of_port(
    alloc: Global,
    scene: &Scene,
    app: AppId,
    port: PortId,
    ranks: u32,
) -> Result<Items<RankFields>, NoMemory>
    requires app { app < length scene.now.apps }
    requires port { port < length (app_at scene.now app).ports }
    ensures { IfOk result (AreOfPort scene.now app port) }
{
    let mut fields = Items::new(alloc);
    for rank in 0..ranks {
        fields.push(RankFields::of(alloc, scene, app, port, Rank(rank))?)?;
    }
    Ok(fields)
}

// How many ranks of a port of a scene without a fault can have rows. An output has none.
fn ranks_with_rows(direction: Direction, processes: u32) -> u32 {
    match direction {
        Direction::Input => processes.min(MOST_RANKS),
        Direction::Output => 0,
    }
}

// As many places as a number of 32 bits can name.
fn places(count: usize) -> u32
    ensures { result ≤ count }
{
    count.min(u32::MAX as usize) as u32
}

/// The fields of the ports of an application.
fn fields_of_app(
    alloc: Global,
    scene: &Scene,
    app: AppId,
) -> Result<Items<Items<RankFields>>, NoMemory>
    requires { app < length scene.now.apps }
    ensures { IfOk result (AreOfApp scene.now app) }
{
    let declared = &scene.apps.as_slice()[app.0 as usize];
    let mut fields = Items::new(alloc);
    for place in 0..places(declared.ports.len()) {
        let port = &declared.ports.as_slice()[place as usize];
        let ranks = ranks_with_rows(port.direction, declared.np);
        fields.push(fields_of_port(alloc, scene, app, PortId(place), ranks)?)?;
    }
    Ok(fields)
}

/// The fields of all applications.
pub fn fields_of_scene(alloc: Global, scene: &Scene) -> Result<FieldTable, NoMemory>
    ensures { IfOk result (AreOfScene scene.now) }
{
    let mut fields = Items::new(alloc);
    for app in 0..places(scene.apps.len()) {
        fields.push(fields_of_app(alloc, scene, AppId(app))?)?;
    }
    Ok(fields)
}

/// The fields of the row's rank, if the table has them.
pub fn find<'a>(table: &'a FieldTable, row: &Row) -> Option<&'a RankFields>
    ensures { IfSome result (λ fields. (scene : Scene) → AreOfScene scene table.now →
        AreRankFields scene row.now.app row.now.port row.now.rank fields.now) }
{
    let ports = table.as_slice().get(row.app.0 as usize)?;
    let ranks = ports.as_slice().get(row.port.0 as usize)?;
    ranks.as_slice().get(row.rank.0 as usize)
}
