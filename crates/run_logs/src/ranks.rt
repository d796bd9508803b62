//! The fields of a line that are the same for all rows of a rank.
ghost use Rattle.std.specs.Prelude.{◌≡◌, ◌<◌, ◌↔◌, ◌∷◌, [], length, true, IfOk};
ghost use Rattle.std.specs.List.{join_with_byte, list_all};
ghost use Rattle.music_base.specs.Names.{is_in_words};
ghost use Rattle.scene_model.specs.Logs.{comma};
ghost use Rattle.scene_model.specs.Scenes.{app_at};
ghost use Rattle.run_logs.specs.QuickLines.{AreRankFields, kind_name};

use crate::fields::{digits, name_field};
use crate::lines::record_of;
use itoa::Buffer;
use music_base::{AppId, NoMemory, PortId, Rank};
use scene_model::{PortKind, Scene};
use std::alloc::Global;

/// The fields of application, port, kind and rank of a rank of a port, with the commas around them: `,sink,in,event,0,`.
#[derive(Drop)]
pub struct RankFields {
    kind: PortKind,
    text: Vec<u8>,
}

/// The field of a port's kind.
fn kind_name(kind: PortKind) -> &'static [u8]
    ensures text { result.now ≡ kind_name kind }
    ensures plain { list_all is_in_words result.now ≡ true }
{
    match kind {
        PortKind::Events => b"event",
        PortKind::Values => b"cont",
        PortKind::Messages => b"message",
    }
}

/// The four fields, with the commas around them.
fn between_commas(
    alloc: Global,
    app: &[u8],
    port: &[u8],
    kind: &[u8],
    rank: &[u8],
) -> Result<Vec<u8>, NoMemory>
    requires app { list_all is_in_words app.now ≡ true }
    requires port { list_all is_in_words port.now ≡ true }
    requires kind { list_all is_in_words kind.now ≡ true }
    requires rank { list_all is_in_words rank.now ≡ true }
    ensures { IfOk result (λ text. text.items ≡ join_with_byte comma ([] ∷ app.now ∷ port.now ∷ kind.now ∷ rank.now ∷ [] ∷ [])) }
{
    record_of(alloc, &[b"", app, port, kind, rank, b""])
}

impl RankFields {
    /// The fields of a rank of a port of the scene, as `csv` writes them.
    pub fn of(
        alloc: Global,
        scene: &Scene,
        app: AppId,
        port: PortId,
        rank: Rank,
    ) -> Result<RankFields, NoMemory>
        requires app { app < length scene.now.apps }
        requires port { port < length (app_at scene.now app).ports }
        ensures { IfOk result (AreRankFields scene.now app port rank) }
    {
        let declared = &scene.apps.as_slice()[app.0 as usize];
        let port = &declared.ports.as_slice()[port.0 as usize];
        let mut buffer = Buffer::new();
        let rank = digits(&mut buffer, u64::from(rank.0));
        let text = between_commas(
            alloc,
            name_field(&declared.name),
            name_field(&port.name),
            kind_name(port.kind),
            rank,
        )?;
        Ok(RankFields {
            kind: port.kind,
            text,
        })
    }

    /// Whether the port is of this kind.
    pub fn are_of(&self, kind: PortKind) -> bool
        ensures { result ≡ true ↔ self.now.kind ≡ kind }
    {
        self.kind == kind
    }

    /// The text of the fields, with the commas around them.
    pub fn text(&self) -> &[u8]
        ensures { result.now ≡ self.now.text.items }
    {
        &self.text
    }
}
