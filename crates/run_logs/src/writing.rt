//! Whole logs, written to a sink.
ghost use Rattle.std.specs.Prelude.{◌≡◌, ◌≤◌, OnOk, IfOk, IsErrOf, true};
ghost use Rattle.std.specs.List.{flat_map, list_all};
ghost use Rattle.music_base.specs.Causes.{Rose};
ghost use Rattle.music_base.specs.Outside.{Took, TookPrefix};
ghost use Rattle.scene_model.specs.Logs.{header, is_writable, line_of, text_of};
ghost use Rattle.run_logs.specs.QuickLines.{AreOfScene};

use crate::batch::Batch;
use crate::field_table::{FieldTable, fields_of_scene};
use music_base::{Sink, write_all};
use scene_model::{Row, Scene};
use std::alloc::Global;
use std::marker::Model;

// The rows whose lines are made and written together.
const BATCH: usize = 1024;

/// Why a text was not written whole.
#[derive(Clone, Copy, Debug, PartialEq, Eq)]
pub enum WriteFault {
    /// The sink failed in this call.
    Sink,
    /// Memory was asked for and not found.
    Memory,
}

/// The names of the nine columns.
#[tactic(auto, unfolding(scene_model::specs::Logs::header))]
pub(crate) fn header() -> &'static [u8]
    ensures { result.now ≡ header }
{
    b"clock,app,port,kind,rank,local,global,time,value\n"
}

fn write_text<K: Sink>(sink: &mut K, text: &[u8]) -> Result<(), WriteFault>
    ensures all { OnOk result (Took (K.taken sink.old) text.now (K.taken sink.new)) }
    ensures prefix { TookPrefix (K.taken sink.old) text.now (K.taken sink.new) }
    ensures cause { IsErrOf result WriteFault.Sink → Rose (K.faults sink.old) (K.faults sink.new) }
    ensures memory { IsErrOf result WriteFault.Memory → K.faults sink.new ≡ K.faults sink.old }
    ensures stays { OnOk result (K.faults sink.new ≡ K.faults sink.old) }
    ensures never_falls { K.faults sink.old ≤ K.faults sink.new }
{
    match write_all(sink, text) {
        Ok(()) => Ok(()),
        Err(_) => Err(WriteFault::Sink),
    }
}

// Writes the lines of the rows, batch by batch.
fn write_lines<K: Sink>(
    alloc: Global,
    scene: &Scene,
    table: &FieldTable,
    lines: &mut Batch,
    rows: &[Row],
    sink: &mut K,
) -> Result<(), WriteFault>
    requires writable { list_all (is_writable scene.now) rows.now ≡ true }
    requires table { AreOfScene scene.now table.now }
    ensures all { OnOk result (Took (K.taken sink.old) (flat_map (line_of scene.now) rows.now) (K.taken sink.new)) }
    ensures prefix { TookPrefix (K.taken sink.old) (flat_map (line_of scene.now) rows.now) (K.taken sink.new) }
    ensures cause { IsErrOf result WriteFault.Sink → Rose (K.faults sink.old) (K.faults sink.new) }
    ensures memory { IsErrOf result WriteFault.Memory → K.faults sink.new ≡ K.faults sink.old }
    ensures stays { OnOk result (K.faults sink.new ≡ K.faults sink.old) }
    ensures never_falls { K.faults sink.old ≤ K.faults sink.new }
{
    let mut rest = rows;
    while !rest.is_empty() {
        let (batch, later) = rest.split_at(rest.len().min(BATCH));
        let Ok(()) = lines.fill(alloc, scene, table, batch) else {
            return Err(WriteFault::Memory);
        };
        write_text(sink, lines.text())?;
        rest = later;
    }
    Ok(())
}

/// A log that is being written: the header was, and the lines of rows follow, a list of rows after another.
///
/// Contracts see the fields of all ranks of the scene by which it makes lines. Each call hands all its text to the sink, so it
/// is fast where the lists are long.
#[derive(Drop)]
pub struct LogWriter {
    table: FieldTable,
    lines: Batch,
}

impl Model for LogWriter {
    ghost use Rattle.std.specs.Prelude.{List};
    ghost use Rattle.run_logs.specs.declared.ranks.RankFields.{RankFields};

    ghost Value = { List (List (List RankFields)) };

    ghost view = { λ log. log.table };
}

impl LogWriter {
    /// Writes the header. Where the sink fails, or memory gives out, a prefix of it was taken.
    pub fn start<K: Sink>(
        alloc: Global,
        scene: &Scene,
        sink: &mut K,
    ) -> Result<LogWriter, WriteFault>
        ensures made { IfOk result (λ log. AreOfScene scene.now log) }
        ensures all { OnOk result (Took (K.taken sink.old) header (K.taken sink.new)) }
        ensures prefix { TookPrefix (K.taken sink.old) header (K.taken sink.new) }
        ensures cause { IsErrOf result WriteFault.Sink → Rose (K.faults sink.old) (K.faults sink.new) }
        ensures memory { IsErrOf result WriteFault.Memory → K.faults sink.new ≡ K.faults sink.old }
        ensures stays { OnOk result (K.faults sink.new ≡ K.faults sink.old) }
        ensures never_falls { K.faults sink.old ≤ K.faults sink.new }
    {
        write_text(sink, header())?;
        let Ok(table) = fields_of_scene(alloc, scene) else {
            return Err(WriteFault::Memory);
        };
        let Ok(lines) = Batch::make(alloc) else {
            return Err(WriteFault::Memory);
        };
        Ok(LogWriter { table, lines })
    }

    /// Writes the lines of the rows, in the order in which they are given. Each row is of a port of the scene with which the
    /// log was started, and a message's word is a word as rules state it. Where the sink fails, or memory gives out, a prefix
    /// of the lines was taken.
    pub fn write<K: Sink>(
        &mut self,
        alloc: Global,
        scene: &Scene,
        rows: &[Row],
        sink: &mut K,
    ) -> Result<(), WriteFault>
        requires writable { list_all (is_writable scene.now) rows.now ≡ true }
        requires started { AreOfScene scene.now self.old }
        ensures same { self.new ≡ self.old }
        ensures all { OnOk result (Took (K.taken sink.old) (flat_map (line_of scene.now) rows.now) (K.taken sink.new)) }
        ensures prefix { TookPrefix (K.taken sink.old) (flat_map (line_of scene.now) rows.now) (K.taken sink.new) }
        ensures cause { IsErrOf result WriteFault.Sink → Rose (K.faults sink.old) (K.faults sink.new) }
        ensures memory { IsErrOf result WriteFault.Memory → K.faults sink.new ≡ K.faults sink.old }
        ensures stays { OnOk result (K.faults sink.new ≡ K.faults sink.old) }
        ensures never_falls { K.faults sink.old ≤ K.faults sink.new }
    {
        write_lines(alloc, scene, &self.table, &mut self.lines, rows, sink)
    }
}

/// Writes the header and the lines of the rows. Each row is of a port of the scene, and a message's word is a word as
/// rules state it. Where the sink fails, or memory gives out, a prefix of the text was taken.
#[tactic(auto, unfolding(scene_model::specs::Logs::text_of))]
pub fn write_rows<K: Sink>(
    alloc: Global,
    scene: &Scene,
    rows: &[Row],
    sink: &mut K,
) -> Result<(), WriteFault>
    requires { list_all (is_writable scene.now) rows.now ≡ true }
    ensures all { OnOk result (Took (K.taken sink.old) (text_of scene.now rows.now) (K.taken sink.new)) }
    ensures prefix { TookPrefix (K.taken sink.old) (text_of scene.now rows.now) (K.taken sink.new) }
    ensures cause { IsErrOf result WriteFault.Sink → Rose (K.faults sink.old) (K.faults sink.new) }
    ensures memory { IsErrOf result WriteFault.Memory → K.faults sink.new ≡ K.faults sink.old }
    ensures stays { OnOk result (K.faults sink.new ≡ K.faults sink.old) }
    ensures never_falls { K.faults sink.old ≤ K.faults sink.new }
{
    let mut log = LogWriter::start(alloc, scene, sink)?;
    log.write(alloc, scene, rows, sink)
}
