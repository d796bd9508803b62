//! Logs that are counted in place of being written.
ghost use Rattle.std.specs.Prelude.{◌≡◌, ◌+◌, IfOk, length, true};
ghost use Rattle.std.specs.List.{flat_map, list_all};
ghost use Rattle.scene_model.specs.Logs.{header, is_writable, line_of};
ghost use Rattle.run_logs.specs.QuickLines.{AreOfScene};

use crate::clock_size::ClockSize;
use crate::field_table::{FieldTable, fields_of_scene};
use crate::sizes::row_size;
use crate::writing::header;
use music_base::NoMemory;
use scene_model::{Row, Scene};
use std::alloc::Global;
use std::marker::Model;

/// How large a log is.
#[derive(Clone, Copy, Debug, PartialEq, Eq)]
pub struct LogSize {
    /// How many rows it has. The header is none of them.
    pub rows: u64,
    /// How many bytes it has, with those of the header.
    pub bytes: u64,
}

/// The size of a log that has no row.
pub fn header_size() -> LogSize
    ensures rows { result.rows ≡ 0 }
    ensures bytes { result.bytes ≡ length header }
{
    let bytes = header().len() as u64;
    LogSize { rows: 0, bytes }
}

/// A count with so many more, where 64 bits can hold it.
fn counted_on(count: u64, more: usize) -> Result<u64, NoMemory>
    ensures { IfOk result (λ sum. sum ≡ count + more) }
{
    match count.checked_add(more as u64) {
        Some(sum) => Ok(sum),
        None => Err(NoMemory),
    }
}

// Counts on by the bytes of the lines of the rows.
fn count_lines(
    alloc: Global,
    scene: &Scene,
    table: &FieldTable,
    at: &mut ClockSize,
    rows: &[Row],
    bytes: u64,
) -> Result<u64, NoMemory>
    requires writable { list_all (is_writable scene.now) rows.now ≡ true }
    requires table { AreOfScene scene.now table.now }
    ensures { IfOk result (λ sum. sum ≡ bytes + length (flat_map (line_of scene.now) rows.now)) }
{
    let mut sum = bytes;
    for row in rows {
        sum = counted_on(sum, row_size(alloc, scene, table, at, row)?)?;
    }
    Ok(sum)
}

/// A log that is being counted: the sizes are those of the lines that a [`LogWriter`](crate::LogWriter) makes.
///
/// Contracts see the fields of all ranks of the scene by which it counts.
#[derive(Drop)]
pub struct LogCounter {
    table: FieldTable,
    at: ClockSize,
}

impl Model for LogCounter {
    ghost use Rattle.std.specs.Prelude.{List};
    ghost use Rattle.run_logs.specs.declared.ranks.RankFields.{RankFields};

    ghost Value = { List (List (List RankFields)) };

    ghost view = { λ log. log.table };
}

impl LogCounter {
    /// A counter of a log of the scene.
    pub fn make(alloc: Global, scene: &Scene) -> Result<LogCounter, NoMemory>
        ensures { IfOk result (λ log. AreOfScene scene.now log) }
    {
        let table = fields_of_scene(alloc, scene)?;
        Ok(LogCounter {
            table,
            at: ClockSize::of(0),
        })
    }

    /// The size of a log with these rows more. Each row is of a port of the scene for which the counter was made, and a
    /// message's word is a word as rules state it. A size that 64 bits can't hold is want of memory.
    pub fn count(
        &mut self,
        alloc: Global,
        scene: &Scene,
        rows: &[Row],
        size: LogSize,
    ) -> Result<LogSize, NoMemory>
        requires writable { list_all (is_writable scene.now) rows.now ≡ true }
        requires started { AreOfScene scene.now self.old }
        ensures same { self.new ≡ self.old }
        ensures rows { IfOk result (λ more. more.rows ≡ size.rows + length rows.now) }
        ensures bytes { IfOk result (λ more.
            more.bytes ≡ size.bytes + length (flat_map (line_of scene.now) rows.now)) }
    {
        let count = counted_on(size.rows, rows.len())?;
        let bytes = count_lines(alloc, scene, &self.table, &mut self.at, rows, size.bytes)?;
        Ok(LogSize { rows: count, bytes })
    }
}
