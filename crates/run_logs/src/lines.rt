//! Lines of comma-separated fields in memory.
ghost use Rattle.std.specs.Prelude.{◌≡◌, ◌++◌, ◌∷◌, [], ◌≤◌, List, OnOk, IfOk, map, length, Some, true};
ghost use Rattle.std.specs.List.{join_with_byte};
ghost use Rattle.music_base.specs.Lines.{ended};
ghost use Rattle.scene_model.specs.Logs.{comma, is_writable, line_of};
ghost use Rattle.run_logs.specs.CsvLines.{IsAtLineStart, are_plain, written};

use crate::fields::push_row;
use csv::{Writer, WriterBuilder};
use music_base::NoMemory;
use scene_model::{Row, Scene};
use std::alloc::Global;

/// A writer of lines into memory, of which none is written yet.
fn line_writer(alloc: Global) -> Writer<Vec<u8>>
    ensures start { IsAtLineStart (λ v. Some v.items) result }
    ensures nothing { written (λ v. Some v.items) result ≡ [] }
{
    WriterBuilder::new().from_writer(Vec::new(alloc))
}

// A writer into memory fails only where memory is wanting.
fn no_memory(_: csv::Error) -> NoMemory {
    NoMemory
}

/// Writes a line of plain fields.
pub fn push_line(writer: &mut Writer<Vec<u8>>, fields: &[&[u8]]) -> Result<(), NoMemory>
    requires start { IsAtLineStart (λ v. Some v.items) writer.old }
    requires plain { are_plain (map (λ field. field.now) fields.now) ≡ true }
    requires two { 2 ≤ length fields.now }
    ensures line { OnOk result (written (λ v. Some v.items) writer.new ≡ written (λ v. Some v.items) writer.old
        ++ ended (join_with_byte comma (map (λ field. field.now) fields.now))) }
    ensures start { OnOk result (IsAtLineStart (λ v. Some v.items) writer.new) }
{
    match writer.write_fields(fields) {
        Ok(()) => Ok(()),
        Err(error) => Err(no_memory(error)),
    }
}

/// The text that a writer wrote.
fn finished(writer: Writer<Vec<u8>>) -> Result<Vec<u8>, NoMemory>
    requires { IsAtLineStart (λ v. Some v.items) writer }
    ensures { IfOk result (λ text. text.items ≡ written (λ v. Some v.items) writer) }
{
    match writer.into_inner() {
        Ok(text) => Ok(text),
        Err(_) => Err(NoMemory),
    }
}

/// The text of a record of plain fields, without the end of its line.
pub fn record_of(alloc: Global, fields: &[&[u8]]) -> Result<Vec<u8>, NoMemory>
    requires plain { are_plain (map (λ field. field.now) fields.now) ≡ true }
    requires two { 2 ≤ length fields.now }
    ensures { IfOk result (λ text. text.items ≡ join_with_byte comma (map (λ field. field.now) fields.now)) }
{
    let mut writer = line_writer(alloc);
    push_line(&mut writer, fields)?;
    let mut text = finished(writer)?;
    let _line_end = text.pop();
    Ok(text)
}

/// The bytes of a row's line, with the line's end. The row is of a port of the scene, and a message's word is a word as
/// rules state it.
pub fn row_bytes(alloc: Global, scene: &Scene, row: &Row) -> Result<Vec<u8>, NoMemory>
    requires { is_writable scene.now row.now ≡ true }
    ensures { IfOk result (λ bytes. bytes.items ≡ line_of scene.now row.now) }
{
    let mut writer = line_writer(alloc);
    push_row(&mut writer, scene, row)?;
    finished(writer)
}
