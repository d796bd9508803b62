//! The fields of a row.
ghost use Rattle.std.specs.Prelude.{◌≡◌, ◌≤◌, ◌++◌, length, OnOk, Some, true};
ghost use Rattle.std.specs.Fmt.{decimal, signed_decimal};
ghost use Rattle.std.specs.List.{list_all};
ghost use Rattle.music_base.specs.Names.{is_in_words};
ghost use Rattle.scene_model.specs.Logs.{is_writable, line_of};
ghost use Rattle.scene_model.specs.Scenes.{app_at, port_at};
ghost use Rattle.run_logs.specs.CsvLines.{IsAtLineStart, written};
ghost use Rattle.run_logs.specs.ItemFields.{AreFieldsOf};

use crate::lines::push_line;
use csv::Writer;
use itoa::Buffer;
use music_base::{Name, NoMemory};
use scene_model::{Row, RowItem, Scene};

/// A number in decimal digits.
pub fn digits(buffer: &mut Buffer, number: u64) -> &[u8]
    ensures text { result.now ≡ decimal number }
    ensures short { length result.now ≤ 20 }
    ensures plain { list_all is_in_words result.now ≡ true }
{
    buffer.format(number).as_bytes()
}

/// A number in decimal digits, behind a '-' where it is negative.
pub fn signed_digits(buffer: &mut Buffer, number: i64) -> &[u8]
    ensures text { result.now ≡ signed_decimal number }
    ensures short { length result.now ≤ 20 }
    ensures plain { list_all is_in_words result.now ≡ true }
{
    buffer.format(number).as_bytes()
}

/// The name of an application or a port.
pub fn name_field(name: &Name) -> &[u8]
    ensures text { result.now ≡ name.now }
    ensures plain { list_all is_in_words result.now ≡ true }
{
    name.as_slice()
}

/// The names of the application and of the port that a row tells of.
#[tactic(auto, unfolding(scene_model::specs::Logs::is_writable))]
fn names_of<'a>(scene: &'a Scene, row: &Row) -> (&'a [u8], &'a [u8])
    requires { is_writable scene.now row.now ≡ true }
    ensures app { result.0.now ≡ (app_at scene.now row.now.app).name }
    ensures port { result.1.now ≡ (port_at scene.now row.now.app row.now.port).name }
    ensures plain_app { list_all is_in_words result.0.now ≡ true }
    ensures plain_port { list_all is_in_words result.1.now ≡ true }
{
    let app = &scene.apps.as_slice()[row.app.0 as usize];
    let port = &app.ports.as_slice()[row.port.0 as usize];
    (name_field(&app.name), name_field(&port.name))
}

/// The fields that depend on what a row tells.
#[derive(Clone, Copy)]
struct ItemFields<'a> {
    kind: &'a [u8],
    local: u32,
    global: u32,
    time: &'a [u8],
    value: &'a [u8],
}

/// Writes the line of a row whose own fields are these.
#[tactic(auto, unfolding(scene_model::specs::Logs::line_of))]
fn push_fields(
    writer: &mut Writer<Vec<u8>>,
    scene: &Scene,
    row: &Row,
    fields: &ItemFields<'_>,
) -> Result<(), NoMemory>
    requires start { IsAtLineStart (λ v. Some v.items) writer.old }
    requires writable { is_writable scene.now row.now ≡ true }
    requires fields { AreFieldsOf row.now.item fields.now }
    ensures line { OnOk result (written (λ v. Some v.items) writer.new ≡ written (λ v. Some v.items) writer.old ++ line_of scene.now row.now) }
    ensures start { OnOk result (IsAtLineStart (λ v. Some v.items) writer.new) }
{
    let (app, port) = names_of(scene, row);
    let (mut first, mut second) = (Buffer::new(), Buffer::new());
    let (mut third, mut fourth) = (Buffer::new(), Buffer::new());
    let clock = digits(&mut first, row.clock.0);
    let rank = digits(&mut second, u64::from(row.rank.0));
    let local = digits(&mut third, u64::from(fields.local));
    let global = digits(&mut fourth, u64::from(fields.global));
    let ItemFields {
        kind,
        time,
        value,
        ..
    } = *fields;
    push_line(
        writer,
        &[clock, app, port, kind, rank, local, global, time, value],
    )
}

/// Writes the line of a row.
#[tactic(auto, using(crate::proofs::PlainTexts::word_is_plain), unfolding(scene_model::specs::Logs::is_writable))]
pub fn push_row(writer: &mut Writer<Vec<u8>>, scene: &Scene, row: &Row) -> Result<(), NoMemory>
    requires start { IsAtLineStart (λ v. Some v.items) writer.old }
    requires writable { is_writable scene.now row.now ≡ true }
    ensures line { OnOk result (written (λ v. Some v.items) writer.new ≡ written (λ v. Some v.items) writer.old ++ line_of scene.now row.now) }
    ensures start { OnOk result (IsAtLineStart (λ v. Some v.items) writer.new) }
{
    let mut buffer = Buffer::new();
    let fields = match &row.item {
        RowItem::Event {
            local,
            global,
            time,
        } => ItemFields {
            kind: b"event",
            local: *local,
            global: *global,
            time: digits(&mut buffer, time.0),
            value: b"",
        },
        RowItem::Value {
            local,
            global,
            value,
        } => ItemFields {
            kind: b"cont",
            local: *local,
            global: *global,
            time: b"",
            value: signed_digits(&mut buffer, value.0),
        },
        RowItem::Message { time, word } => ItemFields {
            kind: b"message",
            local: 0,
            global: 0,
            time: digits(&mut buffer, time.0),
            value: word.as_slice(),
        },
    };
    push_fields(writer, scene, row, &fields)
}
