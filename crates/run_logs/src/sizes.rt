//! How many bytes the lines of rows have, found without making them where that is possible.
ghost use Rattle.std.specs.Prelude.{◌≡◌, ◌≤◌, ℕ, List, length, true, IfOk, IfSome};
ghost use Rattle.std.specs.Fmt.{decimal, signed_decimal};
ghost use Rattle.scene_model.specs.Logs.{is_writable, line_of};
ghost use Rattle.scene_model.specs.declared.scene.Scene.{Scene};
ghost use Rattle.run_logs.specs.QuickLines.{AreOfScene, AreRankFields, event_line, value_line};

use crate::clock_size::ClockSize;
use crate::field_table::{FieldTable, find};
use crate::lines::row_bytes;
use crate::ranks::RankFields;
use music_base::NoMemory;
use scene_model::{PortKind, Row, RowItem, Scene};
use std::alloc::Global;

// The powers of ten that 64 bits can hold.
static POWERS: [u64; 20] = [
    1,
    10,
    100,
    1_000,
    10_000,
    100_000,
    1_000_000,
    10_000_000,
    100_000_000,
    1_000_000_000,
    10_000_000_000,
    100_000_000_000,
    1_000_000_000_000,
    10_000_000_000_000,
    100_000_000_000_000,
    1_000_000_000_000_000,
    10_000_000_000_000_000,
    100_000_000_000_000_000,
    1_000_000_000_000_000_000,
    10_000_000_000_000_000_000,
];

/// How many decimal digits a number has.
#[inline]
pub fn size_of(number: u64) -> usize
    ensures size { result ≡ length (decimal number) }
    ensures short { result ≤ 20 }
{
    // 0 has one digit, as 1 has. The logarithm of 2 to base 10 is about 1233 / 4096, so that a number of so many bits has
    // `least` digits or one more.
    let counted = number.max(1);
    let bits = counted.ilog2() as usize + 1;
    let least = bits * 1233 / 4096;
    if counted < POWERS[least] {
        least
    } else {
        least + 1
    }
}

/// How many decimal digits a number has, with the '-' of one that is negative.
#[inline]
fn signed_size(number: i64) -> usize
    ensures size { result ≡ length (signed_decimal number) }
    ensures short { result ≤ 21 }
{
    let digits = size_of(number.unsigned_abs());
    if number < 0 { digits + 1 } else { digits }
}

/// How long the line of an event of this time, in ns, is, where the clock has so many digits.
#[inline]
fn event_size(clock: usize, ready: &[u8], local: u32, global: u32, time: u64) -> usize
    requires { clock ≤ 20 }
    ensures { (text : List ℕ) → length text ≡ clock →
        result ≡ length (event_line text ready.now local global time) }
{
    let places = size_of(u64::from(local)) + size_of(u64::from(global));
    ready.len() + (clock + places + size_of(time) + 4)
}

/// How long the line of a value, in millionths, is, where the clock has so many digits.
#[inline]
fn value_size(clock: usize, ready: &[u8], local: u32, global: u32, value: i64) -> usize
    requires { clock ≤ 20 }
    ensures { (text : List ℕ) → length text ≡ clock →
        result ≡ length (value_line text ready.now local global value) }
{
    let places = size_of(u64::from(local)) + size_of(u64::from(global));
    ready.len() + (clock + places + signed_size(value) + 4)
}

/// How long the line of a row that tells an event or a value is, by the fields of its rank. There is none for a message,
/// and where the port is of another kind. `at` is set to the row's clock.
#[inline]
fn ready_size(at: &mut ClockSize, fields: &RankFields, row: &Row) -> Option<usize>
    ensures { IfSome result (λ size. (scene : Scene) →
        AreRankFields scene row.now.app row.now.port row.now.rank fields.now → size ≡ length (line_of scene row.now)) }
{
    let clock = row.clock.0;
    let digits = at.at(clock);
    let ready = fields.text();
    match &row.item {
        RowItem::Event {
            local,
            global,
            time,
        } if fields.are_of(PortKind::Events) => {
            Some(event_size(digits, ready, *local, *global, time.0))
        }
        RowItem::Value {
            local,
            global,
            value,
        } if fields.are_of(PortKind::Values) => {
            Some(value_size(digits, ready, *local, *global, value.0))
        }
        _ => None,
    }
}

/// How long the line of a row is, by the fields of its rank if the table has them.
#[inline]
fn quick_size(table: &FieldTable, at: &mut ClockSize, row: &Row) -> Option<usize>
    ensures { IfSome result (λ size. (scene : Scene) →
        AreOfScene scene table.now → size ≡ length (line_of scene row.now)) }
{
    ready_size(at, find(table, row)?, row)
}

/// How long the line of a row is.
pub fn row_size(
    alloc: Global,
    scene: &Scene,
    table: &FieldTable,
    at: &mut ClockSize,
    row: &Row,
) -> Result<usize, NoMemory>
    requires writable { is_writable scene.now row.now ≡ true }
    requires table { AreOfScene scene.now table.now }
    ensures { IfOk result (λ size. size ≡ length (line_of scene.now row.now)) }
{
    match quick_size(table, at, row) {
        Some(size) => Ok(size),
        None => Ok(row_bytes(alloc, scene, row)?.len()),
    }
}
