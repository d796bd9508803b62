//! Lines of rows from fields that stand ready.
ghost use Rattle.std.specs.Prelude.{◌≡◌, ◌≤◌, ◌+◌, ◌++◌, ◌∷◌, [], length, true, false};
ghost use Rattle.std.specs.Fmt.{decimal};
ghost use Rattle.scene_model.specs.Logs.{comma, line_of};
ghost use Rattle.scene_model.specs.declared.scene.Scene.{Scene};
ghost use Rattle.run_logs.specs.QuickLines.{AreRankFields, event_line, serves, value_line};

use crate::clock_text::ClockText;
use crate::page::Page;
use crate::ranks::RankFields;
use scene_model::{PortKind, Row, RowItem};

/// Appends the clock, the fields that stand ready, and the local place and the global index with a comma behind each.
#[inline(always)]
fn push_front(page: &mut Page, clock: &[u8], ready: &[u8], local: u32, global: u32)
    requires clock { length clock.now ≤ 20 }
    requires room { length page.old + length ready.now + 62 ≤ 65536 }
    ensures text { page.new ≡ page.old ++ clock.now ++ ready.now ++ decimal local ++ comma ∷ decimal global ++ comma ∷ [] }
    ensures short { length page.new ≤ length page.old + length ready.now + 62 }
{
    page.append(clock);
    page.append(ready);
    page.number(u64::from(local));
    page.push(b',');
    page.number(u64::from(global));
    page.push(b',');
}

/// Appends the line of an event of this time, in ns. `clock` is the text of the clock, `ready` that of the fields of the rank,
/// and there is room for these fields and a hundred bytes.
#[inline]
pub fn push_event(page: &mut Page, clock: &[u8], ready: &[u8], local: u32, global: u32, time: u64)
    requires clock { length clock.now ≤ 20 }
    requires room { length page.old + length ready.now + 100 ≤ 65536 }
    ensures { page.new ≡ page.old ++ event_line clock.now ready.now local global time }
{
    push_front(page, clock, ready, local, global);
    page.number(time);
    page.push(b',');
    page.push(b'\n');
}

/// Appends the line of a value, in millionths. `clock` is the text of the clock, `ready` that of the fields of the rank, and
/// there is room for these fields and a hundred bytes.
#[inline]
pub fn push_value(page: &mut Page, clock: &[u8], ready: &[u8], local: u32, global: u32, value: i64)
    requires clock { length clock.now ≤ 20 }
    requires room { length page.old + length ready.now + 100 ≤ 65536 }
    ensures { page.new ≡ page.old ++ value_line clock.now ready.now local global value }
{
    push_front(page, clock, ready, local, global);
    page.push(b',');
    page.signed(value);
    page.push(b'\n');
}

/// Appends the line of a row that tells an event or a value, by the fields of its rank, and answers whether it did: where
/// the port is of another kind, and for a message, the page stays. There is room for the fields and a hundred bytes. `at` is
/// set to the row's clock.
#[inline]
pub fn push_ready(page: &mut Page, at: &mut ClockText, fields: &RankFields, row: &Row) -> bool
    requires room { length page.old + length fields.now.text.items + 100 ≤ 65536 }
    ensures served { result ≡ serves fields.now.kind row.now.item }
    ensures pushed { result ≡ true → (scene : Scene) → AreRankFields scene row.now.app row.now.port row.now.rank fields.now →
        page.new ≡ page.old ++ line_of scene row.now }
    ensures left { result ≡ false → page.new ≡ page.old }
{
    let clock = row.clock.0;
    at.set(clock);
    let digits = at.text();
    let ready = fields.text();
    match &row.item {
        RowItem::Event {
            local,
            global,
            time,
        } if fields.are_of(PortKind::Events) => {
            push_event(page, digits, ready, *local, *global, time.0);
            true
        }
        RowItem::Value {
            local,
            global,
            value,
        } if fields.are_of(PortKind::Values) => {
            push_value(page, digits, ready, *local, *global, value.0);
            true
        }
        _ => false,
    }
}
