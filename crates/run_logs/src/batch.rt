//! The lines of rows that are written together.
ghost use Rattle.std.specs.Prelude.{◌≡◌, ◌++◌, [], true, false, IfOk, OnOk};
ghost use Rattle.std.specs.List.{flat_map, list_all};
ghost use Rattle.scene_model.specs.Logs.{is_writable, line_of};
ghost use Rattle.scene_model.specs.declared.scene.Scene.{Scene};
ghost use Rattle.run_logs.specs.QuickLines.{AreOfScene, AreRankFields};

use crate::clock_text::ClockText;
use crate::field_table::{FieldTable, find};
use crate::lines::row_bytes;
use crate::page::Page;
use crate::quick_lines::push_ready;
use crate::ranks::RankFields;
use music_base::NoMemory;
use scene_model::{Row, Scene};
use std::alloc::Global;

// The clock, the places and the time of a row have no more bytes, with the commas and the line's end.
const MOST_OF_NUMBERS: usize = 100;

/// The text of a batch: what is made, and behind it the lines on a page; and the clock of the last of these.
#[derive(Drop)]
pub struct Batch {
    text: Vec<u8>,
    page: Page,
    at: ClockText,
}

impl Batch {
    /// An empty batch.
    pub fn make(alloc: Global) -> Result<Batch, NoMemory>
        ensures { IfOk result (λ batch. batch.text.items ++ batch.page ≡ []) }
    {
        let page = Page::make(alloc)?;
        Ok(Batch {
            text: Vec::new(alloc),
            page,
            at: ClockText::of(0),
        })
    }

    // Moves the lines from the page.
    fn turn_page(&mut self) -> Result<(), NoMemory>
        ensures text { OnOk result (self.new.text.items ≡ self.old.text.items ++ self.old.page) }
        ensures page { OnOk result (self.new.page ≡ []) }
    {
        self.text.extend_from_slice(self.page.as_slice())?;
        self.page.clear();
        Ok(())
    }

    // Puts the line of a row on the page, if these fields serve it.
    fn push_quickly(&mut self, fields: &RankFields, row: &Row) -> Result<bool, NoMemory>
        ensures pushed { IfOk result (λ done. done ≡ true → (scene : Scene) → AreRankFields scene row.now.app row.now.port row.now.rank fields.now →
            self.new.text.items ++ self.new.page ≡ self.old.text.items ++ self.old.page ++ line_of scene row.now) }
        ensures left { IfOk result (λ done. done ≡ false → self.new.text.items ++ self.new.page ≡ self.old.text.items ++ self.old.page) }
    {
        let most = fields.text().len().saturating_add(MOST_OF_NUMBERS);
        if !self.page.has_room(most) {
            self.turn_page()?;
        }
        if self.page.has_room(most) {
            return Ok(push_ready(&mut self.page, &mut self.at, fields, row));
        }
        Ok(false)
    }

    // Appends a line that is made.
    fn push_line(&mut self, line: &[u8]) -> Result<(), NoMemory>
        ensures { OnOk result (self.new.text.items ++ self.new.page ≡ self.old.text.items ++ self.old.page ++ line.now) }
    {
        self.turn_page()?;
        self.text.extend_from_slice(line)?;
        Ok(())
    }

    // Appends the line of a row.
    fn push_row(
        &mut self,
        alloc: Global,
        scene: &Scene,
        table: &FieldTable,
        row: &Row,
    ) -> Result<(), NoMemory>
        requires writable { is_writable scene.now row.now ≡ true }
        requires table { AreOfScene scene.now table.now }
        ensures { OnOk result (self.new.text.items ++ self.new.page ≡ self.old.text.items ++ self.old.page ++ line_of scene.now row.now) }
    {
        if let Some(fields) = find(table, row) {
            if self.push_quickly(fields, row)? {
                return Ok(());
            }
        }
        self.push_line(&row_bytes(alloc, scene, row)?)
    }

    /// Takes the lines of the rows in place of what it has.
    pub fn fill(
        &mut self,
        alloc: Global,
        scene: &Scene,
        table: &FieldTable,
        rows: &[Row],
    ) -> Result<(), NoMemory>
        requires writable { list_all (is_writable scene.now) rows.now ≡ true }
        requires table { AreOfScene scene.now table.now }
        ensures { OnOk result (self.new.text.items ≡ flat_map (line_of scene.now) rows.now) }
    {
        self.text.clear();
        self.page.clear();
        for row in rows {
            self.push_row(alloc, scene, table, row)?;
        }
        self.turn_page()
    }

    /// The lines.
    pub fn text(&self) -> &[u8]
        ensures { result.now ≡ self.now.text.items }
    {
        &self.text
    }
}
