//! The rows of all applications, merged.
ghost use Rattle.std.specs.Prelude.{◌≡◌, ◌≤◌, ◌<◌, ◌+◌, ◌++◌, ℕ, [], length, map, slice_set, replicate, vec_len, vec_capacity, IfOk, IfSome, OnOk, OnErr, true};
ghost use Rattle.std.specs.List.{AllByRecursion, filter, flat_map};
ghost use Rattle.music_base.specs.Numbers.{in_order};
ghost use Rattle.scene_model.specs.Logs.{row_cmp};
ghost use Rattle.run_logs.specs.Merging.{AreMergedOn, AreRowsOf, begins_from, held_by, is_before, is_kept, least_front, rows_of};

use crate::queue::Queue;
use music_base::{AppId, Items, Nanos, NoMemory};
use scene_model::Row;
use std::alloc::Global;
use std::marker::Model;

// For so many lists of rows room is made at once.
const LISTS: usize = 16;

/// Rows of the steps that were run, held until no row can come before them.
#[derive(Drop)]
pub struct RowMerger {
    queues: Vec<Queue>,
    spare: usize,
    count: usize,
}

impl Model for RowMerger {
    ghost use Rattle.run_logs.specs.Merging.{AreQueues, HeldRows, held_by};

    ghost Value = { HeldRows };

    ghost view = { λ m. record { held = held_by m.queues.items; spare = m.spare } };

    ghost invariant = { λ m. AreQueues m.spare m.queues.items };
}

/// The least clock of the first rows, or `least` where none is lower.
fn least_clock(queues: &[Queue], least: u64) -> u64
    ensures { result ≡ least_front least (held_by queues.now) }
{
    let mut bound = least;
    for queue in queues {
        bound = queue.lower(bound);
    }
    bound
}

/// How many rows are held, or none where 64 bits cannot count them.
fn count_rows(queues: &[Queue]) -> Option<usize>
    ensures { IfSome result (λ count. count ≡ length (flat_map (λ rows. rows) (held_by queues.now))) }
{
    let mut count = 0usize;
    for queue in queues {
        count = count.checked_add(queue.count()?)?;
    }
    Some(count)
}

/// Moves the rows of this clock, before which no row comes, behind `released`, application by application. Answers the next
/// clock: the least of the rows that are left, or `least` where none is lower. There is room for all rows.
fn move_clock(queues: &mut [Queue], clock: u64, least: u64, released: &mut Vec<Row>) -> u64
    requires below { clock < least }
    requires first { (i : ℕ) → begins_from clock (rows_of (held_by queues.old) i) ≡ true }
    requires rows { (b : ℕ) → AreRowsOf b (rows_of (held_by queues.old) b) }
    requires room { vec_len released.old + length (flat_map (λ rows. rows) (held_by queues.old)) ≤ vec_capacity released.old }
    ensures merged { AreMergedOn least (held_by queues.old) (held_by queues.new) released.old.items released.new.items }
    ensures spare { map (λ queue. queue.spare) queues.new ≡ map (λ queue. queue.spare) queues.old }
    ensures rows { (b : ℕ) → AreRowsOf b (rows_of (held_by queues.new) b) }
    ensures room { vec_len released.new + length (flat_map (λ rows. rows) (held_by queues.new)) ≤ vec_capacity released.new }
    ensures next { result ≡ least_front least (held_by queues.new) }
    ensures above { clock < result }
{
    let mut next = least;
    for queue in queues {
        queue.move_step(clock, released);
        next = queue.lower(next);
    }
    next
}

/// Moves the rows of clocks below `least` behind `released`, in row order. There is room for all rows.
fn merge(queues: &mut [Queue], least: u64, released: &mut Vec<Row>)
    requires rows { (b : ℕ) → AreRowsOf b (rows_of (held_by queues.old) b) }
    requires room { vec_len released.old + length (flat_map (λ rows. rows) (held_by queues.old)) ≤ vec_capacity released.old }
    ensures released { released.new.items ≡ released.old.items ++ in_order row_cmp (flat_map (filter (is_before least)) (held_by queues.old)) }
    ensures kept { held_by queues.new ≡ map (filter (is_kept least)) (held_by queues.old) }
    ensures spare { map (λ queue. queue.spare) queues.new ≡ map (λ queue. queue.spare) queues.old }
    ensures rows { (b : ℕ) → AreRowsOf b (rows_of (held_by queues.new) b) }
{
    let mut clock = least_clock(queues, least);
    while clock < least {
        clock = move_clock(queues, clock, least, released);
    }
}

/// Makes room in each queue.
fn make_room(queues: &mut [Queue]) -> Result<(), NoMemory>
    ensures held { held_by queues.new ≡ held_by queues.old }
    ensures room { OnOk result (AllByRecursion (λ queue. 16 ≤ queue.spare) queues.new) }
{
    for queue in queues {
        queue.reserve(LISTS)?;
    }
    Ok(())
}

impl RowMerger {
    /// A merger for so many applications, which holds no rows.
    pub fn make(alloc: Global, apps: u32) -> Result<RowMerger, NoMemory>
        ensures { IfOk result (λ merger. merger ≡ record { held = replicate apps []; spare = 0 }) }
    {
        let mut queues = Vec::with_capacity(alloc, apps as usize)?;
        for _ in 0..apps {
            queues.push(Queue::new(alloc))?;
        }
        Ok(RowMerger {
            queues,
            spare: 0,
            count: 0,
        })
    }

    /// How many rows are held, by a count that stops at 2^64 - 1. It tells when a release is worth its while, and nothing
    /// rests on it.
    pub fn row_count(&self) -> usize {
        self.count
    }

    /// Makes room for one more list of rows at least, of whatever application. Where memory is wanting nothing changes.
    pub fn reserve(&mut self) -> Result<(), NoMemory>
        ensures room { OnOk result (1 ≤ self.new.spare) }
        ensures held { self.new.held ≡ self.old.held }
        ensures err { OnErr result (self.new ≡ self.old) }
    {
        if self.spare == 0 {
            make_room(&mut self.queues)?;
            self.spare = LISTS;
        }
        Ok(())
    }

    /// Holds the rows behind those that are held of the application. It takes no memory. The rows are the
    /// application's own and stand in row order, and none comes before a row that is held of it.
    pub fn admit(&mut self, app: AppId, rows: Items<Row>)
        requires spare { 1 ≤ self.old.spare }
        requires app { app < length self.old.held }
        requires rows { AreRowsOf app (rows_of self.old.held app ++ rows) }
        ensures held { self.new.held ≡ slice_set self.old.held app (rows_of self.old.held app ++ rows) }
        ensures spare { self.new.spare + 1 ≡ self.old.spare }
    {
        self.spare -= 1;
        self.count = self.count.saturating_add(rows.len());
        self.queues[app.0 as usize].admit(rows);
    }

    /// Answers the held rows whose clock is below `least`, in row order, and keeps the others. Where memory is wanting
    /// it holds what it held.
    pub fn release(&mut self, alloc: Global, least: Nanos) -> Result<Items<Row>, NoMemory>
        ensures released { IfOk result (λ rows. rows ≡ in_order row_cmp (flat_map (filter (is_before least)) self.old.held)) }
        ensures kept { OnOk result (self.new.held ≡ map (filter (is_kept least)) self.old.held) }
        ensures spare { self.new.spare ≡ self.old.spare }
        ensures err { OnErr result (self.new ≡ self.old) }
    {
        if least_clock(&self.queues, least.0) == least.0 {
            return Ok(Items::new(alloc));
        }
        // So many rows that 64 bits cannot count them have no room in memory either.
        let count = count_rows(&self.queues).ok_or(NoMemory)?;
        let mut released = Vec::with_capacity(alloc, count)?;
        merge(&mut self.queues, least.0, &mut released);
        self.count = self.count.saturating_sub(released.len());
        Ok(Items::from_vec(released))
    }
}
