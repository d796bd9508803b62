//! The rows that are held of one application.
ghost use Rattle.std.specs.Prelude.{◌≡◌, ◌≢◌, ◌<◌, ◌≤◌, ◌+◌, ◌-◌, ◌++◌, ◌∷◌, [], length, vec_len, vec_capacity, Some, true, IfNone, IfSome, OnOk, OnErr};
ghost use Rattle.std.specs.List.{AllByRecursion, flat_map};
ghost use Rattle.std.specs.Option.{option_to_list};
ghost use Rattle.std.specs.VecDeque.{deque_capacity, deque_len};
ghost use Rattle.run_logs.specs.Merging.{AreMoved, HaveClock, HaveRows, first_clock, lower_of};

use music_base::{Items, NoMemory};
use scene_model::Row;
use std::alloc::Global;
use std::collections::VecDeque;
use std::marker::Model;

/// Rows in the lists in which they were admitted, none of which is empty. What is left of a list of which some rows were
/// taken stands apart, in front of the others.
#[derive(Drop)]
pub struct Queue {
    first: VecDeque<Row>,
    later: VecDeque<Items<Row>>,
    front: Option<u64>,
    spare: usize,
}

impl Model for Queue {
    ghost use Rattle.std.specs.Prelude.{◌≡◌, ◌≤◌, ◌+◌, ◌++◌};
    ghost use Rattle.std.specs.List.{flat_map};
    ghost use Rattle.std.specs.VecDeque.{deque_len, deque_capacity};
    ghost use Rattle.run_logs.specs.Merging.{HaveRows, QueuedRows, first_clock};

    ghost Value = { QueuedRows };

    ghost view = { λ q. record { rows = q.first.items ++ flat_map (λ rows. rows) q.later.items; spare = q.spare } };

    ghost invariant = { λ q. (deque_len q.later + q.spare ≤ deque_capacity q.later) × (q.front ≡ first_clock (q.first.items ++ flat_map (λ rows. rows) q.later.items)) × HaveRows q.later.items };
}

// The clock of the first row of a list.
fn clock_of(rows: &[Row]) -> Option<u64>
    ensures { result ≡ first_clock rows.now }
{
    match rows.first() {
        Some(row) => Some(row.clock.0),
        None => None,
    }
}

// The clock of the first row of all.
fn front_of(first: &VecDeque<Row>, later: &VecDeque<Items<Row>>) -> Option<u64>
    requires { HaveRows later.now.items }
    ensures { result ≡ first_clock (first.now.items ++ flat_map (λ rows. rows) later.now.items) }
{
    if let Some(row) = first.front() {
        return Some(row.clock.0);
    }
    match later.front() {
        Some(rows) => clock_of(rows.as_slice()),
        None => None,
    }
}

// Whether all rows have this clock.
fn have_clock(rows: &[Row], clock: u64) -> bool
    ensures { result ≡ true → HaveClock clock rows.now }
{
    for row in rows {
        if row.clock.0 != clock {
            return false;
        }
    }
    true
}

// Takes off the first list, where no row is left of one before and all its rows have this clock.
fn take_whole(
    first: &VecDeque<Row>,
    later: &mut VecDeque<Items<Row>>,
    clock: u64,
) -> Option<Vec<Row>>
    ensures none { IfNone result (later.new.items ≡ later.old.items) }
    ensures front { IfSome result (λ rows. first.now.items ≡ []) }
    ensures taken { IfSome result (λ rows. later.old.items ≡ rows.items ∷ later.new.items) }
    ensures clock { IfSome result (λ rows. HaveClock clock rows.items) }
    ensures room { deque_len later.new ≤ deque_len later.old }
    ensures capacity { deque_capacity later.new ≡ deque_capacity later.old }
{
    if !first.is_empty() {
        return None;
    }
    let is_whole = match later.front() {
        Some(rows) => have_clock(rows.as_slice(), clock),
        None => false,
    };
    if !is_whole {
        return None;
    }
    match later.pop_front() {
        Some(rows) => Some(rows.into_vec()),
        None => None,
    }
}

// Goes on to the next list, where no row of the first is left.
fn refill(first: &mut VecDeque<Row>, later: &mut VecDeque<Items<Row>>)
    requires { HaveRows later.old.items }
    ensures rows { first.new.items ++ flat_map (λ rows. rows) later.new.items ≡ first.old.items ++ flat_map (λ rows. rows) later.old.items }
    ensures some { first.new.items ≡ [] → later.new.items ≡ [] }
    ensures lists { HaveRows later.new.items }
    ensures room { deque_len later.new ≤ deque_len later.old }
    ensures capacity { deque_capacity later.new ≡ deque_capacity later.old }
{
    if first.is_empty() {
        match later.pop_front() {
            Some(rows) => *first = VecDeque::from_vec(rows.into_vec()),
            None => {}
        }
    }
}

// How many rows the lists have, or none where 64 bits cannot count them.
fn count_in(lists: &VecDeque<Items<Row>>) -> Option<usize>
    ensures { IfSome result (λ count. count ≡ length (flat_map (λ rows. rows) lists.now.items)) }
{
    let mut count = 0usize;
    for rows in lists {
        count = count.checked_add(rows.len())?;
    }
    Some(count)
}

impl Queue {
    /// A queue without rows and without room.
    pub fn new(alloc: Global) -> Queue
        ensures { result ≡ record { rows = []; spare = 0 } }
    {
        Queue {
            first: VecDeque::new(alloc),
            later: VecDeque::new(alloc),
            front: None,
            spare: 0,
        }
    }

    /// Makes room for so many lists of rows.
    pub fn reserve(&mut self, count: usize) -> Result<(), NoMemory>
        ensures ok { OnOk result (self.new ≡ record { rows = self.old.rows; spare = count }) }
        ensures err { OnErr result (self.new ≡ self.old) }
    {
        self.later.reserve(count)?;
        self.spare = count;
        Ok(())
    }

    /// Holds the rows behind the others. It takes no memory, and a list without rows is not kept.
    pub fn admit(&mut self, rows: Items<Row>)
        requires spare { 1 ≤ self.old.spare }
        ensures { self.new ≡ record { rows = self.old.rows ++ rows; spare = self.old.spare - 1 } }
    {
        self.spare -= 1;
        if rows.is_empty() {
            return;
        }
        self.later.push_back(rows).unwrap();
        self.front = front_of(&self.first, &self.later);
    }

    /// The clock of the first row, in ns.
    #[inline]
    pub fn first_clock(&self) -> Option<u64>
        ensures { result ≡ first_clock self.now.rows }
    {
        self.front
    }

    /// The clock of the first row, or the bound where no row is there or the clock is no lower.
    #[inline]
    pub fn lower(&self, bound: u64) -> u64
        ensures { result ≡ lower_of bound (first_clock self.now.rows) }
    {
        match self.first_clock() {
            Some(clock) => bound.min(clock),
            None => bound,
        }
    }

    /// Takes the first row off.
    pub fn pop(&mut self) -> Option<Row>
        ensures rows { self.old.rows ≡ option_to_list result ++ self.new.rows }
        ensures none { IfNone result (self.old.rows ≡ []) }
        ensures spare { self.new.spare ≡ self.old.spare }
    {
        refill(&mut self.first, &mut self.later);
        let row = self.first.pop_front();
        self.front = front_of(&self.first, &self.later);
        row
    }

    /// Takes the rows of the first list off, where none of them was taken before and all have this clock.
    fn take_list(&mut self, clock: u64) -> Option<Vec<Row>>
        ensures none { IfNone result (self.new ≡ self.old) }
        ensures rows { IfSome result (λ rows. self.old.rows ≡ rows.items ++ self.new.rows) }
        ensures some { IfSome result (λ rows. 0 < length rows.items) }
        ensures clock { IfSome result (λ rows. HaveClock clock rows.items) }
        ensures spare { self.new.spare ≡ self.old.spare }
    {
        let rows = take_whole(&self.first, &mut self.later, clock)?;
        self.front = front_of(&self.first, &self.later);
        Some(rows)
    }

    /// Moves some of the first rows, which have this clock, behind those of `to`: a whole list where that is possible.
    fn move_some(&mut self, clock: u64, to: &mut Vec<Row>)
        requires first { first_clock self.old.rows ≡ Some clock }
        requires room { vec_len to.old + length self.old.rows ≤ vec_capacity to.old }
        ensures moved { AreMoved clock self.old.rows self.new.rows to.old.items to.new.items }
        ensures some { length self.new.rows < length self.old.rows }
        ensures spare { self.new.spare ≡ self.old.spare }
        ensures room { vec_capacity to.old ≤ vec_capacity to.new }
    {
        if let Some(mut rows) = self.take_list(clock) {
            to.append(&mut rows).unwrap();
            return;
        }
        if let Some(row) = self.pop() {
            to.push(row).unwrap();
        }
    }

    /// Moves the first rows, as long as they have this clock, behind those of `to`. There is room for all rows, so that it
    /// takes no memory.
    pub fn move_step(&mut self, clock: u64, to: &mut Vec<Row>)
        requires { vec_len to.old + length self.old.rows ≤ vec_capacity to.old }
        ensures moved { AreMoved clock self.old.rows self.new.rows to.old.items to.new.items }
        ensures left { first_clock self.new.rows ≢ Some clock }
        ensures spare { self.new.spare ≡ self.old.spare }
        ensures room { vec_capacity to.old ≤ vec_capacity to.new }
    {
        while self.first_clock() == Some(clock) {
            self.move_some(clock, to);
        }
    }

    /// How many rows are held, or none where 64 bits cannot count them.
    pub fn count(&self) -> Option<usize>
        ensures { IfSome result (λ count. count ≡ length self.now.rows) }
    {
        self.first.len().checked_add(count_in(&self.later)?)
    }
}
