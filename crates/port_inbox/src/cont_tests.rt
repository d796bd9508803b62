//! Values as a continuous input reads them: rows of samples, steps and values that were worked by hand.
ghost use Rattle.std.specs.Prelude.{◌≡◌, ◌≤◌, ◌^◌, IfOk};

use crate::ContInbox;
use index_maps::{IndexMap, PortMap, Span};
use music_base::{Block, Event, Item, Items, Nanos, NoMemory, Sample};
use std::alloc::Global;
use std::process::Abort;

/// A connection whose sender ticks each 10 ns from 3 ns on and whose receiver each 4 ns from 0: its delay, whether it
/// interpolates, the samples of index 3, a step, and what it reads of index 3 and of index 5, whose samples are those of
/// index 3 with the other sign.
type Row = (u64, bool, &'static [i64], u64, i64, i64);

const ROWS: &[Row] = &[
    // before the first sample, with and without any
    (0, true, &[], 0, 0, 0),
    (0, true, &[], 9, 0, 0),
    (0, true, &[5, -6], 0, 0, 0),
    (0, false, &[5], 0, 0, 0),
    // between 5 and -6, rounded down: at 1, 5 and 9 tenths of the way
    (0, true, &[5, -6], 1, 3, -4),
    (0, true, &[5, -6], 2, -1, 0),
    (0, true, &[5, -6], 3, -5, 4),
    // held: the last sample that is not later
    (0, false, &[5, -6], 1, 5, -5),
    (0, false, &[5, -6], 3, 5, -5),
    (0, false, &[5, -6, 20], 4, -6, 6),
    // the last two samples: 3 tenths of the way from -6 to 20
    (0, true, &[5, -6, 20], 4, 1, -2),
    // at a sample, 1 ns before it, and 1 ns behind it
    (1, true, &[5, -6], 1, 5, -5),
    (2, true, &[5, -6], 1, 0, 0),
    (3, true, &[5, -6], 4, -6, 6),
    (2, false, &[5, -6], 4, -6, 6),
    (4, false, &[5, -6], 4, 5, -5),
    // a sender that ended early is read as its last sample
    (0, true, &[5, -6], 30, -6, 6),
    (0, false, &[5, -6], 30, -6, 6),
    // a delay that is longer than the run
    (1_000_000_000_000_000, true, &[5], 1_000_000, 0, 0),
    (4_000_000, false, &[5], 1_000_000, 0, 0),
    (3_999_997, false, &[5], 1_000_000, 5, -5),
];

fn sender_map(alloc: Global) -> Result<PortMap, NoMemory> {
    let maps = vec![in alloc;
        IndexMap::Linear(Span::new(5, 1)),
        IndexMap::Linear(Span::new(3, 1)),
    ]?;
    Ok(PortMap::Each(Items::from_vec(maps)))
}

fn value(global: u32, value: i64) -> Item {
    Item::Value {
        global,
        value: Sample(value),
    }
}

fn negated(value: i64) -> i64 {
    value.checked_neg().unwrap_or(0)
}

// The block of a sample, its indices ascending or not.
fn block_of(alloc: Global, number: u64, sample: i64, ascend: bool) -> Result<Block, NoMemory>
    ensures { IfOk result (λ block. block.number ≡ number) }
{
    let (three, five) = (value(3, sample), value(5, negated(sample)));
    let items = if ascend {
        vec![in alloc; three, five]?
    } else {
        vec![in alloc; five, three]?
    };
    let items = Items::from_vec(items);
    Ok(Block { number, items })
}

fn inbox_of(alloc: Global, delay: u64, interpolate: bool) -> Result<ContInbox, NoMemory>
    requires { delay ≤ 10 ^ 16 }
    ensures { IfOk result (λ inbox. inbox.admitted ≡ 0) }
{
    ContInbox::make(
        alloc,
        Nanos(delay),
        interpolate,
        Nanos(10),
        Nanos(4),
        Nanos(3),
        Nanos(0),
        &sender_map(alloc)?,
    )
}

fn filled(alloc: Global, row: &Row, ascend: bool) -> Result<ContInbox, NoMemory> {
    let (delay, interpolate, samples, _, _, _) = *row;
    if delay > 1_000_000_000_000_000 {
        return Err(NoMemory);
    }
    let mut inbox = inbox_of(alloc, delay, interpolate)?;
    for k in 0..samples.len() {
        inbox.admit(block_of(alloc, k as u64, samples[k], ascend)?);
    }
    Ok(inbox)
}

fn event(global: u32) -> Item {
    Item::Event(Event {
        time: Nanos(9),
        global,
    })
}

// What is read twice into a list, which had other items and more of them.
fn read_twice(alloc: Global, inbox: &ContInbox, step: u64) -> Result<Vec<Item>, NoMemory>
    requires { step ≤ 1_000_000 }
{
    let globals = [3, 4, 5, 3];
    let mut items = vec![in alloc; event(3), value(3, 9), value(4, 9), event(5), value(3, 9)]?;
    inbox.values(step, &globals, &mut items)?;
    inbox.values(step, &globals, &mut items)?;
    Ok(items)
}

fn reads(alloc: Global, row: &Row, ascend: bool) -> Result<bool, NoMemory> {
    let (_, _, _, step, three, five) = *row;
    if step > 1_000_000 {
        return Ok(false);
    }
    let inbox = filled(alloc, row, ascend)?;
    let items = read_twice(alloc, &inbox, step)?;
    let is_one = inbox.value(step, 3) == Sample(three);
    let all = [
        value(3, three),
        value(4, 0),
        value(5, five),
        value(3, three),
    ];
    Ok(is_one && items.as_slice() == all.as_slice())
}

#[test]
fn values_are_read_by_place(rt: HostRuntime) -> Result<(), NoMemory> {
    for row in ROWS {
        assert!(rt; reads(rt.alloc(), row, true)?);
    }
    Ok(())
}

#[test]
fn values_in_another_order_are_read_too(rt: HostRuntime) -> Result<(), NoMemory> {
    for row in ROWS {
        assert!(rt; reads(rt.alloc(), row, false)?);
    }
    Ok(())
}
