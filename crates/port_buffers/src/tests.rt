//! Rings as lists of blocks: what each put and each take of a row answers.
use crate::{Full, PutEnd, Ring, TakeEnd};
use music_base::{Block, Event, Item, Items, Nanos, NoMemory};
use std::alloc::Global;
use std::process::Abort;

/// A call, and what it answers.
#[derive(Clone, Copy)]
enum Step {
    /// A put of the block of a number, which finds room.
    Puts(u64),
    /// A put of the block of a number, which comes back whole.
    IsFull(u64),
    /// A take, which gives the block of a number.
    Takes(u64),
    /// A take, which finds nothing.
    IsEmpty,
    /// How many blocks there are.
    Holds(u64),
}

use Step::{Holds, IsEmpty, IsFull, Puts, Takes};

/// A limit, and calls in their order.
const ROWS: &[(u64, &[Step])] = &[
    (
        1,
        &[
            IsEmpty,
            Holds(0),
            Puts(0),
            Holds(1),
            IsFull(1),
            Takes(0),
            IsEmpty,
            Puts(1),
            Takes(1),
        ],
    ),
    // the first comes first, also round the end of the memory
    (
        2,
        &[
            Puts(5),
            Puts(6),
            IsFull(7),
            Takes(5),
            Puts(7),
            IsFull(8),
            Holds(2),
            Takes(6),
            Takes(7),
            IsEmpty,
            Holds(0),
        ],
    ),
    (
        3,
        &[
            Puts(2),
            Puts(2),
            Puts(1),
            IsFull(9),
            Takes(2),
            Takes(2),
            Puts(4),
            Takes(1),
            Takes(4),
            IsEmpty,
        ],
    ),
];

// A block of one event, whose time is its number.
fn block_of(alloc: Global, number: u64) -> Result<Block, NoMemory> {
    let event = Event {
        time: Nanos(number),
        global: 3,
    };
    let items = Items::from_vec(vec![in alloc; Item::Event(event)]?);
    Ok(Block { number, items })
}

fn is_block(block: &Block, number: u64) -> bool {
    let event = Event {
        time: Nanos(number),
        global: 3,
    };
    block.number == number && block.items.as_slice() == [Item::Event(event)].as_slice()
}

fn answers(alloc: Global, ring: &mut Ring, step: Step) -> Result<bool, NoMemory> {
    match step {
        Puts(number) => Ok(ring.put(block_of(alloc, number)?).is_ok()),
        IsFull(number) => match ring.put(block_of(alloc, number)?) {
            Ok(()) => Ok(false),
            Err(Full(block)) => Ok(is_block(&block, number)),
        },
        Takes(number) => match ring.take() {
            Some(block) => Ok(is_block(&block, number)),
            None => Ok(false),
        },
        IsEmpty => Ok(ring.take().is_none()),
        Holds(count) => Ok(ring.held() == count),
    }
}

fn run(alloc: Global, limit: u64, steps: &[Step]) -> Result<bool, NoMemory> {
    if limit < 1 || limit > 10 {
        return Ok(false);
    }
    let mut ring = Ring::make(alloc, limit)?;
    for step in steps {
        if !answers(alloc, &mut ring, *step)? {
            return Ok(false);
        }
    }
    Ok(true)
}

#[test]
fn rings_keep_the_order_of_blocks(rt: HostRuntime) -> Result<(), NoMemory> {
    for (limit, steps) in ROWS {
        assert!(rt; run(rt.alloc(), *limit, steps)?);
    }
    Ok(())
}
