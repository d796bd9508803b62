//! Rules whose times come again and again.
ghost use Rattle.std.specs.Prelude.{◌≡◌, ◌+◌, ◌*◌, ◌-◌, ◌^◌, ◌<◌, ◌≤◌, ◌++◌, ◌∷◌, [], map, ℕ, OnOk, nat_le, nat_lt, ◌&&◌, if◌then◌else◌};
ghost use Rattle.scene_model.specs.Turns.{event, message, times_below, times_between};

use music_base::{Event, Item, Items, Message, Nanos, NoMemory, TryCopy, Word};
use std::alloc::Global;

/// How many of the times first, first + every, first + 2 · every and so on lie below an end.
#[tactic(auto, unfolding(scene_model::specs::Turns::times_below))]
fn times_below(every: u64, first: u64, end: u64) -> u64
    requires { 1 ≤ every }
    ensures { result ≡ times_below every first end }
{
    end.saturating_sub(first).div_ceil(every)
}

/// Those of these times that lie in a step: the first of them, and how many they are.
#[derive(Clone, Copy)]
struct Times {
    start: u64,
    count: u64,
}

/// A step in which none lies costs one division.
fn times_in(every: u64, first: u64, from: u64, to: u64) -> Times
    requires period { 1 ≤ every }
    requires first_small { first ≤ 10 ^ 15 }
    requires every_small { every ≤ 10 ^ 15 }
    requires from_small { from ≤ 2 * 10 ^ 18 }
    ensures start { result.start ≡ first + times_below every first from * every }
    ensures count { result.count ≡ times_below every first to - times_below every first from }
    ensures last { (i : ℕ) → i < result.count → result.start + i * every < to }
{
    let before = times_below(every, first, from);
    let start = first + before * every;
    let mut count = 0;
    if start < to {
        count = times_below(every, first, to) - before;
    }
    Times { start, count }
}

/// An event of one time, where it lies in the step.
pub fn emit_at(
    items: &mut Items<Item>,
    global: u32,
    time: Nanos,
    from: u64,
    to: u64,
) -> Result<(), NoMemory>
    ensures { OnOk result (items.new ≡ items.old ++ (if nat_le from time && nat_lt time to then event global time ∷ [] else [])) }
{
    if from <= time.0 && time.0 < to {
        items.push(Item::Event(Event { time, global }))?;
    }
    Ok(())
}

/// An event at each time of a period that lies in the step.
pub fn emit_every(
    items: &mut Items<Item>,
    global: u32,
    every: u64,
    first: u64,
    from: u64,
    to: u64,
) -> Result<(), NoMemory>
    requires period { 1 ≤ every }
    requires first_small { first ≤ 10 ^ 15 }
    requires every_small { every ≤ 10 ^ 15 }
    requires from_small { from ≤ 2 * 10 ^ 18 }
    ensures { OnOk result (items.new ≡ items.old ++ map (event global) (times_between every first from to)) }
{
    let times = times_in(every, first, from, to);
    for i in 0..times.count {
        let time = Nanos(times.start + i * every);
        items.push(Item::Event(Event { time, global }))?;
    }
    Ok(())
}

/// A message at each time of a period that lies in the step.
pub fn say_every(
    alloc: Global,
    items: &mut Items<Item>,
    word: &Word,
    every: u64,
    first: u64,
    from: u64,
    to: u64,
) -> Result<(), NoMemory>
    requires period { 1 ≤ every }
    requires first_small { first ≤ 10 ^ 15 }
    requires every_small { every ≤ 10 ^ 15 }
    requires from_small { from ≤ 2 * 10 ^ 18 }
    ensures { OnOk result (items.new ≡ items.old ++ map (message word.now) (times_between every first from to)) }
{
    let times = times_in(every, first, from, to);
    for i in 0..times.count {
        let time = Nanos(times.start + i * every);
        let word = word.copy(alloc)?;
        items.push(Item::Message(Message { time, word }))?;
    }
    Ok(())
}
