ghost use Rattle.std.specs.Prelude.{◌≡◌, ◌+◌, ◌-◌, ◌*◌, ◌/◌, ◌%◌, ◌^◌, ◌<◌, ◌≤◌, ◌==◌, ◌⊎◌, ℕ, ℤ, [], length, map, min, nat_lt, if◌then◌else◌, pos, negsuc, ◌+ℤ◌, ◌-ℤ◌, ◌*ℤ◌, ◌≤ℤ◌, IfOk, IfSome, IsOk, OnOk};
ghost use Rattle.music_base.specs.Numbers.{floor_div};
ghost use Rattle.music_base.specs.declared.item.Item.TheVariants.{Value};
ghost use Rattle.scene_model.specs.Tables.{Table, reading, value, value_in};
ghost use Rattle.scene_model.specs.declared.scene.Scene.{Scene};
ghost use Rattle.port_inbox.specs.Due.{items_numbered};
ghost use Rattle.port_inbox.specs.KeptSamples.{value_kept};
ghost use Rattle.port_inbox.specs.Samples.{IsPlaceOf, IsSampled, fresh_samples, point, read, sample_at, with_sample};

use crate::kept_sample::value_of;
use crate::kept_samples::KeptSamples;
use crate::points::{fill_points, weight_of};
use crate::value_lists::{fill_zeros, item_of, set_length};
use index_maps::PortMap;
use music_base::{Block, Item, Nanos, NoMemory, Sample};
use std::alloc::Global;
use std::marker::Model;

/// The inbox of a continuous input, which keeps the last two samples of its connection. Contracts see how many blocks were
/// admitted, the blocks that are kept, and by what they are read.
#[derive(Debug, Drop)]
pub struct ContInbox {
    delay: u64,
    interpolate: bool,
    send_tick: u64,
    receive_tick: u64,
    send_start: u64,
    receive_start: u64,
    samples: KeptSamples,
}

impl Model for ContInbox {
    ghost use Rattle.port_inbox.specs.Samples.{Samples};

    ghost Value = { Samples };

    ghost use Rattle.port_inbox.specs.KeptSamples.{AreReadable, blocks_kept};

    ghost view = { λ a. record { admitted = a.samples.admitted; kept = blocks_kept a.samples; delay = a.delay; interpolate = a.interpolate; send_tick = a.send_tick; receive_tick = a.receive_tick; send_start = a.send_start; receive_start = a.receive_start } };

    ghost invariant = { λ a. AreReadable a.delay a.send_tick a.receive_tick a.send_start a.receive_start a.samples };
}

impl ContInbox {
    /// An inbox to which no block was admitted. The sender's map says which indices its blocks have values of.
    ///
    /// The ticks are 1 to 10^12 ns, the starts at most 10^15 and the delay at most 10^16.
    pub fn make(
        alloc: Global,
        delay: Nanos,
        interpolate: bool,
        send_tick: Nanos,
        receive_tick: Nanos,
        send_start: Nanos,
        receive_start: Nanos,
        sender: &PortMap,
    ) -> Result<ContInbox, NoMemory>
        requires late { delay ≤ 10 ^ 16 }
        requires send_tick { (1 ≤ send_tick) × (send_tick ≤ 10 ^ 12) }
        requires receive_tick { (1 ≤ receive_tick) × (receive_tick ≤ 10 ^ 12) }
        requires send_start { send_start ≤ 10 ^ 15 }
        requires receive_start { receive_start ≤ 10 ^ 15 }
        ensures { IfOk result (λ inbox. inbox ≡ fresh_samples delay interpolate send_tick receive_tick send_start receive_start) }
    {
        let indices = sender.indices(alloc)?;
        let samples = KeptSamples::new(indices);
        Ok(ContInbox {
            delay: delay.0,
            interpolate,
            send_tick: send_tick.0,
            receive_tick: receive_tick.0,
            send_start: send_start.0,
            receive_start: receive_start.0,
            samples,
        })
    }

    /// Moves the block in, and lets go the one before the last. It takes no memory.
    ///
    /// Its number is the count of blocks that were admitted before. A block that holds a value for each index of the sender,
    /// in their order, is read without a search.
    pub fn admit(&mut self, block: Block)
        requires number { block.number ≡ self.old.admitted }
        requires count { self.old.admitted < 2 ^ 64 - 1 }
        ensures { self.new ≡ with_sample self.old block }
    {
        self.samples.push(block);
    }

    /// How long the time that a step reads lies behind the first sample, or `None` where it lies before it.
    fn late_by(&self, step: u64) -> Option<u64>
        requires { step ≤ 1_000_000 }
        ensures late { let now = self.now.receive_start + step * self.now.receive_tick in
            let first = self.now.send_start + self.now.delay in
            result ≡ (if nat_lt now first then None else Some (now - first)) }
        ensures small { IfSome result (λ late. late < 2 ^ 63) }
    {
        let now = self.receive_start + step * self.receive_tick;
        let first = self.send_start + self.delay;
        if now < first { None } else { Some(now - first) }
    }

    /// What is read of each of these indices so long behind the first sample.
    fn read_late(&self, late: u64, globals: &[u32], items: &mut [Item])
        requires late { late < 2 ^ 63 }
        requires room { length items.old ≡ length globals.now }
        ensures { items.new ≡ map (λ g. Value g (reading self.now.interpolate (sample_at self.now g) self.now.send_tick late)) globals.now }
    {
        let weight = weight_of(self.interpolate, late, self.send_tick);
        fill_points(
            &self.samples,
            late / self.send_tick,
            weight,
            self.send_tick,
            globals,
            items,
        );
    }

    /// What a step reads of each of these indices, in a list of so many items.
    #[tactic(auto, unfolding(crate::specs::Samples::read))]
    fn read_all(&self, step: u64, globals: &[u32], items: &mut [Item])
        requires step { step ≤ 1_000_000 }
        requires room { length items.old ≡ length globals.now }
        ensures { items.new ≡ map (λ g. Value g (read self.now step g)) globals.now }
    {
        match self.late_by(step) {
            Some(late) => self.read_late(late, globals, items),
            None => fill_zeros(globals, items),
        }
    }

    /// Puts what a step reads of each of these indices, in their order, into a list, in place of what it has. The samples
    /// are looked up once. A list that is as long as the indices is overwritten where it stands, and no memory is taken.
    ///
    /// The step is at most 1,000,000. Indices that ascend are found fastest.
    pub fn values(&self, step: u64, globals: &[u32], items: &mut Vec<Item>) -> Result<(), NoMemory>
        requires { step ≤ 1_000_000 }
        ensures values { OnOk result (items.new.items ≡ map (λ g. Value g (read self.now step g)) globals.now) }
        ensures succeeds { length items.old.items ≡ length globals.now → IsOk result }
    {
        set_length(items, globals.len())?;
        self.read_all(step, globals, items);
        Ok(())
    }

    /// What a step reads of an index: 0 where the step's clock lies before the first sample and the delay; else, a delay
    /// behind the clock, the last sample that is not later, or with interpolation the point between it and the next one,
    /// rounded down. A sample that was not admitted is read as the last one before it, and as 0 where there is none.
    ///
    /// The step is at most 1,000,000.
    pub fn value(&self, step: u64, global: u32) -> Sample
        requires { step ≤ 1_000_000 }
        ensures read { result ≡ read self.now step global }
        ensures value { (scene : Scene) (b p c : ℕ) (table : Table) →
            IsSampled scene b p c self.now table step → result ≡ value scene table b p step global }
    {
        let mut items = [item_of(global, 0)];
        self.read_all(step, &[global], &mut items);
        Sample(value_of(&items[0]))
    }
}
