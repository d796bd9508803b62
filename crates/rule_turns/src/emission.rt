//! What one rule emits.
ghost use Rattle.std.specs.Prelude.{◌≡◌, ◌≤◌, ◌*◌, ◌^◌, ◌++◌, [], true, OnOk};
ghost use Rattle.scene_model.specs.Ports.{has_indices};
ghost use Rattle.rule_turns.specs.OneRule.{emits, is_over_in};
ghost use Rattle.rule_turns.specs.Turning.{HasNumbers, IsPlacedIn, is_over_at};

use crate::arrivals::{pass_on, reply};
use crate::periods::{emit_at, emit_every, say_every};
use crate::values::value_at;
use index_maps::PortMap;
use music_base::{Event, Item, Items, Nanos, NoMemory, Sample};
use scene_model::Rule;
use std::alloc::Global;

/// Whether the value that a `when` rule watches is over its bound, where its index is looked for at one place of the block
/// alone. What is not there counts as 0.
pub fn is_over_at(rule: &Rule, block: &[Item], place: usize) -> bool
    ensures { result ≡ is_over_at block.now place rule.now }
{
    match rule {
        Rule::When { index, over, .. } => {
            let value = value_at(block, place, *index).unwrap_or(Sample(0));
            over.0 < value.0
        }
        _ => false,
    }
}

/// The same, where that is the place of its index.
fn is_over(rule: &Rule, block: &[Item], place: usize) -> bool
    requires { IsPlacedIn [] block.now place rule.now }
    ensures { result ≡ is_over_in block.now rule.now }
{
    is_over_at(rule, block, place)
}

/// What a rule emits on an output of this map in the step from one time up to another, where its input reads these items
/// and this was its truth value in the step before.
#[tactic(auto, unfolding(crate::specs::OneRule::emits))]
pub fn emit(
    alloc: Global,
    items: &mut Items<Item>,
    rule: &Rule,
    was_over: bool,
    read: &[Item],
    place: usize,
    output: &PortMap,
    from: u64,
    to: u64,
) -> Result<(), NoMemory>
    requires numbers { HasNumbers rule.now }
    requires mapped { has_indices output.now ≡ true }
    requires placed { IsPlacedIn [] read.now place rule.now }
    requires early { from ≤ 2 * 10 ^ 18 }
    ensures { OnOk result (items.new ≡ items.old ++ emits output.now read.now from to was_over rule.now) }
{
    match rule {
        Rule::EmitAt { index, time, .. } => emit_at(items, *index, *time, from, to),
        Rule::EmitEvery {
            index,
            every,
            first,
            ..
        } => emit_every(items, *index, every.0, first.0, from, to),
        Rule::Pass { shift, after, .. } => {
            pass_on(items, read, output, Nanos(from + after.0), *shift)
        }
        Rule::When { emitted, .. } => {
            if is_over(rule, read, place) && !was_over {
                items.push(Item::Event(Event {
                    time: Nanos(from),
                    global: *emitted,
                }))?;
            }
            Ok(())
        }
        Rule::Say {
            word,
            every,
            first,
            ..
        } => say_every(alloc, items, word, every.0, first.0, from, to),
        Rule::Reply { after, .. } => reply(alloc, items, read, Nanos(from + after.0)),
        _ => Ok(()),
    }
}
