//! What the inputs of an application read in a step.
ghost use Rattle.std.specs.Prelude.{◌≡◌, ◌<◌, ◌≤◌, ◌^◌, ℕ, pos, IfOk, OnOk, length, slice_index_or, map};
ghost use Rattle.std.specs.List.{AllByRecursion};
ghost use Rattle.music_base.specs.declared.item.Item.{Item};
ghost use Rattle.music_base.specs.declared.item.Item.TheVariants.{Value};
ghost use Rattle.index_maps.specs.Maps.{indices};
ghost use Rattle.scene_model.specs.Faults.{IsFaultless};
ghost use Rattle.scene_model.specs.Lives.{input_by, inputs};
ghost use Rattle.scene_model.specs.Scenes.{app_at, port_at};
ghost use Rattle.scene_model.specs.Tables.{IsProper, Table};
ghost use Rattle.port_inbox.specs.Samples.{read};
ghost use Rattle.rule_turns.specs.Plans.{turn_plan, value_indices};
ghost use Rattle.rule_turns.specs.Turning.{AreInputs, IsInput};
ghost use Rattle.app_turn.specs.PortInboxes.{HoldsAt, IsPortInbox, IsSettled, WantedAt, inbox_at, message_of};

use crate::PortInbox;
use crate::kept_lists::{list_at, put_at};
use music_base::{AppId, Item, Items, Message, NoMemory, PortId, TryCopy};
use port_inbox::{ContInbox, Heard, zeros};
use rule_turns::TurnPlan;
use scene_model::Scene;
use std::alloc::Global;

/// Words as items.
fn items_of_words(alloc: Global, words: &[Heard]) -> Result<Items<Item>, NoMemory>
    ensures { IfOk result (λ items. items ≡ map message_of words.now) }
{
    let mut items = Items::new(alloc);
    for heard in words {
        let word = heard.word.copy(alloc)?;
        items.push(Item::Message(Message {
            time: heard.time,
            word,
        }))?;
    }
    Ok(items)
}

/// A value for each index, as an inbox reads it, in the list in place of what it has.
fn values_read(
    inbox: &ContInbox,
    step: u64,
    globals: &[u32],
    list: Vec<Item>,
) -> Result<Items<Item>, NoMemory>
    requires { step ≤ 1_000_000 }
    ensures { IfOk result (λ items. items ≡ map (λ g. Value g (read inbox.now step g)) globals.now) }
{
    let mut items = list;
    inbox.values(step, globals, &mut items)?;
    Ok(Items::from_vec(items))
}

/// 0 for each index, in the list in place of what it has.
fn values_of_nothing(globals: &[u32], list: Vec<Item>) -> Result<Items<Item>, NoMemory>
    ensures { IfOk result (λ items. items ≡ map (λ g. Value g (pos 0)) globals.now) }
{
    let mut items = list;
    zeros(globals, &mut items)?;
    Ok(Items::from_vec(items))
}

/// What an input reads in a step, and nothing for an output. Events and values are read into the list, in place of what it has.
fn read_port(
    alloc: Global,
    scene: &Scene,
    app: AppId,
    port: PortId,
    step: u64,
    globals: &[u32],
    inbox: &mut PortInbox,
    list: Vec<Item>,
) -> Result<Items<Item>, NoMemory>
    requires faultless { IsFaultless scene.now }
    requires step { step ≤ 1_000_000 }
    requires here { IsPortInbox scene.now app port step inbox.old }
    requires wanted { WantedAt scene.now app port step inbox.old }
    requires globals { globals.now ≡ value_indices (port_at scene.now app port).kind (port_at scene.now app port).map }
    ensures settled { IsSettled step inbox.old inbox.new }
    ensures reads { IfOk result (λ items. (table : Table) → IsProper scene.now table → HoldsAt scene.now app port step inbox.old table →
        items ≡ input_by (port_at scene.now app port).direction (port_at scene.now app port).kind scene.now table app step port) }
    ensures shaped { IfOk result (λ items. IsInput (port_at scene.now app port).direction (port_at scene.now app port).kind (port_at scene.now app port) items) }
{
    match inbox {
        PortInbox::Silent => Ok(Items::new(alloc)),
        PortInbox::Unfed => values_of_nothing(globals, list),
        PortInbox::Hears(inbox) => {
            let mut events = list;
            inbox.deliver_events(step, &mut events)?;
            Ok(Items::from_vec(events))
        }
        PortInbox::Listens(inbox) => {
            let words = inbox.deliver(alloc, step)?;
            items_of_words(alloc, &words)
        }
        PortInbox::Follows(inbox) => values_read(inbox, step, globals, list),
    }
}

/// Fills a list with what all inputs of an application read in a step. The memory of its lists stays.
pub fn read_inputs(
    alloc: Global,
    scene: &Scene,
    app: AppId,
    step: u64,
    plan: &TurnPlan,
    inboxes: &mut Vec<PortInbox>,
    all: &mut Vec<Items<Item>>,
) -> Result<(), NoMemory>
    requires faultless { IsFaultless scene.now }
    requires step { step ≤ 1_000_000 }
    requires counted { length inboxes.old.items ≡ length (app_at scene.now app).ports }
    requires few { length inboxes.old.items < 2 ^ 32 }
    requires planned { plan.now ≡ turn_plan (app_at scene.now app).ports (app_at scene.now app).rules }
    requires here { (p : ℕ) → p < length inboxes.old.items → IsPortInbox scene.now app p step (inbox_at inboxes.old.items p) }
    requires wanted { (p : ℕ) → p < length inboxes.old.items → WantedAt scene.now app p step (inbox_at inboxes.old.items p) }
    ensures counted { length inboxes.new.items ≡ length inboxes.old.items }
    ensures settled { (p : ℕ) → p < length inboxes.old.items → IsSettled step (inbox_at inboxes.old.items p) (inbox_at inboxes.new.items p) }
    ensures reads { OnOk result ((table : Table) → IsProper scene.now table →
        ((p : ℕ) → p < length inboxes.old.items → HoldsAt scene.now app p step (inbox_at inboxes.old.items p) table) →
        all.new.items ≡ inputs scene.now table app step) }
    ensures shaped { OnOk result (AreInputs (app_at scene.now app).ports all.new.items) }
{
    for port in 0..inboxes.len() {
        let globals = plan.ports.as_slice()[port].indices.as_slice();
        let list = list_at(alloc, all, port);
        let items = read_port(
            alloc,
            scene,
            app,
            PortId(port as u32),
            step,
            globals,
            &mut inboxes[port],
            list,
        )?;
        put_at(all, port, items)?;
    }
    all.truncate(inboxes.len());
    Ok(())
}
