//! Orders, written as they are found.
ghost use Rattle.std.specs.Prelude.{◌≡◌, ◌≤◌, ◌<◌, ◌+◌, ◌++◌, ℕ, ℤ, List, [], IfOk, IfSome, IsErrOf, None, OnOk, length};
ghost use Rattle.music_base.specs.Causes.{Rose};
ghost use Rattle.music_base.specs.Outside.{TookPrefix};
ghost use Rattle.scene_model.specs.Faults.{IsFaultless};
ghost use Rattle.scene_model.specs.Orders.{after};
ghost use Rattle.scene_model.specs.Waits.{Fits};
ghost use Rattle.scene_model.specs.declared.act.Act.{Act};
ghost use Rattle.tick_plan.specs.Plans.{PlanFits};
ghost use Rattle.act_orders.specs.Finished.{WroteAllBut, WroteOrder};
ghost use Rattle.act_orders.specs.Ledgers.{Allows, IsAfter, IsLedger, counts_in};
ghost use Rattle.act_orders.specs.OrderTexts.{act_line};
ghost use Rattle.act_orders.specs.Pages.{TookAllBut};

use crate::ledger::Ledger;
use crate::text::{write_act, write_page};
use crate::waiting::Waiting;
use music_base::{NoMemory, Sink};
use run_logs::WriteFault;
use scene_model::{Act, Scene};
use std::alloc::Global;
use tick_plan::Plan;

/// The act to do next: one of the application that waits on top, or any.
fn next_act(scene: &Scene, ledger: &Ledger, waiting: &Waiting) -> Option<Act>
    requires { IsLedger scene.now ledger.now }
    ensures some { IfSome result (Allows scene.now ledger.now) }
    ensures none { result ≡ None → waiting.now ≡ 0 → (act : Act) → Allows scene.now ledger.now act → ⊥ }
{
    match waiting.last() {
        Some(app) => ledger.act_of(scene, app),
        None => ledger.some_act(scene),
    }
}

/// Has those applications wait that the act may let go on: of a block's act the receiver on top of the sender.
fn note(waiting: &mut Waiting, scene: &Scene, act: &Act) -> Result<(), NoMemory>
    requires { IsFaultless scene.now }
    ensures { IfOk result (λ _. waiting.new ≤ waiting.old + 2) }
{
    match act {
        Act::Take(link) | Act::Put(link) => {
            if (link.0 as usize) < scene.links.len() {
                let ends = scene.link(*link);
                waiting.add(ends.from_app)?;
                waiting.add(ends.to_app)?;
            }
        }
        Act::Run(app) => waiting.add(*app)?,
    }
    Ok(())
}

/// Enters an act and writes its line.
fn do_act<K: Sink>(
    scene: &Scene,
    act: Act,
    ledger: &mut Ledger,
    waiting: &mut Waiting,
    page: &mut Vec<u8>,
    sink: &mut K,
) -> Result<(), WriteFault>
    requires kept { IsLedger scene.now ledger.old }
    requires allowed { Allows scene.now ledger.old act }
    ensures kept { OnOk result (IsLedger scene.now ledger.new) }
    ensures limits { OnOk result (ledger.new.limits ≡ ledger.old.limits) }
    ensures counts { OnOk result (counts_in ledger.new ≡ after (counts_in ledger.old) act) }
    ensures waits { OnOk result (waiting.new ≤ waiting.old + 2) }
    ensures all { OnOk result (TookAllBut (K.taken sink.old) (page.old.items ++ act_line scene.now act) page.new.items (K.taken sink.new)) }
    ensures prefix { TookPrefix (K.taken sink.old) (page.old.items ++ act_line scene.now act) (K.taken sink.new) }
    ensures cause { IsErrOf result WriteFault.Sink → Rose (K.faults sink.old) (K.faults sink.new) }
    ensures memory { IsErrOf result WriteFault.Memory → K.faults sink.new ≡ K.faults sink.old }
    ensures stays { OnOk result (K.faults sink.new ≡ K.faults sink.old) }
    ensures never_falls { K.faults sink.old ≤ K.faults sink.new }
{
    let Ok(()) = note(waiting, scene, &act) else {
        return Err(WriteFault::Memory);
    };
    write_act(page, scene, &act, sink)?;
    ledger.enter(scene, act);
    Ok(())
}

/// Does acts until every application is finished, and leaves the end of the text on the page.
fn drive<K: Sink>(
    scene: &Scene,
    ledger: &mut Ledger,
    waiting: &mut Waiting,
    page: &mut Vec<u8>,
    sink: &mut K,
) -> Result<(), WriteFault>
    requires fits { (potentials : List ℤ) × Fits scene.now ledger.old.limits.items potentials }
    requires opened { IsAfter scene.now ledger.old.limits.items [] ledger.old }
    requires empty { page.old.items ≡ [] }
    ensures order { WroteAllBut scene.now ledger.old.limits.items page.new.items (K.taken sink.old) (K.taken sink.new) result }
    ensures cause { IsErrOf result WriteFault.Sink → Rose (K.faults sink.old) (K.faults sink.new) }
    ensures memory { IsErrOf result WriteFault.Memory → K.faults sink.new ≡ K.faults sink.old }
    ensures stays { OnOk result (K.faults sink.new ≡ K.faults sink.old) }
    ensures never_falls { K.faults sink.old ≤ K.faults sink.new }
{
    loop {
        match next_act(scene, ledger, waiting) {
            Some(act) => do_act(scene, act, ledger, waiting, page, sink)?,
            None => {
                if !waiting.drop_last() {
                    return Ok(());
                }
            }
        }
    }
}

/// Writes an order of acts after which every application is finished: a line for each act, as soon as it is found.
///
/// Each act is allowed by those before it under the plan's limits. A line is `take N`, `run NAME` or `put N`, with the number
/// of the connection, counted from 1, or the name of the application. The scene has no fault, and the plan fits it.
///
/// Where the sink fails, or memory gives out, a prefix of such a text was taken, and nothing more is tried.
pub fn order_to_sink<K: Sink>(
    alloc: Global,
    scene: &Scene,
    plan: &Plan,
    sink: &mut K,
) -> Result<(), WriteFault>
    requires faultless { IsFaultless scene.now }
    requires fits { PlanFits scene.now plan.now }
    ensures order { WroteOrder scene.now plan.now.limits.items (K.taken sink.old) (K.taken sink.new) result }
    ensures cause { IsErrOf result WriteFault.Sink → Rose (K.faults sink.old) (K.faults sink.new) }
    ensures memory { IsErrOf result WriteFault.Memory → K.faults sink.new ≡ K.faults sink.old }
    ensures stays { OnOk result (K.faults sink.new ≡ K.faults sink.old) }
    ensures never_falls { K.faults sink.old ≤ K.faults sink.new }
{
    let Ok(mut ledger) = Ledger::open(alloc, scene, &plan.limits) else {
        return Err(WriteFault::Memory);
    };
    let Ok(mut waiting) = Waiting::of_all(alloc, scene.apps.len() as u32) else {
        return Err(WriteFault::Memory);
    };
    let mut page = Vec::new(alloc);
    drive(scene, &mut ledger, &mut waiting, &mut page, sink)?;
    write_page(&mut page, sink)
}
