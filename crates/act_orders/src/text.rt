//! The text of an order, as it is written.
ghost use Rattle.std.specs.Prelude.{◌≡◌, ◌≤◌, ◌<◌, ◌+◌, ◌++◌, ℕ, [], IsErrOf, OnOk, length};
ghost use Rattle.std.specs.Fmt.{decimal};
ghost use Rattle.music_base.specs.Causes.{Rose};
ghost use Rattle.music_base.specs.Outside.{Took, TookPrefix};
ghost use Rattle.scene_model.specs.declared.act.Act.TheVariants.{Run};
ghost use Rattle.act_orders.specs.OrderTexts.{act_line, act_words};
ghost use Rattle.act_orders.specs.Pages.{TookAllBut};

use itoa::Buffer;
use music_base::{NoMemory, Sink, write_all};
use run_logs::WriteFault;
use scene_model::{Act, Scene};

/// From how many bytes on a page is written out.
const FULL: usize = 65_536;

/// Appends the number from 1 of what has this place from 0.
fn push_number(page: &mut Vec<u8>, place: u32) -> Result<(), NoMemory>
    ensures { OnOk result (page.new.items ≡ page.old.items ++ decimal (place + 1)) }
{
    let mut digits = Buffer::new();
    page.extend_from_slice(digits.format(u64::from(place) + 1).as_bytes())?;
    Ok(())
}

/// Appends what an act does, and where.
fn push_words(page: &mut Vec<u8>, scene: &Scene, act: &Act) -> Result<(), NoMemory>
    requires { (a : ℕ) → act.now ≡ Run a → a < length scene.now.apps }
    ensures { OnOk result (page.new.items ≡ page.old.items ++ act_words scene.now act.now) }
{
    match act {
        Act::Take(link) => {
            page.extend_from_slice(b"take ")?;
            push_number(page, link.0)
        }
        Act::Run(app) => {
            page.extend_from_slice(b"run ")?;
            page.extend_from_slice(scene.app(*app).name.as_slice())?;
            Ok(())
        }
        Act::Put(link) => {
            page.extend_from_slice(b"put ")?;
            push_number(page, link.0)
        }
    }
}

/// Appends the line of an act.
#[tactic(auto, unfolding(crate::specs::OrderTexts::act_line))]
fn push_act(page: &mut Vec<u8>, scene: &Scene, act: &Act) -> Result<(), NoMemory>
    requires { (a : ℕ) → act.now ≡ Run a → a < length scene.now.apps }
    ensures { OnOk result (page.new.items ≡ page.old.items ++ act_line scene.now act.now) }
{
    push_words(page, scene, act)?;
    page.extend_from_slice(b"\n")?;
    Ok(())
}

/// Writes out a page, and empties it.
pub fn write_page<K: Sink>(page: &mut Vec<u8>, sink: &mut K) -> Result<(), WriteFault>
    ensures all { OnOk result (Took (K.taken sink.old) page.old.items (K.taken sink.new)) }
    ensures empty { OnOk result (page.new.items ≡ []) }
    ensures prefix { TookPrefix (K.taken sink.old) page.old.items (K.taken sink.new) }
    ensures cause { IsErrOf result WriteFault.Sink → Rose (K.faults sink.old) (K.faults sink.new) }
    ensures memory { IsErrOf result WriteFault.Memory → K.faults sink.new ≡ K.faults sink.old }
    ensures stays { OnOk result (K.faults sink.new ≡ K.faults sink.old) }
    ensures never_falls { K.faults sink.old ≤ K.faults sink.new }
{
    let Ok(()) = write_all(sink, page) else {
        return Err(WriteFault::Sink);
    };
    page.clear();
    Ok(())
}

/// Appends the line of an act to a page, which is written out where it is full.
pub fn write_act<K: Sink>(
    page: &mut Vec<u8>,
    scene: &Scene,
    act: &Act,
    sink: &mut K,
) -> Result<(), WriteFault>
    requires { (a : ℕ) → act.now ≡ Run a → a < length scene.now.apps }
    ensures all { OnOk result (TookAllBut (K.taken sink.old) (page.old.items ++ act_line scene.now act.now) page.new.items (K.taken sink.new)) }
    ensures prefix { TookPrefix (K.taken sink.old) (page.old.items ++ act_line scene.now act.now) (K.taken sink.new) }
    ensures cause { IsErrOf result WriteFault.Sink → Rose (K.faults sink.old) (K.faults sink.new) }
    ensures memory { IsErrOf result WriteFault.Memory → K.faults sink.new ≡ K.faults sink.old }
    ensures stays { OnOk result (K.faults sink.new ≡ K.faults sink.old) }
    ensures never_falls { K.faults sink.old ≤ K.faults sink.new }
{
    let Ok(()) = push_act(page, scene, act) else {
        return Err(WriteFault::Memory);
    };
    if page.len() < FULL {
        return Ok(());
    }
    write_page(page, sink)
}
