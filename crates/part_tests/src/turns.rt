//! What rules put out in a step, worked by hand.
ghost use Rattle.std.specs.Prelude.{◌≡◌, ◌<◌, ◌≤◌, ℕ, IfOk, length, slice_index_or};
ghost use Rattle.music_base.specs.Items.{AreValues};
ghost use Rattle.scene_model.specs.Faults.{IsApp};
ghost use Rattle.scene_model.specs.Scenes.{no_port};
ghost use Rattle.scene_model.specs.Turns.{opening};
ghost use Rattle.rule_turns.specs.Plans.{indices_of, turn_plan};
ghost use Rattle.rule_turns.specs.Turning.{AreInputs, IsInput};

use crate::plans::scene_of;
use music_base::{AppId, Event, Item, Items, Message, Nanos, NoMemory, Sample, Word};
use music_setup::SetupFault;
use rule_turns::{PortUses, ScriptState, TurnPlan, turn};
use scene_model::{AppDecl, Direction, PortDecl, PortKind, Rule};
use std::alloc::{AllocError, Global};

/// Times in ns and indices, or words.
type Events<'a> = &'a [(u64, u32)];

type Words<'a> = &'a [(u64, &'a [u8])];

/// A step of an application with rules: what its input `d` read in the step before and reads in this one, in millionths,
/// and what it then puts out on its outputs `out`, `c` and `said`. In each step its input `in` gets events of the indices 0,
/// 1, 3 and 9, and its input `heard` the word `hi`.
struct Turn<'a> {
    rules: &'a str,
    step: u64,
    before: &'a [i64],
    now: &'a [i64],
    events: Events<'a>,
    values: &'a [i64],
    words: Words<'a>,
}

const SILENT: Turn<'static> = Turn {
    rules: "",
    step: 4,
    before: &[],
    now: &[-7, 3],
    events: &[],
    values: &[0, 0, 0],
    words: &[],
};

// The application starts at 7 ns and ticks each 10 ns. So step 4 begins at 47 ns and ends before 57 ns.
const TURNS: &[Turn<'static>] = &[
    SILENT,
    // 1 ns before the step, at its begin, in its last ns and at its end
    Turn {
        rules: "emit out 0 at 4.6e-8; emit out 1 at 4.7e-8; emit out 2 at 5.6e-8; emit out 3 at 5.7e-8",
        events: &[(47, 1), (56, 2)],
        ..SILENT
    },
    // periods of which a time is 1 ns behind the step's begin, at its begin and at its end, and one that begins long after
    // it; rule by rule
    Turn {
        rules: "emit out 0 every 4e-9 from 0; emit out 1 every 3e-9 from 4.8e-8; emit out 2 every 4.7e-8 from 0; \
            emit out 3 every 5.7e-8 from 0; emit out 4 every 1e-9 from 1",
        events: &[
            (48, 0),
            (52, 0),
            (56, 0),
            (48, 1),
            (51, 1),
            (54, 1),
            (47, 2),
        ],
        ..SILENT
    },
    // the first step begins at the start, and what was due before it is not made up for
    Turn {
        rules: "emit out 0 every 6e-9 from 0; emit out 1 at 7e-9; emit out 2 at 6e-9",
        step: 0,
        events: &[(12, 0), (7, 1)],
        ..SILENT
    },
    // indices that come out below 0, or that the output does not map, though the input does
    Turn {
        rules: "pass in to out shift -1 after 5e-9; pass in to out shift 4 after 0; \
            pass in to out shift 65535 after 0; pass in to out shift -65535 after 0",
        events: &[(52, 0), (52, 2), (47, 4)],
        ..SILENT
    },
    // the later rule for an index counts
    Turn {
        rules: "set c 0 1; set c 1 2; copy d to c scale 1/1 add 0; set c 1 0.000005",
        values: &[-7, 5, 0],
        ..SILENT
    },
    // an index that the input lacks keeps what an earlier rule gave it
    Turn {
        rules: "set c 2 0.000009; set c 0 0.000008; copy d to c scale 0/1 add 0.000001",
        values: &[1, 1, 9],
        ..SILENT
    },
    // 3.5 and -1.5 are rounded down to 3 and -2, and -3.5 to -4
    Turn {
        rules: "copy d to c scale -1/2 add 0.000003",
        values: &[6, 1, 0],
        ..SILENT
    },
    Turn {
        rules: "copy d to c scale 1/2 add 0",
        values: &[-4, 1, 0],
        ..SILENT
    },
    // twice the greatest value less one is still above it: only the sum is held in 64 bits
    Turn {
        rules: "copy d to c scale 2/1 add -1",
        now: &[9_223_372_036_854_775_807, -9_223_372_036_854_775_808],
        values: &[9_223_372_036_854_775_807, -9_223_372_036_854_775_808, 0],
        ..SILENT
    },
    Turn {
        rules: "copy d to c scale 1/1 add 1",
        now: &[9_223_372_036_854_775_807, -9_223_372_036_854_775_808],
        values: &[9_223_372_036_854_775_807, -9_223_372_036_853_775_808, 0],
        ..SILENT
    },
    // a ramp at step 4, and in a late step, where it leaves 64 bits
    Turn {
        rules: "ramp c 0 from 1 by 0.25; ramp c 1 from 1 by -0.5; ramp c 2 from 0 by 0",
        values: &[2_000_000, -1_000_000, 0],
        ..SILENT
    },
    Turn {
        rules: "ramp c 0 from 0 by 10000000; ramp c 1 from 0 by -10000000; ramp c 2 from 1 by 0.000001",
        step: 999_999,
        values: &[
            9_223_372_036_854_775_807,
            -9_223_372_036_854_775_808,
            1_999_999,
        ],
        ..SILENT
    },
    // two rules that watch one input, each with its own truth value
    Turn {
        rules: "when d 0 over 0.000001 emit out 1; when d 1 over 0.000001 emit out 2",
        before: &[1, 2],
        now: &[2, 2],
        events: &[(47, 1)],
        ..SILENT
    },
    Turn {
        rules: "when d 0 over 0.000001 emit out 1; when d 1 over 0.000001 emit out 2",
        before: &[2, 1],
        now: &[2, 2],
        events: &[(47, 2)],
        ..SILENT
    },
    Turn {
        rules: "when d 0 over 0.000001 emit out 1; when d 0 over 0.000002 emit out 2; when d 0 over -1 emit out 3",
        before: &[2, 0],
        now: &[3, 0],
        events: &[(47, 2)],
        ..SILENT
    },
    // before the first step nothing was over
    Turn {
        rules: "when d 1 over -1 emit out 0",
        step: 0,
        events: &[(7, 0)],
        ..SILENT
    },
    // words of one time stand in the order of their rules
    Turn {
        rules: "say said go every 1e-8 from 4.9e-8; reply heard to said after 2e-9",
        words: &[(49, b"go"), (49, b"hi")],
        ..SILENT
    },
    Turn {
        rules: "reply heard to said after 2e-9; say said go every 1e-8 from 4.9e-8",
        words: &[(49, b"hi"), (49, b"go")],
        ..SILENT
    },
];

fn text_of(alloc: Global, rules: &str) -> Result<String, AllocError> {
    format!(in alloc;
        "stoptime=1e-7\nbinary=script\n[app]\ntimestep=1e-8\nstart=7e-9\nports=in event in 0+10; in cont d 0+2; in message heard; out event out 0+5; out cont c 0+3; out message said\nargs={rules}\n"
    )
}

fn arrivals(alloc: Global) -> Result<Items<Item>, NoMemory> {
    let mut items = Items::new(alloc);
    for global in [0, 1, 3, 9] {
        let time = Nanos(46);
        items.push(Item::Event(Event { time, global }))?;
    }
    Ok(items)
}

fn greeting(alloc: Global) -> Result<Items<Item>, NoMemory> {
    let mut items = Items::new(alloc);
    let word = Word::from_slice(alloc, b"hi")?;
    let time = Nanos(40);
    items.push(Item::Message(Message { time, word }))?;
    Ok(items)
}

fn value_at(values: &[i64], place: usize) -> Sample {
    Sample(values.get(place).copied().unwrap_or(0))
}

// The values in their order, and 0 for each further index.
fn values_of(alloc: Global, indices: &[u32], values: &[i64]) -> Result<Items<Item>, NoMemory>
    ensures { IfOk result (λ items. AreValues indices.now items) }
{
    let mut items = Vec::new(alloc);
    for i in 0..indices.len() {
        let value = value_at(values, i);
        let global = indices[i];
        items.push(Item::Value { global, value })?;
    }
    Ok(Items::from_vec(items))
}

fn read(
    alloc: Global,
    port: &PortDecl,
    uses: &PortUses,
    values: &[i64],
) -> Result<Items<Item>, NoMemory>
    requires { uses.now.indices ≡ indices_of port.now }
    ensures { IfOk result (λ items. IsInput port.now.direction port.now.kind port.now items) }
{
    match (port.direction, port.kind) {
        (Direction::Output, _) => Ok(Items::new(alloc)),
        (Direction::Input, PortKind::Events) => arrivals(alloc),
        (Direction::Input, PortKind::Messages) => greeting(alloc),
        (Direction::Input, PortKind::Values) => values_of(alloc, uses.indices.as_slice(), values),
    }
}

// What the ports of the plan read in a step.
fn inputs(
    alloc: Global,
    plan: &TurnPlan,
    ports: &[PortDecl],
    rules: &[Rule],
    values: &[i64],
) -> Result<Items<Items<Item>>, NoMemory>
    requires { plan.now ≡ turn_plan ports.now rules.now }
    ensures { IfOk result (λ inputs. AreInputs ports.now inputs) }
{
    let uses = plan.ports.as_slice();
    let mut inputs = Vec::new(alloc);
    for p in 0..ports.len() {
        inputs.push(read(alloc, &ports[p], &uses[p], values)?)?;
    }
    Ok(Items::from_vec(inputs))
}

// The state after a step in which the inputs read this, and before which nothing was over.
fn state_after(
    alloc: Global,
    plan: &TurnPlan,
    rules: &[Rule],
    inputs: &[Items<Item>],
) -> Result<ScriptState, NoMemory>
    requires { length plan.now.whens ≡ length (opening rules.now) }
    ensures { IfOk result (λ state. length state ≡ length (opening rules.now)) }
{
    let mut state = ScriptState::start(alloc, rules)?;
    state.move_on(plan, rules, inputs);
    Ok(state)
}

fn state_before(
    alloc: Global,
    app: &AppDecl,
    plan: &TurnPlan,
    row: &Turn<'_>,
) -> Result<ScriptState, NoMemory>
    requires { plan.now ≡ turn_plan app.now.ports app.now.rules }
    ensures { IfOk result (λ state. length state ≡ length (opening app.now.rules)) }
{
    let (ports, rules) = (app.ports.as_slice(), app.rules.as_slice());
    if row.step == 0 {
        return ScriptState::start(alloc, rules);
    }
    let inputs = inputs(alloc, plan, ports, rules, row.before)?;
    state_after(alloc, plan, rules, inputs.as_slice())
}

fn outputs(alloc: Global, app: &AppDecl, row: &Turn<'_>) -> Result<Items<Items<Item>>, NoMemory>
    requires app { IsApp app.now }
    requires step { row.now.step < 1_000_000 }
{
    let (ports, rules) = (app.ports.as_slice(), app.rules.as_slice());
    let plan = TurnPlan::of(alloc, ports, rules)?;
    let mut state = state_before(alloc, app, &plan, row)?;
    let read = inputs(alloc, &plan, ports, rules, row.now)?;
    turn(
        alloc,
        rules,
        ports,
        app.start,
        app.tick,
        &mut state,
        row.step,
        read.as_slice(),
    )
}

fn are_events(items: &[Item], events: Events<'_>) -> bool {
    items.len() == events.len()
        && items.iter().zip(events).all(|(item, (time, global))| match item {
            Item::Event(event) => event.time.0 == *time && event.global == *global,
            _ => false,
        })
}

fn are_values(items: &[Item], values: &[i64]) -> bool {
    items.len() == values.len()
        && items.iter().zip(values).all(|(item, given)| match item {
            Item::Value { value, .. } => value.0 == *given,
            _ => false,
        })
}

fn are_words(items: &[Item], words: Words<'_>) -> bool {
    items.len() == words.len()
        && items.iter().zip(words).all(|(item, (time, word))| match item {
            Item::Message(message) => {
                message.time.0 == *time && message.word.as_slice() == *word
            }
            _ => false,
        })
}

// Whether the inputs put out nothing, and the outputs what the row has.
fn are_as_worked(outputs: &[Items<Item>], row: &Turn<'_>) -> bool {
    match outputs {
        [input, d, heard, out, c, said] => {
            input.is_empty()
                && d.is_empty()
                && heard.is_empty()
                && are_events(out.as_slice(), row.events)
                && are_values(c.as_slice(), row.values)
                && are_words(said.as_slice(), row.words)
        }
        _ => false,
    }
}

fn turns_as_worked(alloc: Global, text: &[u8], row: &Turn<'_>) -> Result<bool, SetupFault> {
    let scene = scene_of(alloc, text)?;
    if scene.apps.as_slice().is_empty() || row.step >= 1_000_000 {
        return Ok(false);
    }
    match outputs(alloc, scene.app(AppId(0)), row) {
        Ok(outputs) => Ok(are_as_worked(outputs.as_slice(), row)),
        Err(NoMemory) => Ok(false),
    }
}

fn is_as_worked(alloc: Global, row: &Turn<'_>) -> bool {
    match text_of(alloc, row.rules) {
        Ok(text) => matches!(turns_as_worked(alloc, text.as_bytes(), row), Ok(true)),
        Err(_) => false,
    }
}

#[test]
fn turns_are_as_worked_by_hand(rt: HostRuntime) {
    for row in TURNS {
        assert!(rt; is_as_worked(rt.alloc(), row), "{}", row.rules);
    }
}
