//! The plan of an application's turns: names and indices looked up once.
ghost use Rattle.std.specs.Prelude.{◌≡◌, ◌==◌, ◌<◌, ◌≤◌, [], IfOk, length, map, slice_index_or};
ghost use Rattle.std.specs.List.{position};
ghost use Rattle.scene_model.specs.Turns.{same_name, target_of};
ghost use Rattle.scene_model.specs.declared.port.PortDecl.{PortDecl};
ghost use Rattle.rule_turns.specs.OneRule.{source_of};
ghost use Rattle.rule_turns.specs.Plans.{
  index_place,
  indices_of,
  place_in_block,
  place_named,
  turn_plan,
  use_of,
  uses_from,
  uses_of_port,
  value_indices,
  when_count,
  whens_from,
};

use crate::{PortUses, RuleUse, TurnPlan};
use music_base::{Items, NoMemory, TryCopy};
use scene_model::{PortDecl, PortKind, Rule};
use std::alloc::Global;

/// The output that a rule writes.
fn target_of(rule: &Rule) -> &[u8]
    ensures { result.now ≡ target_of rule.now }
{
    match rule {
        Rule::EmitAt { port, .. }
        | Rule::EmitEvery { port, .. }
        | Rule::SetValue { port, .. }
        | Rule::Ramp { port, .. }
        | Rule::Say { port, .. } => port.as_slice(),
        Rule::Pass { output, .. }
        | Rule::CopyValues { output, .. }
        | Rule::When { output, .. }
        | Rule::Reply { output, .. } => output.as_slice(),
    }
}

/// The input that a rule reads, and no name where it reads none.
fn source_of(rule: &Rule) -> &[u8]
    ensures { result.now ≡ source_of rule.now }
{
    match rule {
        Rule::Pass { input, .. }
        | Rule::CopyValues { input, .. }
        | Rule::When { input, .. }
        | Rule::Reply { input, .. } => input.as_slice(),
        _ => &[],
    }
}

fn is_same_name(a: &[u8], b: &[u8]) -> bool
    ensures { result ≡ same_name a.now b.now }
{
    a == b
}

fn first_named(ports: &[PortDecl], name: &[u8]) -> Option<usize>
    ensures { result ≡ position (λ (port : PortDecl). same_name port.name name.now) ports.now }
{
    ports.iter().position(|port| port.name.as_slice() == name)
}

/// The place of the port of a name, and the number of ports where none has it.
#[tactic(auto, using(music_base::proofs::FirstPlaces::place_or_len))]
fn place_named(ports: &[PortDecl], name: &[u8]) -> usize
    ensures { result ≡ place_named ports.now name.now }
{
    first_named(ports, name).unwrap_or(ports.len())
}

fn first_index(indices: &[u32], index: u32) -> Option<usize>
    ensures { result ≡ position (λ i. i == index) indices.now }
{
    indices.iter().position(|i| *i == index)
}

/// The place of an index among these, and their number where it is none of them.
#[tactic(auto, using(music_base::proofs::FirstPlaces::place_or_len))]
fn index_place(indices: &[u32], index: u32) -> usize
    ensures { result ≡ index_place indices.now index }
{
    first_index(indices, index).unwrap_or(indices.len())
}

/// The indices for which a block of the port has a value.
fn value_indices(alloc: Global, port: &PortDecl) -> Result<Items<u32>, NoMemory>
    ensures { IfOk result (λ indices. indices ≡ value_indices port.now.kind port.now.map) }
{
    match port.kind {
        PortKind::Values => port.map.indices(alloc),
        PortKind::Events | PortKind::Messages => Ok(Items::new(alloc)),
    }
}

/// These indices of each port.
fn indices_of_ports(alloc: Global, ports: &[PortDecl]) -> Result<Items<Items<u32>>, NoMemory>
    ensures { IfOk result (λ lists. lists ≡ map indices_of ports.now) }
{
    let mut lists = Vec::with_capacity(alloc, ports.len())?;
    for port in ports {
        lists.push(value_indices(alloc, port)?)?;
    }
    Ok(Items::from_vec(lists))
}

/// The list at a place, and none past the end.
fn list_at<'a>(lists: &'a [Items<u32>], place: usize) -> &'a [u32]
    ensures { result.now ≡ slice_index_or lists.entry.now place [] }
{
    match lists.get(place) {
        Some(list) => list.as_slice(),
        None => &[],
    }
}

/// Where a rule finds its index among those that its output writes or its input reads.
fn place_in_block(written: &[u32], read: &[u32], rule: &Rule) -> usize
    ensures { result ≡ place_in_block written.now read.now rule.now }
{
    match rule {
        Rule::SetValue { index, .. } | Rule::Ramp { index, .. } => index_place(written, *index),
        Rule::When { index, .. } => index_place(read, *index),
        _ => 0,
    }
}

fn when_count(rule: &Rule) -> usize
    ensures value { result ≡ when_count rule.now }
    ensures small { result ≤ 1 }
{
    match rule {
        Rule::When { .. } => 1,
        _ => 0,
    }
}

/// What the plan is made of: the ports, and the indices for which each has a value.
#[derive(Clone, Copy)]
struct Ports<'a> {
    ports: &'a [PortDecl],
    indices: &'a [Items<u32>],
}

/// The use of a rule at its place, before which so many `when` rules stand, by an output of these indices.
fn use_of(ports: &Ports<'_>, written: &[u32], place: usize, state: usize, rule: &Rule) -> RuleUse
    requires { ports.now.indices.now ≡ map indices_of ports.now.ports.now }
    ensures { result ≡ use_of ports.now.ports.now written.now place state rule.now }
{
    let input = place_named(ports.ports, source_of(rule));
    let read = list_at(ports.indices, input);
    RuleUse {
        rule: place,
        input,
        state,
        place: place_in_block(written, read, rule),
    }
}

/// The uses of the rules that write the port of a name.
fn uses_of(
    alloc: Global,
    ports: &Ports<'_>,
    rules: &[Rule],
    written: &[u32],
    name: &[u8],
) -> Result<Items<RuleUse>, NoMemory>
    requires { ports.now.indices.now ≡ map indices_of ports.now.ports.now }
    ensures { IfOk result (λ uses. uses ≡ uses_from ports.now.ports.now written.now name.now 0 0 rules.now) }
{
    let mut uses = Items::new(alloc);
    let mut state = 0;
    for i in 0..rules.len() {
        if is_same_name(target_of(&rules[i]), name) {
            uses.push(use_of(ports, written, i, state, &rules[i]))?;
        }
        state += when_count(&rules[i]);
    }
    Ok(uses)
}

/// The uses of the `when` rules.
fn whens_of(alloc: Global, ports: &Ports<'_>, rules: &[Rule]) -> Result<Items<RuleUse>, NoMemory>
    requires { ports.now.indices.now ≡ map indices_of ports.now.ports.now }
    ensures { IfOk result (λ uses. uses ≡ whens_from ports.now.ports.now 0 0 rules.now) }
{
    let mut uses = Items::new(alloc);
    let mut state = 0;
    for i in 0..rules.len() {
        if let Rule::When { .. } = &rules[i] {
            uses.push(use_of(ports, &[], i, state, &rules[i]))?;
            state += 1;
        }
    }
    Ok(uses)
}

fn uses_of_port(
    alloc: Global,
    ports: &Ports<'_>,
    rules: &[Rule],
    port: &PortDecl,
) -> Result<PortUses, NoMemory>
    requires { ports.now.indices.now ≡ map indices_of ports.now.ports.now }
    ensures { IfOk result (λ uses. uses ≡ uses_of_port ports.now.ports.now rules.now port.now) }
{
    let indices = value_indices(alloc, port)?;
    let uses = uses_of(
        alloc,
        ports,
        rules,
        indices.as_slice(),
        port.name.as_slice(),
    )?;
    Ok(PortUses { indices, uses })
}

fn uses_of_ports(
    alloc: Global,
    ports: &Ports<'_>,
    rules: &[Rule],
) -> Result<Items<PortUses>, NoMemory>
    requires { ports.now.indices.now ≡ map indices_of ports.now.ports.now }
    ensures { IfOk result (λ uses. uses ≡ map (uses_of_port ports.now.ports.now rules.now) ports.now.ports.now) }
{
    let mut uses = Vec::with_capacity(alloc, ports.ports.len())?;
    for port in ports.ports {
        uses.push(uses_of_port(alloc, ports, rules, port)?)?;
    }
    Ok(Items::from_vec(uses))
}

impl TurnPlan {
    /// The plan of an application's ports and rules. A step by it looks up no name.
    #[tactic(auto, unfolding(crate::specs::Plans::turn_plan))]
    pub fn of(alloc: Global, ports: &[PortDecl], rules: &[Rule]) -> Result<TurnPlan, NoMemory>
        ensures { IfOk result (λ plan. plan ≡ turn_plan ports.now rules.now) }
    {
        let lists = indices_of_ports(alloc, ports)?;
        let all = Ports {
            ports,
            indices: lists.as_slice(),
        };
        let whens = whens_of(alloc, &all, rules)?;
        let ports = uses_of_ports(alloc, &all, rules)?;
        Ok(TurnPlan { ports, whens })
    }
}
