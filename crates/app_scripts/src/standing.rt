//! Whether a rule stands in an application: its ports, its indices, and its times.
ghost use Rattle.std.specs.Prelude.{◌≡◌};
ghost use Rattle.std.specs.List.{find};
ghost use Rattle.std.specs.Option.{option_copied};
ghost use Rattle.scene_model.specs.declared.port.Direction.TheVariants.{Input, Output};
ghost use Rattle.scene_model.specs.Rules.{
  after_fits,
  has_port,
  indices_stand,
  is_mapped,
  is_rate,
  ports_stand,
  rate_fits,
};
ghost use Rattle.app_scripts.specs.Rules.{fault_of, is_named};

use crate::RuleFault;
use music_base::{Name, Nanos};
use scene_model::{Direction, MOST_PERIODS, PortDecl, PortKind, Rule};

/// The port of this name.
fn port_named<'a>(ports: &'a [PortDecl], name: &[u8]) -> Option<&'a PortDecl>
    ensures { option_copied result ≡ find (is_named name.now) ports.now }
{
    ports.iter().find(|port| port.name.as_slice() == name)
}

/// Whether a port of this name stands there, of this direction and kind.
#[tactic(auto, unfolding(scene_model::specs::Rules::has_port), using(crate::proofs::Named::named))]
fn has_port(ports: &[PortDecl], name: &Name, direction: Direction, kind: PortKind) -> bool
    ensures { result ≡ has_port ports.now name.now direction kind }
{
    match port_named(ports, name.as_slice()) {
        Some(port) => port.direction == direction && port.kind == kind,
        None => false,
    }
}

fn has_input(ports: &[PortDecl], name: &Name, kind: PortKind) -> bool
    ensures { result ≡ has_port ports.now name.now Input kind }
{
    has_port(ports, name, Direction::Input, kind)
}

fn has_output(ports: &[PortDecl], name: &Name, kind: PortKind) -> bool
    ensures { result ≡ has_port ports.now name.now Output kind }
{
    has_port(ports, name, Direction::Output, kind)
}

/// Whether the rule names such ports as it asks for.
fn ports_stand(ports: &[PortDecl], rule: &Rule) -> bool
    ensures { result ≡ ports_stand ports.now rule.now }
{
    use PortKind::{Events, Messages, Values};
    match rule {
        Rule::EmitAt { port, .. } | Rule::EmitEvery { port, .. } => has_output(ports, port, Events),
        Rule::SetValue { port, .. } | Rule::Ramp { port, .. } => has_output(ports, port, Values),
        Rule::Say { port, .. } => has_output(ports, port, Messages),
        Rule::Pass { input, output, .. } => {
            has_input(ports, input, Events) && has_output(ports, output, Events)
        }
        Rule::CopyValues { input, output, .. } => {
            has_input(ports, input, Values) && has_output(ports, output, Values)
        }
        Rule::When { input, output, .. } => {
            has_input(ports, input, Values) && has_output(ports, output, Events)
        }
        Rule::Reply { input, output, .. } => {
            has_input(ports, input, Messages) && has_output(ports, output, Messages)
        }
    }
}

/// Whether some rank of the port of this name maps the index.
#[tactic(auto, unfolding(scene_model::specs::Rules::is_mapped), using(crate::proofs::Named::named))]
fn is_mapped(ports: &[PortDecl], name: &Name, index: u32) -> bool
    ensures { result ≡ is_mapped ports.now name.now index }
{
    match port_named(ports, name.as_slice()) {
        Some(port) => port.map.maps(index),
        None => false,
    }
}

/// Whether each index that the rule states is mapped by its port.
fn indices_stand(ports: &[PortDecl], rule: &Rule) -> bool
    ensures { result ≡ indices_stand ports.now rule.now }
{
    match rule {
        Rule::EmitAt { port, index, .. }
        | Rule::EmitEvery { port, index, .. }
        | Rule::SetValue { port, index, .. }
        | Rule::Ramp { port, index, .. } => is_mapped(ports, port, *index),
        Rule::When {
            input,
            index,
            output,
            emitted,
            ..
        } => is_mapped(ports, input, *index) && is_mapped(ports, output, *emitted),
        _ => true,
    }
}

/// Whether the rule passes on less than a tick after a step begins.
fn after_fits(tick: u64, rule: &Rule) -> bool
    ensures { result ≡ after_fits tick rule.now }
{
    match rule {
        Rule::Pass { after, .. } | Rule::Reply { after, .. } => after.0 < tick,
        _ => true,
    }
}

/// Whether a run that lasts so long, in ns, holds the period, and not too often.
#[tactic(auto, unfolding(scene_model::specs::Rules::is_rate))]
fn is_rate(lasts: u128, every: Nanos) -> bool
    ensures { result ≡ is_rate lasts every }
{
    1 <= every.0 && lasts / u128::from(every.0) <= MOST_PERIODS
}

fn rate_fits(lasts: u128, rule: &Rule) -> bool
    ensures { result ≡ rate_fits lasts rule.now }
{
    match rule {
        Rule::EmitEvery { every, .. } | Rule::Say { every, .. } => is_rate(lasts, *every),
        _ => true,
    }
}

/// The first fault of a rule at its place, in an application of these ports and this tick that runs for
/// `lasts` ns.
#[tactic(auto, unfolding(crate::specs::Rules::fault_of))]
pub fn fault_of(
    ports: &[PortDecl],
    tick: u64,
    lasts: u128,
    place: u32,
    rule: &Rule,
) -> Option<RuleFault>
    ensures { result ≡ fault_of ports.now tick lasts place rule.now }
{
    if !ports_stand(ports, rule) {
        return Some(RuleFault::RulePort { place });
    }
    if !indices_stand(ports, rule) {
        return Some(RuleFault::RuleIndex { place });
    }
    if !after_fits(tick, rule) {
        return Some(RuleFault::RuleAfter { place });
    }
    if !rate_fits(lasts, rule) {
        return Some(RuleFault::RuleRate { place });
    }
    None
}
