//! The text of each fault.
ghost use Rattle.std.specs.Prelude.{◌≡◌, ◌<◌, ◌++◌, [], ◌∷◌, codes, length, map, IfOk};
ghost use Rattle.std.specs.Option.{option_copied};
ghost use Rattle.cycle_check.specs.CycleTexts.{cycle_text};
ghost use Rattle.music_base.specs.Lines.{ended};
ghost use Rattle.music_setup.specs.Texts.{
  HasApp,
  HasCycleText,
  HasText,
  IsOfConfig,
  app_name,
  app_names,
  app_text,
  at_place,
  kind_name,
  link_kind_name,
  link_text,
  names_in,
  port_text,
  rule_text,
  scene_text,
  text_fault,
  text_of_fault,
};

use crate::{AppKind, SceneFault, SetupFault};
use app_scripts::RuleFault;
use config_text::{Config, Sections, TextKind};
use cycle_check::{Cycle, write_cycle};
use itoa::Buffer;
use music_base::{AppId, LinkId, NoMemory};
use port_match::LinkKind;
use port_table::PortFault;
use std::alloc::Global;

fn kind_name(kind: TextKind) -> &'static [u8]
    ensures { result.now ≡ kind_name kind }
{
    match kind {
        TextKind::TooLong => b"TooLong",
        TextKind::BadByte => b"BadByte",
        TextKind::BadLine => b"BadLine",
        TextKind::BadName => b"BadName",
        TextKind::BadWidth => b"BadWidth",
        TextKind::BadOption => b"BadOption",
        TextKind::RepeatedSection => b"RepeatedSection",
        TextKind::RepeatedSetting => b"RepeatedSetting",
        TextKind::TooManySections => b"TooManySections",
        TextKind::TooManyLinks => b"TooManyLinks",
    }
}

/// The line that names a line of the text and its fault.
#[tactic(auto, unfolding(crate::specs::Texts::text_fault))]
fn text_fault(alloc: Global, line: u64, kind: TextKind) -> Result<Vec<u8>, NoMemory>
    ensures { IfOk result (λ text. text.items ≡ text_fault line kind) }
{
    let mut text = Vec::new(alloc);
    text.extend_from_slice(b"text fault: line ")?;
    text.extend_from_slice(Buffer::new().format(line).as_bytes())?;
    text.extend_from_slice(b": ")?;
    text.extend_from_slice(kind_name(kind))?;
    text.extend_from_slice(b"\n")?;
    Ok(text)
}

/// Which port or rule, by its place from 1, and what is wrong with it.
fn at_place(alloc: Global, what: &[u8], place: u64, kind: &[u8]) -> Result<Vec<u8>, NoMemory>
    ensures { IfOk result (λ text. text.items ≡ at_place what.now place kind.now) }
{
    let mut text = Vec::from_slice(alloc, what)?;
    text.extend_from_slice(Buffer::new().format(place).as_bytes())?;
    text.extend_from_slice(b": ")?;
    text.extend_from_slice(kind)?;
    Ok(text)
}

#[tactic(auto, unfolding(crate::specs::Texts::port_text))]
fn port_text(alloc: Global, fault: PortFault) -> Result<Vec<u8>, NoMemory>
    ensures { IfOk result (λ text. text.items ≡ port_text fault) }
{
    let (place, kind): (u32, &'static [u8]) = match fault {
        PortFault::PortText { place } => (place, b"PortText"),
        PortFault::MapRepeated { place, .. } => (place, b"MapRepeated"),
        PortFault::OutputTwice { place, .. } => (place, b"OutputTwice"),
        PortFault::Memory => return Ok(Vec::new(alloc)),
    };
    at_place(alloc, b"port ", u64::from(place), kind)
}

#[tactic(auto, unfolding(crate::specs::Texts::rule_text))]
fn rule_text(alloc: Global, fault: RuleFault) -> Result<Vec<u8>, NoMemory>
    ensures { IfOk result (λ text. text.items ≡ rule_text fault) }
{
    let (place, kind): (u32, &'static [u8]) = match fault {
        RuleFault::RuleText { place } => (place, b"RuleText"),
        RuleFault::RulePort { place } => (place, b"RulePort"),
        RuleFault::RuleIndex { place } => (place, b"RuleIndex"),
        RuleFault::RuleAfter { place } => (place, b"RuleAfter"),
        RuleFault::RuleRate { place } => (place, b"RuleRate"),
        RuleFault::Memory => return Ok(Vec::new(alloc)),
    };
    at_place(alloc, b"rule ", u64::from(place), kind)
}

/// What is wrong with an application.
fn app_text(alloc: Global, kind: AppKind) -> Result<Vec<u8>, NoMemory>
    ensures { IfOk result (λ text. text.items ≡ app_text kind) }
{
    match kind {
        AppKind::NpText => Ok(Vec::from_slice(alloc, b"NpText")?),
        AppKind::Binary => Ok(Vec::from_slice(alloc, b"Binary")?),
        AppKind::TickText => Ok(Vec::from_slice(alloc, b"TickText")?),
        AppKind::StartText => Ok(Vec::from_slice(alloc, b"StartText")?),
        AppKind::EndText => Ok(Vec::from_slice(alloc, b"EndText")?),
        AppKind::TooManySteps => Ok(Vec::from_slice(alloc, b"TooManySteps")?),
        AppKind::Ports(fault) => port_text(alloc, fault),
        AppKind::Rules(fault) => rule_text(alloc, fault),
        AppKind::TooManyValues => Ok(Vec::from_slice(alloc, b"TooManyValues")?),
    }
}

/// The name of an application, which is that of its section.
fn app_name(config: Option<&Config>, app: AppId) -> &[u8]
    requires { HasApp (option_copied config) app }
    ensures { result.now ≡ app_name (option_copied config.entry) app }
{
    match config {
        Some(config) => config.sections.pair_at(app.0 as usize).0.as_slice(),
        None => b"",
    }
}

#[tactic(auto, unfolding(crate::specs::Texts::scene_text))]
fn scene_text(
    alloc: Global,
    config: Option<&Config>,
    fault: SceneFault,
) -> Result<Vec<u8>, NoMemory>
    requires { IsOfConfig (option_copied config) fault }
    ensures { IfOk result (λ text. text.items ≡ scene_text (option_copied config.entry) fault) }
{
    match fault {
        SceneFault::StopMissing => Ok(Vec::from_slice(alloc, b"StopMissing")?),
        SceneFault::StopText => Ok(Vec::from_slice(alloc, b"StopText")?),
        SceneFault::App { app, kind } => {
            let mut text = Vec::from_slice(alloc, b"application ")?;
            text.extend_from_slice(app_name(config, app))?;
            text.extend_from_slice(b": ")?;
            text.extend_from_slice(&app_text(alloc, kind)?)?;
            Ok(text)
        }
    }
}

/// The line that names the stop or an application and its fault.
fn scene_line(
    alloc: Global,
    config: Option<&Config>,
    fault: SceneFault,
) -> Result<Vec<u8>, NoMemory>
    requires { IsOfConfig (option_copied config) fault }
    ensures { IfOk result (λ text. text.items ≡ ended (codes "scene fault: " ++ scene_text (option_copied config.entry) fault)) }
{
    let mut text = Vec::from_slice(alloc, b"scene fault: ")?;
    text.extend_from_slice(&scene_text(alloc, config, fault)?)?;
    text.extend_from_slice(b"\n")?;
    Ok(text)
}

fn link_kind_name(kind: LinkKind) -> &'static [u8]
    ensures { result.now ≡ link_kind_name kind }
{
    match kind {
        LinkKind::UnknownApp => b"UnknownApp",
        LinkKind::UnknownPort => b"UnknownPort",
        LinkKind::Direction => b"Direction",
        LinkKind::Kind => b"Kind",
        LinkKind::Width => b"Width",
        LinkKind::Unmapped => b"Unmapped",
        LinkKind::PairTwice => b"PairTwice",
        LinkKind::ContTwice => b"ContTwice",
    }
}

/// The line that names a connection, by its place from 1, and its fault.
#[tactic(auto, unfolding(crate::specs::Texts::link_text))]
fn link_text(alloc: Global, link: LinkId, kind: LinkKind) -> Result<Vec<u8>, NoMemory>
    ensures { IfOk result (λ text. text.items ≡ link_text link kind) }
{
    let place = u64::from(link.0) + 1;
    let mut text = at_place(
        alloc,
        b"link fault: connection ",
        place,
        link_kind_name(kind),
    )?;
    text.extend_from_slice(b"\n")?;
    Ok(text)
}

/// The names of the sections, in their order.
fn names_in(alloc: Global, sections: &Sections) -> Result<Vec<&[u8]>, NoMemory>
    ensures { IfOk result (λ names. map (λ name. name.now) names.items ≡ names_in sections.now) }
{
    let mut names = Vec::new(alloc);
    for place in 0..sections.len() {
        let (name, _) = sections.pair_at(place);
        names.push(name.as_slice())?;
    }
    Ok(names)
}

/// The text of a cycle that is not covered, with the names of the sections, which are those of the applications.
fn uncovered_text(
    alloc: Global,
    config: Option<&Config>,
    cycle: &Cycle,
) -> Result<Vec<u8>, NoMemory>
    requires { HasCycleText (length (app_names (option_copied config))) cycle.now.0.items }
    ensures { IfOk result (λ text. text.items ≡ cycle_text (app_names (option_copied config.entry)) cycle.now.0.items) }
{
    let names = match config {
        Some(config) => names_in(alloc, &config.sections)?,
        None => Vec::new(alloc),
    };
    write_cycle(alloc, &names, cycle)
}

/// The text of a fault: one line with its end, and of a cycle a head, a line for each wait, and a line of the two sums.
/// Lines, ports, rules and connections are counted from 1, and an application is named as its section in the
/// configuration is. It has to stand there, and neither the fault nor a fault of ports or rules in it may be want of memory.
/// The waits of a cycle are between applications that stand there, their numbers are within 10^30 of zero, and there are
/// at most 64.
#[tactic(auto, unfolding(crate::specs::Texts::text_of_fault))]
pub fn fault_text(
    alloc: Global,
    config: Option<&Config>,
    fault: &SetupFault,
) -> Result<Vec<u8>, NoMemory>
    requires { HasText (option_copied config) fault.now }
    ensures { IfOk result (λ text. text.items ≡ text_of_fault (option_copied config.entry) fault.now) }
{
    match fault {
        SetupFault::Text { line, kind } => text_fault(alloc, *line, *kind),
        SetupFault::Scene(fault) => scene_line(alloc, config, *fault),
        SetupFault::Link { link, kind } => link_text(alloc, *link, *kind),
        SetupFault::Uncovered(cycle) => uncovered_text(alloc, config, cycle),
        SetupFault::Memory => Ok(Vec::new(alloc)),
    }
}
