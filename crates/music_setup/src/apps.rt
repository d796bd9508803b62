//! The stop and the applications of a configuration.
ghost use Rattle.std.specs.Prelude.{◌≡◌, ◌<◌, ◌≤◌, true, length, nat_le, IfOk, IfErr};
ghost use Rattle.std.specs.Option.{option_copied};
ghost use Rattle.config_text.specs.Pairs.{value_of};
ghost use Rattle.scene_model.specs.Limits.{most_ranks, most_steps};
ghost use Rattle.scene_model.specs.Ports.{names_differ};
ghost use Rattle.music_base.specs.Times.{greatest_time};
ghost use Rattle.scene_model.specs.Faults.{AreApps};
ghost use Rattle.music_setup.specs.Apps.{app_in, apps_of, apps_until, np_of, parts_in, ports_in, rules_in, span_of, stop_of, times_of};
ghost use Rattle.music_setup.specs.Faults.{IsAppFault, IsSceneFault};

use crate::fault::AppFault;
use crate::settings::{end_in, is_script, np_in, setting, start_in, stop_in, tick_in};
use crate::times::{Times, steps_in};
use crate::values::has_few_values;
use crate::{AppKind, SceneFault, SetupFault};
use app_scripts::read_rules;
use config_text::Config;
use music_base::{AppId, Items, Name, Nanos, TryCopy, Word};
use port_table::read_ports;
use scene_model::{AppDecl, MOST_STEPS, PortDecl, Rule};
use std::alloc::Global;

/// The ports of an application of `np` processes.
#[tactic(auto, using(crate::proofs::OfApps::ports_fault))]
fn ports_in(alloc: Global, np: u32, text: Option<&Word>) -> Result<Items<PortDecl>, AppFault>
    requires least { 1 ≤ np }
    requires most { np ≤ most_ranks }
    ensures ports { IfOk result (λ ports. ports_in np (option_copied text.entry) ≡ Ok ports) }
    ensures differ { IfOk result (λ ports. names_differ ports ≡ true) }
    ensures fault { IfErr result (IsAppFault (ports_in np (option_copied text.entry))) }
{
    let none = Word::new();
    let ports = read_ports(alloc, text.unwrap_or(&none), np)?;
    Ok(ports)
}

/// The rules of an application of these ports that runs at these times.
#[tactic(auto, using(crate::proofs::OfApps::rules_fault))]
fn rules_in(
    alloc: Global,
    ports: &[PortDecl],
    times: Times,
    text: Option<&Word>,
) -> Result<Items<Rule>, AppFault>
    requires tick { 1 ≤ times.tick }
    requires names { names_differ ports.now ≡ true }
    ensures rules { IfOk result (λ rules. rules_in ports.now times.tick (span_of times) (option_copied text.entry) ≡ Ok rules) }
    ensures fault { IfErr result (IsAppFault (rules_in ports.now times.tick (span_of times) (option_copied text.entry))) }
{
    let none = Word::new();
    let rules = read_rules(
        alloc,
        text.unwrap_or(&none),
        ports,
        times.start,
        times.tick,
        times.stop,
    )?;
    Ok(rules)
}

/// Whether an application may make so many steps.
fn are_few(steps: u64) -> bool
    ensures { result ≡ nat_le steps most_steps }
{
    steps <= MOST_STEPS
}

/// The number of processes of the application of the section at this place.
#[tactic(auto, unfolding(crate::specs::Apps::np_of))]
fn read_np(alloc: Global, config: &Config, place: u32) -> Result<u32, AppFault>
    requires { place < length config.now.sections }
    ensures np { IfOk result (λ np. np_of config.now place ≡ Ok np) }
    ensures least { IfOk result (λ np. 1 ≤ np) }
    ensures most { IfOk result (λ np. np ≤ most_ranks) }
    ensures fault { IfErr result (IsAppFault (np_of config.now place)) }
{
    let text = setting(alloc, config, place, b"np")?;
    np_in(text).ok_or(AppFault::Kind(AppKind::NpText))
}

/// When the application of the section at this place runs. It has to be a script of few enough steps.
#[tactic(auto, unfolding(crate::specs::Apps::times_of))]
fn read_times(alloc: Global, config: &Config, stop: Nanos, place: u32) -> Result<Times, AppFault>
    requires { place < length config.now.sections }
    ensures times { IfOk result (λ times. times_of config.now stop place ≡ Ok times) }
    ensures least { IfOk result (λ times. 1 ≤ times.tick) }
    ensures fault { IfErr result (IsAppFault (times_of config.now stop place)) }
{
    if !is_script(setting(alloc, config, place, b"binary")?) {
        return Err(AppFault::Kind(AppKind::Binary));
    }
    let Some(tick) = tick_in(setting(alloc, config, place, b"timestep")?) else {
        return Err(AppFault::Kind(AppKind::TickText));
    };
    let Some(start) = start_in(setting(alloc, config, place, b"start")?) else {
        return Err(AppFault::Kind(AppKind::StartText));
    };
    let Some(end) = end_in(stop, setting(alloc, config, place, b"stoptime")?) else {
        return Err(AppFault::Kind(AppKind::EndText));
    };
    let times = Times {
        start,
        stop: end,
        tick,
    };
    if !are_few(steps_in(times)) {
        return Err(AppFault::Kind(AppKind::TooManySteps));
    }
    Ok(times)
}

/// The ports and the rules of the application of the section at this place.
#[tactic(auto, unfolding(crate::specs::Apps::parts_in), using(crate::proofs::OfApps::fault_goes_on))]
fn read_parts(
    alloc: Global,
    config: &Config,
    place: u32,
    np: u32,
    times: Times,
) -> Result<(Items<PortDecl>, Items<Rule>), AppFault>
    requires place { place < length config.now.sections }
    requires least { 1 ≤ np }
    requires most { np ≤ most_ranks }
    requires tick { 1 ≤ times.tick }
    ensures parts { IfOk result (λ parts. parts_in config.now place np times ≡ Ok (parts.0, parts.1)) }
    ensures fault { IfErr result (IsAppFault (parts_in config.now place np times)) }
{
    let ports = ports_in(alloc, np, setting(alloc, config, place, b"ports")?)?;
    let args = setting(alloc, config, place, b"args")?;
    let rules = rules_in(alloc, ports.as_slice(), times, args)?;
    if !has_few_values(steps_in(times), ports.as_slice()) {
        return Err(AppFault::Kind(AppKind::TooManyValues));
    }
    Ok((ports, rules))
}

/// The application of the section at this place, whose name this is.
#[tactic(auto, unfolding(crate::specs::Apps::app_in), using(crate::proofs::OfApps::fault_goes_on))]
fn read_app(
    alloc: Global,
    config: &Config,
    stop: Nanos,
    place: u32,
    name: &Name,
) -> Result<AppDecl, AppFault>
    requires { place < length config.now.sections }
    ensures app { IfOk result (λ app. app_in config.now stop place name.now ≡ Ok app) }
    ensures fault { IfErr result (IsAppFault (app_in config.now stop place name.now)) }
{
    let np = read_np(alloc, config, place)?;
    let times = read_times(alloc, config, stop, place)?;
    let Times { start, stop, tick } = times;
    let (ports, rules) = read_parts(alloc, config, place, np, times)?;
    let name = name.copy(alloc)?;
    Ok(AppDecl {
        name,
        np,
        start,
        stop,
        tick,
        ports,
        rules,
    })
}

/// The applications of the sections, one for each, in the order of the text.
#[tactic(auto, using(crate::proofs::OfApps::few_sections))]
fn apps_until(alloc: Global, config: &Config, stop: Nanos) -> Result<Items<AppDecl>, SetupFault>
    requires { stop ≤ greatest_time }
    ensures apps { IfOk result (λ apps. apps_until config.now stop ≡ Ok apps) }
    ensures lawful { IfOk result AreApps }
    ensures fault { IfErr result (IsSceneFault (apps_until config.now stop)) }
{
    let mut apps = Items::new(alloc);
    for place in 0..config.sections.len() as u32 {
        let (name, _) = config.sections.pair_at(place as usize);
        match read_app(alloc, config, stop, place, name) {
            Ok(app) => apps.push(app)?,
            Err(AppFault::Kind(kind)) => {
                let app = AppId(place);
                return Err(SetupFault::Scene(SceneFault::App { app, kind }));
            }
            Err(AppFault::NoMemory) => return Err(SetupFault::Memory),
        }
    }
    Ok(apps)
}

/// The stop of the scene, which has to stand among the defaults.
#[tactic(auto, using(crate::proofs::Faultless::stop_early))]
fn stop_of(alloc: Global, config: &Config) -> Result<Nanos, SetupFault>
    ensures stop { IfOk result (λ stop. stop_of config.now ≡ Ok stop) }
    ensures early { IfOk result (λ stop. stop ≤ greatest_time) }
    ensures fault { IfErr result (IsSceneFault (stop_of config.now)) }
{
    let name = Name::from_slice(alloc, b"stoptime")?;
    match stop_in(config.defaults.get(&name)) {
        Ok(stop) => Ok(stop),
        Err(fault) => Err(SetupFault::Scene(fault)),
    }
}

/// The stop of a configuration, in ns, and its applications in the order of the text, each with its times, ports and rules.
#[tactic(auto, unfolding(crate::specs::Apps::apps_of))]
pub fn read_apps(alloc: Global, config: &Config) -> Result<(Nanos, Items<AppDecl>), SetupFault>
    ensures apps { IfOk result (λ read. apps_of config.now ≡ Ok (read.0, read.1)) }
    ensures early { IfOk result (λ read. read.0 ≤ greatest_time) }
    ensures lawful { IfOk result (λ read. AreApps read.1) }
    ensures fault { IfErr result (IsSceneFault (apps_of config.now)) }
{
    let stop = stop_of(alloc, config)?;
    let apps = apps_until(alloc, config, stop)?;
    Ok((stop, apps))
}
