//! What the settings of an application say, but for its ports and rules.
ghost use Rattle.std.specs.Prelude.{◌≡◌, ◌<◌, ◌≤◌, ◌&&◌, true, length, nat_le, IfOk, IfSome};
ghost use Rattle.std.specs.Option.{option_copied};
ghost use Rattle.std.specs.Int.{is_in_range};
ghost use Rattle.music_base.specs.Names.{is_name};
ghost use Rattle.config_text.specs.Lookup.{looked_up};
ghost use Rattle.config_text.specs.Pairs.{value_of};
ghost use Rattle.scene_model.specs.Limits.{most_ranks};
ghost use Rattle.music_setup.specs.Apps.{end_in, is_script, np_in, start_in, stop_in, tick_in};

use crate::SceneFault;
use config_text::{Config, lookup};
use music_base::{Name, Nanos, NoMemory, Word, count_up_to};
use scene_model::{LONGEST_TICK, MOST_RANKS};
use std::alloc::Global;
use text_words::{is_key, time_in};

/// The setting of an application, by its name: the section's own, else the default.
pub fn setting<'a>(
    alloc: Global,
    config: &'a Config,
    app: u32,
    name: &[u8],
) -> Result<Option<&'a Word>, NoMemory>
    requires app { app < length config.now.sections }
    requires name { is_name name.now ≡ true }
    ensures { IfOk result (λ text. option_copied text ≡ looked_up config.now app name.now) }
{
    let name = Name::from_slice(alloc, name)?;
    Ok(lookup(config, app, &name))
}

/// The number of processes: 1 to 64, and 1 where the setting is absent.
#[tactic(auto, unfolding(crate::specs::Apps::np_in))]
pub fn np_in(text: Option<&Word>) -> Option<u32>
    ensures np { result ≡ np_in (option_copied text.entry) }
    ensures least { IfSome result (λ np. 1 ≤ np) }
    ensures most { IfSome result (λ np. np ≤ most_ranks) }
{
    let Some(text) = text else {
        return Some(1);
    };
    let np = count_up_to(MOST_RANKS, text.as_slice())?;
    if 1 <= np { Some(np) } else { None }
}

/// Whether the application is a script of rules.
#[tactic(auto, unfolding(crate::specs::Apps::is_script))]
pub fn is_script(text: Option<&Word>) -> bool
    ensures { result ≡ is_script (option_copied text.entry) }
{
    match text {
        Some(text) => is_key(text.as_slice(), b"script"),
        None => false,
    }
}

/// The tick: 1 to 10^12 ns.
#[tactic(auto, unfolding(crate::specs::Apps::tick_in))]
pub fn tick_in(text: Option<&Word>) -> Option<Nanos>
    ensures tick { result ≡ tick_in (option_copied text.entry) }
    ensures least { IfSome result (λ tick. 1 ≤ tick) }
{
    let tick = time_in(text?.as_slice())?;
    if 1 <= tick.0 && tick.0 <= LONGEST_TICK {
        Some(tick)
    } else {
        None
    }
}

/// The start of an application: a time, and 0 ns where the setting is absent.
#[tactic(auto, unfolding(crate::specs::Apps::start_in))]
pub fn start_in(text: Option<&Word>) -> Option<Nanos>
    ensures { result ≡ start_in (option_copied text.entry) }
{
    match text {
        Some(text) => time_in(text.as_slice()),
        None => Some(Nanos(0)),
    }
}

/// The stop of an application: a time, and that of the scene where the setting is absent.
#[tactic(auto, unfolding(crate::specs::Apps::end_in))]
pub fn end_in(stop: Nanos, text: Option<&Word>) -> Option<Nanos>
    ensures { result ≡ end_in stop (option_copied text.entry) }
{
    match text {
        Some(text) => time_in(text.as_slice()),
        None => Some(stop),
    }
}

/// The stop of the scene: a time. The setting has to stand.
#[tactic(auto, unfolding(crate::specs::Apps::stop_in))]
pub fn stop_in(text: Option<&Word>) -> Result<Nanos, SceneFault>
    ensures { result ≡ stop_in (option_copied text.entry) }
{
    let Some(text) = text else {
        return Err(SceneFault::StopMissing);
    };
    time_in(text.as_slice()).ok_or(SceneFault::StopText)
}
