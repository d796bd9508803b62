//! The settings of a made configuration.
ghost use Rattle.std.specs.Prelude.{◌≡◌, ◌≤◌, ◌<◌, IfOk, OnOk, true};
ghost use Rattle.indexmap.specs.IndexMap.{insert_entry};
ghost use Rattle.music_base.specs.Names.{is_name};
ghost use Rattle.config_text.specs.Pairs.{same_name};
ghost use Rattle.config_text.specs.Parts.{is_value};
ghost use Rattle.scene_make.specs.Made.{app_settings, default_settings, rules_text};

use config_text::Settings;
use music_base::{Name, Nanos, NoMemory, Word, write_time};
use std::alloc::Global;

/// The ports of each application.
const PORTS: &[u8] =
    b"out event out split:0+100; in event in split:0+100 latency 0.01; out cont c split:0+4; in cont d split:0+4 delay 0.01";

/// The rules of an application, by its place. It emits events whose index is its place.
fn rules_text(alloc: Global, place: u32) -> Result<Word, NoMemory>
    ensures { IfOk result (λ word. word ≡ rules_text place) }
{
    let text = format!(in alloc;
        "emit out {place} every 0.002 from 0.0005; pass in to out shift 10 after 0; copy d to c scale 1/2 add 0.25; ramp c 0 from 0 by 0.001"
    )?;
    Word::from_slice(alloc, text.as_bytes())
}

/// Gives a setting its value.
fn set(alloc: Global, settings: &mut Settings, name: &[u8], value: &[u8]) -> Result<(), NoMemory>
    requires name { is_name name.now ≡ true }
    requires value { is_value value.now ≡ true }
    ensures { OnOk result (settings.new ≡ insert_entry same_name settings.old name.now value.now) }
{
    let value = Word::from_slice(alloc, value)?;
    settings.insert(Name::from_slice(alloc, name)?, value)?;
    Ok(())
}

/// The settings before the first section.
#[tactic(auto, using(crate::proofs::Spelled::stop_is_value))]
pub fn default_settings(alloc: Global, number: u32) -> Result<Settings, NoMemory>
    ensures { IfOk result (λ settings. settings ≡ default_settings number) }
{
    let stop = Nanos(u64::from(1 + number % 5) * 1_000_000_000);
    let stoptime = write_time(alloc, stop)?;
    let mut settings = Settings::new(alloc);
    set(alloc, &mut settings, b"stoptime", stoptime.as_slice())?;
    set(alloc, &mut settings, b"binary", b"script")?;
    Ok(settings)
}

/// The settings of an application, by its place.
#[tactic(auto, using(crate::proofs::Spelled::np_is_value, crate::proofs::Spelled::tick_is_value, crate::proofs::Spelled::rules_are_value))]
pub fn app_settings(alloc: Global, number: u32, place: u32) -> Result<Settings, NoMemory>
    requires number { number ≤ 9_999 }
    requires place { place < 8 }
    ensures { IfOk result (λ settings. settings ≡ app_settings number place) }
{
    let ranks = format!(in alloc; "{}", 1 + (number + place) % 2)?;
    let tick = Nanos(u64::from(1 + (number + place) % 3) * 1_000_000);
    let timestep = write_time(alloc, tick)?;
    let rules = rules_text(alloc, place)?;
    let mut settings = Settings::new(alloc);
    set(alloc, &mut settings, b"np", ranks.as_bytes())?;
    set(alloc, &mut settings, b"timestep", timestep.as_slice())?;
    set(alloc, &mut settings, b"ports", PORTS)?;
    set(alloc, &mut settings, b"args", rules.as_slice())?;
    Ok(settings)
}
