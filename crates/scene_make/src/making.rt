//! Making a configuration from a number.
ghost use Rattle.std.specs.Prelude.{◌≡◌, ◌≤◌, IfOk, map, true};
ghost use Rattle.music_base.specs.Numbers.{below};
ghost use Rattle.config_text.specs.Canon.{is_lawful_config};
ghost use Rattle.scene_make.specs.Made.{made, section_of};

use crate::ring::{app_name, ring_links};
use crate::settings::{app_settings, default_settings};
use config_text::{Config, Sections};
use music_base::NoMemory;
use std::alloc::Global;

/// The first so many applications that a number gives, each with its settings.
#[tactic(auto, using(crate::proofs::Spelled::name_is_new))]
fn sections(alloc: Global, number: u32, count: u32) -> Result<Sections, NoMemory>
    requires number { number ≤ 9_999 }
    requires count { count ≤ 8 }
    ensures { IfOk result (λ sections. sections ≡ map (section_of number) (below count)) }
{
    let mut sections = Sections::new(alloc);
    for place in 0..count {
        sections.push(app_name(alloc, place)?, app_settings(alloc, number, place)?)?;
    }
    Ok(sections)
}

/// The configuration that is made from a number n of at most 9,999: the applications `a0`, `a1` and so on, 2 + n mod 7 of
/// them, and two connections from each to the next one and from the last to the first, one of events and one of values.
/// They stop at 1 + n mod 5 seconds. Application i has 1 + (n + i) mod 2 ranks and a tick of 1 + (n + i) mod 3
/// milliseconds.
#[tactic(auto, unfolding(crate::specs::Made::made, config_text::specs::Canon::is_lawful_config))]
pub fn make(alloc: Global, number: u32) -> Result<Config, NoMemory>
    requires { number ≤ 9_999 }
    ensures config { IfOk result (λ config. config ≡ made number) }
    ensures lawful { IfOk result (λ config. is_lawful_config config ≡ true) }
{
    let count = 2 + number % 7;
    let defaults = default_settings(alloc, number)?;
    let sections = sections(alloc, number, count)?;
    let links = ring_links(alloc, count)?;
    // Their types keep that these are lawful.
    let _defaults = defaults.len();
    let _sections = sections.len();
    let _links = links.as_slice();
    Ok(Config {
        defaults,
        sections,
        links,
    })
}
