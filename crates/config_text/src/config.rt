ghost use Rattle.std.specs.Prelude.{◌<◌, ◌≡◌, [], length};
ghost use Rattle.std.specs.Option.{option_copied};
ghost use Rattle.config_text.specs.Lookup.{looked_up};

use crate::{Links, Sections, Settings};
use music_base::{Name, NoMemory, Word};
use std::alloc::Global;

/// A configuration: default settings, sections with settings of their own, and connections.
#[derive(Drop)]
pub struct Config {
    pub defaults: Settings,
    pub sections: Sections,
    pub links: Links,
}

impl Config {
    /// The configuration of the empty text. It takes no memory.
    pub fn new(alloc: Global) -> Config
        ensures { result ≡ record { defaults = []; sections = []; links = [] } }
    {
        Config {
            defaults: Settings::new(alloc),
            sections: Sections::new(alloc),
            links: Links::new(alloc),
        }
    }
}

/// The value of a setting of a section: the section's own, else the default. The section is given by its place, from 0.
/// A section has to stand there.
pub fn lookup<'a>(config: &'a Config, section: u32, name: &Name) -> Option<&'a Word>
    requires { section < length config.now.sections }
    ensures { option_copied result ≡ looked_up config.now section name.now }
{
    let (_, settings) = config.sections.pair_at(section as usize);
    match settings.get(name) {
        Some(value) => Some(value),
        None => config.defaults.get(name),
    }
}
