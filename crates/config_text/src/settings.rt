ghost use Rattle.std.specs.Prelude.{◌≡◌, ◌==◌, [], ◌∷◌, ◌++◌, length, slice_get, IfOk, OnOk, OnErr, ◌<◌, is_some, not, Some, None, true};
ghost use Rattle.std.specs.Option.{option_copied};
ghost use Rattle.indexmap.specs.IndexMap.{insert_entry};
ghost use Rattle.config_text.specs.Pairs.{value_of, same_name};
ghost use Rattle.config_text.specs.Lawful.{are_settings};
ghost use Rattle.config_text.specs.Parts.{is_value};

use indexmap::IndexMap;
use music_base::{Name, NoMemory, Word};
use std::alloc::Global;
use std::marker::Model;

/// Settings in the order of the text: no name stands twice, and values hold tabs and 0x20 to 0x7E without a quotation
/// mark. Contracts see a list of names and values.
#[derive(Drop)]
pub struct Settings {
    entries: IndexMap<Name, Word>,
}

impl Model for Settings {
    ghost use Rattle.std.specs.Prelude.{List, ℕ, ◌≡◌, true};
    ghost use Rattle.config_text.specs.Lawful.{are_settings};

    ghost Value = { List (List ℕ × List ℕ) };

    ghost view = { λ s. s.entries.entries };

    ghost invariant = { λ s. are_settings s.entries.entries ≡ true };
}

impl Settings {
    /// No setting. It takes no memory.
    pub fn new(alloc: Global) -> Settings
        ensures { result ≡ [] }
    {
        Settings {
            entries: IndexMap::new(alloc),
        }
    }

    pub fn len(&self) -> usize
        ensures len { result ≡ length self.now }
        ensures lawful { are_settings self.now ≡ true }
    {
        self.entries.len()
    }

    /// The value of the name, where it stands among them.
    pub fn get(&self, name: &Name) -> Option<&Word>
        ensures { option_copied result ≡ value_of self.now name.now }
    {
        self.entries.get(name)
    }

    /// The name and the value at a place, from 0, at which a setting stands.
    pub fn pair_at(&self, place: usize) -> (&Name, &Word)
        requires { place < length self.now }
        ensures { slice_get self.now place ≡ Some (result.0.now, result.1.now) }
    {
        match self.entries.get_index(place) {
            Some(pair) => pair,
            None => unreachable!(),
        }
    }
}

impl Settings {
    /// Appends a setting of a new name, or gives a name that stands among them this value. The answer is whether the name
    /// is new. Where memory is wanting the settings stay as they were.
    pub fn insert(&mut self, name: Name, value: Word) -> Result<bool, NoMemory>
        requires { is_value value ≡ true }
        ensures fresh { IfOk result (λ fresh. fresh ≡ not (is_some (value_of self.old name))) }
        ensures entries { OnOk result (self.new ≡ insert_entry same_name self.old name value) }
        ensures err { OnErr result (self.new ≡ self.old) }
        ensures lawful { are_settings self.new ≡ true }
    {
        // Its type keeps that it is a name.
        let _name = name.as_slice();
        let old = self.entries.insert(name, value)?;
        Ok(old.is_none())
    }

    /// Gives back the memory that was kept for further settings.
    pub(crate) fn shrink_to_fit(&mut self)
        ensures { self.new ≡ self.old }
    {
        self.entries.shrink_to_fit();
    }
}
