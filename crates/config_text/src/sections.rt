ghost use Rattle.std.specs.Prelude.{◌≡◌, ◌==◌, [], ◌∷◌, ◌++◌, ◌-◌, length, slice_get, IfOk, OnOk, OnErr, IfSome, ◌<◌, is_some, not, Some, None, true};
ghost use Rattle.std.specs.Option.{option_copied};
ghost use Rattle.indexmap.specs.IndexMap.{insert_entry, set_value_at};
ghost use Rattle.config_text.specs.Pairs.{value_of, same_name, last_value, onto_last};
ghost use Rattle.config_text.specs.Lawful.{are_sections, are_settings};
ghost use Rattle.config_text.specs.Parts.{is_value};

use crate::Settings;
use indexmap::IndexMap;
use music_base::{Name, NoMemory, Word};
use std::alloc::Global;
use std::marker::Model;

/// Sections in the order of the text: at most 32, and no name stands twice. Contracts see a list of names and settings.
#[derive(Drop)]
pub struct Sections {
    entries: IndexMap<Name, Settings>,
}

impl Model for Sections {
    ghost use Rattle.std.specs.Prelude.{List, ℕ, ◌≡◌, true};
    ghost use Rattle.config_text.specs.Lawful.{are_sections};

    ghost Value = { List (List ℕ × List (List ℕ × List ℕ)) };

    ghost view = { λ s. s.entries.entries };

    ghost invariant = { λ s. are_sections s.entries.entries ≡ true };
}

impl Sections {
    /// No section. It takes no memory.
    pub fn new(alloc: Global) -> Sections
        ensures { result ≡ [] }
    {
        Sections {
            entries: IndexMap::new(alloc),
        }
    }

    pub fn len(&self) -> usize
        ensures len { result ≡ length self.now }
        ensures lawful { are_sections self.now ≡ true }
    {
        self.entries.len()
    }

    pub fn is_empty(&self) -> bool
        ensures { result ≡ (length self.now == 0) }
    {
        self.entries.is_empty()
    }

    /// Whether the name stands among them.
    pub fn contains(&self, name: &Name) -> bool
        ensures { result ≡ is_some (value_of self.now name.now) }
    {
        self.entries.contains_key(name)
    }

    /// The name and the settings at a place, from 0, at which a section stands.
    pub fn pair_at(&self, place: usize) -> (&Name, &Settings)
        requires { place < length self.now }
        ensures { slice_get self.now place ≡ Some (result.0.now, result.1.now) }
    {
        match self.entries.get_index(place) {
            Some(pair) => pair,
            None => unreachable!(),
        }
    }

    /// Appends a section of a new name, where there are fewer than 32. Where memory is wanting the sections stay as they
    /// were.
    pub fn push(&mut self, name: Name, settings: Settings) -> Result<(), NoMemory>
        requires absent { value_of self.old name ≡ None }
        requires room { length self.old < 32 }
        ensures ok { OnOk result (self.new ≡ self.old ++ (name, settings) ∷ []) }
        ensures err { OnErr result (self.new ≡ self.old) }
    {
        // Their types keep that this is a name, and that these are lawful settings.
        let _name = name.as_slice();
        let _settings = settings.len();
        self.entries.insert(name, settings)?;
        Ok(())
    }
}

impl Sections {
    /// Appends a setting of a new name to the last section, or gives a name that stands there this value. The answer is
    /// whether the name is new there. Where memory is wanting the sections stay as they were.
    pub(crate) fn insert_setting(&mut self, name: Name, value: Word) -> Result<bool, NoMemory>
        requires some { 0 < length self.old }
        requires value { is_value value ≡ true }
        ensures fresh { IfOk result (λ fresh. IfSome (last_value self.old) (λ settings. fresh ≡ not (is_some (value_of settings name)))) }
        ensures entries { OnOk result (IfSome (last_value self.old) (λ settings. self.new ≡ set_value_at self.old (length self.old - 1) (insert_entry same_name settings name value))) }
        ensures err { OnErr result (self.new ≡ self.old) }
    {
        match self.entries.last_mut() {
            None => unreachable!(),
            Some(settings) => settings.insert(name, value),
        }
    }

    /// Gives back the memory that the last section keeps for further settings.
    pub(crate) fn shrink_last(&mut self)
        ensures { self.new ≡ self.old }
    {
        if let Some(settings) = self.entries.last_mut() {
            settings.shrink_to_fit();
        }
    }
}
