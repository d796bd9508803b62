ghost use Rattle.std.specs.Prelude.{◌≡◌, ◌==◌, [], ◌∷◌, IfOk, true};
ghost use Rattle.std.specs.Cmp.Lexicographic.{pointwise};
ghost use Rattle.std.specs.Cmp.Rules.{comparing, hashing};
ghost use Rattle.std.specs.List.{list_all};
ghost use Rattle.std.proofs.Common.{rules};
ghost use Rattle.music_base.specs.Names.{is_name, begins_name, is_in_names};
ghost use Rattle.music_base.specs.Held.{name_bytes};

use crate::short_bytes::ShortBytes;
use crate::{NoMemory, TryCopy};
use std::alloc::Global;
use std::hash::{Hash, Hasher};
use std::marker::Model;

// The bytes of a name: up to 14 in the value itself, and more in memory of their own.
#[derive(Debug, Drop)]
enum NameBytes {
    Short(ShortBytes<14>),
    Long(Box<Vec<u8>>),
}

#[inline(always)]
fn name_bytes(alloc: Global, bytes: &[u8]) -> Result<NameBytes, NoMemory>
    ensures { IfOk result (λ held. name_bytes held ≡ bytes.now) }
{
    match ShortBytes::from_slice(bytes) {
        Some(short) => Ok(NameBytes::Short(short)),
        None => {
            let long = Vec::from_slice(alloc, bytes)?;
            Ok(NameBytes::Long(Box::new(alloc, long)?))
        }
    }
}

/// The name of an application, a port or a setting: 1 to 64 letters, digits and `_`, of which the first is no digit.
/// Contracts see its bytes.
#[derive(Debug, Drop)]
pub struct Name {
    bytes: NameBytes,
}

impl Model for Name {
    ghost use Rattle.std.specs.Prelude.{List, ℕ, ◌≡◌, true};
    ghost use Rattle.music_base.specs.Names.{is_name};
    ghost use Rattle.music_base.specs.Held.{name_bytes};

    ghost Value = { List ℕ };

    ghost view = { λ name. name_bytes name.bytes };

    ghost invariant = { λ name. is_name (name_bytes name.bytes) ≡ true };
}

fn begins_name(byte: u8) -> bool
    ensures { result ≡ begins_name byte }
{
    byte.is_ascii_alphabetic() || byte == b'_'
}

fn is_in_names(byte: u8) -> bool
    ensures { result ≡ is_in_names byte }
{
    byte.is_ascii_alphanumeric() || byte == b'_'
}

fn are_in_names(bytes: &[u8]) -> bool
    ensures { result ≡ list_all is_in_names bytes.now }
{
    bytes.iter().all(|b| is_in_names(*b))
}

/// Whether the bytes are a name.
pub fn is_name(bytes: &[u8]) -> bool
    ensures { result ≡ is_name bytes.now }
{
    1 <= bytes.len() && bytes.len() <= 64 && begins_name(bytes[0]) && are_in_names(bytes)
}

impl Name {
    /// The name of these bytes, which `is_name` has to have found to be one.
    #[inline(always)]
    pub fn from_slice(alloc: Global, bytes: &[u8]) -> Result<Name, NoMemory>
        requires { is_name bytes.now ≡ true }
        ensures { IfOk result (λ name. name ≡ bytes.now) }
    {
        let bytes = name_bytes(alloc, bytes)?;
        Ok(Name { bytes })
    }

    pub fn as_slice(&self) -> &[u8]
        ensures bytes { result.now ≡ self.now }
        ensures name { is_name self.now ≡ true }
    {
        match &self.bytes {
            NameBytes::Short(bytes) => bytes.as_slice(),
            NameBytes::Long(bytes) => bytes.as_slice(),
        }
    }
}

impl TryCopy for Name {
    fn copy(&self, alloc: Global) -> Result<Name, NoMemory> {
        Name::from_slice(alloc, self.as_slice())
    }
}

impl PartialEq for Name {
    ghost eq = { pointwise ◌==◌ };

    ghost laws = { Prim.search (comparing, rules) };

    fn eq(&self, other: &Name) -> bool {
        self.as_slice() == other.as_slice()
    }
}

impl Eq for Name {
    ghost laws = { Prim.search (comparing, rules) };
}

impl Hash for Name {
    ghost hash_input = { λ name. name ∷ [] };

    ghost respects_eq = { Prim.search (hashing, rules) };

    fn hash<H: Hasher>(&self, state: &mut H) {
        state.write(self.as_slice());
    }
}
