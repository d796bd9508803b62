ghost use Rattle.std.specs.Prelude.{◌≡◌};
ghost use Rattle.app_scripts.specs.declared.fault.RuleFault.TheVariants.{Memory};

use music_base::NoMemory;

/// Why a text spells no rules for an application: its first faulty rule, by its place from 1, and the first of its
/// faults in this order.
#[derive(Clone, Copy, Debug, PartialEq, Eq)]
pub enum RuleFault {
    /// The rule has none of the nine forms, or is one too many.
    RuleText { place: u32 },
    /// A port that it names is absent, or of another direction or kind.
    RulePort { place: u32 },
    /// An index that it states is mapped by no rank of its port.
    RuleIndex { place: u32 },
    /// It passes on a tick later, or later still.
    RuleAfter { place: u32 },
    /// Its period is 0, or the whole run holds more than 1,000,000 of it.
    RuleRate { place: u32 },
    /// Memory was asked for and not found.
    Memory,
}

impl From<NoMemory> for RuleFault {
    ghost from_gives = { λ _ e. e ≡ Memory };

    fn from(_: NoMemory) -> RuleFault {
        RuleFault::Memory
    }
}
