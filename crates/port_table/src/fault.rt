ghost use Rattle.std.specs.Prelude.{◌≡◌};
ghost use Rattle.port_table.specs.declared.fault.PortFault.TheVariants.{Memory};

use music_base::NoMemory;

/// Why a text declares no ports: the fault of the first faulty declaration, with its place, from 1.
#[derive(Clone, Copy, Debug, PartialEq, Eq)]
pub enum PortFault {
    /// The declaration has not the form, has the name of an earlier one, or is one too many.
    PortText { place: u32 },
    /// The list of some rank has an index twice: the one that `permutation` names for the first such rank.
    MapRepeated { place: u32, index: u32 },
    /// Two ranks of an output map the same index: the least such index.
    OutputTwice { place: u32, index: u32 },
    /// Memory was asked for and not found.
    Memory,
}

impl From<NoMemory> for PortFault {
    ghost from_gives = { λ _ e. e ≡ Memory };

    fn from(_: NoMemory) -> PortFault {
        PortFault::Memory
    }
}
