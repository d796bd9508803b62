ghost use Rattle.std.specs.Prelude.{◌≡◌};
ghost use Rattle.tick_plan.specs.declared.fault.NegotiateFault.TheVariants.{Memory};

use cycle_check::Cycle;
use music_base::NoMemory;

/// Why there is no plan.
#[derive(Debug, Drop)]
pub enum NegotiateFault {
    /// A cycle of waits that is not covered. No application waits twice in it, and its first waiter has the least place.
    Uncovered(Cycle),
    /// Memory was asked for and not found.
    Memory,
}

impl From<NoMemory> for NegotiateFault {
    ghost from_gives = { λ _ e. e ≡ Memory };

    fn from(_: NoMemory) -> NegotiateFault {
        NegotiateFault::Memory
    }
}
