ghost use Rattle.std.specs.Prelude.{◌≡◌};
ghost use Rattle.music_setup.specs.Faults.{of_links, of_plan, of_ports, of_rules, of_text};
ghost use Rattle.music_setup.specs.declared.fault.AppFault.TheVariants as app;
ghost use Rattle.music_setup.specs.declared.fault.SetupFault.TheVariants as setup;

use app_scripts::RuleFault;
use config_text::{TextFault, TextKind};
use cycle_check::Cycle;
use music_base::{AppId, LinkId, NoMemory};
use port_match::{LinkKind, MatchFault};
use port_table::PortFault;
use tick_plan::NegotiateFault;

/// Why a text, or a configuration, is refused: its first fault. First stand those of the text, then those of the
/// stop and the applications, then those of the connections, and then an uncovered cycle.
#[derive(Debug, Drop)]
pub enum SetupFault {
    /// The first faulty line of the text, from 1, and its first fault; or line 0 where the text is too long.
    Text { line: u64, kind: TextKind },
    /// The first fault of the stop and the applications.
    Scene(SceneFault),
    /// The first faulty connection, by its place from 0, and the first of its faults.
    Link { link: LinkId, kind: LinkKind },
    /// A cycle of the scene's waits under stated limits that is not covered. No application waits twice in it, and its
    /// first waiter has the least place.
    Uncovered(Cycle),
    /// Memory was asked for and not found.
    Memory,
}

/// What is wrong with the stop or the applications of a configuration. The stop is judged first, and then each
/// application in the order of the text.
#[derive(Clone, Copy, Debug, PartialEq, Eq)]
pub enum SceneFault {
    /// No default is named `stoptime`.
    StopMissing,
    /// The default `stoptime` is no time.
    StopText,
    /// The application, by its place from 0, and its first fault.
    App { app: AppId, kind: AppKind },
}

/// What is wrong with an application, in this order. Its settings are those of its section, and else the defaults. The
/// variants `Memory` of the faults of ports and rules never stand in it.
#[derive(Clone, Copy, Debug, PartialEq, Eq)]
pub enum AppKind {
    /// `np` is no number of 1 to 64.
    NpText,
    /// `binary` is absent, or is not `script`.
    Binary,
    /// `timestep` is absent, or is no time of 1 to 10^12 ns.
    TickText,
    /// `start` is no time.
    StartText,
    /// `stoptime` of its section is no time.
    EndText,
    /// It makes more than 1,000,000 steps, from its start until its stop.
    TooManySteps,
    /// The first faulty declaration of `ports`.
    Ports(PortFault),
    /// The first faulty rule of `args`.
    Rules(RuleFault),
    /// Its continuous ports, outputs and inputs, have more than 1,000,000 values in all of its steps: one in each step
    /// for each index that a rank maps.
    TooManyValues,
}

/// Why an application was not read.
#[derive(Clone, Copy)]
pub(crate) enum AppFault {
    Kind(AppKind),
    NoMemory,
}

impl From<NoMemory> for AppFault {
    ghost from_gives = { λ _ e. e ≡ app.NoMemory };

    fn from(_: NoMemory) -> AppFault {
        AppFault::NoMemory
    }
}

impl From<PortFault> for AppFault {
    ghost from_gives = { λ fault e. e ≡ of_ports fault };

    fn from(fault: PortFault) -> AppFault {
        match fault {
            PortFault::Memory => AppFault::NoMemory,
            _ => AppFault::Kind(AppKind::Ports(fault)),
        }
    }
}

impl From<RuleFault> for AppFault {
    ghost from_gives = { λ fault e. e ≡ of_rules fault };

    fn from(fault: RuleFault) -> AppFault {
        match fault {
            RuleFault::Memory => AppFault::NoMemory,
            _ => AppFault::Kind(AppKind::Rules(fault)),
        }
    }
}

impl From<NoMemory> for SetupFault {
    ghost from_gives = { λ _ e. e ≡ setup.Memory };

    fn from(_: NoMemory) -> SetupFault {
        SetupFault::Memory
    }
}

impl From<MatchFault> for SetupFault {
    ghost from_gives = { λ fault e. e ≡ of_links fault };

    fn from(fault: MatchFault) -> SetupFault {
        match fault {
            MatchFault::Link { link, kind } => SetupFault::Link { link, kind },
            MatchFault::Memory => SetupFault::Memory,
        }
    }
}

impl From<TextFault> for SetupFault {
    ghost from_gives = { λ fault e. e ≡ of_text fault };

    fn from(fault: TextFault) -> SetupFault {
        match fault {
            TextFault::At { line, kind } => SetupFault::Text { line, kind },
            TextFault::Memory => SetupFault::Memory,
        }
    }
}

impl From<NegotiateFault> for SetupFault {
    ghost from_gives = { λ fault e. e ≡ of_plan fault };

    fn from(fault: NegotiateFault) -> SetupFault {
        match fault {
            NegotiateFault::Uncovered(cycle) => SetupFault::Uncovered(cycle),
            NegotiateFault::Memory => SetupFault::Memory,
        }
    }
}
