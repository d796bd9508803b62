ghost use Rattle.std.specs.Prelude.{◌≡◌};

use music_setup::SetupFault;

/// How a call ended. The program exits with its number.
#[derive(Clone, Copy, Debug, PartialEq, Eq)]
pub enum Status {
    /// What the command writes of the scene was written: the line `ok: A applications, L connections`, the plan, an order of
    /// acts or the log.
    Done,
    /// The words were refused, and the usage line was written.
    Usage,
    /// The text spells no configuration, and the line of its first fault was written.
    TextFault,
    /// The configuration describes no scene, and the line of its first fault was written.
    SceneFault,
    /// Some cycle of the scene's waits is not covered, and such a cycle was written.
    CycleFault,
    /// The source failed.
    ReadFault,
    /// The sink failed.
    WriteFault,
    /// Memory was asked for and not found.
    NoMemory,
}

impl Status {
    ghost use Rattle.std.specs.Prelude.{◌≡◌};
    ghost use Rattle.music_cli.specs.Answers.{number_of, status_of};

    /// The exit status.
    pub fn number(self) -> u8
        ensures { result ≡ number_of self }
    {
        match self {
            Status::Done => 0,
            Status::Usage => 2,
            Status::TextFault => 3,
            Status::SceneFault => 4,
            Status::CycleFault => 5,
            Status::ReadFault => 6,
            Status::WriteFault => 7,
            Status::NoMemory => 8,
        }
    }

    /// The status of a fault.
    pub(crate) fn of_fault(fault: &SetupFault) -> Status
        ensures { result ≡ status_of fault.now }
    {
        match fault {
            SetupFault::Text { .. } => Status::TextFault,
            SetupFault::Scene(_) | SetupFault::Link { .. } => Status::SceneFault,
            SetupFault::Uncovered(_) => Status::CycleFault,
            SetupFault::Memory => Status::NoMemory,
        }
    }
}
