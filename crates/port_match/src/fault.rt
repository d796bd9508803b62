ghost use Rattle.std.specs.Prelude.{◌≡◌};
ghost use Rattle.port_match.specs.declared.fault.MatchFault.TheVariants.{Memory};

use music_base::{LinkId, NoMemory};

/// What is wrong with a connection: the first of its faults in this order.
#[derive(Clone, Copy, Debug, PartialEq, Eq)]
pub enum LinkKind {
    /// An end names no application.
    UnknownApp,
    /// An end names no port of its application.
    UnknownPort,
    /// The sender's port is no output, or the receiver's is no input.
    Direction,
    /// The two ports differ in kind.
    Kind,
    /// A width is stated, and either port maps an index that is not below it.
    Width,
    /// The ports are continuous, and the input maps an index that the output does not.
    Unmapped,
    /// An earlier connection joins the same two ports.
    PairTwice,
    /// An earlier connection goes to the same continuous input.
    ContTwice,
}

/// Why connections make no links: the first faulty one, by its place from 0, and the first of its faults.
#[derive(Clone, Copy, Debug, PartialEq, Eq)]
pub enum MatchFault {
    Link { link: LinkId, kind: LinkKind },
    /// Memory was asked for and not found.
    Memory,
}

impl From<NoMemory> for MatchFault {
    ghost from_gives = { λ _ e. e ≡ Memory };

    fn from(_: NoMemory) -> MatchFault {
        MatchFault::Memory
    }
}
