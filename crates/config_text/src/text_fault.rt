use crate::TextKind;

/// Why a text was not read.
#[derive(Clone, Copy, Debug, PartialEq, Eq)]
pub enum TextFault {
    /// The first faulty line, counted from 1, and its first fault; or line 0 where the text is too long.
    At { line: u64, kind: TextKind },
    /// Memory was asked for and not found.
    Memory,
}
