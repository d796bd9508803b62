/// What the program can be asked to do.
#[derive(Clone, Copy, Debug, PartialEq, Eq)]
pub enum Command {
    /// Say how large the scene is that the text describes, or its first fault, or a cycle of its waits that is not covered.
    Check,
    /// Write how many blocks each connection of the scene keeps at most.
    Plan,
    /// Write an order in which the applications of the scene can act, each of them to its end.
    Order,
    /// Run the scene of the text and write its log.
    Run {
        /// How many workers run it.
        workers: u32,
    },
    /// Run the scene that is made from a number, and write its log.
    Load {
        /// The number that the scene is made from.
        number: u32,
        /// How many workers run it.
        workers: u32,
    },
}
