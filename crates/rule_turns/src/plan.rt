use music_base::Items;

/// A rule that writes a port, and the places at which it finds what it needs.
#[derive(Clone, Copy, Debug)]
pub struct RuleUse {
    /// The place of the rule among the rules.
    pub rule: usize,
    /// The place of its input among the ports, and their number where it reads none.
    pub input: usize,
    /// How many `when` rules stand before it: the place of its truth value, if it is one.
    pub state: usize,
    /// The place of its index among those of the block that it writes, and of a `when` rule among those of the block
    /// that it reads.
    pub place: usize,
}

/// The rules that write a port, in order, and the indices of a continuous port, ascending.
#[derive(Debug, Drop)]
pub struct PortUses {
    pub indices: Items<u32>,
    pub uses: Items<RuleUse>,
}

/// The rules of an application by the ports that they write, and its `when` rules in order.
#[derive(Debug, Drop)]
pub struct TurnPlan {
    pub ports: Items<PortUses>,
    pub whens: Items<RuleUse>,
}
