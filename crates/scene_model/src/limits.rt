//! The limits of a scene. Each is itself accepted. How many applications and connections there are, the greatest
//! time, how much may be buffered, and the limit of global indices stand in the crates below.

/// How many processes an application has at most, each a rank.
pub const MOST_RANKS: u32 = 64;

/// How many ports an application has at most.
pub const MOST_PORTS: usize = 64;

/// How many rules an application has at most.
pub const MOST_RULES: usize = 1_024;

/// The greatest global index.
pub const GREATEST_INDEX: u32 = 65_535;

/// How many ns lie between two steps of an application at most.
pub const LONGEST_TICK: u64 = 1_000_000_000_000;

/// How many steps an application runs at most.
pub const MOST_STEPS: u64 = 1_000_000;

/// How many values the continuous ports of an application put out and read at most, in all of its steps.
pub const MOST_VALUES: u64 = 1_000_000;

/// How many periods of a rule its application's whole run holds at most.
pub const MOST_PERIODS: u128 = 1_000_000;

/// How far from zero a shift of indices may lie.
pub const GREATEST_SHIFT: u32 = 65_535;

/// How far from zero the numerator of a scale may lie.
pub const GREATEST_NUMERATOR: u32 = 1_000_000;

/// How great the denominator of a scale may be.
pub const GREATEST_DENOMINATOR: u32 = 1_000_000;
