//! The limits of the numbers in the words. Each is itself accepted.

/// How many digits a number has at most. Zeros in front count as digits.
pub const MOST_DIGITS: usize = 4;

/// The greatest number that a scene is made from. The least is 0.
pub const GREATEST_NUMBER: u32 = 9_999;

/// How few workers can be asked for.
pub const LEAST_WORKERS: u32 = 1;

/// How many workers can be asked for: one, as long as a scene is run by one alone.
pub const MOST_WORKERS: u32 = 1;
