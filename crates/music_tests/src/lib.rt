//! Tests of the two top calls, and of reading a source whole.
//!
//! A helper answers a plain value from one call, so that each function has few values to drop.
#![tactic(auto)]

#[cfg(test)]
mod calls;
#[cfg(test)]
mod checks;
#[cfg(test)]
mod cycle_tables;
#[cfg(test)]
mod log_tables;
#[cfg(test)]
mod logs;
#[cfg(test)]
mod made_texts;
#[cfg(test)]
mod port_tables;
#[cfg(test)]
mod refused_memory;
#[cfg(test)]
mod rule_tables;
#[cfg(test)]
mod runs;
#[cfg(test)]
mod scene_tables;
#[cfg(test)]
mod tables;
#[cfg(test)]
mod texts;
#[cfg(test)]
mod words;
