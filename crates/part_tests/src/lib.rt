//! Tests of the crates below the commands: calls that ask for memory get it where there is enough, and what no clause says.
//!
//! A helper answers a plain value from one call, so that each function has few values to drop.
#![tactic(auto)]

#[cfg(test)]
mod config_texts;
#[cfg(test)]
mod copies;
#[cfg(test)]
mod cores;
#[cfg(test)]
mod cycles;
#[cfg(test)]
mod logs;
#[cfg(test)]
mod machines;
#[cfg(test)]
mod made_configs;
#[cfg(test)]
mod maps;
#[cfg(test)]
mod orders;
#[cfg(test)]
mod plans;
#[cfg(test)]
mod releases;
#[cfg(test)]
mod rows;
#[cfg(test)]
mod scene_runs;
#[cfg(test)]
mod setups;
#[cfg(test)]
mod standard_ends;
#[cfg(test)]
mod texts;
#[cfg(test)]
mod times;
#[cfg(test)]
mod turns;
#[cfg(test)]
mod words;
