//! The value of a setting as text: pieces between `;`, words between blanks, and what a word spells: a small number, a
//! name or a time.
#![tactic(auto)]

mod cut;
mod decimals;
mod laws;
mod pieces;
mod signed;
mod word;

pub use cut::{around, cut_at, is_key};
pub use decimals::fixed;
pub use laws::{first_faults, small_texts};
pub use pieces::{split_declaration, split_word};
pub use signed::signed_within;
pub use word::{behind, name_in, time_in};
