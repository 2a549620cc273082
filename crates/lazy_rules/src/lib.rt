//! The lazy operations, run by turns: a call of a word makes the first part, and the work of each part's term gives one step of the sequence and makes the next part.
#![tactic(auto)]

mod applying;
mod arguments;
mod beginning;
mod choosing;
mod concatenating;
mod cycling;
mod dropping;
mod grouping;
mod made_terms;
mod mapping_all;
mod sifting;
mod state;
mod turns;
mod ways;
mod words;

pub use state::RuleState;
pub use turns::{begin, begin_word, turn};
pub use words::is_lazy_word;
