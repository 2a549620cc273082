//! The words that force nothing, and calls of the functions that they make, run by turns.
#![tactic(auto)]

mod applying;
mod composing;
mod joining;
mod opening;
mod running;
mod state;
mod turns;
mod ways;
mod words;

pub use state::RuleState;
pub use turns::{begin_call, begin_word, turn};
