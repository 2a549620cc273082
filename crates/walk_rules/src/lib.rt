//! The words that walk a collection, run by turns: `seq`, `first`, `second`, `rest`, `next`, `nth`, `last`, `count`, `empty?`, `cons`, `conj`, `vec`, `reverse`, `doall`, `every?`, `some`, `apply`, `=`, `not=`, `reduce` and `into`.
#![tactic(auto)]

mod arguments;
mod comparing;
mod counted;
mod counting;
mod gathering;
mod joining;
mod listed;
mod once;
mod placing;
mod reducing;
mod resuming;
mod running;
mod searching;
mod shapes;
mod state;
mod turns;
mod ways;

pub use state::RuleState;
pub use turns::{begin_word, turn, walks};
