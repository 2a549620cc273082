//! `r/fold`, `reduce` and `into`, and the work of a fold's futures, by turns. Halves that wait stand on a stack, so a fold of any length needs no recursion.
//! https://clojure.org/reference/reducers
#![tactic(auto)]

mod arguments;
mod folding;
mod pending;
mod reducing;
mod running;
mod state;
mod terms;
mod turns;
mod words;

pub use state::RuleState;
pub use turns::{begin, begin_word, turn};
pub use words::is_fold_word;
