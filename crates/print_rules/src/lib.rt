//! Printing, run by turns: the text of a value, which is realised from left to right with one own step for each value in it. How each kind of value is shown is what `pr` of Clojure writes (<https://clojure.org/reference/reader>, <https://clojuredocs.org/clojure.core/pr>); a function is shown as `#fn`, and a reduced value as `#reduced ` before its own.
#![tactic(auto)]

mod closing;
mod opening;
mod running;
mod state;
mod texts;
mod turns;

pub use state::RuleState;
pub use turns::{begin, turn};
