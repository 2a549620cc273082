//! What runs the stages of a transducer, by turns: `transduce`, `into` with a transducer, `sequence`, and the work of its parts. A reduction through stages stands by itself, for other rules that reduce.
#![tactic(auto)]

mod arguments;
mod ending;
mod flow;
mod gathering;
mod outputs;
mod pulling;
mod reduction;
mod state;
mod transducing;
mod turns;
mod unwrapping;
mod waiting;
mod ways;
mod words;

pub use flow::{Reduction, ReductionTurn};
pub use state::RuleState;
pub use turns::{begin, begin_word, turn};
pub use words::is_stage_word;
