//! `pmap` and `seque`, run by turns: what each word, and each part that it makes, needs next.
#![tactic(auto)]

mod asking;
mod beginning;
mod calling;
mod handing;
mod running;
mod state;
mod stepping;
mod taking;
mod turns;

pub use state::RuleState;
pub use turns::{begin, begin_word, turn};
