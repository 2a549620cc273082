//! The rules of the language, of all crates that have some: how a call, a term and the printing of a value begin, and each turn.
#![tactic(auto)]

mod beginning;
mod choosing;
mod running;
mod state;
mod turning;

pub use state::LanguageRule;
