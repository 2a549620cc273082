//! The words that force nothing: what a call of one of them gives.
#![tactic(auto)]

mod arguments;
mod arithmetic;
mod comparison;
mod kinds;
mod making;
mod words;

pub use words::call_builtin;
