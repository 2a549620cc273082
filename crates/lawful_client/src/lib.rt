//! A client of any cells whose book is lawful: each call by a work that is on its run, and a whole script.
#![tactic(auto)]

mod calls;
mod one_map;

pub use calls::{add, ask, begin, end, finish, lose, start};
pub use one_map::run_one_map;

#[cfg(test)]
mod tests;
