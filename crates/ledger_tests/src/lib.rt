//! Tests of the ledger's text over books that nobody shares.
#![tactic(auto)]

mod parts;
#[cfg(test)]
mod tests;

pub use parts::done_part;
