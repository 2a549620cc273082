//! Scripts that are made from a number, and the summary of what a run of one wrote.
#![tactic(auto)]

mod kinds;
mod numbers;
mod report;
mod script;
#[cfg(test)]
mod tests;

pub use report::summary;
pub use script::generate;
