//! Tests of `seq_plan`.
#![tactic(auto)]

#[cfg(test)]
mod tests;
