//! Scripts with what they are compiled to, or what they are refused for.
#![tactic(auto)]

#[cfg(test)]
mod tests;
