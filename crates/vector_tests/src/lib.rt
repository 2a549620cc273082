//! Tests of vectors and values that need no private item: what no clause says of them, and worked rows.
#![tactic(auto)]

#[cfg(test)]
mod depths;
#[cfg(test)]
mod help;
#[cfg(test)]
mod values;
#[cfg(test)]
mod vectors;
