//! Tests of `seq_turns` by tables. What is expected is what Clojure's documentation says of `seq`, `first`, `rest` and chunks.
#![tactic(auto)]

#[cfg(test)]
mod listing;
#[cfg(test)]
mod making;
#[cfg(test)]
mod walking;
