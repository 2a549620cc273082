//! Reducer values by tables: what their words make, and what a fold splits of them. What is expected is what https://clojure.org/reference/reducers says.
#![tactic(auto)]

#[cfg(test)]
mod values;
