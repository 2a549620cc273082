//! Calls of the rules by tables. What is expected is what Clojure's documentation says of each word.
#![tactic(auto)]

#[cfg(test)]
mod arguments;
#[cfg(test)]
mod words;
