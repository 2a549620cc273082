//! The words that walk, driven by hand through their turns. What is expected is what Clojure's documentation says of each word, and how often each takes a step, asks and calls.
#![tactic(auto)]

#[cfg(test)]
mod asked;
#[cfg(test)]
mod due;
#[cfg(test)]
mod rows;
#[cfg(test)]
mod turning;
