//! What runs the stages of a transducer, driven through its turns by tables. What is expected is what Clojure's documentation says of `transduce`, `into`, `sequence` and of each stage, and how often each takes a step, asks and calls.
#![tactic(auto)]

#[cfg(test)]
mod asked;
#[cfg(test)]
mod driving;
#[cfg(test)]
mod functions;
#[cfg(test)]
mod given;
#[cfg(test)]
mod inputs;
#[cfg(test)]
mod reducing;
#[cfg(test)]
mod rows;
#[cfg(test)]
mod stages;
#[cfg(test)]
mod words;
