//! The stages of transducers, of reducer values and of folds, driven by hand through their turns. What is expected is what Clojure's documentation says of each, and when they take a step, ask and call.
#![tactic(auto)]

#[cfg(test)]
mod driving;
#[cfg(test)]
mod kinds;
#[cfg(test)]
mod making;
#[cfg(test)]
mod reducers;
#[cfg(test)]
mod rows;
#[cfg(test)]
mod showing;
#[cfg(test)]
mod standing;
#[cfg(test)]
mod states;
#[cfg(test)]
mod world;
