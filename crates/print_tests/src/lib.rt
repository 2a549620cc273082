//! Values that are printed by turns, with the text that Clojure's `pr` writes of them.
#![tactic(auto)]

#[cfg(test)]
mod building;
#[cfg(test)]
mod driving;
#[cfg(test)]
mod rows;
