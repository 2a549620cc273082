//! `r/fold`, `reduce` and `into`, driven through their turns by tables. What is expected is what https://clojure.org/reference/reducers says, and when the sources of clojure.core.reducers fork and join.
#![tactic(auto)]

#[cfg(test)]
mod asked;
#[cfg(test)]
mod driving;
#[cfg(test)]
mod sources;
#[cfg(test)]
mod words;
#[cfg(test)]
mod world;
