//! `pmap` and `seque`, driven through their turns by tables. What is expected is what Clojure's documentation says of them, and when its sources begin and ask the work ahead.
#![tactic(auto)]

#[cfg(test)]
mod asked;
#[cfg(test)]
mod driving;
#[cfg(test)]
mod words;
