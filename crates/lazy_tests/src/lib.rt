//! Rules of lazy operations, driven through their turns by tables. What is expected is what Clojure's documentation says of each word, and when its sources ask.
#![tactic(auto)]

#[cfg(test)]
mod asked;
#[cfg(test)]
mod driving;
#[cfg(test)]
mod lines;
#[cfg(test)]
mod words;
