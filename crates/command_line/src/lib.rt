//! What the words of the command line ask for.
#![tactic(auto)]

mod asking;
mod given;
mod laws;
mod line;
mod setting;

pub use asking::asked;
pub use given::{Options, Request};
pub use laws::{law_bare_name_runs, law_one_request};
pub use setting::Setting;

#[cfg(test)]
mod tests;
