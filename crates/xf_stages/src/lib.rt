//! The stages of transducers and of reducer values, run by turns: one input, a whole collection, or the completion.
#![tactic(auto)]

mod answering;
mod completing;
mod flowing;
mod keeping;
mod opening;
mod passing;
mod reacting;
mod reducing;
mod restoring;
mod running;
mod state;
mod ways;

pub use state::{AtCall, AtOut, AtSeq, AtStep, Opened, StageTurn, Stages};
