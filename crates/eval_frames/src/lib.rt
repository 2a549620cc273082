//! One work of the evaluator, alone: its frames, and its turns up to an own step, an ask, a make or its end. Calls and expressions are data, so what is deep takes memory and no stack.
#![tactic(auto)]

mod answering;
mod beginning;
mod calls;
mod deciding;
mod evaluating;
mod finding;
mod frames;
mod gathering;
mod locals;
mod parts;
mod rules;
mod running;
mod state;
mod telling;
mod turning;

pub use answering::{answered, made, refused};
pub use beginning::{begin_form, begin_part};
pub use rules::Rules;
pub use running::{advance, run};
pub use state::{
    Advance, Asker, Asking, Beginning, Called, Code, Entered, Event, FoundNow, Frame, Maker,
    Members, Now, Parting, ProperTerm, Purpose, Ready, Rest, Runner, Seeking, Sequence, Stepping,
};
