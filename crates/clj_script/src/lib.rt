//! From the forms of a script to its program.
#![tactic(auto)]

mod atom;
mod compiler;
mod definitions;
mod expr;
mod laws;
mod locals;
mod machine;
mod program;
mod reading;
mod refusal;
mod seen;
mod source;
mod task;
mod thread;
mod top;
mod top_form;
mod words;

pub use compiler::compile;
pub use expr::{Expr, Numbers};
pub use laws::{
    closed_later, meaning_is_closed, one_meaning, refused_or_meant, some_meaning,
    written_is_well_formed,
};
pub use program::{Program, Top};
pub use refusal::{CompileStop, ScriptRefusal};
