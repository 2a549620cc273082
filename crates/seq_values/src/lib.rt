//! The values of a script, its words, and the terms and turns of the rules that work on them.
#![tactic(auto)]

mod builders;
mod cell_id;
mod depth;
mod line;
mod node;
mod parts;
mod print;
mod term;
mod text;
mod value;
mod words;

pub use builders::{
    before, chunk_before, empty_list, integer, is_nil, one_item, part, reduced, term_of_one,
    term_of_two, truth, two_items, vector, word_value,
};
pub use cell_id::CellId;
pub use depth::{deepest_from_last, deepest_of, depth_of};
pub use line::Line;
pub use parts::{chunk_part, cons_and, cons_part, vector_and, vector_part};
pub use print::print_atom;
pub use term::{Answer, CallStop, Term, Turn};
pub use text::Text;
pub use value::{FnValue, Held, Node, Value};
pub use words::{Builtin, FolderKind, Kind, Op, Target, XfKind};
