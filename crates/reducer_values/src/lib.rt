//! Reducer values as values: the words that make them, what a fold of one may split, with its stages, and where items are halved.
//! https://clojure.org/reference/reducers
#![tactic(auto)]

mod halving;
mod layers;
mod looking;
mod shapes;
mod words;

pub use halving::split;
pub use layers::foldable_of;
pub use looking::is_reducer;
pub use shapes::{Foldable, Items};
pub use words::{is_reducer_word, reducer_call};
