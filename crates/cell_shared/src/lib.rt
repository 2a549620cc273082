//! One book for many threads. Each thread has a pass. One turn word says whether the book is at home or out with the one pass that has the turn; each call takes the turn and the book, does one event on it, and gives both back.
#![tactic(auto)]

mod calls;
mod desk;
mod quiet;
mod shared;
mod view;
mod viewed;

pub use desk::Change;
pub use quiet::Quiet;
pub use shared::{Pass, SharedBook};
pub use view::{Leaves, Meets, Start, View};
pub use viewed::Viewed;
