//! From the bytes of a script to its forms.
#![tactic(auto)]

mod bytes;
mod cursor;
mod form;
mod laws;
mod name;
mod nest;
mod place;
mod read;
mod refusal;
mod scan;
mod series;
mod token;
mod word;

pub use form::{Form, Forms, Shape};
pub use laws::{one_reading, one_refusal, script_or_refused};
pub use name::Name;
pub use place::Place;
pub use read::read_forms;
pub use refusal::{ReadFormsStop, ReadRefusal};
pub use series::Series;

#[cfg(test)]
mod tests;
