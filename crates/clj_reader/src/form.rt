use crate::name::Name;
use crate::place::Place;
use crate::series::Series;

/// Forms in the order of their text.
pub type Forms = Series<Form>;

/// What a script is made of, with the place of its first character.
#[cycle(forms)]
#[derive(Drop)]
pub struct Form {
    pub place: Place,
    pub shape: Shape,
}

/// The kinds of form.
#[cycle(forms)]
#[derive(Drop)]
pub enum Shape {
    Nil,
    Bool(bool),
    Int(i64),
    /// What stands between the quotes, with the escapes replaced by what they stand for.
    Text(Name),
    /// Without its colon.
    Keyword(Name),
    Symbol(Name),
    /// In round brackets.
    List(Forms),
    /// In square brackets.
    Vector(Forms),
}
