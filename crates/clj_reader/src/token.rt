ghost use Rattle.std.specs.Prelude.{◌≡◌};
ghost use Rattle.clj_reader.specs.Refusals.{same_bracket, flaw_number};

use crate::name::Name;
use crate::place::Place;

/// The two kinds of bracket.
#[derive(Clone, Copy, Debug, PartialEq, Eq)]
pub(crate) enum Bracket {
    Round,
    Square,
}

impl Bracket {
    /// Whether a bracket of one kind closes one of the other.
    pub fn matches(self, other: Bracket) -> bool
        ensures { result ≡ same_bracket self other }
    {
        match (self, other) {
            (Bracket::Round, Bracket::Round) => true,
            (Bracket::Square, Bracket::Square) => true,
            _ => false,
        }
    }
}

/// Why a token is no token of the language.
#[derive(Clone, Copy, Debug, PartialEq, Eq)]
pub(crate) enum Flaw {
    /// It is spelled as none of them.
    Unreadable,
    /// It is an integer outside 64 bits.
    TooLarge,
}

impl Flaw {
    /// The number of its refusal.
    pub fn number(self) -> u8
        ensures { result ≡ flaw_number self }
    {
        match self {
            Flaw::Unreadable => 3,
            Flaw::TooLarge => 4,
        }
    }
}

/// A form without brackets.
#[derive(Drop)]
pub(crate) enum Atom {
    Nil,
    Bool(bool),
    Int(i64),
    Text(Name),
    Keyword(Name),
    Symbol(Name),
}

/// A token: a bracket, a form without brackets, or one that is refused.
#[derive(Drop)]
pub(crate) enum Token {
    Open(Bracket),
    Close(Bracket),
    Atom(Atom),
    Bad(Flaw),
}

/// A token and where it begins.
#[derive(Drop)]
pub(crate) struct Lexeme {
    pub place: Place,
    pub token: Token,
}
