//! The forms of tokens, with the brackets that stand open.
ghost use Rattle.std.specs.Prelude.{◌≡◌, [], ◌∷◌, ◌++◌, reverse};
ghost use Rattle.clj_reader.specs.Nests.{Gives, level_of, nested, nested_at_end, group, level, form, shape_of};
ghost use Rattle.clj_reader.specs.Refusals.{refusal};

use crate::form::{Form, Forms, Shape};
use crate::place::Place;
use crate::refusal::{ReadFormsStop, ReadRefusal};
use crate::series::Series;
use crate::token::{Atom, Bracket, Lexeme, Token};
use std::alloc::Global;

/// How many brackets may stand open.
const DEEPEST: usize = 200;

/// A bracket that stands open, and the forms before it at its level.
#[derive(Drop)]
pub(crate) struct Opening {
    pub place: Place,
    pub bracket: Bracket,
    pub before: Forms,
}

/// The brackets that stand open, the innermost last, and the forms that were read since.
#[derive(Drop)]
pub(crate) struct Nest {
    pub opened: Vec<Opening>,
    pub forms: Forms,
}

/// A refusal at a place.
pub(crate) fn refused(number: u8, place: Place) -> ReadFormsStop
    ensures { result ≡ ReadFormsStop.Refused (refusal number place) }
{
    ReadFormsStop::Refused(ReadRefusal { number, place })
}

/// What brackets of a kind make of the forms between them.
fn group(bracket: Bracket, forms: Forms) -> Shape
    ensures { result ≡ group bracket forms }
{
    match bracket {
        Bracket::Round => Shape::List(forms),
        Bracket::Square => Shape::Vector(forms),
    }
}

/// An atom as a shape.
fn shape_of(atom: Atom) -> Shape
    ensures { result ≡ shape_of atom }
{
    match atom {
        Atom::Nil => Shape::Nil,
        Atom::Bool(value) => Shape::Bool(value),
        Atom::Int(value) => Shape::Int(value),
        Atom::Text(name) => Shape::Text(name),
        Atom::Keyword(name) => Shape::Keyword(name),
        Atom::Symbol(name) => Shape::Symbol(name),
    }
}

impl Nest {
    /// Nothing read.
    pub fn new(alloc: Global) -> Nest
        ensures opened { result.opened.items ≡ [] }
        ensures forms { result.forms ≡ [] }
    {
        Nest {
            opened: Vec::new(alloc),
            forms: Series::new(alloc),
        }
    }

    /// Takes the next token in.
    #[tactic(auto, unfolding(crate::specs::Nests::nested))]
    pub fn take(self, alloc: Global, lexeme: Lexeme) -> Result<Nest, ReadFormsStop>
        ensures { Gives level_of result
            (nested (reverse self.opened.items) self.forms lexeme.place lexeme.token) }
    {
        let Lexeme { place, token } = lexeme;
        match token {
            Token::Open(bracket) => self.open(alloc, place, bracket),
            Token::Close(bracket) => self.close(place, bracket),
            Token::Atom(atom) => self.add(place, shape_of(atom)),
            Token::Bad(flaw) => Err(refused(flaw.number(), place)),
        }
    }

    #[tactic(auto, unfolding(crate::specs::Nests::nested), using(crate::proofs::NestLemmas::reverse_push))]
    fn open(self, alloc: Global, place: Place, bracket: Bracket) -> Result<Nest, ReadFormsStop>
        ensures { Gives level_of result
            (nested (reverse self.opened.items) self.forms place (Token.Open bracket)) }
    {
        let Nest { mut opened, forms } = self;
        if opened.len() >= DEEPEST {
            return Err(refused(5, place));
        }
        let opening = Opening {
            place,
            bracket,
            before: forms,
        };
        if opened.push(opening).is_err() {
            return Err(ReadFormsStop::Memory);
        }
        Ok(Nest {
            opened,
            forms: Series::new(alloc),
        })
    }

    #[tactic(auto, unfolding(crate::specs::Nests::nested), using(crate::proofs::NestLemmas::reverse_push))]
    fn close(self, place: Place, bracket: Bracket) -> Result<Nest, ReadFormsStop>
        ensures { Gives level_of result
            (nested (reverse self.opened.items) self.forms place (Token.Close bracket)) }
    {
        let Nest { mut opened, forms } = self;
        let Some(opening) = opened.pop() else {
            return Err(refused(2, place));
        };
        let Opening {
            place: start,
            bracket: kind,
            before: mut all,
        } = opening;
        if !bracket.matches(kind) {
            return Err(refused(2, place));
        }
        let form = Form {
            place: start,
            shape: group(kind, forms),
        };
        all.push(form)?;
        Ok(Nest { opened, forms: all })
    }

    fn add(self, place: Place, shape: Shape) -> Result<Nest, ReadFormsStop>
        ensures { Gives level_of result
            (Ok (level (reverse self.opened.items) (self.forms ++ form place shape ∷ []))) }
    {
        let Nest { opened, mut forms } = self;
        forms.push(Form { place, shape })?;
        Ok(Nest { opened, forms })
    }

    /// The forms, where no bracket stands open.
    #[tactic(auto, using(crate::proofs::NestLemmas::reverse_push))]
    pub fn finish(self) -> Result<Forms, ReadFormsStop>
        ensures { Gives (λ forms. forms) result (nested_at_end (reverse self.opened.items) self.forms) }
    {
        let Nest { mut opened, forms } = self;
        match opened.pop() {
            None => Ok(forms),
            Some(opening) => Err(refused(2, opening.place)),
        }
    }
}
