ghost use Rattle.std.specs.Prelude.{◌≡◌, ◌∷◌, ◌++◌, [], List, ℕ, Option, OnOk, OnErr, IfOk, unwrap_or};
ghost use Rattle.seq_values.specs.declared.value.Value.TheVariants.{Nil};
ghost use Rattle.cell_book.specs.declared.cell.Attempt.{Attempt as Record};
ghost use Rattle.cell_book.specs.Account.{opened};
ghost use Rattle.cell_book.specs.Kept.{is_open_future};
ghost use Rattle.cell_book.specs.Steps.{begun_form, claimed, after_claim, failed_state, shown_state, HasOpen};

use crate::answers::Look;
use crate::attempts::Attempts;
use seq_base::Thrown;
use seq_values::{Kind, Term, Value};
use seq_vector::{NoMemory, PVec, Share};
use std::alloc::Global;

/// The state of a part.
#[derive(Drop)]
pub enum State {
    Empty,
    /// The claim with this number is open on it.
    Forcing(u128),
    Done(Value),
    /// Only a future fails for good.
    Failed(Thrown),
}

/// How a claim ended.
#[derive(Clone, Copy, Debug, PartialEq, Eq)]
pub enum ClaimEnd {
    Open,
    Value,
    Error(Thrown),
    GivenUp,
}

/// The record of one claim.
#[derive(Clone, Copy, Debug, PartialEq, Eq)]
pub struct Attempt {
    /// Its number.
    pub claim: u128,
    /// The claim that asked for the part.
    pub asker: Option<u128>,
    pub end: ClaimEnd,
}

/// A part with its claims.
#[derive(Drop)]
pub struct Cell {
    pub term: Term,
    pub kind: Kind,
    /// The claim that made it.
    pub maker: u128,
    /// How many parts its maker had made with it.
    pub ordinal: u32,
    /// The values of the forms before the one that it was made for.
    pub outcomes: PVec<Value>,
    pub state: State,
    /// The claims on it, in the order in which they were opened.
    pub attempts: Attempts,
}

/// A form that was begun, with its one claim.
#[derive(Drop)]
pub struct Form {
    pub number: u32,
    pub attempt: Attempt,
    /// The value that it gave.
    pub value: Option<Value>,
}

impl State {
    /// What a look at a part in this state shows. The value of a part is shared.
    pub fn look(&self) -> Result<Look, NoMemory>
        ensures { IfOk result (λ l. l ≡ shown_state self.now) }
    {
        Ok(match self {
            State::Empty => Look::Empty,
            State::Forcing(claim) => Look::Forcing { claim: *claim },
            State::Done(value) => Look::Done(value.share()?),
            State::Failed(why) => Look::Failed(*why),
        })
    }

    /// The state that an error leaves a part in: a lazy part may be asked again, a future has failed.
    pub fn after_error(why: Thrown, kind: Kind) -> State
        ensures { result ≡ failed_state why kind }
    {
        match kind {
            Kind::Lazy => State::Empty,
            Kind::Future => State::Failed(why),
        }
    }
}

impl Attempt {
    /// The record of a claim as it is opened.
    pub fn opened(claim: u128, asker: Option<u128>) -> Attempt
        ensures { result ≡ opened claim asker }
    {
        Attempt {
            claim,
            asker,
            end: ClaimEnd::Open,
        }
    }
}

impl Cell {
    /// It is a future that nobody evaluates yet.
    pub(crate) fn is_open_future(&self) -> bool
        ensures { result ≡ is_open_future self.now }
    {
        match (self.kind, &self.state) {
            (Kind::Future, State::Empty) => true,
            _ => false,
        }
    }

    /// Opens a claim. Where there is no memory nothing changes.
    pub fn open(&mut self, alloc: Global, claim: u128, asker: Option<u128>) -> Result<(), NoMemory>
        ensures ok { OnOk result (self.new ≡ claimed self.old claim asker) }
        ensures err { OnErr result (self.new ≡ self.old) }
    {
        self.attempts.push(alloc, Attempt::opened(claim, asker))?;
        self.state = State::Forcing(claim);
        Ok(())
    }

    /// Ends the open claim, which leaves the part in this state.
    pub fn end(&mut self, end: ClaimEnd, state: State)
        ensures { (claim : ℕ) (asker : Option ℕ) (past : List Record) → HasOpen self.old claim asker past → self.new ≡ after_claim self.old claim asker past end state }
    {
        self.attempts.end_last(end);
        self.state = state;
    }
}

impl Form {
    /// A form with its claim open.
    pub fn begun(number: u32, claim: u128) -> Form
        ensures { result ≡ begun_form number claim }
    {
        Form {
            number,
            attempt: Attempt::opened(claim, None),
            value: None,
        }
    }

    /// The value that it gave, shared, or nil.
    pub fn outcome(&self) -> Result<Value, NoMemory>
        ensures { IfOk result (λ v. v ≡ unwrap_or self.now.value Nil) }
    {
        match &self.value {
            Some(value) => value.share(),
            None => Ok(Value::Nil),
        }
    }

    /// Ends the claim, with a value or none.
    pub fn end(&mut self, end: ClaimEnd, value: Option<Value>)
        ensures { self.new ≡ record self.old { attempt = record self.old.attempt { end = end }; value = value } }
    {
        self.attempt.end = end;
        self.value = value;
    }
}
