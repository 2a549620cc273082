ghost use Rattle.std.specs.Prelude.{◌≡◌, option_copied};
ghost use Rattle.cell_book.specs.Works.{cell_of, kind_of, term_of, form_of};

use seq_values::{CellId, Kind, Term, Value};
use seq_vector::PVec;
use std::marker::Model;

/// What a work is on.
#[derive(Drop)]
pub enum Place {
    /// A form, by its number and by how many forms were begun before it.
    Form {
        number: u32,
        at: usize,
    },
    /// A part.
    Part {
        cell: CellId,
        kind: Kind,
        term: Term,
    },
}

/// An open claim on a form or a part. It must be spent: finished, failed or given up.
pub struct Work {
    pub(crate) place: Place,
    pub(crate) claim: u128,
    pub(crate) outcomes: PVec<Value>,
}

impl Model for Work {
    ghost use Rattle.cell_book.specs.Account.{Duty};
    ghost use Rattle.std.specs.Coded.{codes};
    ghost use Rattle.seq_values.specs.contracts.value.Value as value;

    ghost Value = { Duty };

    ghost coded = { Prim.hlevel (codes, value.the_row.coded) };

    ghost view = { λ w. record { place = w.place; claim = w.claim; outcomes = w.outcomes } };
}

/// None of these takes memory.
impl Work {
    /// The work of a claim that was opened on this place. Only what keeps cells makes one; no call rests on that.
    pub fn of(place: Place, claim: u128, outcomes: PVec<Value>) -> Work
        ensures { result ≡ record { place = place; claim = claim; outcomes = outcomes } }
    {
        Work {
            place,
            claim,
            outcomes,
        }
    }

    /// Its place, its claim, and the values of the forms begun before.
    pub fn into_parts(self) -> (Place, u128, PVec<Value>)
        ensures { (result.0 ≡ self.place) × (result.1 ≡ self.claim) × (result.2 ≡ self.outcomes) }
    {
        let Work {
            place,
            claim,
            outcomes,
        } = self;
        (place, claim, outcomes)
    }

    /// What it is on.
    pub fn place(&self) -> &Place
        ensures { result.now ≡ self.now.place }
    {
        &self.place
    }

    /// The part that it is on, and `None` exactly for a form.
    pub fn cell(&self) -> Option<CellId>
        ensures { result ≡ cell_of self.now.place }
    {
        match &self.place {
            Place::Form { .. } => None,
            Place::Part { cell, .. } => Some(*cell),
        }
    }

    /// The kind of the part, and `None` exactly for a form.
    pub fn kind(&self) -> Option<Kind>
        ensures { result ≡ kind_of self.now.place }
    {
        match &self.place {
            Place::Form { .. } => None,
            Place::Part { kind, .. } => Some(*kind),
        }
    }

    /// The number of the form that it is on, and `None` exactly for a part.
    pub fn form(&self) -> Option<u32>
        ensures { result ≡ form_of self.now.place }
    {
        match &self.place {
            Place::Form { number, .. } => Some(*number),
            Place::Part { .. } => None,
        }
    }

    /// The number of its claim.
    pub fn claim(&self) -> u128
        ensures { result ≡ self.now.claim }
    {
        self.claim
    }

    /// The term of the part, and `None` exactly for a form.
    pub fn term(&self) -> Option<&Term>
        ensures { option_copied result ≡ term_of self.now.place }
    {
        match &self.place {
            Place::Form { .. } => None,
            Place::Part { term, .. } => Some(term),
        }
    }

    /// The values of the forms begun before, in their order, with nil for one that gave none.
    pub fn outcomes(&self) -> &PVec<Value>
        ensures { result.now ≡ self.now.outcomes }
    {
        &self.outcomes
    }
}
