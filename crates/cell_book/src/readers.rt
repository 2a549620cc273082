//! Reading a book. None of these takes memory.
ghost use Rattle.std.specs.Prelude.{◌≡◌, ◌≢◌, ◌<◌, ℕ, Some, slice_get, option_copied, option_map};
ghost use Rattle.cell_book.specs.declared.cell.Form.{Form as Begun};
ghost use Rattle.cell_book.specs.Account.{cell_at};
ghost use Rattle.cell_book.specs.Registers.{WasOpened};
ghost use Rattle.cell_book.specs.declared.claims.Spot.TheVariants as Spots;
ghost use Rattle.cell_book.specs.Readers.{maker_at, attempt_in, value_in, IsLowestOpen, IsAskerOf, FindsForm, IsFormClaim, form_value_in, IsFormValue};

use crate::book::{Book, place_of};
use crate::cell::{ClaimEnd, Form, State};
use crate::claims::Spot;
use seq_values::{CellId, Value};

impl Book {
    /// How many parts it may have.
    pub fn limit(&self) -> u32
        ensures { result ≡ self.now.limit }
    {
        self.limit
    }

    /// Whether a make was refused because the limit was reached.
    pub fn is_spent(&self) -> bool
        ensures { result ≡ self.now.spent }
    {
        self.spent
    }

    /// Whether a work was given up.
    pub fn has_given_up(&self) -> bool
        ensures { result ≡ self.now.gave_up }
    {
        self.gave_up
    }

    /// The open claim with the lowest number, and `None` exactly where none is open.
    #[tactic(auto, using(crate::proofs::Finding::lowest_open))]
    pub fn open_claim(&self) -> Option<u128>
        ensures { IsLowestOpen self.now result }
    {
        self.claims.lowest()
    }

    /// The claim that asked for a claim, if another one did; `None` exactly for a number that is no claim.
    #[tactic(auto, using(crate::proofs::Finding::none_asks, crate::proofs::Finding::spotted))]
    pub fn asker(&self, claim: u128) -> Option<Option<u128>>
        ensures { IsAskerOf self.now claim result }
    {
        match self.claims.spot(claim) {
            None => None,
            Some(spot) => self.asker_at(claim, &spot),
        }
    }

    /// Who asked for the claim that was opened at a spot.
    fn asker_at(&self, claim: u128, spot: &Spot) -> Option<Option<u128>>
        requires { WasOpened self.now claim spot.now }
        ensures { IsAskerOf self.now claim result }
    {
        match spot {
            Spot::Form { at } => self.form_asker(claim, *at),
            Spot::Part { cell, at } => self.part_asker(claim, *cell, *at),
        }
    }

    /// Who asked for the claim on the form at a place.
    #[tactic(auto, using(crate::proofs::Finding::form_is_there, crate::proofs::Finding::form_asks))]
    fn form_asker(&self, claim: u128, at: usize) -> Option<Option<u128>>
        requires { WasOpened self.now claim (Spots.Form at) }
        ensures { IsAskerOf self.now claim result }
    {
        match self.forms.get(at) {
            None => unreachable!(),
            Some(form) => Some(form.attempt.asker),
        }
    }

    /// Who asked for the claim that is the attempt at a place on a part.
    #[tactic(auto, using(crate::proofs::Finding::part_is_there, crate::proofs::Finding::attempt_is_there, crate::proofs::Finding::part_asks))]
    fn part_asker(&self, claim: u128, id: CellId, at: usize) -> Option<Option<u128>>
        requires { WasOpened self.now claim (Spots.Part id at) }
        ensures { IsAskerOf self.now claim result }
    {
        let Some(part) = self.cells.get(place_of(id)) else {
            unreachable!()
        };
        match part.attempts.get(at) {
            None => unreachable!(),
            Some(attempt) => Some(attempt.asker),
        }
    }

    /// The claim that made a part, and how many parts it had made with it; `None` exactly for a number not made.
    pub fn maker(&self, id: CellId) -> Option<(u128, u32)>
        ensures { result ≡ option_map maker_at (cell_at self.now id) }
    {
        match self.cells.get(place_of(id)) {
            None => None,
            Some(cell) => Some((cell.maker, cell.ordinal)),
        }
    }

    /// The claim on a part at a place among those on it, with how it ended; `None` exactly where there is none.
    pub fn attempt(&self, id: CellId, at: usize) -> Option<(u128, ClaimEnd)>
        ensures { result ≡ attempt_in (cell_at self.now id) at }
    {
        let attempt = self.cells.get(place_of(id))?.attempts.get(at)?;
        Some((attempt.claim, attempt.end))
    }

    /// The value of a part, and `None` exactly where it isn't done.
    pub fn value(&self, id: CellId) -> Option<&Value>
        ensures { option_copied result ≡ value_in (cell_at self.now id) }
    {
        match &self.cells.get(place_of(id))?.state {
            State::Done(value) => Some(value),
            _ => None,
        }
    }

    /// The claim on a form, with how it ended; `None` exactly for a form not begun.
    #[tactic(auto, using(crate::proofs::Finding::claim_found))]
    pub fn form_claim(&self, form: u32) -> Option<(u128, ClaimEnd)>
        ensures { IsFormClaim self.now form result }
    {
        match find_form(&self.forms, form) {
            Some(form) => Some((form.attempt.claim, form.attempt.end)),
            None => None,
        }
    }

    /// The value that a form gave, and `None` exactly where it gave none.
    #[tactic(auto, using(crate::proofs::Finding::value_found))]
    pub fn form_value(&self, form: u32) -> Option<&Value>
        ensures { IsFormValue self.now form (option_copied result) }
    {
        value_of(find_form(&self.forms, form))
    }
}

/// The value of a form, if there is one and it gave one.
fn value_of(form: Option<&Form>) -> Option<&Value>
    ensures { option_copied result ≡ form_value_in (option_copied form.entry) }
{
    match form {
        None => None,
        Some(form) => form.value.as_ref(),
    }
}

/// The form with a number: the one at that place, or the first.
#[tactic(auto, using(crate::proofs::Finding::finds_at, crate::proofs::Finding::finds_first))]
fn find_form(forms: &Vec<Form>, number: u32) -> Option<&Form>
    ensures { FindsForm forms.now.items number (option_copied result) }
{
    if number > 0 {
        if let Some(form) = forms.get(number as usize - 1) {
            if form.number == number {
                return Some(form);
            }
        }
    }
    forms.get(first_numbered(forms, number))
}

/// The place of the first form with a number, or how many forms there are.
#[tactic(auto, using(crate::proofs::Finding::forms_next, crate::proofs::Finding::forms_found, crate::proofs::Finding::forms_past))]
fn first_numbered(forms: &Vec<Form>, number: u32) -> usize
    ensures before { (k : ℕ) (f : Begun) → k < result → slice_get forms.now.items k ≡ Some f → f.number ≢ number }
    ensures at { (f : Begun) → slice_get forms.now.items result ≡ Some f → f.number ≡ number }
{
    let mut at = 0;
    while at < forms.len() {
        if forms[at].number == number {
            return at;
        }
        at += 1;
    }
    at
}
