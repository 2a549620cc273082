ghost use Rattle.std.specs.Prelude.{◌≡◌, ◌+◌, ◌≤◌, ◌<◌, ◌⊎◌, ◌∷◌, ◌++◌, [], ℕ, List, Option, Some, None, length, take, true, false, slice_get, slice_set, vec_len, ◌≢◌, option_copied, option_map, unwrap_or, IfOk, OnOk, OnErr, IfErr, IfSome, MatchResult};
ghost use Rattle.cell_book.specs.declared.cell.Cell.{Cell as Part};
ghost use Rattle.cell_book.specs.declared.cell.Attempt.{Attempt as Record};
ghost use Rattle.cell_book.specs.declared.claims.Spot.TheVariants as Spots;
ghost use Rattle.cell_book.specs.Counts.{totals_of};
ghost use Rattle.cell_book.specs.Account.{Account, new_book, cell_at, is_open, forces, made_by, IsFresh};
ghost use Rattle.cell_book.specs.Steps.{shown, term_at, kind_at, asker_of, begun_form, with_cell, after_claim, is_barred, cell_counts, form_counts, claimed, failed_state, fresh_cell, HasCount, Begins, Makes, FindsFuture, Opens, Claims as Claimed, EndsForm, Finishes, Fails, GivesUp, HasOpen, IsOpenIn, IsOpenAsker};
ghost use Rattle.cell_book.specs.Kept.{is_open_future, lowered_to, IsPastFutures};
ghost use Rattle.cell_book.specs.declared.cell.ClaimEnd.TheVariants as End;
ghost use Rattle.cell_book.specs.declared.answers.Look.TheVariants as Look;
ghost use Rattle.cell_book.specs.declared.answers.MakeRefusal.TheVariants as Refusal;

use crate::answers::{ClaimRefusal, Look, MakeRefusal, Totals};
use crate::attempts::Attempts;
use crate::cell::{Cell, ClaimEnd, Form, State};
use crate::claims::{Claims, Spot};
use crate::settled::{Settled, outcomes_of};
use crate::work::{Place, Work};
use seq_base::Thrown;
use seq_values::{CellId, Kind, Term, Value};
use seq_vector::{NoMemory, Share};
use std::alloc::Global;
use std::marker::Model;

/// A book of cells and of the forms begun.
#[derive(Drop)]
pub struct Book {
    alloc: Global,
    pub(crate) limit: u32,
    pub(crate) cells: Vec<Cell>,
    pub(crate) forms: Vec<Form>,
    pub(crate) spent: bool,
    pub(crate) gave_up: bool,
    // How many parts the last claim on each cell, and on each form, has made.
    cell_makes: Vec<u32>,
    form_makes: Vec<u32>,
    // The values of the first forms.
    settled: Settled,
    pub(crate) claims: Claims,
    // No future before this place is empty.
    first_future: usize,
    // The parts that gave a value, and the evaluations of parts that threw.
    realised: u32,
    failed: u128,
}

impl Model for Book {
    ghost use Rattle.cell_book.specs.Account.{Account};
    ghost use Rattle.cell_book.specs.Kept.{IsWhole};
    ghost use Rattle.std.specs.Coded.{codes};
    ghost use Rattle.seq_values.specs.contracts.value.Value as value;

    ghost Value = { Account };

    ghost coded = { Prim.hlevel (codes, value.the_row.coded) };

    ghost view = { λ b. record { limit = b.limit; cells = b.cells.items; forms = b.forms.items; spent = b.spent; gave_up = b.gave_up } };

    ghost invariant = { λ b. IsWhole (record { limit = b.limit; cells = b.cells.items; forms = b.forms.items; spent = b.spent; gave_up = b.gave_up }) b.cell_makes.items b.form_makes.items b.settled b.claims b.first_future b.realised b.failed };
}

/// The place of a cell in the book.
pub(crate) fn place_of(id: CellId) -> usize
    ensures { result + 1 ≡ id }
{
    (id.number() - 1) as usize
}

/// One more item, with a count of its own that begins at 0. The item is handed back where there is no memory.
fn push_counted<T>(items: &mut Vec<T>, counts: &mut Vec<u32>, item: T) -> Result<(), T>
    ensures ok { OnOk result ((items.new.items ≡ items.old.items ++ item ∷ []) × (counts.new.items ≡ counts.old.items ++ 0 ∷ [])) }
    ensures err { IfErr result (λ back. (back ≡ item) × (items.new.items ≡ items.old.items) × (counts.new.items ≡ counts.old.items)) }
{
    if counts.push(0).is_err() {
        return Err(item);
    }
    match items.push(item) {
        Ok(()) => Ok(()),
        Err(failed) => {
            counts.pop();
            Err(failed.value)
        }
    }
}

/// One more form with an open claim, and a count of its own that begins at 0. Where there is no memory nothing changes.
fn begin_counted(
    forms: &mut Vec<Form>,
    counts: &mut Vec<u32>,
    claims: &mut Claims,
    number: u32,
) -> Result<(), NoMemory>
    ensures ok { OnOk result ((forms.new.items ≡ forms.old.items ++ begun_form number (length claims.old) ∷ []) × (counts.new.items ≡ counts.old.items ++ 0 ∷ []) × (claims.new ≡ claims.old ++ record { spot = Spots.Form (length forms.old.items); ended = false } ∷ [])) }
    ensures err { OnErr result ((forms.new.items ≡ forms.old.items) × (counts.new.items ≡ counts.old.items) × (claims.new ≡ claims.old)) }
{
    let begun = Form::begun(number, claims.len() as u128);
    claims.add(Spot::Form { at: forms.len() })?;
    match push_counted(forms, counts, begun) {
        Ok(()) => Ok(()),
        Err(_) => {
            claims.take_back();
            Err(NoMemory)
        }
    }
}

/// The number of the cell after so many.
fn next_id(count: usize) -> CellId
    requires { count < 4294967295 }
    ensures { result ≡ count + 1 }
{
    match CellId::of(count as u32 + 1) {
        Some(id) => id,
        None => unreachable!(),
    }
}

/// A cell that a work makes. It shares the values that the work has. The term is handed back where there is no memory.
fn made_cell(
    alloc: Global,
    by: &Work,
    term: Term,
    kind: Kind,
    ordinal: u32,
) -> Result<Cell, MakeRefusal>
    ensures { MatchResult result (λ p. p ≡ fresh_cell by.now term kind ordinal) (λ r. r ≡ Refusal.Memory term) }
{
    match by.outcomes.share() {
        Err(_) => Err(MakeRefusal::Memory(term)),
        Ok(outcomes) => Ok(Cell {
            term,
            kind,
            maker: by.claim,
            ordinal,
            outcomes,
            state: State::Empty,
            attempts: Attempts::new(alloc),
        }),
    }
}

/// One more cell, with a count of its own that begins at 0. Where there is no memory nothing changes, and its term is handed back.
fn add_cell(cells: &mut Vec<Cell>, counts: &mut Vec<u32>, cell: Cell) -> Result<(), MakeRefusal>
    ensures ok { OnOk result ((cells.new.items ≡ cells.old.items ++ cell ∷ []) × (counts.new.items ≡ counts.old.items ++ 0 ∷ [])) }
    ensures err { IfErr result (λ r. (r ≡ Refusal.Memory cell.term) × (cells.new.items ≡ cells.old.items) × (counts.new.items ≡ counts.old.items)) }
{
    match push_counted(cells, counts, cell) {
        Ok(()) => Ok(()),
        Err(cell) => {
            let Cell { term, .. } = cell;
            Err(MakeRefusal::Memory(term))
        }
    }
}

/// Writes how many parts the work on this place has made.
fn count_make(place: &Place, cell_makes: &mut Vec<u32>, form_makes: &mut Vec<u32>, made: u32)
    requires { HasCount place.now cell_makes.old.items form_makes.old.items }
    ensures cells { cell_makes.new.items ≡ cell_counts place.now cell_makes.old.items made }
    ensures forms { form_makes.new.items ≡ form_counts place.now form_makes.old.items made }
{
    match place {
        Place::Form { at, .. } => form_makes[*at] = made,
        Place::Part { cell, .. } => cell_makes[place_of(*cell)] = made,
    }
}

/// Opens a claim on the cell at a place, whose number is this. Where there is no memory nothing changes.
fn open_cell(
    cells: &mut Vec<Cell>,
    claims: &mut Claims,
    at: usize,
    id: CellId,
    alloc: Global,
    asker: Option<u128>,
) -> Result<(), NoMemory>
    requires { at < vec_len cells.old }
    ensures ok { OnOk result ((p : Part) → slice_get cells.old.items at ≡ Some p → (cells.new.items ≡ slice_set cells.old.items at (claimed p (length claims.old) asker)) × (claims.new ≡ claims.old ++ record { spot = Spots.Part id (length p.attempts); ended = false } ∷ [])) }
    ensures err { OnErr result ((cells.new.items ≡ cells.old.items) × (claims.new ≡ claims.old)) }
{
    let claim = claims.len() as u128;
    let place = cells[at].attempts.len();
    claims.add(Spot::Part {
        cell: id,
        at: place,
    })?;
    match cells[at].open(alloc, claim, asker) {
        Ok(()) => Ok(()),
        Err(why) => {
            claims.take_back();
            Err(why)
        }
    }
}

/// The place below which no future is empty, after the cell at a place came to this state.
fn lowered(first: usize, at: usize, kind: Kind, state: &State) -> usize
    ensures { result ≡ lowered_to first at kind state.now }
{
    match (kind, state) {
        (Kind::Future, State::Empty) => first.min(at),
        _ => first,
    }
}

/// The place of the first empty future from here on, or how many cells there are.
#[tactic(auto, using(crate::proofs::Counting::past_next, crate::proofs::Counting::future_found, crate::proofs::Counting::future_past))]
fn future_from(cells: &Vec<Cell>, from: usize) -> usize
    requires { IsPastFutures cells.now.items from }
    ensures past { IsPastFutures cells.now.items result }
    ensures found { (p : Part) → slice_get cells.now.items result ≡ Some p → is_open_future p ≡ true }
{
    let mut at = from;
    while at < cells.len() {
        if cells[at].is_open_future() {
            return at;
        }
        at += 1;
    }
    at
}

/// The number of the cell at a place, if there is one.
fn id_at(cells: &Vec<Cell>, at: usize) -> Option<CellId>
    requires { length cells.now.items ≤ 4294967295 }
    ensures there { at < length cells.now.items → result ≡ Some (at + 1) }
    ensures past { length cells.now.items ≤ at → result ≡ None }
{
    if at < cells.len() {
        Some(next_id(at))
    } else {
        None
    }
}

impl Book {
    /// A book with no cell and no claim. `cells` is how many cells it may have.
    #[tactic(auto, using(crate::proofs::Wholes::new_whole))]
    pub fn new(alloc: Global, cells: u32) -> Result<Book, NoMemory>
        ensures { IfOk result (λ book. book ≡ new_book cells) }
    {
        Ok(Book {
            alloc,
            limit: cells,
            cells: Vec::new(alloc),
            forms: Vec::new(alloc),
            spent: false,
            gave_up: false,
            cell_makes: Vec::new(alloc),
            form_makes: Vec::new(alloc),
            settled: Settled::new(),
            claims: Claims::new(alloc),
            first_future: 0,
            realised: 0,
            failed: 0,
        })
    }

    /// What is counted of its parts. It takes no memory, and reads counts that the book keeps.
    pub fn totals(&self) -> Totals
        ensures { result ≡ totals_of self.now.cells }
    {
        // There are no more of them than the limit, which is a u32.
        let _limit = self.limit;
        Totals {
            made: self.cells.len() as u32,
            realised: self.realised,
            failed: self.failed,
        }
    }

    /// The term of a part, and `None` exactly for a number not made.
    pub fn term(&self, id: CellId) -> Option<&Term>
        ensures { option_copied result ≡ option_map term_at (cell_at self.now id) }
    {
        match self.cells.get(place_of(id)) {
            None => None,
            Some(cell) => Some(&cell.term),
        }
    }

    /// The kind of a part, and `None` exactly for a number not made.
    pub fn kind(&self, id: CellId) -> Option<Kind>
        ensures { result ≡ option_map kind_at (cell_at self.now id) }
    {
        match self.cells.get(place_of(id)) {
            None => None,
            Some(cell) => Some(cell.kind),
        }
    }

    /// Begins a form, with a claim on it.
    pub fn begin_form(&mut self, form: u32) -> Result<Work, NoMemory>
        ensures { Begins self.old form result self.new }
    {
        let outcomes = outcomes_of(self.alloc, &self.settled, &self.forms)?;
        let kept = outcomes.share()?;
        let claim = self.claims.len() as u128;
        let at = self.forms.len();
        begin_counted(
            &mut self.forms,
            &mut self.form_makes,
            &mut self.claims,
            form,
        )?;
        self.settled = Settled::of(kept);
        Ok(Work {
            place: Place::Form { number: form, at },
            claim,
            outcomes,
        })
    }

    /// What a part's state is. The value of a part is shared.
    pub fn look(&self, id: CellId) -> Result<Look, NoMemory>
        ensures { IfOk result (λ l. l ≡ shown (cell_at self.now id)) }
    {
        match self.cells.get(place_of(id)) {
            None => Ok(Look::Unknown),
            Some(cell) => cell.state.look(),
        }
    }

    /// How many parts the work has made.
    fn made_so_far(&self, by: &Work) -> u32
        requires { IsOpenIn self.now by.now }
        ensures { result ≡ length (made_by by.now.claim self.now) }
    {
        match &by.place {
            Place::Form { at, .. } => self.form_makes[*at],
            Place::Part { cell, .. } => self.cell_makes[place_of(*cell)],
        }
    }

    #[tactic(auto, using(crate::proofs::Calls::made_within))]
    /// Makes a part. At the limit nothing is made, and the book notes it.
    pub fn make(&mut self, by: &Work, term: Term, kind: Kind) -> Result<CellId, MakeRefusal>
        requires open { IsOpenIn self.old by.now }
        ensures { Makes self.old by.now term kind result self.new }
    {
        let count = self.cells.len();
        if count as u64 == self.limit as u64 {
            self.spent = true;
            return Err(MakeRefusal::Spent(term));
        }
        let made = self.made_so_far(by) + 1;
        let cell = made_cell(self.alloc, by, term, kind, made)?;
        add_cell(&mut self.cells, &mut self.cell_makes, cell)?;
        count_make(&by.place, &mut self.cell_makes, &mut self.form_makes, made);
        Ok(next_id(count))
    }

    /// Opens a claim on an empty part.
    pub fn claim(&mut self, id: CellId, by: Option<&Work>) -> Result<Work, ClaimRefusal>
        requires asker { IsOpenAsker self.old (option_copied by) }
        ensures { Claimed self.old id (asker_of (option_copied by.entry)) result self.new }
    {
        let asker = match by {
            None => None,
            Some(work) => Some(work.claim),
        };
        match self.look(id) {
            Err(_) => Err(ClaimRefusal::Memory),
            Ok(Look::Empty) => {
                if self.gave_up && !self.spent {
                    return Err(ClaimRefusal::GaveUp);
                }
                match self.open(id, asker) {
                    Ok(work) => Ok(work),
                    Err(_) => Err(ClaimRefusal::Memory),
                }
            }
            Ok(seen) => Err(ClaimRefusal::Seen(seen)),
        }
    }

    /// The empty future with the lowest number, and `None` exactly where no future is empty.
    #[tactic(auto, using(crate::proofs::Wholes::found_whole))]
    pub fn open_future(&mut self) -> Option<CellId>
        ensures { FindsFuture self.old result self.new }
    {
        let at = future_from(&self.cells, self.first_future);
        self.first_future = at;
        id_at(&self.cells, at)
    }

    /// Opens a claim on a part that is empty.
    fn open(&mut self, id: CellId, asker: Option<u128>) -> Result<Work, NoMemory>
        requires empty { shown (cell_at self.old id) ≡ Look.Empty }
        requires asker { (c : ℕ) → IsFresh self.old c → asker ≢ Some c }
        ensures { MatchResult result (λ w. Opens self.old id asker w self.new) (λ _. self.new ≡ self.old) }
    {
        let at = place_of(id);
        let kind = self.cells[at].kind;
        let term = self.cells[at].term.share()?;
        let outcomes = self.cells[at].outcomes.share()?;
        let claim = self.claims.len() as u128;
        open_cell(&mut self.cells, &mut self.claims, at, id, self.alloc, asker)?;
        self.cell_makes[at] = 0;
        Ok(Work {
            place: Place::Part {
                cell: id,
                kind,
                term,
            },
            claim,
            outcomes,
        })
    }

    /// Ends the open claim on a form.
    fn end_form(&mut self, at: usize, claim: u128, end: ClaimEnd, value: Option<Value>)
        requires begun { (number : ℕ) × (slice_get self.old.forms at ≡ Some (begun_form number claim)) }
        requires ended { is_open end ≡ false }
        ensures { (number : ℕ) → slice_get self.old.forms at ≡ Some (begun_form number claim) → EndsForm self.old at number claim end value self.new }
    {
        self.settled.forget_from(at);
        self.forms[at].end(end, value);
        self.claims.close(claim);
    }

    /// Ends the open claim on a part, which leaves it in this state.
    fn end_part(&mut self, id: CellId, claim: u128, end: ClaimEnd, state: State)
        requires forced { (p : Part) × (asker : Option ℕ) × (past : List Record) × (cell_at self.old id ≡ Some p) × HasOpen p claim asker past }
        requires idle { (c : ℕ) → forces c state ≡ false }
        requires ended { is_open end ≡ false }
        ensures { (p : Part) (asker : Option ℕ) (past : List Record) → cell_at self.old id ≡ Some p → HasOpen p claim asker past → self.new ≡ with_cell self.old id (after_claim p claim asker past end state) }
    {
        // The limit bounds the parts, and the number of claims the errors.
        let _limit = self.limit;
        let _claims = self.claims.len();
        let at = place_of(id);
        self.realised += state.realised();
        self.failed += end.failed();
        self.first_future = lowered(self.first_future, at, self.cells[at].kind, &state);
        self.cells[at].end(end, state);
        self.claims.close(claim);
    }

    /// Ends the open claim on a part by an error.
    fn fail_part(&mut self, id: CellId, claim: u128, why: Thrown)
        requires { (p : Part) × (asker : Option ℕ) × (past : List Record) × (cell_at self.old id ≡ Some p) × HasOpen p claim asker past }
        ensures { (p : Part) (asker : Option ℕ) (past : List Record) → cell_at self.old id ≡ Some p → HasOpen p claim asker past → self.new ≡ with_cell self.old id (after_claim p claim asker past (End.Error why) (failed_state why p.kind)) }
    {
        let state = State::after_error(why, self.cells[place_of(id)].kind);
        self.end_part(id, claim, ClaimEnd::Error(why), state);
    }

    /// The part is done, or the form has ended, with this value.
    pub fn finish(&mut self, work: Work, value: Value)
        requires open { IsOpenIn self.old work }
        ensures { Finishes self.old work value self.new }
    {
        let Work {
            place,
            claim,
            outcomes: _outcomes,
        } = work;
        match place {
            Place::Form { at, .. } => self.end_form(at, claim, ClaimEnd::Value, Some(value)),
            Place::Part { cell, .. } => self.end_part(
                cell,
                claim,
                ClaimEnd::Value,
                State::Done(value),
            ),
        }
    }

    /// A lazy part is empty again, a future has failed, and a form has ended without a value.
    pub fn fail(&mut self, work: Work, why: Thrown)
        requires open { IsOpenIn self.old work }
        ensures { Fails self.old work why self.new }
    {
        let Work {
            place,
            claim,
            outcomes: _outcomes,
        } = work;
        match place {
            Place::Form { at, .. } => self.end_form(at, claim, ClaimEnd::Error(why), None),
            Place::Part { cell, .. } => self.fail_part(cell, claim, why),
        }
    }

    /// The part is empty again, or the form has ended without a value, and the book notes that a work was given up.
    pub fn give_up(&mut self, work: Work)
        requires open { IsOpenIn self.old work }
        ensures { GivesUp self.old work self.new }
    {
        let Work {
            place,
            claim,
            outcomes: _outcomes,
        } = work;
        match place {
            Place::Form { at, .. } => self.end_form(at, claim, ClaimEnd::GivenUp, None),
            Place::Part { cell, .. } => self.end_part(cell, claim, ClaimEnd::GivenUp, State::Empty),
        }
        self.gave_up = true;
    }
}
