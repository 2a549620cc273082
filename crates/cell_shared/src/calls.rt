//! Each call takes the turn, does one event on the book, and gives the turn back.
ghost use Rattle.std.specs.Prelude.{◌≡◌, ◌<◌, ℕ, true, Contains, option_copied};
ghost use Rattle.cell_book.specs.Account.{Account};
ghost use Rattle.cell_book.specs.Steps.{asker_of, Begins, BeginAnswer, Makes, MakeAnswer, Looks, Kinds, FindsFuture, Claims, ClaimAnswer, Finishes, Fails, GivesUp};
ghost use Rattle.cell_book.specs.Glimpses.{glimpse, Owns, MayAsk, after_open, after_end};
ghost use Rattle.cell_shared.specs.Growing.{counted, Knows};

use crate::desk::{Change, change_of, closing, release, take};
use crate::shared::{Pass, SharedBook};
use cell_book::{CellLaw, ClaimRefusal, Look, MakeRefusal, Work};
use seq_base::Thrown;
use seq_values::{CellId, Kind, Term, Value};
use seq_vector::NoMemory;
use std::marker::Brand;
use std::sync::Wait;

impl<L: CellLaw> SharedBook<L> {
    pub(crate) fn begin_form<R: Wait>(
        &self,
        rt: &R,
        pass: &mut Pass,
        form: u32,
    ) -> Result<Work, NoMemory>
        requires own { (pass.old.table ≡ self.now.table) × (pass.old.leads ≡ true) }
        requires keeps { (a b : Account) (answer : BeginAnswer) → Knows pass.old.leads (L.keeps self.now.law) pass.old.seen (counted pass.old.claims) a → Begins a form answer b → L.keeps self.now.law b }
        ensures step { (a : Account) × Knows pass.old.leads (L.keeps self.now.law) pass.old.seen (counted pass.old.claims) a × Begins a form result pass.new.seen }
        ensures held { (c : ℕ) → counted pass.new.claims c ≡ after_open (counted pass.old.claims) result c }
        ensures table { (pass.new.table ≡ pass.old.table) × (pass.new.leads ≡ pass.old.leads) }
    {
        let desk = &self.table.shared;
        let mut book = take::<L, Brand, R>(desk, rt, &mut pass.chair);
        let answer = book.begin_form(form);
        let change = change_of(&answer);
        release::<L, Brand>(desk, &mut pass.chair, book, change);
        answer
    }

    pub(crate) fn make<R: Wait>(
        &self,
        rt: &R,
        pass: &mut Pass,
        by: &Work,
        term: Term,
        kind: Kind,
    ) -> Result<CellId, MakeRefusal>
        requires own { (pass.old.table ≡ self.now.table) × Owns (counted pass.old.claims) (glimpse pass.old.seen) by.now }
        requires keeps { (a b : Account) (answer : MakeAnswer) → Knows pass.old.leads (L.keeps self.now.law) pass.old.seen (counted pass.old.claims) a → Makes a by.now term kind answer b → L.keeps self.now.law b }
        ensures step { (a : Account) × Knows pass.old.leads (L.keeps self.now.law) pass.old.seen (counted pass.old.claims) a × Makes a by.now term kind result pass.new.seen }
        ensures held { pass.new.claims ≡ pass.old.claims }
        ensures table { (pass.new.table ≡ pass.old.table) × (pass.new.leads ≡ pass.old.leads) }
    {
        let desk = &self.table.shared;
        let mut book = take::<L, Brand, R>(desk, rt, &mut pass.chair);
        let answer = book.make(by, term, kind);
        release::<L, Brand>(desk, &mut pass.chair, book, Change::Keeps);
        answer
    }

    pub(crate) fn look<R: Wait>(
        &self,
        rt: &R,
        pass: &mut Pass,
        id: CellId,
    ) -> Result<Look, NoMemory>
        requires own { pass.old.table ≡ self.now.table }
        ensures step { (a : Account) × Knows pass.old.leads (L.keeps self.now.law) pass.old.seen (counted pass.old.claims) a × Looks a id result pass.new.seen }
        ensures held { pass.new.claims ≡ pass.old.claims }
        ensures table { (pass.new.table ≡ pass.old.table) × (pass.new.leads ≡ pass.old.leads) }
    {
        let desk = &self.table.shared;
        let book = take::<L, Brand, R>(desk, rt, &mut pass.chair);
        let answer = book.look(id);
        release::<L, Brand>(desk, &mut pass.chair, book, Change::Keeps);
        answer
    }

    pub(crate) fn kind<R: Wait>(&self, rt: &R, pass: &mut Pass, id: CellId) -> Option<Kind>
        requires own { pass.old.table ≡ self.now.table }
        ensures step { (a : Account) × Knows pass.old.leads (L.keeps self.now.law) pass.old.seen (counted pass.old.claims) a × Kinds a id result pass.new.seen }
        ensures held { pass.new.claims ≡ pass.old.claims }
        ensures table { (pass.new.table ≡ pass.old.table) × (pass.new.leads ≡ pass.old.leads) }
    {
        let desk = &self.table.shared;
        let book = take::<L, Brand, R>(desk, rt, &mut pass.chair);
        let answer = book.kind(id);
        release::<L, Brand>(desk, &mut pass.chair, book, Change::Keeps);
        answer
    }

    pub(crate) fn open_future<R: Wait>(&self, rt: &R, pass: &mut Pass) -> Option<CellId>
        requires own { pass.old.table ≡ self.now.table }
        ensures step { (a : Account) × Knows pass.old.leads (L.keeps self.now.law) pass.old.seen (counted pass.old.claims) a × FindsFuture a result pass.new.seen }
        ensures held { pass.new.claims ≡ pass.old.claims }
        ensures table { (pass.new.table ≡ pass.old.table) × (pass.new.leads ≡ pass.old.leads) }
    {
        let desk = &self.table.shared;
        let mut book = take::<L, Brand, R>(desk, rt, &mut pass.chair);
        let answer = book.open_future();
        release::<L, Brand>(desk, &mut pass.chair, book, Change::Keeps);
        answer
    }

    pub(crate) fn claim<R: Wait>(
        &self,
        rt: &R,
        pass: &mut Pass,
        id: CellId,
        by: Option<&Work>,
    ) -> Result<Work, ClaimRefusal>
        requires own { (pass.old.table ≡ self.now.table) × MayAsk (counted pass.old.claims) (glimpse pass.old.seen) id (option_copied by) }
        requires keeps { (a b : Account) (answer : ClaimAnswer) → Knows pass.old.leads (L.keeps self.now.law) pass.old.seen (counted pass.old.claims) a → Claims a id (asker_of (option_copied by)) answer b → L.keeps self.now.law b }
        ensures step { (a : Account) × Knows pass.old.leads (L.keeps self.now.law) pass.old.seen (counted pass.old.claims) a × Claims a id (asker_of (option_copied by.entry)) result pass.new.seen }
        ensures held { (c : ℕ) → counted pass.new.claims c ≡ after_open (counted pass.old.claims) result c }
        ensures table { (pass.new.table ≡ pass.old.table) × (pass.new.leads ≡ pass.old.leads) }
    {
        let desk = &self.table.shared;
        let mut book = take::<L, Brand, R>(desk, rt, &mut pass.chair);
        let answer = book.claim(id, by);
        let change = change_of(&answer);
        release::<L, Brand>(desk, &mut pass.chair, book, change);
        answer
    }

    pub(crate) fn finish<R: Wait>(&self, rt: &R, pass: &mut Pass, work: Work, value: Value)
        requires own { (pass.old.table ≡ self.now.table) × Owns (counted pass.old.claims) (glimpse pass.old.seen) work }
        requires keeps { (a b : Account) → Knows pass.old.leads (L.keeps self.now.law) pass.old.seen (counted pass.old.claims) a → Finishes a work value b → L.keeps self.now.law b }
        ensures step { (a : Account) × Knows pass.old.leads (L.keeps self.now.law) pass.old.seen (counted pass.old.claims) a × Finishes a work value pass.new.seen }
        ensures held { (c : ℕ) → counted pass.new.claims c ≡ after_end (counted pass.old.claims) work c }
        ensures table { (pass.new.table ≡ pass.old.table) × (pass.new.leads ≡ pass.old.leads) }
    {
        let desk = &self.table.shared;
        let change = closing(&work);
        let mut book = take::<L, Brand, R>(desk, rt, &mut pass.chair);
        book.finish(work, value);
        release::<L, Brand>(desk, &mut pass.chair, book, change);
    }

    pub(crate) fn fail<R: Wait>(&self, rt: &R, pass: &mut Pass, work: Work, why: Thrown)
        requires own { (pass.old.table ≡ self.now.table) × Owns (counted pass.old.claims) (glimpse pass.old.seen) work }
        requires keeps { (a b : Account) → Knows pass.old.leads (L.keeps self.now.law) pass.old.seen (counted pass.old.claims) a → Fails a work why b → L.keeps self.now.law b }
        ensures step { (a : Account) × Knows pass.old.leads (L.keeps self.now.law) pass.old.seen (counted pass.old.claims) a × Fails a work why pass.new.seen }
        ensures held { (c : ℕ) → counted pass.new.claims c ≡ after_end (counted pass.old.claims) work c }
        ensures table { (pass.new.table ≡ pass.old.table) × (pass.new.leads ≡ pass.old.leads) }
    {
        let desk = &self.table.shared;
        let change = closing(&work);
        let mut book = take::<L, Brand, R>(desk, rt, &mut pass.chair);
        book.fail(work, why);
        release::<L, Brand>(desk, &mut pass.chair, book, change);
    }

    pub(crate) fn give_up<R: Wait>(&self, rt: &R, pass: &mut Pass, work: Work)
        requires own { (pass.old.table ≡ self.now.table) × Owns (counted pass.old.claims) (glimpse pass.old.seen) work }
        requires keeps { (a b : Account) → Knows pass.old.leads (L.keeps self.now.law) pass.old.seen (counted pass.old.claims) a → GivesUp a work b → L.keeps self.now.law b }
        ensures step { (a : Account) × Knows pass.old.leads (L.keeps self.now.law) pass.old.seen (counted pass.old.claims) a × GivesUp a work pass.new.seen }
        ensures held { (c : ℕ) → counted pass.new.claims c ≡ after_end (counted pass.old.claims) work c }
        ensures table { (pass.new.table ≡ pass.old.table) × (pass.new.leads ≡ pass.old.leads) }
    {
        let desk = &self.table.shared;
        let change = closing(&work);
        let mut book = take::<L, Brand, R>(desk, rt, &mut pass.chair);
        book.give_up(work);
        release::<L, Brand>(desk, &mut pass.chair, book, change);
    }
}
