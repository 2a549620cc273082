//! The calls of a pass.
ghost use Rattle.std.specs.Prelude.{◌≡◌, ◌<◌, ℕ, true, Contains, IfOk, IfErr, IfSome};
ghost use Rattle.cell_book.specs.Account.{Account};

use crate::shared::{Pass, SharedBook};
use cell_book::{CellLaw, Cells, ClaimRefusal, Look, MakeRefusal, Work};
use seq_base::Thrown;
use seq_values::{CellId, Kind, Term, Value};
use seq_vector::NoMemory;
use std::sync::Wait;

/// A shared book and a pass that is lent for calls. Each call is one step on the book as it then is.
#[derive(Drop)]
pub struct Viewed<'a, L: CellLaw, R: Wait> {
    pub(crate) rt: &'a R,
    pub(crate) book: &'a SharedBook<L>,
    pub(crate) pass: &'a mut Pass,
}

impl<L: CellLaw, R: Wait> Cells for Viewed<'_, L, R> {
    ghost use Rattle.std.specs.Prelude.{◌≡◌, false};
    ghost use Rattle.std.proofs.Common.{refl, sym, ap, subst, true≢false, ◌∙◌};
    ghost use Rattle.cell_book.specs.Glimpses.{glimpse};
    ghost use Rattle.cell_shared.specs.Growing.{counted, Noted};
    ghost use Rattle.cell_shared.specs.Known.{Ruled};

    ghost seen = { λ s. glimpse s.pass.now.seen };

    ghost held = { λ s. counted s.pass.now.claims };

    ghost law = { λ s. L.keeps s.book.now.law };

    ghost alone = { λ _. false };

    ghost leads = { λ s. s.pass.now.leads };

    ghost noted = { λ s. Noted s.pass.now.leads s.pass.now.seen };

    ghost ready = { λ s. s.pass.now.table ≡ s.book.now.table };

    ghost same = { λ s t. (t.pass.ghost_name ≡ s.pass.ghost_name) × (t.pass.now.table ≡ s.pass.now.table) × (t.book.now ≡ s.book.now) × (t.pass.now.leads ≡ s.pass.now.leads) };

    ghost same_self = { λ s. (refl, refl, refl, refl) };

    ghost same_further = { λ s t u e f. (f.0 ∙ e.0, f.1 ∙ e.1, f.2 ∙ e.2, f.3 ∙ e.3) };

    ghost same_ready = { λ s t e r. e.1 ∙ r ∙ ap (λ (x : Ruled L). x.table) (sym e.2) };

    ghost same_alone = { λ s t e. refl };

    ghost same_leads = { λ s t e. e.3 };

    ghost same_law = { λ s t e b. ((λ l. subst (λ (x : Ruled L). L.keeps x.law b) (sym e.2) l), λ l. subst (λ (x : Ruled L). L.keeps x.law b) e.2 l) };

    ghost noted_one = { λ s a b e f. e.2 ∙ sym f.2 };

    ghost alone_leads = { λ s is. absurd (true≢false (sym is)) };

    ghost alone_all = { λ s is b n. absurd (true≢false (sym is)) };

    ghost alone_free = { λ s is b. absurd (true≢false (sym is)) };

    fn begin_form(&mut self, form: u32) -> Result<Work, NoMemory> {
        self.book.begin_form(self.rt, self.pass, form)
    }

    fn make(&mut self, by: &Work, term: Term, kind: Kind) -> Result<CellId, MakeRefusal> {
        self.book.make(self.rt, self.pass, by, term, kind)
    }

    fn look(&mut self, id: CellId) -> Result<Look, NoMemory> {
        self.book.look(self.rt, self.pass, id)
    }

    fn kind(&mut self, id: CellId) -> Option<Kind> {
        self.book.kind(self.rt, self.pass, id)
    }

    fn open_future(&mut self) -> Option<CellId> {
        self.book.open_future(self.rt, self.pass)
    }

    fn claim(&mut self, id: CellId, by: Option<&Work>) -> Result<Work, ClaimRefusal> {
        self.book.claim(self.rt, self.pass, id, by)
    }

    fn finish(&mut self, work: Work, value: Value) {
        self.book.finish(self.rt, self.pass, work, value);
    }

    fn fail(&mut self, work: Work, why: Thrown) {
        self.book.fail(self.rt, self.pass, work, why);
    }

    fn give_up(&mut self, work: Work) {
        self.book.give_up(self.rt, self.pass, work);
    }
}
