//! A book that is lent under a law, as if others had it too: the trait is met by what isn't alone.
ghost use Rattle.std.specs.Prelude.{◌≡◌};
ghost use Rattle.cell_book.specs.Account.{IsSound};

use cell_book::{Book, CellLaw, Cells, ClaimRefusal, Look, MakeRefusal, Work};
use seq_base::Thrown;
use seq_values::{CellId, Kind, Term, Value};
use seq_vector::NoMemory;

/// A book that isn't alone.
#[derive(Drop)]
pub struct Lent<'a, L> {
    book: &'a mut Book,
    law: L,
}

impl<'a, L: CellLaw> Lent<'a, L> {
    /// The calls on this book, which meets the law.
    pub fn over(book: &'a mut Book, law: L) -> Lent<'a, L>
        requires law { L.keeps law book.old }
        requires sound { IsSound book.old }
        ensures { ⟦<Lent<'a, L> as Cells>⟧.ready result }
    {
        Lent { book, law }
    }
}

impl<L: CellLaw> Cells for Lent<'_, L> {
    ghost use Rattle.std.specs.Prelude.{◌≡◌, true, false};
    ghost use Rattle.std.proofs.Common.{refl, sym, ◌∙◌};
    ghost use Rattle.cell_book.specs.Account.{Account, opens, IsSound};
    ghost use Rattle.cell_book.specs.Glimpses.{glimpse};
    ghost use Rattle.book_tests.specs.Laws.{alike_then, not_alone};

    ghost seen = { λ s. glimpse s.book.now };

    ghost held = { λ s c. opens c s.book.now };

    ghost law = { λ s. L.keeps s.law };

    ghost alone = { λ _. false };

    ghost leads = { λ _. true };

    ghost noted = { λ s b. b ≡ s.book.now };

    ghost ready = { λ s. L.keeps s.law s.book.now × IsSound s.book.now };

    ghost same = { λ s t. (s.book.ghost_name ≡ t.book.ghost_name) × (s.law ≡ t.law) × (L.keeps s.law s.book.now × IsSound s.book.now → L.keeps t.law t.book.now × IsSound t.book.now) };

    ghost same_self = { λ s. (refl, refl, λ l. l) };

    ghost same_further = { λ s t u e f. (e.0 ∙ f.0, e.1 ∙ f.1, λ l. f.2 (e.2 l)) };

    ghost same_ready = { λ s t e r. e.2 r };

    ghost same_alone = { λ s t e. refl };

    ghost same_leads = { λ s t e. refl };

    ghost same_law = { λ s t e. alike_then L.keeps s.law t.law e.1 };

    ghost noted_one = { λ s a b e f. e ∙ sym f };

    ghost alone_leads = { λ s is. refl };

    ghost alone_all = { λ s is b n. not_alone is };

    ghost alone_free = { λ s is b. not_alone is };

    fn begin_form(&mut self, form: u32) -> Result<Work, NoMemory> {
        self.book.begin_form(form)
    }

    fn make(&mut self, by: &Work, term: Term, kind: Kind) -> Result<CellId, MakeRefusal> {
        self.book.make(by, term, kind)
    }

    fn look(&mut self, id: CellId) -> Result<Look, NoMemory> {
        self.book.look(id)
    }

    fn kind(&mut self, id: CellId) -> Option<Kind> {
        self.book.kind(id)
    }

    fn open_future(&mut self) -> Option<CellId> {
        self.book.open_future()
    }

    fn claim(&mut self, id: CellId, by: Option<&Work>) -> Result<Work, ClaimRefusal> {
        self.book.claim(id, by)
    }

    fn finish(&mut self, work: Work, value: Value) {
        self.book.finish(work, value);
    }

    fn fail(&mut self, work: Work, why: Thrown) {
        self.book.fail(work, why);
    }

    fn give_up(&mut self, work: Work) {
        self.book.give_up(work);
    }
}
