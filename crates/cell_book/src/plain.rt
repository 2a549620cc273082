//! A book that nobody shares.
ghost use Rattle.std.specs.Prelude.{◌≡◌, ◌<◌, ℕ, true, Contains, IfOk};
ghost use Rattle.cell_book.specs.Account.{Account};

use crate::answers::{ClaimRefusal, Look, MakeRefusal};
use crate::book::Book;
use crate::cells::Cells;
use crate::work::Work;
use seq_base::Thrown;
use seq_values::{CellId, Kind, Term, Value};
use seq_vector::NoMemory;

/// A book that nobody shares.
#[derive(Drop)]
pub struct PlainCells<'a> {
    pub(crate) book: &'a mut Book,
}

impl<'a> PlainCells<'a> {
    /// The calls on this book.
    pub fn over(book: &'a mut Book) -> PlainCells<'a>
        ensures { (result.book.ghost_name ≡ book.entry.ghost_name) × (result.book.now ≡ book.old) }
    {
        PlainCells { book }
    }
}

impl Cells for PlainCells<'_> {
    ghost use Rattle.std.specs.Prelude.{◌≡◌, true};
    ghost use Rattle.std.proofs.Common.{refl, sym, ◌∙◌};
    ghost use Rattle.cell_book.specs.Account.{opens};
    ghost use Rattle.cell_book.specs.Glimpses.{glimpse};
    ghost use Rattle.cell_book.specs.Whole.{is_all};

    ghost seen = { λ s. glimpse s.book.now };

    ghost held = { λ s c. opens c s.book.now };

    ghost law = { λ _ _. Unit {0} };

    ghost alone = { λ _. true };

    ghost leads = { λ _. true };

    ghost noted = { λ s b. b ≡ s.book.now };

    ghost ready = { λ _. Unit {0} };

    ghost same = { λ s t. s.book.ghost_name ≡ t.book.ghost_name };

    ghost same_self = { λ s. refl };

    ghost same_further = { λ s t u e f. e ∙ f };

    ghost same_ready = { λ s t e r. r };

    ghost same_alone = { λ s t e. refl };

    ghost same_leads = { λ s t e. refl };

    ghost same_law = { λ s t e b. ((λ l. l), λ l. l) };

    ghost noted_one = { λ s a b e f. e ∙ sym f };

    ghost alone_leads = { λ s is. refl };

    ghost alone_all = { λ s is b n. is_all s.book.now b n };

    ghost alone_free = { λ s is b. tt };

    fn begin_form(&mut self, form: u32) -> Result<Work, NoMemory> {
        self.book.begin_form(form)
    }

    fn make(&mut self, by: &Work, term: Term, kind: Kind) -> Result<CellId, MakeRefusal> {
        self.book.make(by, term, kind)
    }

    fn look(&mut self, id: CellId) -> Result<Look, NoMemory> {
        self.book.look(id)
    }

    fn kind(&mut self, id: CellId) -> Option<Kind> {
        self.book.kind(id)
    }

    fn open_future(&mut self) -> Option<CellId> {
        self.book.open_future()
    }

    fn claim(&mut self, id: CellId, by: Option<&Work>) -> Result<Work, ClaimRefusal> {
        self.book.claim(id, by)
    }

    fn finish(&mut self, work: Work, value: Value) {
        self.book.finish(work, value);
    }

    fn fail(&mut self, work: Work, why: Thrown) {
        self.book.fail(work, why);
    }

    fn give_up(&mut self, work: Work) {
        self.book.give_up(work);
    }
}
