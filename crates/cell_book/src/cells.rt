//! The calls on a book, whoever else has it.
ghost use Rattle.std.specs.Prelude.{◌≡◌, ◌<◌, ℕ, true, Contains, IfOk, IfErr, IfSome, option_copied};
ghost use Rattle.cell_book.specs.Account.{Account};
ghost use Rattle.cell_book.specs.Steps.{asker_of, Begins, BeginAnswer, Makes, MakeAnswer, Looks, Kinds, FindsFuture, Claims, ClaimAnswer, Finishes, Fails, GivesUp};
ghost use Rattle.cell_book.specs.Glimpses.{Fits, Saw, SeesCell, SeesPlace, SeesSpent, SeesGaveUp, IsOpen, Owns, MayAsk, after_open, after_end};

use crate::answers::{ClaimRefusal, Look, MakeRefusal};
use crate::work::Work;
use seq_base::Thrown;
use seq_values::{CellId, Kind, Term, Value};
use seq_vector::NoMemory;

/// It names a predicate over a book.
pub trait CellLaw: Drop {
    ghost use Rattle.cell_book.specs.Account.{Account};

    ghost keeps: { Self → Account → Type 0 };
}

/// A book of cells that one may share with others. Each call is one step on it, and is to keep its law.
pub trait Cells {
    ghost use Rattle.std.specs.Prelude.{◌≡◌, ℕ, Bool, true};
    ghost use Rattle.cell_book.specs.Account.{Account};
    ghost use Rattle.cell_book.specs.Glimpses.{Glimpse, IsAll};

    // What it has seen of the book.
    ghost seen: { Self → Glimpse };

    // How often it has each claim open.
    ghost held: { Self → ℕ → ℕ };

    // What the book is between any two steps.
    ghost law: { Self → Account → Type 0 };

    // Nobody else has the book.
    ghost alone: { Self → Bool };

    // It may begin forms.
    ghost leads: { Self → Bool };

    // The whole book is known to be this one, until a form is begun: it was seen at rest, or nobody else has it.
    ghost noted: { Self → Account → Type 0 };

    // It may be called.
    ghost ready: { Self → Type 0 };

    // It is the same one, over the same book.
    ghost same: { Self → Self → Type 0 };

    /// Begins a form that wasn't begun before, with a claim on it.
    fn begin_form(&mut self, form: u32) -> Result<Work, NoMemory>
        requires ready { ready self.old }
        requires leads { leads self.old ≡ true }
        requires unbegun { ¬ Contains (seen self.old).begun form }
        requires keeps { (a b : Account) (answer : BeginAnswer) → Fits (alone self.old) (leads self.old) (law self.old) (noted self.old) (seen self.old) (held self.old) a → Begins a form answer b → law self.old b }
        ensures step { (a b : Account) × Fits (alone self.old) (leads self.old) (law self.old) (noted self.old) (seen self.old) (held self.old) a × Begins a form result b × Saw (alone self.old) (leads self.old) (noted self.new) (held self.new) (seen self.old) b (seen self.new) × IfOk result (λ w. SeesPlace w.place b (seen self.new)) }
        ensures open { IfOk result (λ w. IsOpen (seen self.new) w) }
        ensures fresh { IfOk result (λ w. held self.old w.claim ≡ 0) }
        ensures held { (c : ℕ) → held self.new c ≡ after_open (held self.old) result c }
        ensures same { same self.old self.new };

    /// Makes a part by a work. At the limit nothing is made, and the book notes it.
    fn make(&mut self, by: &Work, term: Term, kind: Kind) -> Result<CellId, MakeRefusal>
        requires ready { ready self.old }
        requires own { Owns (held self.old) (seen self.old) by.now }
        requires keeps { (a b : Account) (answer : MakeAnswer) → Fits (alone self.old) (leads self.old) (law self.old) (noted self.old) (seen self.old) (held self.old) a → Makes a by.now term kind answer b → law self.old b }
        ensures step { (a b : Account) × Fits (alone self.old) (leads self.old) (law self.old) (noted self.old) (seen self.old) (held self.old) a × Makes a by.now term kind result b × Saw (alone self.old) (leads self.old) (noted self.new) (held self.new) (seen self.old) b (seen self.new) × IfOk result (λ id. SeesCell id b (seen self.new)) }
        ensures spent { IfErr result (λ r. SeesSpent r (seen self.new)) }
        ensures held { (c : ℕ) → held self.new c ≡ held self.old c }
        ensures same { same self.old self.new };

    /// What a part's state is at this step. The value of a part is shared.
    fn look(&mut self, id: CellId) -> Result<Look, NoMemory>
        requires ready { ready self.old }
        ensures step { (a b : Account) × Fits (alone self.old) (leads self.old) (law self.old) (noted self.old) (seen self.old) (held self.old) a × Looks a id result b × Saw (alone self.old) (leads self.old) (noted self.new) (held self.new) (seen self.old) b (seen self.new) × SeesCell id b (seen self.new) }
        ensures noted { (a : Account) → noted self.old a → noted self.new a }
        ensures held { (c : ℕ) → held self.new c ≡ held self.old c }
        ensures same { same self.old self.new };

    /// The kind of a part, and `None` exactly for a number not made at this step. It takes no memory.
    fn kind(&mut self, id: CellId) -> Option<Kind>
        requires ready { ready self.old }
        ensures step { (a b : Account) × Fits (alone self.old) (leads self.old) (law self.old) (noted self.old) (seen self.old) (held self.old) a × Kinds a id result b × Saw (alone self.old) (leads self.old) (noted self.new) (held self.new) (seen self.old) b (seen self.new) × SeesCell id b (seen self.new) }
        ensures noted { (a : Account) → noted self.old a → noted self.new a }
        ensures held { (c : ℕ) → held self.new c ≡ held self.old c }
        ensures same { same self.old self.new };

    /// The empty future with the lowest number, and `None` exactly where no future is empty at this step. It takes no memory.
    fn open_future(&mut self) -> Option<CellId>
        requires ready { ready self.old }
        ensures step { (a b : Account) × Fits (alone self.old) (leads self.old) (law self.old) (noted self.old) (seen self.old) (held self.old) a × FindsFuture a result b × Saw (alone self.old) (leads self.old) (noted self.new) (held self.new) (seen self.old) b (seen self.new) × IfSome result (λ id. SeesCell id b (seen self.new)) }
        ensures noted { (a : Account) → noted self.old a → noted self.new a }
        ensures held { (c : ℕ) → held self.new c ≡ held self.old c }
        ensures same { same self.old self.new };

    /// Opens a claim on an empty part, asked by a work. A future may be claimed without an asker.
    fn claim(&mut self, id: CellId, by: Option<&Work>) -> Result<Work, ClaimRefusal>
        requires ready { ready self.old }
        requires own { MayAsk (held self.old) (seen self.old) id (option_copied by) }
        requires keeps { (a b : Account) (answer : ClaimAnswer) → Fits (alone self.old) (leads self.old) (law self.old) (noted self.old) (seen self.old) (held self.old) a → Claims a id (asker_of (option_copied by)) answer b → law self.old b }
        ensures step { (a b : Account) × Fits (alone self.old) (leads self.old) (law self.old) (noted self.old) (seen self.old) (held self.old) a × Claims a id (asker_of (option_copied by.entry)) result b × Saw (alone self.old) (leads self.old) (noted self.new) (held self.new) (seen self.old) b (seen self.new) × SeesCell id b (seen self.new) }
        ensures gave_up { IfErr result (λ r. SeesGaveUp r (seen self.new)) }
        ensures open { IfOk result (λ w. IsOpen (seen self.new) w) }
        ensures fresh { IfOk result (λ w. held self.old w.claim ≡ 0) }
        ensures held { (c : ℕ) → held self.new c ≡ after_open (held self.old) result c }
        ensures same { same self.old self.new };

    /// The part is done, or the form has ended, with this value. It takes no memory.
    fn finish(&mut self, work: Work, value: Value)
        requires ready { ready self.old }
        requires own { Owns (held self.old) (seen self.old) work }
        requires keeps { (a b : Account) → Fits (alone self.old) (leads self.old) (law self.old) (noted self.old) (seen self.old) (held self.old) a → Finishes a work value b → law self.old b }
        ensures step { (a b : Account) × Fits (alone self.old) (leads self.old) (law self.old) (noted self.old) (seen self.old) (held self.old) a × Finishes a work value b × Saw (alone self.old) (leads self.old) (noted self.new) (held self.new) (seen self.old) b (seen self.new) × SeesPlace work.place b (seen self.new) }
        ensures held { (c : ℕ) → held self.new c ≡ after_end (held self.old) work c }
        ensures same { same self.old self.new };

    /// A lazy part is empty again, a future has failed, and a form has ended without a value. It takes no memory.
    fn fail(&mut self, work: Work, why: Thrown)
        requires ready { ready self.old }
        requires own { Owns (held self.old) (seen self.old) work }
        requires keeps { (a b : Account) → Fits (alone self.old) (leads self.old) (law self.old) (noted self.old) (seen self.old) (held self.old) a → Fails a work why b → law self.old b }
        ensures step { (a b : Account) × Fits (alone self.old) (leads self.old) (law self.old) (noted self.old) (seen self.old) (held self.old) a × Fails a work why b × Saw (alone self.old) (leads self.old) (noted self.new) (held self.new) (seen self.old) b (seen self.new) × SeesPlace work.place b (seen self.new) }
        ensures held { (c : ℕ) → held self.new c ≡ after_end (held self.old) work c }
        ensures same { same self.old self.new };

    /// The part is empty again, or the form has ended without a value, and the book notes that a work was given up. It takes no memory.
    fn give_up(&mut self, work: Work)
        requires ready { ready self.old }
        requires own { Owns (held self.old) (seen self.old) work }
        requires keeps { (a b : Account) → Fits (alone self.old) (leads self.old) (law self.old) (noted self.old) (seen self.old) (held self.old) a → GivesUp a work b → law self.old b }
        ensures step { (a b : Account) × Fits (alone self.old) (leads self.old) (law self.old) (noted self.old) (seen self.old) (held self.old) a × GivesUp a work b × Saw (alone self.old) (leads self.old) (noted self.new) (held self.new) (seen self.old) b (seen self.new) × SeesPlace work.place b (seen self.new) }
        ensures gave_up { (seen self.new).gave_up ≡ true }
        ensures held { (c : ℕ) → held self.new c ≡ after_end (held self.old) work c }
        ensures same { same self.old self.new };

    // What stays while it is the same one.
    ghost same_self: { (s : Self) → same s s };

    ghost same_further: { (s t u : Self) → same s t → same t u → same s u };

    ghost same_ready: { (s t : Self) → same s t → ready s → ready t };

    ghost same_alone: { (s t : Self) → same s t → alone t ≡ alone s };

    ghost same_leads: { (s t : Self) → same s t → leads t ≡ leads s };

    ghost same_law: { (s t : Self) → same s t → (b : Account) → (law s b → law t b) × (law t b → law s b) };

    // At most one book is noted.
    ghost noted_one: { (s : Self) (a b : Account) → noted s a → noted s b → a ≡ b };

    // One that is alone may begin forms, has seen the whole book, and has all its open claims. The law of its book holds of each book.
    ghost alone_leads: { (s : Self) → alone s ≡ true → leads s ≡ true };

    ghost alone_all: { (s : Self) → alone s ≡ true → (b : Account) → noted s b → IsAll (seen s) (held s) b };

    ghost alone_free: { (s : Self) → alone s ≡ true → (b : Account) → law s b };
}
