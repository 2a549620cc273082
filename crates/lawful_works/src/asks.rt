//! What a work makes and asks for.

ghost use Rattle.std.specs.Prelude.{◌≡◌, ◌≢◌, ℕ, suc, ◌<◌, Some, None, IfOk, IfErr, IsTrue};
ghost use Rattle.seq_values.specs.Model.{Value};
ghost use Rattle.seq_values.specs.Plain.{plain_term};
ghost use Rattle.seq_values.specs.WellFormedTerms.{is_well_formed_term};
ghost use Rattle.seq_plan.specs.Plan as plan;
ghost use Rattle.cell_book.specs.Account.{Duty};
ghost use Rattle.cell_book.specs.Glimpses.{Holds, SeesSpent, SeesGaveUp, after_open};
ghost use Rattle.lawful_works.specs.Basis.{Basis, RunsTo, Governs, StaysOn};
ghost use Rattle.lawful_works.specs.Named.{StaysGood};
ghost use Rattle.lawful_works.specs.Alone.{Becomes, Quiets, MakesQuietly, ClaimsQuietly};
ghost use Rattle.lawful_works.specs.Calls.{MakesNext, AsksNext, IsFuture, Made, Looked, Refused, Opened};

use cell_book::{Cells, ClaimRefusal, Look, MakeRefusal, Work};
use seq_values::{CellId, Kind, Term};
use seq_vector::NoMemory;

/// Makes the part that the run makes next, and the run goes on with its number. After a refusal it is where it was.
pub fn add<C: Cells>(
    cells: &mut C,
    by: &Work,
    term: Term,
    kind: Kind,
) -> Result<CellId, MakeRefusal>
    requires ready { C.ready cells.old }
    requires own { 0 < C.held cells.old by.now.claim }
    requires well { IsTrue (is_well_formed_term term) }
    requires run { MakesNext (C.alone cells.old) (C.law cells.old) (C.noted cells.old) (C.seen cells.old) by.now kind (plain_term term) }
    ensures run { IfOk result (λ id. Made (C.seen cells.old) (C.seen cells.new) by.now kind (plain_term term) id) }
    ensures refused { IfErr result (λ _. StaysOn (C.seen cells.old) (C.seen cells.new) by.now) }
    ensures spent { IfErr result (λ r. SeesSpent r (C.seen cells.new)) }
    ensures others { (w : Duty) → 0 < C.held cells.old w.claim → w.claim ≢ by.now.claim → StaysOn (C.seen cells.old) (C.seen cells.new) w }
    ensures holds { (c : ℕ) → 0 < C.held cells.old c → Holds c (C.seen cells.old) (C.seen cells.new) }
    ensures law { (y : Basis) (left : ℕ) (k : ℕ → plan.Plan ℕ) → Governs (C.alone cells.old) (C.law cells.old) (C.noted cells.old) y → RunsTo y (C.seen cells.old) by.now left (plan.make kind (plain_term term) k) → Governs (C.alone cells.new) (C.law cells.new) (C.noted cells.new) y }
    ensures quiet { Becomes (C.alone cells.old) (C.noted cells.old) (C.noted cells.new) (MakesQuietly result) }
    ensures names { (y : Basis) (left : ℕ) (k : ℕ → plan.Plan ℕ) → RunsTo y (C.seen cells.old) by.now left (plan.make kind (plain_term term) k) → StaysGood (C.alone cells.old) (C.law cells.old) (C.noted cells.old) (C.alone cells.new) (C.law cells.new) (C.noted cells.new) y }
    ensures held { (c : ℕ) → C.held cells.new c ≡ C.held cells.old c }
    ensures same { C.same cells.old cells.new }
{
    cells.make(by, term, kind)
}

/// Looks at the part that the run asks for next. The value of a part that is done is the run's answer, the error of a future that failed ends it.
pub fn see<C: Cells>(cells: &mut C, by: &Work, id: CellId) -> Result<Look, NoMemory>
    requires ready { C.ready cells.old }
    requires own { 0 < C.held cells.old by.now.claim }
    requires run { AsksNext (C.alone cells.old) (C.law cells.old) (C.noted cells.old) (C.seen cells.old) by.now id }
    ensures run { IfOk result (λ look. Looked (C.seen cells.old) (C.seen cells.new) by.now id look) }
    ensures others { (w : Duty) → 0 < C.held cells.old w.claim → StaysOn (C.seen cells.old) (C.seen cells.new) w }
    ensures holds { (c : ℕ) → 0 < C.held cells.old c → Holds c (C.seen cells.old) (C.seen cells.new) }
    ensures law { (y : Basis) → Governs (C.alone cells.old) (C.law cells.old) (C.noted cells.old) y → Governs (C.alone cells.new) (C.law cells.new) (C.noted cells.new) y }
    ensures quiet { Becomes (C.alone cells.old) (C.noted cells.old) (C.noted cells.new) Quiets }
    ensures names { (y : Basis) → StaysGood (C.alone cells.old) (C.law cells.old) (C.noted cells.old) (C.alone cells.new) (C.law cells.new) (C.noted cells.new) y }
    ensures held { (c : ℕ) → C.held cells.new c ≡ C.held cells.old c }
    ensures same { C.same cells.old cells.new }
{
    cells.look(id)
}

/// Claims the part that the run asks for next. The work that is opened is at the start of its run, and the one that asks still asks.
pub fn ask<C: Cells>(cells: &mut C, by: &Work, id: CellId) -> Result<Work, ClaimRefusal>
    requires ready { C.ready cells.old }
    requires own { 0 < C.held cells.old by.now.claim }
    requires run { AsksNext (C.alone cells.old) (C.law cells.old) (C.noted cells.old) (C.seen cells.old) by.now id }
    ensures opened { IfOk result (λ w. Opened (C.seen cells.new) (Some by.now.claim) id w) }
    ensures refused { IfErr result (λ r. Refused (C.seen cells.old) (C.seen cells.new) by.now id r) }
    ensures gave_up { IfErr result (λ r. SeesGaveUp r (C.seen cells.new)) }
    ensures others { (w : Duty) → 0 < C.held cells.old w.claim → w.claim ≢ by.now.claim → StaysOn (C.seen cells.old) (C.seen cells.new) w }
    ensures own { StaysOn (C.seen cells.old) (C.seen cells.new) by.now }
    ensures holds { (c : ℕ) → 0 < C.held cells.old c → Holds c (C.seen cells.old) (C.seen cells.new) }
    ensures law { (y : Basis) (left : ℕ) (k : Value ℕ → plan.Plan ℕ) → Governs (C.alone cells.old) (C.law cells.old) (C.noted cells.old) y → RunsTo y (C.seen cells.old) by.now (suc left) (plan.ask id k) → Governs (C.alone cells.new) (C.law cells.new) (C.noted cells.new) y }
    ensures fresh { IfOk result (λ w. C.held cells.old w.claim ≡ 0) }
    ensures quiet { Becomes (C.alone cells.old) (C.noted cells.old) (C.noted cells.new) (ClaimsQuietly result) }
    ensures names { (y : Basis) (left : ℕ) (k : Value ℕ → plan.Plan ℕ) → RunsTo y (C.seen cells.old) by.now (suc left) (plan.ask id k) → StaysGood (C.alone cells.old) (C.law cells.old) (C.noted cells.old) (C.alone cells.new) (C.law cells.new) (C.noted cells.new) y }
    ensures held { (c : ℕ) → C.held cells.new c ≡ after_open (C.held cells.old) result c }
    ensures same { C.same cells.old cells.new }
{
    cells.claim(id, Some(by))
}

/// Claims a future for nobody.
pub fn start<C: Cells>(cells: &mut C, id: CellId) -> Result<Work, ClaimRefusal>
    requires ready { C.ready cells.old }
    requires future { IsFuture (C.alone cells.old) (C.law cells.old) (C.noted cells.old) (C.seen cells.old) id }
    ensures opened { IfOk result (λ w. Opened (C.seen cells.new) None id w) }
    ensures gave_up { IfErr result (λ r. SeesGaveUp r (C.seen cells.new)) }
    ensures others { (w : Duty) → 0 < C.held cells.old w.claim → StaysOn (C.seen cells.old) (C.seen cells.new) w }
    ensures holds { (c : ℕ) → 0 < C.held cells.old c → Holds c (C.seen cells.old) (C.seen cells.new) }
    ensures law { (y : Basis) → Governs (C.alone cells.old) (C.law cells.old) (C.noted cells.old) y → Governs (C.alone cells.new) (C.law cells.new) (C.noted cells.new) y }
    ensures fresh { IfOk result (λ w. C.held cells.old w.claim ≡ 0) }
    ensures quiet { Becomes (C.alone cells.old) (C.noted cells.old) (C.noted cells.new) (ClaimsQuietly result) }
    ensures names { (y : Basis) → StaysGood (C.alone cells.old) (C.law cells.old) (C.noted cells.old) (C.alone cells.new) (C.law cells.new) (C.noted cells.new) y }
    ensures held { (c : ℕ) → C.held cells.new c ≡ after_open (C.held cells.old) result c }
    ensures same { C.same cells.old cells.new }
{
    cells.claim(id, None)
}
