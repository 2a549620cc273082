//! The steps of one work on the book.
ghost use Rattle.std.specs.Prelude.{◌≡◌, ◌≢◌, ℕ, ◌<◌, IfOk, IfErr};
ghost use Rattle.cell_book.specs.Account.{Duty};
ghost use Rattle.cell_book.specs.Glimpses.{Holds};
ghost use Rattle.eval_frames.specs.Frames.{ground, beneath, maker_plan, makes_plan};
ghost use Rattle.eval_frames.specs.Leads.{LeadsTo};
ghost use Rattle.lawful_works.specs.Basis.{RunsTo, Governs, StaysOn};
ghost use Rattle.lawful_works.specs.Named.{StaysGood};
ghost use Rattle.lawful_works.specs.Alone.{Becomes};
ghost use Rattle.eval_works.specs.Meanwhile.{Meanwhile};
ghost use Rattle.eval_works.specs.Standing.{GoesBy, basis, AskerOn, EventOn};
ghost use Rattle.eval_works.specs.Halts.{MakeHalts, ClaimHalts, make_halt};
ghost use Rattle.eval_works.specs.Asked.{IsKnown, IsKnownRefusal, Told, NotOpened, AskedOn, ClaimedOn, held_then, OpensNew};

use crate::state::{Asked, Claimed, Halt};
use cell_book::{Cells, ClaimRefusal, Look, MakeRefusal, Work};
use eval_frames::{Asker, Code, Event, Maker, ProperTerm, Rest, Rules, answered, made, refused};
use lawful_works::{add, ask, see};
use seq_turns::Proper;
use seq_values::{CellId, Kind};
use seq_vector::NoMemory;
use std::alloc::Global;

/// The part was made.
fn after_make<R: Rules>(
    alloc: Global,
    code: &Code,
    maker: Maker<R>,
    rest: Rest<R>,
    id: CellId,
) -> Result<Event<R>, Halt>
    ensures goes { IfOk result (λ e. LeadsTo (ground R.running R.table code.now) rest.left (maker_plan (ground R.running R.table code.now) maker (beneath (ground R.running R.table code.now) rest) id) e) }
    ensures halts { IfErr result (λ h. h ≡ Halt.Memory) }
{
    match made(alloc, code, maker, rest, id) {
        Ok(event) => Ok(event),
        Err(_) => Err(Halt::Memory),
    }
}

/// No part was made.
fn unmade<R: Rules>(maker: Maker<R>, rest: Rest<R>, why: MakeRefusal) -> Halt
    ensures { result ≡ make_halt why }
{
    match why {
        MakeRefusal::Spent(_) => Halt::Spent,
        MakeRefusal::Memory(_) => Halt::Memory,
    }
}

/// Makes the part that the run makes next. The work goes on with it.
pub fn make_part<C: Cells, R: Rules>(
    alloc: Global,
    code: &Code,
    limit: u64,
    cells: &mut C,
    work: &Work,
    kind: Kind,
    term: ProperTerm,
    maker: Maker<R>,
    rest: Rest<R>,
) -> Result<Event<R>, Halt>
    requires ready { C.ready cells.old }
    requires own { 0 < C.held cells.old work.now.claim }
    requires goes { GoesBy code.now work.now }
    requires law { Governs (C.alone cells.old) (C.law cells.old) (C.noted cells.old) (basis (ground R.running R.table code.now) limit) }
    requires run { RunsTo (basis (ground R.running R.table code.now) limit) (C.seen cells.old) work.now rest.left (makes_plan (ground R.running R.table code.now) kind term maker rest) }
    ensures run { IfOk result (λ e. EventOn (ground R.running R.table code.now) limit (C.seen cells.new) work.now e) }
    ensures halts { IfErr result (λ h. MakeHalts (C.seen cells.new) h) }
    ensures others { (w : Duty) → 0 < C.held cells.old w.claim → w.claim ≢ work.now.claim → StaysOn (C.seen cells.old) (C.seen cells.new) w }
    ensures holds { (c : ℕ) → 0 < C.held cells.old c → Holds c (C.seen cells.old) (C.seen cells.new) }
    ensures law { Governs (C.alone cells.new) (C.law cells.new) (C.noted cells.new) (basis (ground R.running R.table code.now) limit) }
    ensures quiet { Becomes (C.alone cells.old) (C.noted cells.old) (C.noted cells.new) (Meanwhile result) }
    ensures names { StaysGood (C.alone cells.old) (C.law cells.old) (C.noted cells.old) (C.alone cells.new) (C.law cells.new) (C.noted cells.new) (basis (ground R.running R.table code.now) limit) }
    ensures held { (c : ℕ) → C.held cells.new c ≡ C.held cells.old c }
    ensures same { C.same cells.old cells.new }
{
    match add(cells, work, term.term, kind) {
        Ok(id) => after_make(alloc, code, maker, rest, id),
        Err(why) => Err(unmade(maker, rest, why)),
    }
}

/// The work that asks is let go.
fn forgotten<R: Rules>(asker: Asker<R>, why: Halt) -> Halt
    ensures { result ≡ why }
{
    why
}

/// What the part shows to the work that asks it.
fn told<R: Rules>(alloc: Global, code: &Code, asker: Asker<R>, look: Look) -> Result<Asked<R>, Halt>
    requires { IsKnown look }
    ensures told { IfOk result (λ asked. Told (ground R.running R.table code.now) asker look asked) }
    ensures halts { IfErr result (λ h. h ≡ Halt.Memory) }
{
    match look {
        Look::Done(value) => match answered(alloc, code, asker, Proper { value }) {
            Ok(event) => Ok(Asked::Comes(event)),
            Err(_) => Err(Halt::Memory),
        },
        Look::Failed(why) => Ok(Asked::Comes(refused(asker, why))),
        Look::Empty => Ok(Asked::Empty(asker)),
        Look::Forcing { claim } => Ok(Asked::Waits(asker, claim)),
        Look::Unknown => unreachable!(),
    }
}

/// Looks at the part that the run asks for. The work goes on with its value, or ends with its error.
pub fn look<C: Cells, R: Rules>(
    alloc: Global,
    code: &Code,
    limit: u64,
    cells: &mut C,
    work: &Work,
    asker: Asker<R>,
) -> Result<Asked<R>, Halt>
    requires ready { C.ready cells.old }
    requires own { 0 < C.held cells.old work.now.claim }
    requires goes { GoesBy code.now work.now }
    requires law { Governs (C.alone cells.old) (C.law cells.old) (C.noted cells.old) (basis (ground R.running R.table code.now) limit) }
    requires run { AskerOn (ground R.running R.table code.now) limit (C.seen cells.old) work.now asker }
    ensures run { IfOk result (λ asked. AskedOn (ground R.running R.table code.now) limit (C.seen cells.new) work.now asked) }
    ensures halts { IfErr result (λ h. h ≡ Halt.Memory) }
    ensures others { (w : Duty) → 0 < C.held cells.old w.claim → StaysOn (C.seen cells.old) (C.seen cells.new) w }
    ensures holds { (c : ℕ) → 0 < C.held cells.old c → Holds c (C.seen cells.old) (C.seen cells.new) }
    ensures law { Governs (C.alone cells.new) (C.law cells.new) (C.noted cells.new) (basis (ground R.running R.table code.now) limit) }
    ensures quiet { Becomes (C.alone cells.old) (C.noted cells.old) (C.noted cells.new) (Meanwhile result) }
    ensures names { StaysGood (C.alone cells.old) (C.law cells.old) (C.noted cells.old) (C.alone cells.new) (C.law cells.new) (C.noted cells.new) (basis (ground R.running R.table code.now) limit) }
    ensures held { (c : ℕ) → C.held cells.new c ≡ C.held cells.old c }
    ensures same { C.same cells.old cells.new }
{
    match see(cells, work, asker.cell) {
        Ok(look) => told(alloc, code, asker, look),
        Err(_) => Err(forgotten(asker, Halt::Memory)),
    }
}

/// No work was opened.
fn not_opened<R: Rules>(
    alloc: Global,
    code: &Code,
    asker: Asker<R>,
    why: ClaimRefusal,
) -> Result<Claimed<R>, Halt>
    requires { IsKnownRefusal why }
    ensures { NotOpened (ground R.running R.table code.now) asker why result }
{
    match why {
        ClaimRefusal::Seen(look) => match told(alloc, code, asker, look) {
            Ok(Asked::Comes(event)) => Ok(Claimed::Comes(event)),
            Ok(Asked::Waits(asker, claim)) => Ok(Claimed::Waits(asker, claim)),
            Ok(Asked::Empty(_)) => unreachable!(),
            Err(halt) => Err(halt),
        },
        ClaimRefusal::GaveUp => Err(forgotten(asker, Halt::GaveUp)),
        ClaimRefusal::Memory => Err(forgotten(asker, Halt::Memory)),
    }
}

/// Claims the part that the run asks for. The work that is opened is at the start of its run, and the one that asks still asks.
pub fn claim<C: Cells, R: Rules>(
    alloc: Global,
    code: &Code,
    limit: u64,
    cells: &mut C,
    work: &Work,
    asker: Asker<R>,
) -> Result<Claimed<R>, Halt>
    requires ready { C.ready cells.old }
    requires own { 0 < C.held cells.old work.now.claim }
    requires goes { GoesBy code.now work.now }
    requires law { Governs (C.alone cells.old) (C.law cells.old) (C.noted cells.old) (basis (ground R.running R.table code.now) limit) }
    requires run { AskerOn (ground R.running R.table code.now) limit (C.seen cells.old) work.now asker }
    ensures run { IfOk result (λ claimed. ClaimedOn (ground R.running R.table code.now) limit (C.seen cells.new) work.now claimed) }
    ensures halts { IfErr result (λ h. ClaimHalts (C.seen cells.new) h) }
    ensures others { (w : Duty) → 0 < C.held cells.old w.claim → w.claim ≢ work.now.claim → StaysOn (C.seen cells.old) (C.seen cells.new) w }
    ensures holds { (c : ℕ) → 0 < C.held cells.old c → Holds c (C.seen cells.old) (C.seen cells.new) }
    ensures law { Governs (C.alone cells.new) (C.law cells.new) (C.noted cells.new) (basis (ground R.running R.table code.now) limit) }
    ensures fresh { IfOk result (OpensNew (C.held cells.old)) }
    ensures quiet { Becomes (C.alone cells.old) (C.noted cells.old) (C.noted cells.new) (Meanwhile result) }
    ensures names { StaysGood (C.alone cells.old) (C.law cells.old) (C.noted cells.old) (C.alone cells.new) (C.law cells.new) (C.noted cells.new) (basis (ground R.running R.table code.now) limit) }
    ensures held { (c : ℕ) → C.held cells.new c ≡ held_then (C.held cells.old) result c }
    ensures same { C.same cells.old cells.new }
{
    match ask(cells, work, asker.cell) {
        Ok(opened) => Ok(Claimed::Opened(asker, opened)),
        Err(why) => not_opened(alloc, code, asker, why),
    }
}
