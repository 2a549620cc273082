//! Threads over one shared book.
#![tactic(auto)]

ghost use Rattle.std.specs.Prelude.{◌≡◌, ℕ, IfOk, None, true, false};
ghost use Rattle.cell_book.specs.Glimpses.{MayAsk, Owns, LawIs};
ghost use Rattle.cell_book.specs.Glimpses.{glimpse};
ghost use Rattle.cell_client.specs.Sevens.{IsSevens};
ghost use Rattle.shared_tests.specs.Tasks.{IsTask};
ghost use Rattle.cell_shared.specs.Growing.{fresh, counted};

#[cfg(test)]
mod tests;

use cell_book::{Cells, ClaimRefusal, Look, Work};
use cell_client::{Sevens, add, fill};
use cell_shared::{Pass, Quiet, SharedBook};
use seq_values::{CellId, Kind, Value};
use seq_vector::NoMemory;
use std::alloc::Global;
use std::sync::Wait;
use std::thread;
use std::thread::Threads;

/// Claims a future, asked by nobody.
pub fn ask_future<C: Cells>(cells: &mut C, id: CellId) -> Result<Work, ClaimRefusal>
    requires ready { C.ready cells.old }
    requires future { MayAsk (C.held cells.old) (C.seen cells.old) id None }
    requires law { LawIs (C.alone cells.old) (C.law cells.old) (C.noted cells.old) IsSevens }
    ensures own { IfOk result (λ w. Owns (C.held cells.new) (C.seen cells.new) w) }
    ensures law { LawIs (C.alone cells.new) (C.law cells.new) (C.noted cells.new) IsSevens }
    ensures same { C.same cells.old cells.new }
{
    cells.claim(id, None)
}

/// Finishes a work with 7.
pub fn end<C: Cells>(cells: &mut C, work: Work)
    requires ready { C.ready cells.old }
    requires own { Owns (C.held cells.old) (C.seen cells.old) work }
    requires law { LawIs (C.alone cells.old) (C.law cells.old) (C.noted cells.old) IsSevens }
    ensures law { LawIs (C.alone cells.new) (C.law cells.new) (C.noted cells.new) IsSevens }
    ensures same { C.same cells.old cells.new }
{
    cells.finish(work, Value::Int(7));
}

/// Gives a work up.
pub fn abandon<C: Cells>(cells: &mut C, work: Work)
    requires ready { C.ready cells.old }
    requires own { Owns (C.held cells.old) (C.seen cells.old) work }
    requires law { LawIs (C.alone cells.old) (C.law cells.old) (C.noted cells.old) IsSevens }
    ensures law { LawIs (C.alone cells.new) (C.law cells.new) (C.noted cells.new) IsSevens }
    ensures same { C.same cells.old cells.new }
{
    cells.give_up(work);
}

/// Claims a future, makes and settles so many parts for it, and finishes it with 7. It tells whether all parts were settled.
pub fn work_on<C: Cells>(cells: &mut C, id: CellId, parts: u32) -> Result<bool, ClaimRefusal>
    requires ready { C.ready cells.old }
    requires future { MayAsk (C.held cells.old) (C.seen cells.old) id None }
    requires law { LawIs (C.alone cells.old) (C.law cells.old) (C.noted cells.old) IsSevens }
    ensures law { LawIs (C.alone cells.new) (C.law cells.new) (C.noted cells.new) IsSevens }
    ensures same { C.same cells.old cells.new }
{
    let work = ask_future(cells, id)?;
    let all = fill(cells, &work, parts);
    end(cells, work);
    Ok(all)
}

/// A pass, and the future that it is to claim.
#[derive(Drop)]
pub struct Task {
    pub pass: Pass,
    pub id: CellId,
}

/// What came of a task.
#[derive(Clone, Copy, Debug, PartialEq, Eq)]
pub enum Came {
    /// The claim was given, all parts were settled, and the future was finished with 7.
    Finished,
    /// The claim was given and the future finished, but not all parts were settled.
    Short,
    /// Another claim was open on the future.
    Forced,
    /// The future was done with 7 already.
    Done,
    /// The claim was refused for another reason.
    Refused,
}

/// What came of two tasks, and one pass for both.
#[derive(Drop)]
pub struct Both {
    pub pass: Pass,
    pub first: Came,
    pub second: Came,
}

/// A new book under the law of sevens.
pub fn new_book(alloc: Global, cells: u32) -> Result<(SharedBook<Sevens>, Pass), NoMemory>
    ensures { IfOk result (λ r. (r.1.table ≡ r.0.table) × (r.1.leads ≡ true) × (r.1.seen ≡ fresh cells)) }
{
    SharedBook::new(alloc, Sevens, cells)
}

/// A pass that is to claim this future.
pub fn task_on(book: &SharedBook<Sevens>, pass: &mut Pass, id: CellId) -> Result<Task, NoMemory>
    requires table { pass.old.table ≡ book.now.table }
    requires future { MayAsk (counted pass.old.claims) (glimpse pass.old.seen) id None }
    ensures table { IfOk result (λ t. IsTask book.now.table t) }
    ensures same { pass.new ≡ pass.old }
{
    let pass = book.split(pass)?;
    Ok(Task { pass, id })
}

/// A task on a future of its own, made for the form.
pub fn task_of<R: Wait>(
    rt: &R,
    book: &SharedBook<Sevens>,
    pass: &mut Pass,
    form: &Work,
) -> Result<Task, NoMemory>
    requires table { pass.old.table ≡ book.now.table }
    requires own { Owns (counted pass.old.claims) (glimpse pass.old.seen) form.now }
    ensures table { (pass.new.table ≡ book.now.table) × (pass.new.leads ≡ pass.old.leads) }
    ensures own { Owns (counted pass.new.claims) (glimpse pass.new.seen) form.now }
    ensures task { IfOk result (λ t. IsTask book.now.table t) }
{
    match add(&mut book.viewed(rt, pass), form, Kind::Future) {
        Ok(id) => task_on(book, pass, id),
        Err(_) => Err(NoMemory),
    }
}

/// Two tasks, each on a future of its own.
pub fn tasks_of<R: Wait>(
    rt: &R,
    book: &SharedBook<Sevens>,
    pass: &mut Pass,
    form: &Work,
) -> Result<(Task, Task), NoMemory>
    requires table { pass.old.table ≡ book.now.table }
    requires own { Owns (counted pass.old.claims) (glimpse pass.old.seen) form.now }
    ensures table { (pass.new.table ≡ book.now.table) × (pass.new.leads ≡ pass.old.leads) }
    ensures own { Owns (counted pass.new.claims) (glimpse pass.new.seen) form.now }
    ensures tasks { IfOk result (λ t. IsTask book.now.table t.0 × IsTask book.now.table t.1) }
{
    let first = task_of(rt, book, pass, form)?;
    let second = task_of(rt, book, pass, form)?;
    Ok((first, second))
}

/// Two tasks on one future.
pub fn tasks_on_one<R: Wait>(
    rt: &R,
    book: &SharedBook<Sevens>,
    pass: &mut Pass,
    form: &Work,
) -> Result<(Task, Task), NoMemory>
    requires table { pass.old.table ≡ book.now.table }
    requires own { Owns (counted pass.old.claims) (glimpse pass.old.seen) form.now }
    ensures table { (pass.new.table ≡ book.now.table) × (pass.new.leads ≡ pass.old.leads) }
    ensures own { Owns (counted pass.new.claims) (glimpse pass.new.seen) form.now }
    ensures tasks { IfOk result (λ t. IsTask book.now.table t.0 × IsTask book.now.table t.1) }
{
    match add(&mut book.viewed(rt, pass), form, Kind::Future) {
        Ok(id) => {
            let first = task_on(book, pass, id)?;
            let second = task_on(book, pass, id)?;
            Ok((first, second))
        }
        Err(_) => Err(NoMemory),
    }
}

/// What an answer tells. It lets the answer go.
fn came_of(answer: Result<bool, ClaimRefusal>) -> Came {
    match &answer {
        Ok(true) => Came::Finished,
        Ok(false) => Came::Short,
        Err(ClaimRefusal::Seen(Look::Forcing { .. })) => Came::Forced,
        Err(ClaimRefusal::Seen(Look::Done(Value::Int(7)))) => Came::Done,
        Err(_) => Came::Refused,
    }
}

/// Works on the future of a task.
pub fn run_one<R: Wait>(rt: &R, book: &SharedBook<Sevens>, task: Task, parts: u32) -> (Pass, Came)
    requires { IsTask book.now.table task }
    ensures { (result.0.table ≡ book.now.table) × (result.0.leads ≡ false) }
{
    let Task { mut pass, id } = task;
    let mut cells = book.viewed(rt, &mut pass);
    let came = came_of(work_on(&mut cells, id, parts));
    (pass, came)
}

/// Two threads work on two tasks.
pub fn run_two<R: Threads + Wait + Sync>(
    rt: &R,
    book: &SharedBook<Sevens>,
    first: Task,
    second: Task,
    parts: u32,
) -> Both
    requires { IsTask book.now.table first × IsTask book.now.table second }
    ensures { (result.pass.table ≡ book.now.table) × (result.pass.leads ≡ false) }
{
    let ((mut pass, first), (other, second)) = thread::join(
        rt,
        move || -> (Pass, Came)
            requires { IsTask book.now.table first }
            ensures { (result.0.table ≡ book.entry.now.table) × (result.0.leads ≡ false) }
        { run_one(rt, book, first, parts) },
        move || -> (Pass, Came)
            requires { IsTask book.now.table second }
            ensures { (result.0.table ≡ book.entry.now.table) × (result.0.leads ≡ false) }
        { run_one(rt, book, second, parts) },
    );
    book.join(&mut pass, other);
    Both {
        pass,
        first,
        second,
    }
}

/// Four threads work on four tasks. The pass is theirs together; it tells whether all parts were settled.
pub fn run_four<R: Threads + Wait + Sync>(
    rt: &R,
    book: &SharedBook<Sevens>,
    first: (Task, Task),
    second: (Task, Task),
    parts: u32,
) -> (Pass, bool)
    requires first { IsTask book.now.table first.0 × IsTask book.now.table first.1 }
    requires second { IsTask book.now.table second.0 × IsTask book.now.table second.1 }
    ensures { (result.0.table ≡ book.now.table) × (result.0.leads ≡ false) }
{
    let (one, two) = first;
    let (three, four) = second;
    let (first, second) = thread::join(
        rt,
        move || -> Both
            requires { IsTask book.now.table one × IsTask book.now.table two }
            ensures { (result.pass.table ≡ book.entry.now.table) × (result.pass.leads ≡ false) }
        { run_two(rt, book, one, two, parts) },
        move || -> Both
            requires { IsTask book.now.table three × IsTask book.now.table four }
            ensures { (result.pass.table ≡ book.entry.now.table) × (result.pass.leads ≡ false) }
        { run_two(rt, book, three, four, parts) },
    );
    let all = is_finished(&first) && is_finished(&second);
    let Both { mut pass, .. } = first;
    let Both { pass: other, .. } = second;
    book.join(&mut pass, other);
    (pass, all)
}

/// Eight threads work on eight tasks.
pub fn run_eight<R: Threads + Wait + Sync>(
    rt: &R,
    book: &SharedBook<Sevens>,
    first: (Task, Task),
    second: (Task, Task),
    third: (Task, Task),
    fourth: (Task, Task),
    parts: u32,
) -> (Pass, bool)
    requires first { IsTask book.now.table first.0 × IsTask book.now.table first.1 }
    requires second { IsTask book.now.table second.0 × IsTask book.now.table second.1 }
    requires third { IsTask book.now.table third.0 × IsTask book.now.table third.1 }
    requires fourth { IsTask book.now.table fourth.0 × IsTask book.now.table fourth.1 }
    ensures { (result.0.table ≡ book.now.table) × (result.0.leads ≡ false) }
{
    let ((mut pass, all), (other, others)) = thread::join(
        rt,
        move || -> (Pass, bool)
            requires { IsTask book.now.table first.0 × IsTask book.now.table first.1 × IsTask book.now.table second.0 × IsTask book.now.table second.1 }
            ensures { (result.0.table ≡ book.entry.now.table) × (result.0.leads ≡ false) }
        { run_four(rt, book, first, second, parts) },
        move || -> (Pass, bool)
            requires { IsTask book.now.table third.0 × IsTask book.now.table third.1 × IsTask book.now.table fourth.0 × IsTask book.now.table fourth.1 }
            ensures { (result.0.table ≡ book.entry.now.table) × (result.0.leads ≡ false) }
        { run_four(rt, book, third, fourth, parts) },
    );
    book.join(&mut pass, other);
    (pass, all && others)
}

/// Splits so many passes off, each from the one before, and takes them all in again.
pub fn regroup(book: &SharedBook<Sevens>, pass: &mut Pass, count: u32) -> Result<(), NoMemory>
    requires table { pass.old.table ≡ book.now.table }
    ensures table { (pass.new.table ≡ book.now.table) × (pass.new.leads ≡ pass.old.leads) }
    ensures claims { IfOk result (λ _. pass.new.claims ≡ pass.old.claims) }
{
    if count == 0 {
        return Ok(());
    }
    let mut other = book.split(pass)?;
    let rest = regroup(book, &mut other, count - 1);
    book.join(pass, other);
    rest
}

/// What there is to find in the book while the work is open.
pub fn quiet_under<R: Wait>(rt: &R, book: &SharedBook<Sevens>, pass: &mut Pass, by: &Work) -> Quiet
    requires table { pass.old.table ≡ book.now.table }
    requires own { Owns (counted pass.old.claims) (glimpse pass.old.seen) by.now }
    ensures table { (pass.new.table ≡ book.now.table) × (pass.new.leads ≡ pass.old.leads) }
    ensures own { Owns (counted pass.new.claims) (glimpse pass.new.seen) by.now }
{
    book.quiet_view(rt, pass)
}

/// Both finished their futures, with all parts settled.
fn is_finished(both: &Both) -> bool {
    both.first == Came::Finished && both.second == Came::Finished
}
