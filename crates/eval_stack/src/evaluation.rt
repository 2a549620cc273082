//! An evaluation that is carried on step by step, over any cells.
ghost use Rattle.std.specs.Prelude.{◌≡◌, ◌+◌, ◌≤◌, ℕ, None, Some, IfOk, IfErr};
ghost use Rattle.clj_script.specs.Seen.{seen};
ghost use Rattle.cell_book.specs.Account.{Duty};
ghost use Rattle.cell_book.specs.Glimpses.{Glimpse, at_claim};
ghost use Rattle.lawful_works.specs.Basis.{Basis, Governs};
ghost use Rattle.lawful_works.specs.Calls.{Governed};
ghost use Rattle.lawful_works.specs.Evaluated.{IsBegun};
ghost use Rattle.lawful_works.specs.Named.{StaysGood};
ghost use Rattle.lawful_works.specs.Alone.{Becomes, Grows};
ghost use Rattle.eval_works.specs.Begins.{IsNewWork};
ghost use Rattle.eval_stack.specs.Stack.{basis_of, basis_in};
ghost use Rattle.eval_stack.specs.Turned.{claims_left, StaysLowest, Ends, TurnedOn};
ghost use Rattle.eval_stack.specs.Evaluating.{open_claims, IsOf, GoesOn, GoesOnAfter, WorksOn, Shows, StepNotes, NotesAfter};

use crate::forcing::concluded;
use crate::losing::lose_stack;
use crate::state::{Progress, Setting, Stack, Top, Turned};
use crate::turning::turn;
use cell_book::{Cells, Work};
use clj_script::Program;
use eval_frames::Rules;
use eval_works::{Begun, begin_work};
use seq_turns::Rule;
use seq_vector::{NoMemory, Share};
use std::alloc::Global;

/// The evaluation of a work. It must be put away by `abandon`, also when it is over.
pub struct Evaluation<R: Rule> {
    pub(crate) setting: Setting,
    pub(crate) stack: Option<Stack<R>>,
}

/// What a turn shows, and the stack with which the evaluation goes on. Where no work goes on, all are given up.
fn shown<C: Cells, R: Rules>(
    setting: &Setting,
    cells: &mut C,
    turned: Turned<R>,
) -> (Option<Stack<R>>, Progress)
    requires ready { C.ready cells.old }
    requires law { Governs (C.alone cells.old) (C.law cells.old) (C.noted cells.old) (basis_of R.table setting.now) }
    requires stands { TurnedOn R.running R.table setting.now (C.seen cells.old) (C.held cells.old) turned }
    ensures works { WorksOn R.running R.table setting.now (C.seen cells.new) (C.held cells.new) result.0 }
    ensures going { GoesOnAfter result.1 result.0 }
    ensures shows { (w : Duty) → Ends (C.seen cells.old) w turned → Shows (C.seen cells.new) w result.1 }
    ensures of { (w : Duty) → StaysLowest w turned → IsOf w result.0 }
    ensures held { (c : ℕ) → C.held cells.new c + claims_left turned c ≡ C.held cells.old c + open_claims result.0 c }
    ensures law { Governs (C.alone cells.new) (C.law cells.new) (C.noted cells.new) (basis_of R.table setting.now) }
    ensures names { StaysGood (C.alone cells.old) (C.law cells.old) (C.noted cells.old) (C.alone cells.new) (C.law cells.new) (C.noted cells.new) (basis_of R.table setting.now) }
    ensures quiet { Becomes (C.alone cells.old) (C.noted cells.old) (C.noted cells.new) (NotesAfter turned result.1) }
    ensures same { C.same cells.old cells.new }
{
    match turned {
        Turned::On(stack) => (Some(stack), Progress::Running),
        Turned::Waits { stack, cell, claim } => (Some(stack), Progress::Waiting { cell, claim }),
        Turned::Over(answer) => {
            let ended = concluded::<C, R>(setting, cells, Turned::Over(answer));
            (None, Progress::Ended(ended))
        }
        Turned::Halts { below, work, why } => {
            let ended = concluded(setting, cells, Turned::Halts { below, work, why });
            (None, Progress::Ended(ended))
        }
    }
}

/// The evaluation goes on with this stack, or is over.
fn stands<R: Rules>(evaluation: &mut Evaluation<R>, stack: Option<Stack<R>>)
    requires { evaluation.old.stack ≡ None }
    ensures stack { evaluation.new.stack ≡ stack }
    ensures setting { evaluation.new.setting ≡ evaluation.old.setting }
{
    if let Some(stack) = stack {
        match evaluation.stack.replace(stack) {
            None => {}
            Some(_before) => unreachable!(),
        }
    }
}

impl<R: Rules> Evaluation<R> {
    /// The evaluation of a work, at the start of its run. Without memory the work comes back.
    pub fn of(
        alloc: Global,
        program: &Program,
        processors: u32,
        limit: u64,
        work: Work,
    ) -> Result<Evaluation<R>, (Work, NoMemory)>
        requires new { IsNewWork (seen program.now).tops work }
        ensures setting { IfOk result (λ e. e.setting ≡ record { program = program.now; processors = processors; limit = limit }) }
        ensures works { IfOk result (λ e. (g : Glimpse) (mine : ℕ → ℕ) → ((c : ℕ) → at_claim work.claim c ≤ mine c) → IsBegun (basis_in R.table program.now processors limit) g work → WorksOn R.running R.table e.setting g mine e.stack) }
        ensures claims { IfOk result (λ e. (c : ℕ) → open_claims e.stack c ≡ at_claim work.claim c) }
        ensures of { IfOk result (λ e. IsOf work e.stack) }
        ensures going { IfOk result (λ e. GoesOn e.stack) }
        ensures back { IfErr result (λ r. r.0 ≡ work) }
    {
        let Ok(program) = program.share() else {
            return Err((work, NoMemory));
        };
        let setting = Setting {
            program,
            processors,
            limit,
        };
        match begin_work(alloc, &setting.program, processors, limit, &work) {
            Ok(begun) => {
                let Begun { code, event } = begun;
                let below = Vec::new(alloc);
                let stack = Stack {
                    below,
                    top: Top { work, code, event },
                };
                Ok(Evaluation {
                    setting,
                    stack: Some(stack),
                })
            }
            Err(_) => Err((work, NoMemory)),
        }
    }

    /// One piece of the evaluation: the top work goes on, makes or asks a part, or ends and the one that asked for it goes on. Where no work goes
    /// on, all that are open are given up. It must not be over before.
    pub fn step<C: Cells>(&mut self, alloc: Global, cells: &mut C) -> Progress
        requires ready { C.ready cells.old }
        requires going { GoesOn self.old.stack }
        requires law { Governs (C.alone cells.old) (C.law cells.old) (C.noted cells.old) (basis_of R.table self.old.setting) }
        requires works { WorksOn R.running R.table self.old.setting (C.seen cells.old) (C.held cells.old) self.old.stack }
        ensures setting { self.new.setting ≡ self.old.setting }
        ensures works { WorksOn R.running R.table self.old.setting (C.seen cells.new) (C.held cells.new) self.new.stack }
        ensures going { GoesOnAfter result self.new.stack }
        ensures shows { (w : Duty) → IsOf w self.old.stack → Shows (C.seen cells.new) w result }
        ensures of { (w : Duty) → IsOf w self.old.stack → IsOf w self.new.stack }
        ensures held { (c : ℕ) → C.held cells.new c + open_claims self.old.stack c ≡ C.held cells.old c + open_claims self.new.stack c }
        ensures law { Governs (C.alone cells.new) (C.law cells.new) (C.noted cells.new) (basis_of R.table self.old.setting) }
        ensures names { StaysGood (C.alone cells.old) (C.law cells.old) (C.noted cells.old) (C.alone cells.new) (C.law cells.new) (C.noted cells.new) (basis_of R.table self.old.setting) }
        ensures quiet { Becomes (C.alone cells.old) (C.noted cells.old) (C.noted cells.new) (StepNotes result) }
        ensures same { C.same cells.old cells.new }
    {
        match self.stack.take() {
            Some(stack) => {
                let turned = turn(alloc, &self.setting, cells, stack);
                let (stack, progress) = shown(&self.setting, cells, turned);
                stands(self, stack);
                progress
            }
            None => unreachable!(),
        }
    }

    /// Gives up each work that the evaluation has open. It takes no memory.
    pub fn abandon<C: Cells>(self, cells: &mut C)
        requires ready { C.ready cells.old }
        requires law { Governed (C.alone cells.old) (C.law cells.old) (C.noted cells.old) }
        requires works { WorksOn R.running R.table self.setting (C.seen cells.old) (C.held cells.old) self.stack }
        ensures held { (c : ℕ) → C.held cells.new c + open_claims self.stack c ≡ C.held cells.old c }
        ensures law { (y : Basis) → Governs (C.alone cells.old) (C.law cells.old) (C.noted cells.old) y → Governs (C.alone cells.new) (C.law cells.new) (C.noted cells.new) y }
        ensures names { (y : Basis) → StaysGood (C.alone cells.old) (C.law cells.old) (C.noted cells.old) (C.alone cells.new) (C.law cells.new) (C.noted cells.new) y }
        ensures quiet { Becomes (C.alone cells.old) (C.noted cells.old) (C.noted cells.new) Grows }
        ensures same { C.same cells.old cells.new }
    {
        let Evaluation { setting, stack } = self;
        match stack {
            Some(stack) => lose_stack(&setting, cells, stack),
            None => {}
        }
    }
}
