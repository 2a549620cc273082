//! How the work of a part or of a form begins, and what it goes by.
ghost use Rattle.std.specs.Prelude.{◌≡◌, ◌∷◌, ◌+◌, ◌<◌, ◌≤◌, [], ℕ, slice_get, Some, length, IfOk, IsTrue, MatchBool};
ghost use Rattle.clj_script.specs.Seen.{seen, trees, top_over};
ghost use Rattle.clj_script.specs.Trees as tree;
ghost use Rattle.seq_values.specs.Model as M;
ghost use Rattle.seq_values.specs.Plain.{plain, plains, plain_term};
ghost use Rattle.seq_values.specs.WellFormed.{are_well_formed};
ghost use Rattle.seq_values.specs.WellFormedTerms.{is_well_formed_term};
ghost use Rattle.seq_meaning.specs.Evaluates.{term_plan};
ghost use Rattle.seq_meaning.specs.Referred.{referred, seen_of};
ghost use Rattle.seq_plan.specs.Plan as plan;
ghost use Rattle.eval_frames.specs.Frames.{ground, script_in};
ghost use Rattle.eval_frames.specs.Leads.{Enters};
ghost use Rattle.eval_works.specs.Standing.{GoesBy};
ghost use Rattle.eval_works.specs.Begins.{from_form, IsNewWork, StandsAt, StartsForm, StartsAt};

use crate::state::Begun;
use cell_book::{Place, Work};
use clj_script::{Program, Top};
use eval_frames::{Code, Entered, Event, ProperTerm, Rules, begin_form, begin_part};
use seq_turns::{Gathered, Proper, ProperList};
use seq_values::{Term, Value};
use seq_vector::{NoMemory, PVec, Share};
use std::alloc::Global;

/// The form at a place defines a name.
fn defines(program: &Program, at: u32) -> bool
    requires form { at < length (seen program.now).tops }
    requires small { at < 4294967295 }
    ensures { (t : tree.Top) (v : M.Value ℕ) → slice_get (seen program.now).tops at ≡ Some t → MatchBool result (seen_of t v ≡ v) (seen_of t v ≡ M.nil) }
{
    matches!(program.top(at + 1), Some(Top::Def { .. }))
}

/// The item at a place, with one more owner.
#[tactic(auto, using(seq_values::proofs::WellFormedLemmas::member_well))]
fn shared_at(outcomes: &PVec<Value>, at: u32) -> Result<Proper, NoMemory>
    requires well { IsTrue (are_well_formed outcomes.now) }
    requires within { at < length outcomes.now }
    ensures { IfOk result (λ v. slice_get outcomes.now at ≡ Some v.value) }
{
    match outcomes.get(at as usize) {
        Some(value) => {
            let value = value.share()?;
            Ok(Proper { value })
        }
        None => unreachable!(),
    }
}

/// The value of the form at a place, as others may refer to it: that of a `def`, and nil for any other form.
fn value_before(program: &Program, outcomes: &PVec<Value>, at: u32) -> Result<Proper, NoMemory>
    requires well { IsTrue (are_well_formed outcomes.now) }
    requires form { at < length (seen program.now).tops }
    requires small { at < 4294967295 }
    requires within { at < length outcomes.now }
    ensures { IfOk result (λ v. from_form program.now outcomes.now at ≡ plain v.value ∷ from_form program.now outcomes.now (at + 1)) }
{
    if !defines(program, at) {
        return Ok(Proper::nil());
    }
    let value = shared_at(outcomes, at)?;
    Ok(value)
}

/// How many forms a work may refer to.
fn forms_before(program: &Program, outcomes: &PVec<Value>) -> u32
    ensures few { (result ≤ length (seen program.now).tops) × (result ≤ length outcomes.now) }
    ensures all { from_form program.now outcomes.now result ≡ [] }
{
    let count = outcomes.len() as u32;
    let forms = program.tops();
    if count < forms { count } else { forms }
}

/// The values of the forms before, as far as they may be referred to.
fn values_before(
    alloc: Global,
    program: &Program,
    outcomes: &PVec<Value>,
) -> Result<ProperList, NoMemory>
    requires { IsTrue (are_well_formed outcomes.now) }
    ensures { IfOk result (λ all. plains all.items ≡ referred (seen program.now).tops (plains outcomes.now)) }
{
    let count = forms_before(program, outcomes);
    let mut all = Gathered::none(alloc);
    for at in 0..count {
        let value = value_before(program, outcomes, at)?;
        all = all.and(value)?;
    }
    all.listed(alloc)
}

/// What a work goes by.
pub fn code_of(
    alloc: Global,
    program: &Program,
    processors: u32,
    work: &Work,
) -> Result<Code, NoMemory>
    requires { IsTrue (are_well_formed work.now.outcomes) }
    ensures program { IfOk result (λ code. code.program ≡ program.now) }
    ensures processors { IfOk result (λ code. code.processors ≡ processors) }
    ensures goes { IfOk result (λ code. GoesBy code work.now) }
{
    let program = program.share()?;
    let values = values_before(alloc, &program, work.outcomes())?;
    Ok(Code {
        program,
        processors,
        values,
    })
}

/// The work goes on, or throws at once.
fn entered<R: Rules>(code: &Code, limit: u64, begun: Entered<R>) -> Event<R>
    ensures { (p : plan.Plan ℕ) (weight : ℕ) → Enters (ground R.running R.table code.now) limit p weight begun → StandsAt (ground R.running R.table code.now) limit p result }
{
    match begun {
        Entered::On(runner) => Event::Went(runner),
        Entered::Throws(why) => Event::Throws { why, left: limit },
    }
}

/// The work of a part's term, at the start of its run.
fn begun_term<R: Rules>(
    alloc: Global,
    code: &Code,
    limit: u64,
    term: &Term,
) -> Result<Event<R>, NoMemory>
    requires { IsTrue (is_well_formed_term term.now) }
    ensures { IfOk result (λ e. StandsAt (ground R.running R.table code.now) limit (term_plan (script_in (ground R.running R.table code.now)) (plain_term term.now)) e) }
{
    let term = term.share()?;
    let begun = begin_part(alloc, code, limit, ProperTerm { term });
    Ok(entered(code, limit, begun))
}

/// The form at a place.
fn top_at(program: &Program, at: usize) -> Top
    requires { at < length (seen program.now).tops }
    ensures { slice_get (seen program.now).tops at ≡ Some (top_over (trees program.now) result) }
{
    let forms = program.tops();
    prove!(at < forms as usize);
    match program.top(at as u32 + 1) {
        Some(top) => top,
        None => unreachable!(),
    }
}

/// The work of the form at a place, at the start of its run.
fn begun_top<R: Rules>(
    alloc: Global,
    code: &Code,
    limit: u64,
    at: usize,
) -> Result<Event<R>, NoMemory>
    requires { at < length (seen code.now.program).tops }
    ensures { IfOk result (λ e. StartsForm (ground R.running R.table code.now) limit at e) }
{
    let form = top_at(&code.program, at);
    let runner = begin_form(alloc, code, limit, form)?;
    Ok(Event::Went(runner))
}

/// The work of a part or of a form, at the start of its run.
pub fn begin_work<R: Rules>(
    alloc: Global,
    program: &Program,
    processors: u32,
    limit: u64,
    work: &Work,
) -> Result<Begun<R>, NoMemory>
    requires { IsNewWork (seen program.now).tops work.now }
    ensures program { IfOk result (λ b. b.code.program ≡ program.now) }
    ensures processors { IfOk result (λ b. b.code.processors ≡ processors) }
    ensures goes { IfOk result (λ b. GoesBy b.code work.now) }
    ensures starts { IfOk result (λ b. StartsAt (ground R.running R.table b.code) limit work.now b.event) }
{
    let code = code_of(alloc, program, processors, work)?;
    let event = match work.place() {
        Place::Part { term, .. } => begun_term(alloc, &code, limit, term)?,
        Place::Form { at, .. } => begun_top(alloc, &code, limit, *at)?,
    };
    Ok(Begun { code, event })
}
