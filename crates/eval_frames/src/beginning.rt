//! Where a work begins.
ghost use Rattle.std.specs.Prelude.{◌≡◌, ◌+◌, ◌*◌, [], IfOk};
ghost use Rattle.clj_script.specs.Seen.{seen, trees, top_over};
ghost use Rattle.eval_frames.specs.Frames.{ground, script_in};
ghost use Rattle.eval_frames.specs.Leads.{Stands, Enters};
ghost use Rattle.eval_frames.specs.Parts.{tree, IsRuledTerm};
ghost use Rattle.eval_frames.specs.Weights.{weight, heaviest, step_weight, form_weight};
ghost use Rattle.seq_base.specs.declared.thrown.Thrown.TheVariants as E;
ghost use Rattle.seq_meaning.specs.Evaluates.{eval, term_plan, form_plan};
ghost use Rattle.seq_plan.specs.Plan.{give};
ghost use Rattle.seq_values.specs.Model as M;
ghost use Rattle.seq_values.specs.Plain.{plains, plain_term};
ghost use Rattle.seq_values.specs.declared.words.Op.TheVariants as O;

use crate::frames::{pushed, tells};
use crate::rules::Rules;
use crate::state::{Beginning, Code, Entered, Frame, Now, ProperTerm, Ready, Rest, Runner};
use clj_script::Top;
use seq_base::Thrown;
use seq_turns::{Proper, ProperList};
use seq_values::Op;
use seq_vector::NoMemory;
use std::alloc::Global;

/// So many own steps, and no frame waits.
fn fresh<R: Rules>(alloc: Global, limit: u64) -> Rest<R>
    ensures left { result.left ≡ limit }
    ensures frames { result.frames.items ≡ [] }
{
    Rest {
        left: limit,
        frames: Vec::new(alloc),
    }
}

/// No body has the number.
fn no_body<R: Rules>(term: ProperTerm) -> Entered<R>
    ensures { result ≡ Entered.Throws E.Arity }
{
    Entered::Throws(Thrown::Arity)
}

/// The body of a `lazy-seq`, with the locals that it keeps.
fn begin_body<R: Rules>(
    alloc: Global,
    code: &Code,
    limit: u64,
    number: u32,
    term: ProperTerm,
) -> Entered<R>
    requires { term.term.op ≡ O.Body number }
    ensures { Enters (ground R.running R.table code.now) limit (term_plan (script_in (ground R.running R.table code.now)) (plain_term term.term)) (limit * step_weight code.now + (heaviest (seen code.now.program) + 1)) result }
{
    match code.program.lazy_body(number) {
        None => no_body(term),
        Some(expr) => Entered::On(Runner {
            now: Now::Eval {
                expr,
                locals: ProperList {
                    items: term.term.args,
                },
            },
            rest: fresh(alloc, limit),
        }),
    }
}

/// The rule of a term.
fn begin_rule<R: Rules>(alloc: Global, code: &Code, limit: u64, term: ProperTerm) -> Entered<R>
    requires { IsRuledTerm term.term.op }
    ensures { Enters (ground R.running R.table code.now) limit (term_plan (script_in (ground R.running R.table code.now)) (plain_term term.term)) (limit * step_weight code.now + (heaviest (seen code.now.program) + 1)) result }
{
    let state = R::begin_term(code.processors, term);
    Entered::On(Runner {
        now: Now::Turn(Ready::Begin(Beginning { state })),
        rest: fresh(alloc, limit),
    })
}

/// The work of a part begins, with so many own steps to take. It takes no memory.
pub fn begin_part<R: Rules>(alloc: Global, code: &Code, limit: u64, term: ProperTerm) -> Entered<R>
    ensures { Enters (ground R.running R.table code.now) limit (term_plan (script_in (ground R.running R.table code.now)) (plain_term term.term)) (limit * step_weight code.now + (heaviest (seen code.now.program) + 1)) result }
{
    match term.term.op {
        Op::Body(number) => begin_body(alloc, code, limit, number, term),
        _ => begin_rule(alloc, code, limit, term),
    }
}

/// The value of a form that defines a name.
fn begin_value<R: Rules>(alloc: Global, code: &Code, limit: u64, expr: u32) -> Runner<R>
    ensures { Stands (ground R.running R.table code.now) limit (eval (plains code.now.values.items) (tree code.now expr) [] give) (limit * step_weight code.now + weight (tree code.now expr)) result }
{
    Runner {
        now: Now::Eval {
            expr,
            locals: ProperList::none(),
        },
        rest: fresh(alloc, limit),
    }
}

/// The text of a form that prints.
fn begin_print<R: Rules>(
    alloc: Global,
    code: &Code,
    limit: u64,
    expr: u32,
) -> Result<Runner<R>, NoMemory>
    ensures { IfOk result (λ r. Stands (ground R.running R.table code.now) limit (eval (plains code.now.values.items) (tree code.now expr) [] (R.table code.now.processors).on_print) (limit * step_weight code.now + (weight (tree code.now expr) + 2)) r) }
{
    let rest = pushed(code, fresh(alloc, limit), Frame::Print)?;
    Ok(Runner {
        now: Now::Eval {
            expr,
            locals: ProperList::none(),
        },
        rest,
    })
}

/// A form that does nothing gives nil.
fn begin_nil<R: Rules>(alloc: Global, code: &Code, limit: u64) -> Runner<R>
    ensures { Stands (ground R.running R.table code.now) limit (give M.nil) (limit * step_weight code.now) result }
{
    tells(code, Proper::nil(), fresh(alloc, limit))
}

/// The work of a form begins, with so many own steps to take.
pub fn begin_form<R: Rules>(
    alloc: Global,
    code: &Code,
    limit: u64,
    form: Top,
) -> Result<Runner<R>, NoMemory>
    ensures { IfOk result (λ r. Stands (ground R.running R.table code.now) limit (form_plan (script_in (ground R.running R.table code.now)) (top_over (trees code.now.program) form)) (limit * step_weight code.now + form_weight code.now form) r) }
{
    match form {
        Top::Def { expr, .. } => Ok(begin_value(alloc, code, limit, expr)),
        Top::Defn => Ok(begin_nil(alloc, code, limit)),
        Top::Prn { expr } => {
            let runner = begin_print(alloc, code, limit, expr)?;
            Ok(runner)
        }
        Top::Ledger => Ok(begin_nil(alloc, code, limit)),
    }
}
