//! Expressions.
ghost use Rattle.std.specs.Prelude.{◌≡◌, ◌+◌, IfOk};
ghost use Rattle.clj_script.specs.Trees as expr;
ghost use Rattle.eval_frames.specs.Frames.{ground, beneath};
ghost use Rattle.eval_frames.specs.Leads.{Comes, ExprComes};
ghost use Rattle.eval_frames.specs.Parts.{tree, parts_in};
ghost use Rattle.eval_frames.specs.Weights.{rest_weight};
ghost use Rattle.seq_values.specs.Plain.{plain, plains};

use crate::deciding::{until_any, while_all};
use crate::frames::{evaluates, tells};
use crate::gathering::gather;
use crate::locals::{defined, value_in};
use crate::parts::shape_of;
use crate::rules::Rules;
use crate::state::{Advance, Code, Event, Frame, Maker, Members, ProperTerm, Purpose, Rest, Shape};
use seq_turns::{Gathered, Proper, ProperList};
use seq_values::{Kind, Op, Term, Value};
use seq_vector::{NoMemory, PVec};
use std::alloc::Global;

/// The parts of an expression, from the first on.
fn parts_of(expr: u32, locals: ProperList) -> Members
    ensures { result ≡ record { expr = expr; at = 0; locals = locals } }
{
    Members {
        expr,
        at: 0,
        locals,
    }
}

/// The value of an expression is told to the top frame.
fn gives<R: Rules>(code: &Code, value: Proper, locals: ProperList, rest: Rest<R>) -> Advance<R>
    ensures { Comes (ground R.running R.table code.now) rest.left (beneath (ground R.running R.table code.now) rest (plain value.value)) (rest_weight code.now rest + 1) result }
{
    Advance::On(tells(code, value, rest))
}

/// The value of a `def` form.
fn eval_defined<R: Rules>(
    code: &Code,
    form: u32,
    locals: ProperList,
    rest: Rest<R>,
) -> Result<Advance<R>, NoMemory>
    ensures { IfOk result (λ a. ExprComes (ground R.running R.table code.now) (expr.defined form) (plains locals.items) rest a) }
{
    let value = defined(code, form)?;
    Ok(gives(code, value, locals, rest))
}

/// The value of a local.
fn eval_local<R: Rules>(
    code: &Code,
    number: u32,
    locals: ProperList,
    rest: Rest<R>,
) -> Result<Advance<R>, NoMemory>
    ensures { IfOk result (λ a. ExprComes (ground R.running R.table code.now) (expr.local number) (plains locals.items) rest a) }
{
    let value = value_in(&locals, number as usize)?;
    Ok(gives(code, value, locals, rest))
}

/// A vector: its members are evaluated in order.
fn eval_vector<R: Rules>(
    alloc: Global,
    code: &Code,
    number: u32,
    locals: ProperList,
    rest: Rest<R>,
) -> Result<Advance<R>, NoMemory>
    ensures { IfOk result (λ a. ExprComes (ground R.running R.table code.now) (expr.vector_of (parts_in (tree code.now number))) (plains locals.items) rest a) }
{
    let none = Gathered::none(alloc);
    let all = gather(
        alloc,
        code,
        Purpose::Vector,
        none,
        parts_of(number, locals),
        rest,
    )?;
    Ok(all)
}

/// A call: its head is evaluated first.
fn eval_call<R: Rules>(
    code: &Code,
    number: u32,
    head: u32,
    locals: ProperList,
    rest: Rest<R>,
) -> Result<Advance<R>, NoMemory>
    ensures { IfOk result (λ a. ExprComes (ground R.running R.table code.now) (expr.call_of (tree code.now head) (parts_in (tree code.now number))) (plains locals.items) rest a) }
{
    let shared = locals.share()?;
    let frame = Frame::Head(parts_of(number, locals));
    let runner = evaluates(code, head, shared, frame, rest)?;
    Ok(Advance::On(runner))
}

/// A `let`: the value is evaluated first.
fn eval_let<R: Rules>(
    code: &Code,
    value: u32,
    body: u32,
    locals: ProperList,
    rest: Rest<R>,
) -> Result<Advance<R>, NoMemory>
    ensures { IfOk result (λ a. ExprComes (ground R.running R.table code.now) (expr.let_in (tree code.now value) (tree code.now body)) (plains locals.items) rest a) }
{
    let shared = locals.share()?;
    let runner = evaluates(code, value, shared, Frame::Let { body, locals }, rest)?;
    Ok(Advance::On(runner))
}

/// An `if`: the test is evaluated first.
fn eval_if<R: Rules>(
    code: &Code,
    test: u32,
    yes: u32,
    no: u32,
    locals: ProperList,
    rest: Rest<R>,
) -> Result<Advance<R>, NoMemory>
    ensures { IfOk result (λ a. ExprComes (ground R.running R.table code.now) (expr.if_of (tree code.now test) (tree code.now yes) (tree code.now no)) (plains locals.items) rest a) }
{
    let shared = locals.share()?;
    let runner = evaluates(code, test, shared, Frame::If { yes, no, locals }, rest)?;
    Ok(Advance::On(runner))
}

/// An `and`: true where it has no parts.
fn eval_and<R: Rules>(
    code: &Code,
    number: u32,
    locals: ProperList,
    rest: Rest<R>,
) -> Result<Advance<R>, NoMemory>
    ensures { IfOk result (λ a. ExprComes (ground R.running R.table code.now) (expr.and_of (parts_in (tree code.now number))) (plains locals.items) rest a) }
{
    let runner = while_all(code, Proper::of_truth(true), parts_of(number, locals), rest)?;
    Ok(Advance::On(runner))
}

/// An `or`: nil where it has no parts.
fn eval_or<R: Rules>(
    code: &Code,
    number: u32,
    locals: ProperList,
    rest: Rest<R>,
) -> Result<Advance<R>, NoMemory>
    ensures { IfOk result (λ a. ExprComes (ground R.running R.table code.now) (expr.or_of (parts_in (tree code.now number))) (plains locals.items) rest a) }
{
    let runner = until_any(code, Proper::nil(), parts_of(number, locals), rest)?;
    Ok(Advance::On(runner))
}

/// A `lazy-seq`: a part that keeps the locals is to be made.
fn eval_lazy<R: Rules>(code: &Code, body: u32, locals: ProperList, rest: Rest<R>) -> Advance<R>
    ensures { ExprComes (ground R.running R.table code.now) (expr.lazy_seq body) (plains locals.items) rest result }
{
    Advance::Comes(Event::Makes {
        kind: Kind::Lazy,
        term: ProperTerm {
            term: Term {
                op: Op::Body(body),
                args: locals.items,
            },
        },
        maker: Maker::LazySeq,
        rest,
    })
}

/// Evaluates an expression as far as its first part.
pub(crate) fn eval<R: Rules>(
    alloc: Global,
    code: &Code,
    number: u32,
    locals: ProperList,
    rest: Rest<R>,
) -> Result<Advance<R>, NoMemory>
    ensures { IfOk result (λ a. ExprComes (ground R.running R.table code.now) (tree code.now number) (plains locals.items) rest a) }
{
    match shape_of(code, number)? {
        Shape::Value(value) => Ok(gives(code, value, locals, rest)),
        Shape::Defined(form) => eval_defined(code, form, locals, rest),
        Shape::Local(local) => eval_local(code, local, locals, rest),
        Shape::Vector => eval_vector(alloc, code, number, locals, rest),
        Shape::Call { head } => eval_call(code, number, head, locals, rest),
        Shape::Let { value, body } => eval_let(code, value, body, locals, rest),
        Shape::If { test, yes, no } => eval_if(code, test, yes, no, locals, rest),
        Shape::And => eval_and(code, number, locals, rest),
        Shape::Or => eval_or(code, number, locals, rest),
        Shape::LazySeq { body } => Ok(eval_lazy(code, body, locals, rest)),
    }
}
