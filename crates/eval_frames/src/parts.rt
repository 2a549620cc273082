//! Expressions by their numbers.
ghost use Rattle.std.specs.Prelude.{◌≡◌, ◌+◌, true, IfOk};
ghost use Rattle.clj_script.specs.Literals.{is_written};
ghost use Rattle.eval_frames.specs.Parts.{tree, parts_in, from_place, to_come, Begins, Splits, HasShape};
ghost use Rattle.seq_values.specs.Model as M;
ghost use Rattle.seq_values.specs.Plain.{plain};
ghost use Rattle.seq_values.specs.declared.words.Target.TheVariants as T;

use crate::state::{Ahead, Code, Members, Shape};
use clj_script::Expr;
use seq_turns::{Proper, ProperList};
use seq_values::{FnValue, Target, Value, word_value};
use seq_vector::{NoMemory, PVec, Share};

/// The number of the part of an expression at a place, and `None` exactly where it has no part there.
fn part_at(code: &Code, expr: u32, at: u32) -> Option<u32>
    ensures { Begins code.now (from_place at (parts_in (tree code.now expr))) (from_place (at + 1) (parts_in (tree code.now expr))) result }
{
    let Some(expr) = code.program.expr(expr) else {
        return None;
    };
    match expr {
        Expr::Vector(parts) => parts.get(at as usize),
        Expr::Call { args, .. } => args.get(at as usize),
        Expr::And(parts) => parts.get(at as usize),
        Expr::Or(parts) => parts.get(at as usize),
        Expr::Literal(_) => None,
        Expr::Word(_) => None,
        Expr::Function(_) => None,
        Expr::Defined { .. } => None,
        Expr::Local(_) => None,
        Expr::Let { .. } => None,
        Expr::If { .. } => None,
        Expr::LazySeq { .. } => None,
    }
}

/// There is no part left.
fn over(locals: ProperList) -> Ahead
    ensures { result ≡ Ahead.Over }
{
    Ahead::Over
}

/// The first of the expressions that are still to be evaluated, and those behind it.
pub(crate) fn split(code: &Code, members: Members) -> Result<Ahead, NoMemory>
    ensures { IfOk result (λ a. Splits code.now members a) }
{
    let Members { expr, at, locals } = members;
    let Some(number) = part_at(code, expr, at) else {
        return Ok(over(locals));
    };
    if at == u32::MAX {
        return Err(NoMemory);
    }
    let shared = locals.share()?;
    Ok(Ahead::Part {
        number,
        locals: shared,
        later: Members {
            expr,
            at: at + 1,
            locals,
        },
    })
}

/// A value of a script's literals.
fn literal(value: &Value) -> Result<Proper, NoMemory>
    requires { is_written value.now ≡ true }
    ensures { IfOk result (λ v. v.value ≡ value.now) }
{
    let value = value.share()?;
    Ok(Proper { value })
}

/// A function of the program as a value.
fn function(number: u32) -> Proper
    ensures { plain result.value ≡ M.function (T.User number) M.no_values }
{
    Proper {
        value: Value::Function(FnValue::of(Target::User(number), PVec::new())),
    }
}

/// What the expression with a number is. A number that no expression has stands for nil.
pub(crate) fn shape_of(code: &Code, expr: u32) -> Result<Shape, NoMemory>
    ensures { IfOk result (λ s. HasShape code.now (tree code.now expr) s) }
{
    let Some(expr) = code.program.expr(expr) else {
        return Ok(Shape::Value(Proper::nil()));
    };
    match expr {
        Expr::Literal(value) => {
            let value = literal(value)?;
            Ok(Shape::Value(value))
        }
        Expr::Word(word) => Ok(Shape::Value(Proper {
            value: word_value(*word),
        })),
        Expr::Function(number) => Ok(Shape::Value(function(*number))),
        Expr::Defined { form } => Ok(Shape::Defined(*form)),
        Expr::Local(number) => Ok(Shape::Local(*number)),
        Expr::Vector(_) => Ok(Shape::Vector),
        Expr::Call { head, .. } => Ok(Shape::Call { head: *head }),
        Expr::Let { value, body } => Ok(Shape::Let {
            value: *value,
            body: *body,
        }),
        Expr::If { test, yes, no } => Ok(Shape::If {
            test: *test,
            yes: *yes,
            no: *no,
        }),
        Expr::And(_) => Ok(Shape::And),
        Expr::Or(_) => Ok(Shape::Or),
        Expr::LazySeq { body } => Ok(Shape::LazySeq { body: *body }),
    }
}
