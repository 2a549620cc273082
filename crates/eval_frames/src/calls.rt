//! Calls, and the own step that each of them takes.
ghost use Rattle.std.specs.Prelude.{◌≡◌, ◌+◌, ◌-◌, false, None, IfSome, IsTrue};
ghost use Rattle.eval_frames.specs.Parts.{IsRuled, is_function};
ghost use Rattle.eval_frames.specs.Frames.{ground, script_in, beneath};
ghost use Rattle.eval_frames.specs.Leads.{Enters, Leads};
ghost use Rattle.eval_frames.specs.Weights.{rest_weight, heaviest};
ghost use Rattle.clj_script.specs.Seen.{seen};
ghost use Rattle.seq_meaning.specs.Evaluates.{called};
ghost use Rattle.seq_plan.specs.Plan.{call, then};
ghost use Rattle.seq_values.specs.Plain.{plain, plains};
ghost use Rattle.seq_values.specs.WellFormed.{is_well_formed, is_well_formed_function};
ghost use Rattle.seq_values.specs.declared.value.Value.TheVariants as V;
ghost use Rattle.seq_values.specs.declared.words.Target.TheVariants as T;
ghost use Rattle.seq_base.specs.declared.thrown.Thrown.TheVariants as E;

use crate::frames::{let_go, paid, stopped};
use crate::rules::Rules;
use crate::state::{Beginning, Code, Entered, Event, Now, Ready, Rest, Runner};
use seq_base::Thrown;
use seq_turns::{Proper, ProperList};
use seq_values::{FnValue, Node, Target, Value};

/// The call throws.
fn refused<R: Rules>(args: ProperList, rest: Rest<R>, why: Thrown) -> Entered<R>
    ensures { result ≡ Entered.Throws why }
{
    Entered::Throws(why)
}

/// A call of a function of the program: its body, with the arguments as locals.
fn enter_own<R: Rules>(
    code: &Code,
    number: u32,
    function: FnValue,
    args: ProperList,
    rest: Rest<R>,
) -> Entered<R>
    requires { function.target ≡ T.User number }
    ensures { Enters (ground R.running R.table code.now) rest.left (then (called (script_in (ground R.running R.table code.now)) (plain (V.Function function)) (plains args.items)) (beneath (ground R.running R.table code.now) rest)) (rest_weight code.now rest + (heaviest (seen code.now.program) + 1)) result }
{
    let_go(function);
    let count = args.items.len() as u32;
    match code.program.body(number, count) {
        None => refused(args, rest, Thrown::Arity),
        Some(expr) => Entered::On(Runner {
            now: Now::Eval { expr, locals: args },
            rest,
        }),
    }
}

/// A call of a function of the rules.
fn enter_ruled<R: Rules>(
    code: &Code,
    function: FnValue,
    args: ProperList,
    rest: Rest<R>,
) -> Entered<R>
    requires well { IsTrue (is_well_formed_function function) }
    requires ruled { IsRuled function.target }
    ensures { Enters (ground R.running R.table code.now) rest.left (then (called (script_in (ground R.running R.table code.now)) (plain (V.Function function)) (plains args.items)) (beneath (ground R.running R.table code.now) rest)) (rest_weight code.now rest + (heaviest (seen code.now.program) + 1)) result }
{
    let state = R::begin_call(code.processors, function, args);
    Entered::On(Runner {
        now: Now::Turn(Ready::Begin(Beginning { state })),
        rest,
    })
}

fn enter_function<R: Rules>(
    code: &Code,
    function: FnValue,
    args: ProperList,
    rest: Rest<R>,
) -> Entered<R>
    requires { IsTrue (is_well_formed_function function) }
    ensures { Enters (ground R.running R.table code.now) rest.left (then (called (script_in (ground R.running R.table code.now)) (plain (V.Function function)) (plains args.items)) (beneath (ground R.running R.table code.now) rest)) (rest_weight code.now rest + (heaviest (seen code.now.program) + 1)) result }
{
    match function.target {
        Target::User(number) => enter_own(code, number, function, args, rest),
        _ => enter_ruled(code, function, args, rest),
    }
}

/// The value is no function.
fn no_function(value: Value) -> Option<FnValue>
    ensures { result ≡ None }
{
    None
}

/// The function that a value is.
fn function_in(value: Value) -> Option<FnValue>
    ensures some { IfSome result (λ f. value ≡ V.Function f) }
    ensures none { result ≡ None → is_function (plain value) ≡ false }
{
    match value {
        Value::Function(function) => Some(function),
        Value::Nil => no_function(Value::Nil),
        Value::Bool(truth) => no_function(Value::Bool(truth)),
        Value::Int(number) => no_function(Value::Int(number)),
        Value::Keyword(name) => no_function(Value::Keyword(name)),
        Value::Text(text) => no_function(Value::Text(text)),
        Value::Vector { depth, items } => no_function(Value::Vector { depth, items }),
        Value::Node(node) => match node {
            Node::Empty => no_function(Value::Node(Node::Empty)),
            Node::Cons { depth, heads, rest } => {
                no_function(Value::Node(Node::Cons { depth, heads, rest }))
            }
            Node::Chunk { depth, items, rest } => {
                no_function(Value::Node(Node::Chunk { depth, items, rest }))
            }
            Node::Range { from, at, end } => {
                no_function(Value::Node(Node::Range { from, at, end }))
            }
            Node::VecSeq { depth, items, at } => {
                no_function(Value::Node(Node::VecSeq { depth, items, at }))
            }
        },
        Value::Reduced { depth, value } => no_function(Value::Reduced { depth, value }),
        Value::Cell(id) => no_function(Value::Cell(id)),
    }
}

/// A call after its own step.
pub(crate) fn enter<R: Rules>(
    code: &Code,
    function: Proper,
    args: ProperList,
    rest: Rest<R>,
) -> Entered<R>
    ensures { Enters (ground R.running R.table code.now) rest.left (then (called (script_in (ground R.running R.table code.now)) (plain function.value) (plains args.items)) (beneath (ground R.running R.table code.now) rest)) (rest_weight code.now rest + (heaviest (seen code.now.program) + 1)) result }
{
    match function_in(function.value) {
        Some(function) => enter_function(code, function, args, rest),
        None => refused(args, rest, Thrown::BadType),
    }
}

/// No own step is left for the call.
fn tired<R: Rules>(function: Proper, args: ProperList, rest: Rest<R>) -> Event<R>
    ensures { result ≡ Event.Throws E.Steps rest.left }
{
    stopped(rest, Thrown::Steps)
}

/// A call, which takes an own step.
pub(crate) fn calls<R: Rules>(
    code: &Code,
    function: Proper,
    args: ProperList,
    rest: Rest<R>,
) -> Event<R>
    ensures { Leads (ground R.running R.table code.now) rest.left (call (plain function.value) (plains args.items) (beneath (ground R.running R.table code.now) rest)) (rest_weight code.now rest - 2) result }
{
    if rest.left == 0 {
        return tired(function, args, rest);
    }
    let rest = paid(rest);
    let left = rest.left;
    match enter(code, function, args, rest) {
        Entered::On(runner) => Event::Went(runner),
        Entered::Throws(why) => Event::Throws { why, left },
    }
}
