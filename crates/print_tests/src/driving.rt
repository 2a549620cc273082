//! Whoever runs the rule, for tests: it counts own steps, and answers what is asked of a part.
ghost use Rattle.std.specs.Prelude.{◌≡◌, IfOk, IfSome, IsErr};
ghost use Rattle.print_rules.specs.Left.{wait_of};
ghost use Rattle.seq_turns.specs.Turning.{a_seq, a_step, awaited, Fits};
ghost use Rattle.seq_values.specs.Plain.{plain};

use crate::building::{Step, build, full, seq_of};
use print_rules::{RuleState, begin, turn};
use seq_turns::{Proper, part_of};
use seq_values::{Answer, Turn, Value};
use std::alloc::Global;
use std::str;
use std::test::Fail;

/// No printing of a test takes so many turns.
const MOST_TURNS: usize = 10000;

/// The value of a part, and `None` for a part that throws.
fn part_value(alloc: Global, number: u32) -> Result<Option<Proper>, Fail> {
    let steps: &[Step] = match number {
        1 => &[Step::Range(1, 4)],
        2 => &[Step::Nil],
        3 => &[Step::Part(1), Step::Part(2), Step::Vector(2)],
        4 => &[Step::Int(4), Step::Before(1)],
        5 => &[Step::Int(5), Step::Before(9)],
        _ => return Ok(None),
    };
    let value = build(alloc, steps)?;
    Ok(Some(value))
}

/// The number of the part that a value is, and 0, which no part has, where it is none.
fn number_in(value: Value) -> u32 {
    match part_of(&value) {
        Some(id) => id.number(),
        None => 0,
    }
}

/// How printing ends: with the text, or with `throws`.
type End = Result<String, Fail>;

/// The answer to a `seq` of a part, or the end where the part throws.
fn answer_of(alloc: Global, number: u32) -> Result<Answer, End>
    ensures { IfOk result (λ a. Fits a_seq a) }
{
    match part_value(alloc, number) {
        Err(why) => Err(Err(why)),
        Ok(None) => Err(thrown(alloc)),
        Ok(Some(value)) => match seq_of(alloc, value) {
            Ok(seq) => Ok(Answer::Got(seq.value)),
            Err(why) => Err(Err(why)),
        },
    }
}

fn thrown(alloc: Global) -> Result<String, Fail> {
    Ok(String::from_str(alloc, "throws")?)
}

fn shown(alloc: Global, value: &Value) -> Result<String, Fail> {
    let mut out = String::new(alloc);
    match value {
        Value::Text(text) => match str::from_utf8(text.bytes()) {
            Ok(text) => out.push_str(text)?,
            Err(_) => out.push_str("no UTF-8")?,
        },
        _ => out.push_str("no text")?,
    }
    Ok(out)
}

/// A rule, and the answer that it is told next.
#[derive(Drop)]
struct Going {
    state: RuleState,
    answer: Answer,
    /// Whether it took an own step before.
    stepped: bool,
}

#[tactic(auto, using(crate::proofs::Fitting::fits_visit))]
fn after_step(state: RuleState) -> Going
    requires { wait_of state.state ≡ a_step }
    ensures { Fits (wait_of result.state.state) result.answer }
{
    Going {
        state,
        answer: Answer::Done,
        stepped: true,
    }
}

#[tactic(auto, using(crate::proofs::Fitting::fits_seq))]
fn told(state: RuleState, answer: Answer) -> Going
    requires waits { wait_of state.state ≡ a_seq }
    requires fits { Fits a_seq answer }
    ensures { Fits (wait_of result.state.state) result.answer }
{
    Going {
        state,
        answer,
        stepped: false,
    }
}

/// The rule is over.
fn ended(_state: RuleState, end: End) -> Result<Going, End>
    ensures { IsErr result }
{
    Err(end)
}

/// Goes on with the `seq` of a part, or ends where that throws.
fn after_seq(state: RuleState, answer: Result<Answer, End>) -> Result<Going, End>
    requires waits { wait_of state.state ≡ a_seq }
    requires fits { IfOk answer (λ a. Fits a_seq a) }
    ensures { IfOk result (λ g. Fits (wait_of g.state.state) g.answer) }
{
    match answer {
        Ok(answer) => Ok(told(state, answer)),
        Err(end) => ended(state, end),
    }
}

/// A turn that printing never takes.
fn strange(_state: RuleState, _taken: Turn) -> Result<Going, End>
    ensures { IsErr result }
{
    Err(Err(Fail::from("no turn of printing")))
}

fn text_of(alloc: Global, value: Value) -> End {
    shown(alloc, &value)
}

/// Goes on after a turn. Printing ends with the text, or with `throws`.
fn after_turn(alloc: Global, state: RuleState, taken: Turn) -> Result<Going, End>
    requires { wait_of state.state ≡ awaited taken }
    ensures { IfOk result (λ g. Fits (wait_of g.state.state) g.answer) }
{
    match taken {
        Turn::Visit => Ok(after_step(state)),
        Turn::Seq(value) => after_seq(state, answer_of(alloc, number_in(value))),
        Turn::Give(value) => ended(state, text_of(alloc, value)),
        other => strange(state, other),
    }
}

fn advance(alloc: Global, going: Going) -> Result<Going, End>
    requires { Fits (wait_of going.state.state) going.answer }
    ensures { IfOk result (λ g. Fits (wait_of g.state.state) g.answer) }
{
    match turn(alloc, going.state, going.answer) {
        Ok((state, taken)) => after_turn(alloc, state, taken),
        Err(why) => Err(Err(full(why))),
    }
}

fn with_steps(end: End, steps: usize) -> Result<(String, usize), Fail> {
    match end {
        Ok(text) => Ok((text, steps)),
        Err(why) => Err(why),
    }
}

fn counted(steps: usize, stepped: bool) -> usize {
    if stepped {
        steps.wrapping_add(1)
    } else {
        steps
    }
}

/// What printing came to: the text or `throws`, and how many own steps were taken.
pub(crate) fn printed(alloc: Global, value: Proper) -> Result<(String, usize), Fail> {
    let mut going = Going {
        state: begin(value.value),
        answer: Answer::Begin,
        stepped: false,
    };
    let mut steps = 0usize;
    for _ in 0..MOST_TURNS {
        match advance(alloc, going) {
            Err(end) => return with_steps(end, steps),
            Ok(next) => going = next,
        }
        steps = counted(steps, going.stepped);
    }
    Err(Fail::from("no end"))
}
