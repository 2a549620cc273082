//! A rule is driven through its turns, and what it does is written down: `.` for an own step, `?` before a value whose seq it asks for, a function before its arguments, `=` before the value at the end, and `!` before an error.
ghost use Rattle.std.specs.Prelude.{◌≡◌};
ghost use Rattle.seq_turns.specs.Turning.{a_seq, a_value, awaited};
ghost use Rattle.walk_rules.specs.Left.{wait_of};

use crate::asked::{begun, stepped, told_seq, told_value};
use crate::due::Due;
use seq_base::{Thrown, word_of};
use seq_turns::Proper;
use seq_values::{Builtin, Line, Turn, Value};
use seq_vector::{NoMemory, PVec};
use std::alloc::Global;
use value_samples::{Sample, samples, seq_of, show};
use walk_rules::RuleState;

/// The next answer of those that a row has, and nil after the last one.
fn next_answer(alloc: Global, told: &[Sample], at: &mut usize) -> Result<Proper, NoMemory> {
    let place = *at;
    *at = place.saturating_add(1);
    match told.get(place) {
        Some(sample) => sample.value(alloc),
        None => Ok(Proper::nil()),
    }
}

/// A part is told as what its value's seq is. Nothing else has a seq where it isn't there at once.
fn asked(
    alloc: Global,
    state: RuleState,
    whole: Value,
    told: &[Sample],
    at: &mut usize,
    line: &mut Line,
) -> Result<Option<Due>, NoMemory>
    requires { wait_of state.state ≡ a_seq }
{
    line.push(b'?')?;
    show(&whole, line)?;
    line.push(b' ')?;
    if !matches!(whole, Value::Cell(_)) {
        line.append(b"!type")?;
        return Ok(None);
    }
    let answer = next_answer(alloc, told, at)?;
    let seq = seq_of(alloc, answer)?;
    let due = told_seq(alloc, state, seq)?;
    Ok(Some(due))
}

fn show_call(function: &Value, args: &PVec<Value>, line: &mut Line) -> Result<(), NoMemory> {
    show(function, line)?;
    line.push(b'(')?;
    for place in 0..args.len() {
        if place > 0 {
            line.push(b' ')?;
        }
        if let Some(arg) = args.get(place) {
            show(arg, line)?;
        }
    }
    line.append(b") ")
}

fn called(
    alloc: Global,
    state: RuleState,
    told: &[Sample],
    at: &mut usize,
) -> Result<Option<Due>, NoMemory>
    requires { wait_of state.state ≡ a_value }
{
    let answer = next_answer(alloc, told, at)?;
    let due = told_value(alloc, state, answer)?;
    Ok(Some(due))
}

fn gave(value: Value, line: &mut Line) -> Result<Option<Due>, NoMemory> {
    line.push(b'=')?;
    show(&value, line)?;
    Ok(None)
}

fn threw(why: Thrown, line: &mut Line) -> Result<Option<Due>, NoMemory> {
    line.push(b'!')?;
    line.append(word_of(why))?;
    Ok(None)
}

/// What comes after a turn, and `None` where the rule has ended.
fn after(
    alloc: Global,
    state: RuleState,
    turn: Turn,
    told: &[Sample],
    at: &mut usize,
    line: &mut Line,
) -> Result<Option<Due>, NoMemory>
    requires { wait_of state.state ≡ awaited turn }
{
    match turn {
        Turn::Visit => {
            line.append(b". ")?;
            let due = stepped(alloc, state)?;
            Ok(Some(due))
        }
        Turn::Seq(whole) => asked(alloc, state, whole, told, at, line),
        Turn::Apply { function, args } => {
            show_call(&function, &args, line)?;
            called(alloc, state, told, at)
        }
        Turn::Give(value) => gave(value, line),
        Turn::Throw(why) => threw(why, line),
        Turn::Need(_) => Ok(None),
        Turn::Make { .. } => Ok(None),
    }
}

/// Tells a rule what it asked for, and takes its next turn.
fn turned(
    alloc: Global,
    due: Due,
    told: &[Sample],
    at: &mut usize,
    line: &mut Line,
) -> Result<Option<Due>, NoMemory> {
    let Due { state, turn } = due;
    after(alloc, state, turn, told, at, line)
}

/// What the rule of a word does, given its arguments and what it is told when it asks or calls.
pub(crate) fn transcript(
    alloc: Global,
    word: Builtin,
    args: &[Sample],
    told: &[Sample],
) -> Result<Line, NoMemory> {
    let mut line = Line::new(alloc);
    let mut at = 0;
    let mut next = begun(alloc, word, samples(alloc, args)?)?;
    for _ in 0..64 {
        match next {
            Some(due) => next = turned(alloc, due, told, &mut at, &mut line)?,
            None => return Ok(line),
        }
    }
    line.append(b" no end")?;
    Ok(line)
}
