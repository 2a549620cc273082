//! Arguments of calls, and what a call came to as a text.
ghost use Rattle.std.specs.Prelude.{IfOk, IsTrue};
ghost use Rattle.seq_values.specs.WellFormed.{is_well_formed, are_well_formed};

use core_fns::call_builtin;
use seq_base::word_of;
use seq_values::{
    Builtin, CallStop, Line, Node, Text, Value, empty_list, integer, print_atom, truth, vector,
    word_value,
};
use seq_vector::{NoMemory, PVec};
use std::alloc::Global;
use std::str;
use std::test::Fail;

/// An argument of a row.
#[derive(Clone, Copy)]
pub(crate) enum Arg {
    Nil,
    True,
    False,
    Int(i64),
    /// `:k`
    Keyword,
    /// `"t"`
    Text,
    /// `[]`
    None,
    /// `[1 2]`
    Pair,
    /// `()`
    Empty,
    /// A word as a function.
    Word(Builtin),
    /// `(reduced 5)`
    Ended,
}

pub(crate) fn full(_why: NoMemory) -> Fail {
    Fail::from("no memory")
}

/// The value of a call.
fn called(alloc: Global, word: Builtin, args: &[Value]) -> Result<Value, Fail>
    requires { IsTrue (are_well_formed args.now) }
    ensures { IfOk result (λ v. IsTrue (is_well_formed v)) }
{
    match call_builtin(alloc, word, args) {
        Ok(value) => Ok(value),
        Err(_) => Err(Fail::from("no value")),
    }
}

#[tactic(auto, using(crate::proofs::Pairs::two_well))]
fn pair(alloc: Global) -> Result<Value, Fail>
    ensures { IfOk result (λ v. IsTrue (is_well_formed v)) }
{
    called(alloc, Builtin::Vector, &[integer(1), integer(2)])
}

#[tactic(auto, using(seq_values::proofs::WellFormedLemmas::one_well))]
fn ended(alloc: Global) -> Result<Value, Fail>
    ensures { IfOk result (λ v. IsTrue (is_well_formed v)) }
{
    called(alloc, Builtin::Reduced, &[integer(5)])
}

fn value_of(alloc: Global, arg: Arg) -> Result<Value, Fail>
    ensures { IfOk result (λ v. IsTrue (is_well_formed v)) }
{
    Ok(match arg {
        Arg::Nil => Value::Nil,
        Arg::True => truth(true),
        Arg::False => truth(false),
        Arg::Int(number) => integer(number),
        Arg::Keyword => Value::Keyword(Text::of(alloc, b"k").map_err(full)?),
        Arg::Text => Value::Text(Text::of(alloc, b"t").map_err(full)?),
        Arg::None => vector(PVec::new()),
        Arg::Pair => pair(alloc)?,
        Arg::Empty => empty_list(),
        Arg::Word(word) => word_value(word),
        Arg::Ended => ended(alloc)?,
    })
}

/// The values of some arguments.
#[tactic(auto, using(seq_values::proofs::WellFormedLemmas::well_joined, seq_values::proofs::WellFormedLemmas::one_well))]
pub(crate) fn values_of(alloc: Global, args: &[Arg]) -> Result<Vec<Value>, Fail>
    ensures { IfOk result (λ values. IsTrue (are_well_formed values.items)) }
{
    let mut values = Vec::new(alloc);
    for arg in args {
        values.push(value_of(alloc, *arg)?)?;
    }
    Ok(values)
}

fn write_atom(alloc: Global, out: &mut String, value: &Value) -> Result<(), Fail> {
    let mut line = Line::new(alloc);
    if !print_atom(value, &mut line).map_err(full)? {
        out.push_str("..")?;
        return Ok(());
    }
    match str::from_utf8(line.bytes()) {
        Ok(text) => out.push_str(text)?,
        Err(_) => out.push_str("no text")?,
    }
    Ok(())
}

/// The atoms of some items with spaces between them, from the last on where `back` says so.
fn write_items(
    alloc: Global,
    out: &mut String,
    items: &PVec<Value>,
    back: bool,
) -> Result<(), Fail> {
    let count = items.len();
    for at in 0..count {
        if at > 0 {
            out.push_str(" ")?;
        }
        let place = if back { count - 1 - at } else { at };
        match items.get(place) {
            Some(item) => write_atom(alloc, out, item)?,
            None => out.push_str("?")?,
        }
    }
    Ok(())
}

/// A value as it is printed, but for what it holds two levels deep.
pub(crate) fn shown(alloc: Global, value: &Value) -> Result<String, Fail> {
    let mut out = String::new(alloc);
    match value {
        Value::Vector { items, .. } => {
            out.push_str("[")?;
            write_items(alloc, &mut out, items, false)?;
            out.push_str("]")?;
        }
        Value::Node(Node::Empty) => out.push_str("()")?,
        Value::Node(Node::Cons { heads, .. }) => {
            out.push_str("(")?;
            write_items(alloc, &mut out, heads, true)?;
            out.push_str(")")?;
        }
        Value::Reduced { value, .. } => {
            out.push_str("#reduced ")?;
            write_atom(alloc, &mut out, value.get())?;
        }
        other => write_atom(alloc, &mut out, other)?,
    }
    Ok(out)
}

/// What a call of a word came to: the value, the error's word, or `memory`.
pub(crate) fn outcome(alloc: Global, answer: &Result<Value, CallStop>) -> Result<String, Fail> {
    let mut out = String::new(alloc);
    match answer {
        Ok(value) => return shown(alloc, value),
        Err(CallStop::Thrown(why)) => match str::from_utf8(word_of(*why)) {
            Ok(word) => out.push_str(word)?,
            Err(_) => out.push_str("no text")?,
        },
        Err(CallStop::Memory) => out.push_str("memory")?,
    }
    Ok(out)
}
