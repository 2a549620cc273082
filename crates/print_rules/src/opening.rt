//! How a value is printed once its own step is taken.
ghost use Rattle.std.specs.Prelude.{◌≡◌, ◌++◌, false, codes, is_some, IfOk, IsTrue};
ghost use Rattle.print_rules.specs.Left.{elements_from, resolved, resumes, Takes};
ghost use Rattle.seq_meaning.specs.Prints.{print_on, print_vector, prints_next};
ghost use Rattle.seq_plan.specs.Plan.{seq, then};
ghost use Rattle.seq_turns.specs.Seen.{seen};
ghost use Rattle.seq_values.specs.Model as M;
ghost use Rattle.seq_values.specs.Plain.{plain, plains};
ghost use Rattle.seq_values.specs.Text.{atom_text};
ghost use Rattle.seq_values.specs.WellFormed.{is_well_formed};
ghost use Rattle.seq_values.specs.declared.value.Value.TheVariants as V;

use crate::closing::{Resumed, ask_elements, next_element, print_item, resume};
use crate::state::{Printing, State};
use crate::texts::let_go;
use seq_turns::{Next, Proper, ProperList, Seen, Sought, seek, visits};
use seq_values::{Held, Node, Value};
use seq_vector::{NoMemory, Share};
use std::alloc::Global;

/// Prints a value after the text so far.
pub(crate) fn print_value(
    alloc: Global,
    value: Proper,
    printing: Printing,
) -> Result<Next<State>, NoMemory>
    ensures { IfOk result (λ r. Takes (then (print_on printing.text (plain value.value)) (resolved printing)) r) }
{
    let tried = printing.with_atom(&value.value)?;
    let printed = tried.0;
    if printed {
        let_go(value);
        let next = resume(alloc, tried.1)?;
        return Ok(next);
    }
    let next = print_members(alloc, value.value, tried.1)?;
    Ok(next)
}

/// Prints a value that is no atom and no function.
fn print_members(alloc: Global, value: Value, printing: Printing) -> Result<Next<State>, NoMemory>
    requires well { IsTrue (is_well_formed value) }
    requires members { is_some (atom_text value) ≡ false }
    ensures { IfOk result (λ r. Takes (then (print_on printing.text (plain value)) (resolved printing)) r) }
{
    match value {
        Value::Nil => unreachable!(),
        Value::Bool(_) => unreachable!(),
        Value::Int(_) => unreachable!(),
        Value::Keyword(_) => unreachable!(),
        Value::Text(_) => unreachable!(),
        Value::Function(_) => unreachable!(),
        Value::Vector { depth, items } => {
            print_vector_items(alloc, ProperList { items }, printing)
        }
        Value::Reduced { depth, value } => print_reduced(depth, value, printing),
        Value::Node(node) => print_node(alloc, node, printing),
        Value::Cell(id) => print_elements(alloc, Proper::of_part(id), printing),
    }
}

/// Prints a vector: its items in order, with a space between two of them.
fn print_vector_items(
    alloc: Global,
    items: ProperList,
    printing: Printing,
) -> Result<Next<State>, NoMemory>
    ensures { IfOk result (λ r. Takes (then (print_vector printing.text (plains items.items)) (resolved printing)) r) }
{
    if 0 < items.len() {
        let next = print_item(items, 0, b"[", printing)?;
        return Ok(next);
    }
    let_go(items);
    let printing = printing.with(b"[]")?;
    let next = resume(alloc, printing)?;
    Ok(next)
}

/// The value that is held, with one more owner.
fn held_value(depth: u32, held: Held) -> Result<Proper, NoMemory>
    requires { IsTrue (is_well_formed (V.Reduced depth held)) }
    ensures { IfOk result (λ v. v.value ≡ held) }
{
    let value = held.get().share()?;
    Ok(Proper { value })
}

/// Prints a reduced value: its mark, and the value that is held.
fn print_reduced(depth: u32, held: Held, printing: Printing) -> Result<Next<State>, NoMemory>
    requires { IsTrue (is_well_formed (V.Reduced depth held)) }
    ensures { IfOk result (λ r. Takes (prints_next (printing.text ++ codes "#reduced ") (plain held) (resolved printing)) r) }
{
    let value = held_value(depth, held)?;
    let printing = printing.with(b"#reduced ")?;
    Ok(visits(State::Step { value, printing }))
}

/// Prints a node element by element.
fn print_node(alloc: Global, node: Node, printing: Printing) -> Result<Next<State>, NoMemory>
    requires { IsTrue (is_well_formed (V.Node node)) }
    ensures { IfOk result (λ r. Takes (then (print_on printing.text (plain (V.Node node))) (resolved printing)) r) }
{
    let value = Proper {
        value: Value::Node(node),
    };
    let next = print_elements(alloc, value, printing)?;
    Ok(next)
}

/// Prints a node or a lazy part element by element.
fn print_elements(alloc: Global, value: Proper, printing: Printing) -> Result<Next<State>, NoMemory>
    ensures { IfOk result (λ r. Takes (seq (plain value.value) (λ s. elements_from (M.text (printing.text ++ codes "(")) false s (resolved printing))) r) }
{
    let printing = printing.with(b"(")?;
    match seek(value) {
        Sought::Now(what) => elements_at(alloc, false, what, printing),
        Sought::Ask(value) => Ok(ask_elements(false, value, printing)),
    }
}

/// The elements of a node or a lazy part are there.
pub(crate) fn elements_at(
    alloc: Global,
    after: bool,
    what: Seen,
    printing: Printing,
) -> Result<Next<State>, NoMemory>
    ensures { IfOk result (λ r. Takes (elements_from (M.text printing.text) after (seen what) (resolved printing)) r) }
{
    let resumed = next_element(after, what, printing)?;
    match resumed {
        Resumed::Turn(next) => Ok(next),
        Resumed::Closed(printing) => resume(alloc, printing),
    }
}
