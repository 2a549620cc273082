//! What each kind of stage does with an input. Sources: the transducer arities of clojure.core's functions, and clojure.core.reducers' `take`.
ghost use Rattle.std.specs.Prelude.{◌≡◌, ◌<ℤ◌, int_le, pos, [], ◌∷◌, IfOk, IsTrue, true};
ghost use Rattle.seq_plan.specs.Stages.{passes};
ghost use Rattle.seq_values.specs.Model as M;
ghost use Rattle.seq_values.specs.Plain.{plain, plains};
ghost use Rattle.seq_values.specs.WellFormed.{is_well_formed};
ghost use Rattle.seq_values.specs.declared.value.Value.TheVariants as V;
ghost use Rattle.seq_values.specs.declared.words.Target.TheVariants as T;
ghost use Rattle.seq_values.specs.declared.words.XfKind.TheVariants as X;
ghost use Rattle.xf_stages.specs.Left.{kept_for, stage_value, state_value};
ghost use Rattle.xf_stages.specs.Reacting.{Comes, Reacts, IsCall, OnEffect, effect_plan, group_full, is_vector};
ghost use Rattle.xf_stages.specs.declared.state.Effect.TheVariants as E;
ghost use Rattle.xf_stages.specs.declared.state.Stage.TheVariants as S;

use crate::state::{Effect, Group, Items, Purpose, Reacted, Stage};
use crate::ways::let_go;
use seq_base::Thrown;
use seq_turns::{Made, Proper, ProperList, one_more};
use seq_values::{Node, Value};
use seq_vector::{NoMemory, PVec};
use std::alloc::Global;

/// A stage takes an input.
pub(crate) fn on_input(alloc: Global, stage: Stage, item: Proper) -> Result<Reacted, NoMemory>
    ensures { IfOk result (Reacts stage (plain item.value)) }
{
    match stage {
        Stage::Applies { purpose, function } => applies(alloc, purpose, function, item),
        Stage::Take { count, left } => Ok(take_input(count, left, item)),
        Stage::Drop { count, left } => Ok(drop_input(count, left, item)),
        Stage::DropWhile { test, dropping } => drop_while_input(alloc, test, dropping, item),
        Stage::Cat => Ok(cat_input(item)),
        Stage::PartitionAll(group) => group_input(alloc, group, item),
        Stage::ReducerTake { count, left } => Ok(reducer_take_input(count, left, item)),
    }
}

/// What a stage keeps of an input until its function has answered.
fn kept_of(purpose: Purpose, item: &Proper) -> Result<Proper, NoMemory>
    ensures { IfOk result (λ v. plain v.value ≡ kept_for purpose (plain item.now.value)) }
{
    match purpose {
        Purpose::Map => Ok(Proper::nil()),
        Purpose::Filter => item.share(),
        Purpose::Remove => item.share(),
        Purpose::Keep => Ok(Proper::nil()),
        Purpose::TakeWhile => item.share(),
        Purpose::Mapcat => Ok(Proper::nil()),
    }
}

/// A call of a function with an input.
fn call_with(
    alloc: Global,
    function: &Proper,
    kept: Proper,
    item: Proper,
) -> Result<Effect, NoMemory>
    ensures { IfOk result (IsCall (plain function.now.value) (plain kept.value) (plain item.value)) }
{
    let args = ProperList::one(alloc, item)?;
    let function = function.share()?;
    Ok(Effect::Calls {
        function,
        args,
        kept,
    })
}

/// `map`, `filter`, `remove`, `keep`, `take-while` and `mapcat` call their function.
fn applies(
    alloc: Global,
    purpose: Purpose,
    function: Proper,
    item: Proper,
) -> Result<Reacted, NoMemory>
    ensures { IfOk result (Reacts (S.Applies purpose function) (plain item.value)) }
{
    let kept = kept_of(purpose, &item)?;
    let effect = call_with(alloc, &function, kept, item)?;
    Ok(Reacted {
        stage: Stage::Applies { purpose, function },
        effect,
    })
}

/// All is done, and the input goes no further.
fn is_done(stage: Stage, item: Proper) -> Reacted
    ensures stage { result.stage ≡ stage }
    ensures effect { result.effect ≡ E.Done }
{
    let_go(item);
    Reacted {
        stage,
        effect: Effect::Done,
    }
}

/// The input goes no further.
fn drops(stage: Stage, item: Proper) -> Reacted
    ensures stage { result.stage ≡ stage }
    ensures effect { result.effect ≡ E.PassesNothing }
{
    let_go(item);
    Reacted {
        stage,
        effect: Effect::PassesNothing,
    }
}

/// `take`: with its last input all is done.
fn take_input(count: i64, left: i64, item: Proper) -> Reacted
    ensures { Reacts (S.Take count left) (plain item.value) result }
{
    if left <= 0 {
        return is_done(Stage::Take { count, left }, item);
    }
    let left = left - 1;
    let effect = if left <= 0 {
        Effect::PassesLast(item)
    } else {
        Effect::Passes(item)
    };
    Reacted {
        stage: Stage::Take { count, left },
        effect,
    }
}

/// `drop` passes an input where none is left to be dropped.
fn drop_input(count: i64, left: i64, item: Proper) -> Reacted
    ensures { Reacts (S.Drop count left) (plain item.value) result }
{
    if left <= 0 {
        return Reacted {
            stage: Stage::Drop { count, left },
            effect: Effect::Passes(item),
        };
    }
    drops(
        Stage::Drop {
            count,
            left: left - 1,
        },
        item,
    )
}

/// `drop-while` calls its function as long as it drops.
fn drop_while_input(
    alloc: Global,
    test: Proper,
    dropping: bool,
    item: Proper,
) -> Result<Reacted, NoMemory>
    ensures { IfOk result (Reacts (S.DropWhile test dropping) (plain item.value)) }
{
    if dropping {
        return drop_while_calls(alloc, test, item);
    }
    Ok(Reacted {
        stage: Stage::DropWhile { test, dropping },
        effect: Effect::Passes(item),
    })
}

fn drop_while_calls(alloc: Global, test: Proper, item: Proper) -> Result<Reacted, NoMemory>
    ensures { IfOk result (Reacts (S.DropWhile test true) (plain item.value)) }
{
    let kept = item.share()?;
    let effect = call_with(alloc, &test, kept, item)?;
    Ok(Reacted {
        stage: Stage::DropWhile {
            test,
            dropping: true,
        },
        effect,
    })
}

/// `cat` passes each element of an input.
fn cat_input(item: Proper) -> Reacted
    ensures { Reacts S.Cat (plain item.value) result }
{
    Reacted {
        stage: Stage::Cat,
        effect: Effect::PassesEach(item),
    }
}

/// `take` of the reducers is done at the input after its last one.
fn reducer_take_input(count: i64, left: i64, item: Proper) -> Reacted
    ensures { Reacts (S.ReducerTake count left) (plain item.value) result }
{
    if left <= 0 {
        return is_done(Stage::ReducerTake { count, left }, item);
    }
    Reacted {
        stage: Stage::ReducerTake {
            count,
            left: left - 1,
        },
        effect: Effect::Passes(item),
    }
}

/// `partition-all`: the group with the input in it, whose length is looked at before its depth.
fn group_input(alloc: Global, group: Group, item: Proper) -> Result<Reacted, NoMemory>
    ensures { IfOk result (Reacts (S.PartitionAll group) (plain item.value)) }
{
    let Group { size, depth, items } = group;
    let made = one_more(alloc, depth, items, item)?;
    match made {
        Made::Value(value) => Ok(group_with(size, value)),
        Made::Thrown(why) => Ok(group_throws(size, why)),
    }
}

/// A group that has no elements yet.
pub(crate) fn no_group(size: i64) -> Group
    requires { pos 0 <ℤ size }
    ensures size { result.size ≡ size }
    ensures items { result.items ≡ [] }
{
    Group {
        size,
        depth: 1,
        items: PVec::new(),
    }
}

/// The group may not be made.
fn group_throws(size: i64, why: Thrown) -> Reacted
    requires { pos 0 <ℤ size }
    ensures same { stage_value result.stage ≡ M.function (T.Xf X.PartitionAll) (M.values (M.int size ∷ [])) }
    ensures effect { result.effect ≡ E.Throws why }
{
    Reacted {
        stage: Stage::PartitionAll(no_group(size)),
        effect: Effect::Throws(why),
    }
}

/// A node is no vector.
fn no_items(node: Node) -> Items
    requires { is_vector (plain (V.Node node)) ≡ true }
    ensures { M.vector (M.values (plains result.items)) ≡ plain (V.Node node) }
{
    match node {
        Node::Empty => unreachable!(),
        Node::Cons { .. } => unreachable!(),
        Node::Chunk { .. } => unreachable!(),
        Node::Range { .. } => unreachable!(),
        Node::VecSeq { .. } => unreachable!(),
    }
}

/// The items of a vector.
pub(crate) fn items_of(value: Value) -> Items
    requires vector { is_vector (plain value) ≡ true }
    requires well { IsTrue (is_well_formed value) }
    ensures { M.vector (M.values (plains result.items)) ≡ plain value }
{
    match value {
        Value::Vector { depth, items } => Items { depth, items },
        Value::Nil => unreachable!(),
        Value::Bool(_) => unreachable!(),
        Value::Int(_) => unreachable!(),
        Value::Keyword(_) => unreachable!(),
        Value::Text(_) => unreachable!(),
        Value::Function(_) => unreachable!(),
        Value::Node(node) => no_items(node),
        Value::Reduced { .. } => unreachable!(),
        Value::Cell(_) => unreachable!(),
    }
}

/// Whether a group of so many elements is full.
fn is_full(size: i64, count: usize) -> bool
    requires { pos 0 <ℤ size }
    ensures { result ≡ int_le size (pos count) }
{
    size as u64 <= count as u64
}

/// The group has one element more, and is passed on where it is full.
fn group_with(size: i64, value: Proper) -> Reacted
    requires some { pos 0 <ℤ size }
    requires vector { is_vector (plain value.value) ≡ true }
    ensures { Comes (M.function (T.Xf X.PartitionAll) (M.values (M.int size ∷ []))) (group_full size (plain value.value)) result }
{
    let Items { depth, items } = items_of(value.value);
    if is_full(size, items.len()) {
        return passes_group(size, depth, items);
    }
    Reacted {
        stage: Stage::PartitionAll(Group { size, depth, items }),
        effect: Effect::PassesNothing,
    }
}

/// A full group is passed on, and the next one begins.
fn passes_group(size: i64, depth: u32, items: PVec<Value>) -> Reacted
    requires some { pos 0 <ℤ size }
    requires well { IsTrue (is_well_formed (V.Vector depth items)) }
    ensures same { stage_value result.stage ≡ M.function (T.Xf X.PartitionAll) (M.values (M.int size ∷ [])) }
    ensures state { state_value result.stage ≡ M.vector M.no_values }
    ensures effect { (k : OnEffect) → effect_plan result.stage result.effect k ≡ k (M.vector M.no_values) (passes (M.vector (M.values (plains items)))) }
{
    Reacted {
        stage: Stage::PartitionAll(no_group(size)),
        effect: Effect::Passes(Proper {
            value: Value::Vector { depth, items },
        }),
    }
}
