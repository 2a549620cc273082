//! A collection that is folded, taken apart layer by layer.
ghost use Rattle.std.specs.Prelude.{◌≡◌, ◌≢◌, ◌≤◌, ◌∷◌, [], List, length, map, reverse, true, false, Option, Some, None, IfOk, MatchOption, IsTrue};
ghost use Rattle.fold_rows.specs.Table.{can_split};
ghost use Rattle.reducer_values.specs.Layers.{IsLayer, IsFoldable, stage_kind};
ghost use Rattle.seq_values.specs.Depth.{depth};
ghost use Rattle.seq_values.specs.Model as M;
ghost use Rattle.seq_values.specs.Model.{◌&◌};
ghost use Rattle.seq_values.specs.Plain.{plain, plains};
ghost use Rattle.seq_values.specs.Sight.{Kept, Sight, a_function};
ghost use Rattle.seq_values.specs.WellFormed.{binds_stage, is_well_formed, is_well_formed_function, sight_of};
ghost use Rattle.seq_values.specs.WellFormedTerms.{are_fold_stages, is_fold_stage};
ghost use Rattle.seq_values.specs.declared.value.Value.TheVariants as V;
ghost use Rattle.seq_values.specs.declared.words.Target.TheVariants as T;

use crate::looking::stage_kind;
use crate::shapes::{Foldable, Items, Layer};
use seq_turns::{Gathered, Proper, ProperList};
use seq_values::{FnValue, FolderKind, Node, Target, Value, XfKind, one_item};
use seq_vector::NoMemory;
use std::alloc::Global;

/// The function of a reducer value, and the collection under it.
#[derive(Drop)]
struct Pair {
    function: Proper,
    inner: Proper,
}

/// A value that can't be split.
fn whole(value: Value) -> Layer
    ensures { result ≡ Layer.Whole }
{
    Layer::Whole
}

/// A transducer's stage of a function.
#[tactic(auto, using(crate::proofs::Stages::stage_well, crate::proofs::Stages::stage_stands, crate::proofs::Stages::stage_fits))]
fn stage_made(alloc: Global, kind: XfKind, function: Proper) -> Result<Proper, NoMemory>
    requires fits { (kept : Option (List Kept)) → is_fold_stage (a_function (T.Xf kind) kept) ≡ true }
    requires binds { (a : Sight) → binds_stage kind (a ∷ []) ≡ true }
    requires shallow { depth function.value ≤ 255 }
    ensures stands { IfOk result (λ s. plain s.value ≡ M.function (T.Xf kind) (plain function.value & M.no_values)) }
    ensures fits { IfOk result (λ s. is_fold_stage (sight_of s.value) ≡ true) }
{
    let bound = one_item(alloc, function.value)?;
    let stage = FnValue::of(Target::Xf(kind), bound);
    Ok(Proper {
        value: Value::Function(stage),
    })
}

/// The same pair, and what it was taken from is let go.
fn without(pair: Option<(Proper, Proper)>, bound: ProperList) -> Option<(Proper, Proper)>
    ensures { result ≡ pair }
{
    pair
}

/// The two values that are bound, and `None` exactly where there aren't two.
fn pair_of(bound: ProperList) -> Result<Option<(Proper, Proper)>, NoMemory>
    ensures { IfOk result (λ x. MatchOption x (length bound.items ≢ 2) (λ p. bound.items ≡ p.0.value ∷ p.1.value ∷ [])) }
{
    let pair = bound.pair()?;
    Ok(without(pair, bound))
}

/// A reducer value that may be split where what is under it may.
#[tactic(auto, using(seq_values::proofs::WellFormedLemmas::function_bound, crate::proofs::Stages::kind_fits, crate::proofs::Stages::kind_binds, crate::proofs::Stages::peeled, crate::proofs::Stages::not_two))]
fn stage_layer(
    alloc: Global,
    folder: FolderKind,
    kind: XfKind,
    function: FnValue,
) -> Result<Layer, NoMemory>
    requires target { function.target ≡ T.Folder folder }
    requires kind { stage_kind folder ≡ Some kind }
    requires well { IsTrue (is_well_formed_function function) }
    ensures { IfOk result (λ l. IsLayer (V.Function function) l) }
{
    let pair = pair_of(ProperList {
        items: function.bound,
    })?;
    match pair {
        None => Ok(Layer::Whole),
        Some((first, inner)) => {
            let stage = stage_made(alloc, kind, first)?;
            Ok(Layer::Stage { stage, inner })
        }
    }
}

/// A function, as a layer.
#[tactic(auto, using(crate::proofs::Stages::other_whole, crate::proofs::Stages::no_stage_whole))]
fn function_layer(alloc: Global, function: FnValue) -> Result<Layer, NoMemory>
    requires { IsTrue (is_well_formed_function function) }
    ensures { IfOk result (λ l. IsLayer (V.Function function) l) }
{
    match function.target {
        Target::Folder(folder) => match stage_kind(folder) {
            None => Ok(whole(Value::Function(function))),
            Some(kind) => stage_layer(alloc, folder, kind, function),
        },
        _ => Ok(whole(Value::Function(function))),
    }
}

/// A node, which can't be split.
#[tactic(auto, using(crate::proofs::Stages::is_whole, crate::proofs::Stages::empty_whole, crate::proofs::Stages::cons_whole, crate::proofs::Stages::chunk_whole, crate::proofs::Stages::range_whole, crate::proofs::Stages::vec_seq_whole))]
fn node_layer(node: Node) -> Layer
    ensures { IsLayer (V.Node node) result }
{
    match node {
        Node::Empty => whole(Value::Node(Node::Empty)),
        Node::Cons { depth, heads, rest } => whole(Value::Node(Node::Cons { depth, heads, rest })),
        Node::Chunk { depth, items, rest } => {
            whole(Value::Node(Node::Chunk { depth, items, rest }))
        }
        Node::Range { from, at, end } => whole(Value::Node(Node::Range { from, at, end })),
        Node::VecSeq { depth, items, at } => {
            whole(Value::Node(Node::VecSeq { depth, items, at }))
        }
    }
}

/// The outermost layer of a collection.
#[tactic(auto, using(crate::proofs::Stages::is_whole, seq_turns::proofs::Seeing::plain_vector, seq_values::proofs::WellFormedLemmas::function_in))]
fn layer_of(alloc: Global, value: Value) -> Result<Layer, NoMemory>
    requires { IsTrue (is_well_formed value) }
    ensures { IfOk result (λ l. IsLayer value l) }
{
    match value {
        Value::Nil => Ok(whole(Value::Nil)),
        Value::Bool(truth) => Ok(whole(Value::Bool(truth))),
        Value::Int(number) => Ok(whole(Value::Int(number))),
        Value::Keyword(name) => Ok(whole(Value::Keyword(name))),
        Value::Text(text) => Ok(whole(Value::Text(text))),
        Value::Vector { depth, items } => Ok(Layer::Items(Items { depth, items })),
        Value::Function(function) => function_layer(alloc, function),
        Value::Node(node) => Ok(node_layer(node)),
        Value::Reduced { depth, value } => Ok(whole(Value::Reduced { depth, value })),
        Value::Cell(id) => Ok(whole(Value::Cell(id))),
    }
}

/// The items, with the stages that were gathered from the outermost inwards.
#[tactic(auto, using(crate::proofs::Peeling::turned_fit, crate::proofs::Peeling::turned_plain, crate::proofs::Peeling::turned_long))]
fn foldable(alloc: Global, outer: Gathered, items: Items) -> Result<Foldable, NoMemory>
    requires { are_fold_stages (map sight_of outer.items.items) ≡ true }
    ensures stages { IfOk result (λ f. plains f.stages.items ≡ reverse (plains outer.items.items)) }
    ensures long { IfOk result (λ f. length f.stages.items ≡ length outer.items.items) }
    ensures items { IfOk result (λ f. f.items.items ≡ items.items) }
{
    let stages = outer.turned().listed(alloc)?;
    Ok(Foldable { items, stages })
}

/// The stages that were gathered are let go.
fn no_foldable(outer: Gathered) -> Option<Foldable>
    ensures { result ≡ None }
{
    None
}

/// What a fold may split of a collection, and `None` exactly where it can't split it: a vector, and a reducer value without `take` and `take-while` down to a vector.
/// Source: clojure.core.reducers' `folder` and `reducer`, https://clojure.org/reference/reducers
pub fn foldable_of(alloc: Global, value: &Proper) -> Result<Option<Foldable>, NoMemory>
    ensures { IfOk result (λ x. MatchOption x (can_split (plain value.now.value) ≡ false) (λ f. IsFoldable (plain value.now.value) f)) }
{
    let mut outer = Gathered::none(alloc);
    let mut here = value.share()?;
    loop {
        match layer_of(alloc, here.value)? {
            Layer::Whole => return Ok(no_foldable(outer)),
            Layer::Items(items) => {
                let all = foldable(alloc, outer, items)?;
                return Ok(Some(all));
            }
            Layer::Stage { stage, inner } => {
                outer = outer.and(stage)?;
                here = inner;
            }
        }
    }
}
