//! The words that make vectors, lists and functions, and those that hand a value on.
ghost use Rattle.std.specs.Prelude.{◌≡◌, ◌≤◌, ◌<◌, [], ◌∷◌, length, map, reverse, IfOk, IfErr, IsTrue};
ghost use Rattle.core_fns.specs.Answering.{Answers, Refuses};
ghost use Rattle.core_rows.specs.Table.{give_vector, give_function, binds_one, partial, comp, completing, monoid, unreduced};
ghost use Rattle.seq_plan.specs.Arguments.{of_value};
ghost use Rattle.seq_plan.specs.Lists.{give_list};
ghost use Rattle.seq_plan.specs.Nodes.{give_value, longest};
ghost use Rattle.seq_plan.specs.Plan.{give};
ghost use Rattle.seq_values.specs.Depth.{depth_of_all};
ghost use Rattle.seq_values.specs.Model as M;
ghost use Rattle.seq_values.specs.Plain.{plain, plains};
ghost use Rattle.seq_values.specs.WellFormed.{is_well_formed, are_well_formed, binds, sight_of};
ghost use Rattle.seq_values.specs.declared.words.Target.TheVariants as T;

use crate::arguments::only;
use seq_base::Thrown;
use seq_values::{
    Builtin, CallStop, FnValue, Node, Target, Value, deepest_of, depth_of, empty_list, reduced,
    vector, word_value,
};
use seq_vector::{PVec, Share, Shared};
use std::alloc::Global;

/// The value, with one more owner.
fn shared_one(value: &Value) -> Result<Value, CallStop>
    ensures same { IfOk result (λ copy. copy ≡ value.now) }
    ensures refused { IfErr result (λ stop. stop ≡ CallStop.Memory) }
{
    match value.share() {
        Ok(copy) => Ok(copy),
        Err(_) => Err(CallStop::Memory),
    }
}

/// Each of the values, with one more owner.
fn shared(alloc: Global, values: &[Value]) -> Result<Vec<Value>, CallStop>
    ensures same { IfOk result (λ copy. copy.items ≡ values.now) }
    ensures refused { IfErr result (λ stop. stop ≡ CallStop.Memory) }
{
    let Ok(mut copy) = Vec::with_capacity(alloc, values.len()) else {
        return Err(CallStop::Memory);
    };
    for value in values {
        let one = shared_one(value)?;
        if copy.push(one).is_err() {
            return Err(CallStop::Memory);
        }
    }
    Ok(copy)
}

/// A vector of the values, as long as there are not too many.
fn short(alloc: Global, values: Vec<Value>) -> Result<PVec<Value>, CallStop>
    ensures same { IfOk result (λ items. items ≡ values.items) }
    ensures few { IfOk result (λ items. length values.items ≤ longest) }
    ensures refused { IfErr result (λ stop. Refuses stop values.items) }
{
    if values.len() > 4294967295 {
        return Err(CallStop::Thrown(Thrown::Overflow));
    }
    match PVec::from_items(alloc, values) {
        Ok(items) => Ok(items),
        Err(_) => Err(CallStop::Memory),
    }
}

#[tactic(auto, using(seq_values::proofs::WellFormedLemmas::list_keeps, seq_values::proofs::WellFormedLemmas::all_within))]
/// A vector of the values to be held by one value, as long as there are not too many, and none is too deep.
fn members(alloc: Global, values: Vec<Value>) -> Result<PVec<Value>, CallStop>
    requires { IsTrue (are_well_formed values.items) }
    ensures same { IfOk result (λ items. items ≡ values.items) }
    ensures few { IfOk result (λ items. length values.items ≤ longest) }
    ensures flat { IfOk result (λ items. depth_of_all values.items ≤ 255) }
    ensures refused { IfErr result (λ stop. Refuses stop values.items) }
{
    let items = short(alloc, values)?;
    if deepest_of(&items, 256) > 255 {
        return Err(CallStop::Thrown(Thrown::Depth));
    }
    Ok(items)
}

/// `vector`
#[tactic(auto, using(crate::proofs::Made::vector_made, crate::proofs::Made::vector_refused))]
pub(crate) fn vector_of(alloc: Global, args: &[Value]) -> Result<Value, CallStop>
    requires { IsTrue (are_well_formed args.now) }
    ensures { Answers result (give_vector (plains args.now)) }
{
    let values = shared(alloc, args)?;
    let items = members(alloc, values)?;
    Ok(vector(items))
}

/// The heads before nothing.
fn before_nil(alloc: Global, heads: PVec<Value>) -> Result<Value, CallStop>
    requires heads { IsTrue (are_well_formed heads) }
    requires some { 0 < length heads }
    requires depth { depth_of_all heads ≤ 255 }
    ensures stands { IfOk result (λ v. plain v ≡ M.cons (M.values (plains heads)) M.nil) }
    ensures well { IfOk result (λ v. IsTrue (is_well_formed v)) }
    ensures refused { IfErr result (λ stop. stop ≡ CallStop.Memory) }
{
    match Shared::of(alloc, Value::Nil) {
        Ok(rest) => Ok(Value::Node(Node::cons(heads, rest))),
        Err(_) => Err(CallStop::Memory),
    }
}

/// Each of the values, with one more owner, from the last on.
fn shared_back(alloc: Global, values: &[Value]) -> Result<Vec<Value>, CallStop>
    ensures same { IfOk result (λ copy. copy.items ≡ reverse values.now) }
    ensures refused { IfErr result (λ stop. stop ≡ CallStop.Memory) }
{
    let mut copy = shared(alloc, values)?;
    copy.reverse();
    Ok(copy)
}

/// `list`
#[tactic(auto, using(crate::proofs::Made::list_made, crate::proofs::Made::list_refused, crate::proofs::Made::list_none, crate::proofs::Made::well_reversed))]
pub(crate) fn list_of(alloc: Global, args: &[Value]) -> Result<Value, CallStop>
    requires { IsTrue (are_well_formed args.now) }
    ensures { Answers result (give_list (plains args.now)) }
{
    if args.is_empty() {
        return Ok(empty_list());
    }
    let values = shared_back(alloc, args)?;
    let heads = members(alloc, values)?;
    let list = before_nil(alloc, heads)?;
    Ok(list)
}

/// A function with the arguments that are bound to it.
#[tactic(auto, using(crate::proofs::Made::function_made, crate::proofs::Made::function_refused))]
fn function_of(alloc: Global, target: Target, args: &[Value]) -> Result<Value, CallStop>
    requires bound { IsTrue (are_well_formed args.now) }
    requires binds { IsTrue (binds target (map sight_of args.now)) }
    ensures { Answers result (give_function target (plains args.now)) }
{
    let values = shared(alloc, args)?;
    let bound = members(alloc, values)?;
    Ok(Value::Function(FnValue::of(target, bound)))
}

/// `constantly` and `complement`, which bind one value.
#[tactic(auto, using(crate::proofs::Made::one_answers, crate::proofs::Made::one_refused, crate::proofs::Made::constantly_binds))]
pub(crate) fn constantly(alloc: Global, args: &[Value]) -> Result<Value, CallStop>
    requires { IsTrue (are_well_formed args.now) }
    ensures { Answers result (binds_one T.Constantly (plains args.now)) }
{
    if args.len() != 1 {
        return Err(CallStop::Thrown(Thrown::Arity));
    }
    function_of(alloc, Target::Constantly, args)
}

/// `complement`
#[tactic(auto, using(crate::proofs::Made::one_answers, crate::proofs::Made::one_refused, crate::proofs::Made::complement_binds))]
pub(crate) fn complement(alloc: Global, args: &[Value]) -> Result<Value, CallStop>
    requires { IsTrue (are_well_formed args.now) }
    ensures { Answers result (binds_one T.Complement (plains args.now)) }
{
    if args.len() != 1 {
        return Err(CallStop::Thrown(Thrown::Arity));
    }
    function_of(alloc, Target::Complement, args)
}

/// `partial`
#[tactic(auto, using(crate::proofs::Made::partial_answers, crate::proofs::Made::partial_none, crate::proofs::Made::partial_binds))]
pub(crate) fn partial(alloc: Global, args: &[Value]) -> Result<Value, CallStop>
    requires { IsTrue (are_well_formed args.now) }
    ensures { Answers result (partial (plains args.now)) }
{
    if args.is_empty() {
        return Err(CallStop::Thrown(Thrown::Arity));
    }
    function_of(alloc, Target::Partial, args)
}

/// `comp`, which of nothing is `identity`.
#[tactic(auto, using(crate::proofs::Made::comp_answers, crate::proofs::Made::comp_none, crate::proofs::Made::comp_binds))]
pub(crate) fn comp(alloc: Global, args: &[Value]) -> Result<Value, CallStop>
    requires { IsTrue (are_well_formed args.now) }
    ensures { Answers result (comp (plains args.now)) }
{
    if args.is_empty() {
        return Ok(word_value(Builtin::Identity));
    }
    function_of(alloc, Target::Comp, args)
}

/// `completing`
#[tactic(auto, using(crate::proofs::Made::completing_answers, crate::proofs::Made::completing_refused, crate::proofs::Made::completing_binds))]
pub(crate) fn completing(alloc: Global, args: &[Value]) -> Result<Value, CallStop>
    requires { IsTrue (are_well_formed args.now) }
    ensures { Answers result (completing (plains args.now)) }
{
    if args.is_empty() || args.len() > 2 {
        return Err(CallStop::Thrown(Thrown::Arity));
    }
    function_of(alloc, Target::Completing, args)
}

/// `r/monoid`
#[tactic(auto, using(crate::proofs::Made::monoid_answers, crate::proofs::Made::monoid_refused, crate::proofs::Made::monoid_binds))]
pub(crate) fn monoid(alloc: Global, args: &[Value]) -> Result<Value, CallStop>
    requires { IsTrue (are_well_formed args.now) }
    ensures { Answers result (monoid (plains args.now)) }
{
    if args.len() != 2 {
        return Err(CallStop::Thrown(Thrown::Arity));
    }
    function_of(alloc, Target::Monoid, args)
}

/// The value itself.
fn itself(value: &Value) -> Result<Value, CallStop>
    requires { IsTrue (is_well_formed value.now) }
    ensures { Answers result (give (plain value.now)) }
{
    let value = shared_one(value)?;
    Ok(value)
}

/// What a reduced value holds; another value is itself.
#[tactic(auto, using(crate::proofs::Made::held_given, crate::proofs::Made::itself_given))]
fn held_or_itself(value: &Value) -> Result<Value, CallStop>
    requires { IsTrue (is_well_formed value.now) }
    ensures { Answers result (give (unreduced (plain value.now))) }
{
    match value {
        Value::Reduced { value: held, .. } => shared_one(held.get()),
        other => shared_one(other),
    }
}

/// A value that ends a reduction.
#[tactic(auto, using(crate::proofs::Made::reduced_made, crate::proofs::Made::reduced_deep, seq_values::proofs::WellFormedLemmas::value_keeps))]
fn reduced_value(alloc: Global, value: &Value) -> Result<Value, CallStop>
    requires { IsTrue (is_well_formed value.now) }
    ensures { Answers result (give_value (M.reduced (plain value.now))) }
{
    if depth_of(value) > 255 {
        return Err(CallStop::Thrown(Thrown::Depth));
    }
    let value = shared_one(value)?;
    match reduced(alloc, value) {
        Ok(held) => Ok(held),
        Err(_) => Err(CallStop::Memory),
    }
}

/// `identity`
#[tactic(auto, using(crate::proofs::Made::of_only, crate::proofs::Made::well_only))]
pub(crate) fn identity(args: &[Value]) -> Result<Value, CallStop>
    requires { IsTrue (are_well_formed args.now) }
    ensures { Answers result (of_value give (plains args.now)) }
{
    match only(args) {
        Ok(value) => itself(value),
        Err(why) => Err(CallStop::Thrown(why)),
    }
}

/// `reduced`
#[tactic(auto, using(crate::proofs::Made::of_only, crate::proofs::Made::well_only))]
pub(crate) fn reduced_of(alloc: Global, args: &[Value]) -> Result<Value, CallStop>
    requires { IsTrue (are_well_formed args.now) }
    ensures { Answers result (of_value (λ x. give_value (M.reduced x)) (plains args.now)) }
{
    match only(args) {
        Ok(value) => reduced_value(alloc, value),
        Err(why) => Err(CallStop::Thrown(why)),
    }
}

/// `unreduced`
#[tactic(auto, using(crate::proofs::Made::of_only, crate::proofs::Made::well_only))]
pub(crate) fn unreduced_of(args: &[Value]) -> Result<Value, CallStop>
    requires { IsTrue (are_well_formed args.now) }
    ensures { Answers result (of_value (λ x. give (unreduced x)) (plains args.now)) }
{
    match only(args) {
        Ok(value) => held_or_itself(value),
        Err(why) => Err(CallStop::Thrown(why)),
    }
}
