ghost use Rattle.std.specs.Prelude.{◌≡◌, ◌+◌, ◌<◌, ◌≤◌, [], max, map, length, if◌then◌else◌, int_lt, IsTrue, IfSome};
ghost use Rattle.std.specs.Option.{SomeIff};
ghost use Rattle.seq_values.specs.Depth.{depth, depth_of_all};
ghost use Rattle.seq_values.specs.WellFormed.{sight_of, ends_cons, ends_chunk, binds, is_well_formed, is_well_formed_node, is_well_formed_function, are_well_formed};

use crate::depth::{deepest_of, depth_of};
use crate::value::{FnValue, Held, Node, Value};
use crate::words::{Builtin, Target};
use seq_vector::PVec;

impl Node {
    /// The integers from `from` up to `end`, which is left out, and `()` where there is none.
    pub fn range(from: i64, end: i64) -> Node
        ensures same { result ≡ (if int_lt from end then Node.Range from from end else Node.Empty) }
        ensures well { IsTrue (is_well_formed_node result) }
    {
        if from < end {
            Node::Range {
                from,
                at: from,
                end,
            }
        } else {
            Node::Empty
        }
    }

    #[tactic(auto, using(crate::proofs::WellFormedLemmas::vector_seq_well))]
    /// The items of a vector of that depth from the first on, and `None` where there is none.
    pub fn over(items: PVec<Value>, depth: u32) -> Option<Node>
        requires well { IsTrue (is_well_formed (Value.Vector depth items)) }
        ensures same { SomeIff result (0 < length items) (Node.VecSeq depth items 0) }
        ensures well { IfSome result (λ node. IsTrue (is_well_formed_node node)) }
    {
        if items.len() == 0 {
            return None;
        }
        Some(Node::VecSeq {
            depth,
            items,
            at: 0,
        })
    }

    #[tactic(auto, using(crate::proofs::WellFormedLemmas::cons_well, crate::proofs::WellFormedLemmas::list_keeps, crate::proofs::WellFormedLemmas::value_keeps))]
    /// Leading elements, the first element last, before a rest, which is no `Cons`. It looks at each element in one step.
    pub fn cons(heads: PVec<Value>, rest: Held) -> Node
        requires heads { IsTrue (are_well_formed heads) }
        requires some { 0 < length heads }
        requires rest { IsTrue (is_well_formed rest) }
        requires ends { IsTrue (ends_cons (sight_of rest)) }
        requires depth { (depth_of_all heads ≤ 255) × (depth rest ≤ 255) }
        ensures same { result ≡ Node.Cons (max (depth_of_all heads) (depth rest) + 1) heads rest }
        ensures well { IsTrue (is_well_formed_node result) }
    {
        let depth = deepest_of(&heads, 255).max(depth_of(rest.get())) + 1;
        Node::Cons { depth, heads, rest }
    }

    #[tactic(auto, using(crate::proofs::WellFormedLemmas::chunk_well, crate::proofs::WellFormedLemmas::list_keeps, crate::proofs::WellFormedLemmas::value_keeps))]
    /// A chunk of elements before a rest, which is a lazy part or `()`. It looks at each element in one step.
    pub fn chunk(items: PVec<Value>, rest: Held) -> Node
        requires items { IsTrue (are_well_formed items) }
        requires some { 0 < length items }
        requires rest { IsTrue (is_well_formed rest) }
        requires ends { IsTrue (ends_chunk (sight_of rest)) }
        requires depth { (depth_of_all items ≤ 255) × (depth rest ≤ 255) }
        ensures same { result ≡ Node.Chunk (max (depth_of_all items) (depth rest) + 1) items rest }
        ensures well { IsTrue (is_well_formed_node result) }
    {
        let depth = deepest_of(&items, 255).max(depth_of(rest.get())) + 1;
        Node::Chunk { depth, items, rest }
    }
}

impl FnValue {
    /// A word as a function, with nothing bound.
    pub fn word(word: Builtin) -> FnValue
        ensures same { result ≡ record { target = Target.Builtin word; depth = 1; bound = [] } }
        ensures well { IsTrue (is_well_formed_function result) }
    {
        FnValue {
            target: Target::Builtin(word),
            depth: 1,
            bound: PVec::new(),
        }
    }

    #[tactic(auto, using(crate::proofs::WellFormedLemmas::function_well, crate::proofs::WellFormedLemmas::list_keeps))]
    /// A function with the arguments that are bound to it. It looks at each argument in one step.
    pub fn of(target: Target, bound: PVec<Value>) -> FnValue
        requires bound { IsTrue (are_well_formed bound) }
        requires binds { IsTrue (binds target (map sight_of bound)) }
        requires depth { depth_of_all bound ≤ 255 }
        ensures same { result ≡ record { target = target; depth = depth_of_all bound + 1; bound = bound } }
        ensures well { IsTrue (is_well_formed_function result) }
    {
        let depth = deepest_of(&bound, 255) + 1;
        FnValue {
            target,
            depth,
            bound,
        }
    }
}
