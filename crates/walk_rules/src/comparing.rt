//! `=` and `not=`. What waits for a comparison stands in a `Vec`, so nothing recurses as deep as the values go.
ghost use Rattle.std.specs.Prelude.{◌≡◌, ◌<◌, ◌+◌, ◌++◌, [], ◌∷◌, ◌||◌, ◌&&◌, Bool, true, false, not, length, drop, IfOk};
ghost use Rattle.lazy_rows.specs.Equal.{is_incomparable as incomparable, holds_elements as elements, same_atom as same, pair_on};
ghost use Rattle.seq_base.specs.declared.thrown.Thrown.TheVariants.{Arity, BadType};
ghost use Rattle.seq_plan.specs.Cursors.{stands};
ghost use Rattle.seq_plan.specs.Plan.{seq, visit, give, throw, then};
ghost use Rattle.seq_turns.specs.Seen.{seen};
ghost use Rattle.seq_values.specs.Model as M;
ghost use Rattle.seq_values.specs.Plain.{plain, plains};
ghost use Rattle.walk_rules.specs.Left.{left_seq, left_step, args_left, compares, equals, resolved, Takes};
ghost use Rattle.walk_rules.specs.declared.state.AtSeq.TheVariants as Q;
ghost use Rattle.walk_rules.specs.declared.state.AtStep.TheVariants as T;

use crate::state::{AtSeq, AtStep, Pending, Rests, State};
use crate::ways::{asks_seq, ends_truth, fails, steps};
use seq_base::Thrown;
use seq_plan::Cursor;
use seq_turns::{Next, Proper, ProperList, Rest, Seen, Sought, seek, seek_rest, split_cursor};
use seq_values::{Node, Text, Value};
use seq_vector::NoMemory;
use std::alloc::Global;

/// A function, or a reduced value.
fn is_incomparable(value: &Value) -> bool
    ensures { result ≡ incomparable (plain value.now) }
{
    match value {
        Value::Nil => false,
        Value::Bool(_) => false,
        Value::Int(_) => false,
        Value::Keyword(_) => false,
        Value::Text(_) => false,
        Value::Vector { .. } => false,
        Value::Function(_) => true,
        Value::Node(node) => match node {
            Node::Empty => false,
            Node::Cons { .. } => false,
            Node::Chunk { .. } => false,
            Node::Range { .. } => false,
            Node::VecSeq { .. } => false,
        },
        Value::Reduced { .. } => true,
        Value::Cell(_) => false,
    }
}

/// A vector, a node or a lazy part.
fn holds_elements(value: &Value) -> bool
    ensures { result ≡ elements (plain value.now) }
{
    match value {
        Value::Nil => false,
        Value::Bool(_) => false,
        Value::Int(_) => false,
        Value::Keyword(_) => false,
        Value::Text(_) => false,
        Value::Vector { .. } => true,
        Value::Function(_) => false,
        Value::Node(node) => match node {
            Node::Empty => true,
            Node::Cons { .. } => true,
            Node::Chunk { .. } => true,
            Node::Range { .. } => true,
            Node::VecSeq { .. } => true,
        },
        Value::Reduced { .. } => false,
        Value::Cell(_) => true,
    }
}

/// Whether a value is nil.
fn same_nil(right: &Value) -> bool
    ensures { result ≡ same M.nil (plain right.now) }
{
    match right {
        Value::Nil => true,
        Value::Bool(_) => false,
        Value::Int(_) => false,
        Value::Keyword(_) => false,
        Value::Text(_) => false,
        Value::Vector { .. } => false,
        Value::Function(_) => false,
        Value::Node(node) => match node {
            Node::Empty => false,
            Node::Cons { .. } => false,
            Node::Chunk { .. } => false,
            Node::Range { .. } => false,
            Node::VecSeq { .. } => false,
        },
        Value::Reduced { .. } => false,
        Value::Cell(_) => false,
    }
}

/// Whether a value is that truth value.
fn same_truth(truth: bool, right: &Value) -> bool
    ensures { result ≡ same (M.bool truth) (plain right.now) }
{
    match right {
        Value::Nil => false,
        Value::Bool(other) => truth == *other,
        Value::Int(_) => false,
        Value::Keyword(_) => false,
        Value::Text(_) => false,
        Value::Vector { .. } => false,
        Value::Function(_) => false,
        Value::Node(node) => match node {
            Node::Empty => false,
            Node::Cons { .. } => false,
            Node::Chunk { .. } => false,
            Node::Range { .. } => false,
            Node::VecSeq { .. } => false,
        },
        Value::Reduced { .. } => false,
        Value::Cell(_) => false,
    }
}

/// Whether a value is that integer.
fn same_number(number: i64, right: &Value) -> bool
    ensures { result ≡ same (M.int number) (plain right.now) }
{
    match right {
        Value::Nil => false,
        Value::Bool(_) => false,
        Value::Int(other) => number == *other,
        Value::Keyword(_) => false,
        Value::Text(_) => false,
        Value::Vector { .. } => false,
        Value::Function(_) => false,
        Value::Node(node) => match node {
            Node::Empty => false,
            Node::Cons { .. } => false,
            Node::Chunk { .. } => false,
            Node::Range { .. } => false,
            Node::VecSeq { .. } => false,
        },
        Value::Reduced { .. } => false,
        Value::Cell(_) => false,
    }
}

/// Whether a value is the keyword of that name.
fn same_keyword(name: &Text, right: &Value) -> bool
    ensures { result ≡ same (M.keyword name.now) (plain right.now) }
{
    match right {
        Value::Nil => false,
        Value::Bool(_) => false,
        Value::Int(_) => false,
        Value::Keyword(other) => name.bytes() == other.bytes(),
        Value::Text(_) => false,
        Value::Vector { .. } => false,
        Value::Function(_) => false,
        Value::Node(node) => match node {
            Node::Empty => false,
            Node::Cons { .. } => false,
            Node::Chunk { .. } => false,
            Node::Range { .. } => false,
            Node::VecSeq { .. } => false,
        },
        Value::Reduced { .. } => false,
        Value::Cell(_) => false,
    }
}

/// Whether a value is that text.
fn same_text(text: &Text, right: &Value) -> bool
    ensures { result ≡ same (M.text text.now) (plain right.now) }
{
    match right {
        Value::Nil => false,
        Value::Bool(_) => false,
        Value::Int(_) => false,
        Value::Keyword(_) => false,
        Value::Text(other) => text.bytes() == other.bytes(),
        Value::Vector { .. } => false,
        Value::Function(_) => false,
        Value::Node(node) => match node {
            Node::Empty => false,
            Node::Cons { .. } => false,
            Node::Chunk { .. } => false,
            Node::Range { .. } => false,
            Node::VecSeq { .. } => false,
        },
        Value::Reduced { .. } => false,
        Value::Cell(_) => false,
    }
}

/// Whether two atoms are of one kind and the same. All else is unequal.
fn same_atom(left: &Value, right: &Value) -> bool
    ensures { result ≡ same (plain left.now) (plain right.now) }
{
    match left {
        Value::Nil => same_nil(right),
        Value::Bool(truth) => same_truth(*truth, right),
        Value::Int(number) => same_number(*number, right),
        Value::Keyword(name) => same_keyword(name, right),
        Value::Text(text) => same_text(text, right),
        Value::Vector { .. } => false,
        Value::Function(_) => false,
        Value::Node(node) => match node {
            Node::Empty => false,
            Node::Cons { .. } => false,
            Node::Chunk { .. } => false,
            Node::Range { .. } => false,
            Node::VecSeq { .. } => false,
        },
        Value::Reduced { .. } => false,
        Value::Cell(_) => false,
    }
}

/// `=`, and `not=` where the answer is turned round.
#[tactic(auto, using(crate::proofs::Equals::equals_none))]
pub(crate) fn begin_equal(
    alloc: Global,
    negated: bool,
    args: ProperList,
) -> Result<Next<State>, NoMemory>
    ensures { IfOk result (λ r. Takes (equals negated (plains args.items)) r) }
{
    if args.len() == 0 {
        return Ok(no_arguments(args));
    }
    let next = next_pair(alloc, negated, args, 0)?;
    Ok(next)
}

fn no_arguments(args: ProperList) -> Next<State>
    ensures { Takes (throw Arity) result }
{
    fails(Thrown::Arity)
}

/// Two neighbours among the arguments are compared, the left one at this place, or there is none.
fn next_pair(
    alloc: Global,
    negated: bool,
    args: ProperList,
    at: usize,
) -> Result<Next<State>, NoMemory>
    requires { at < length args.items }
    ensures { IfOk result (λ r. Takes (equals negated (plains (drop at args.items))) r) }
{
    let left = args.at(at)?;
    next_right(alloc, negated, args, at, left)
}

fn next_right(
    alloc: Global,
    negated: bool,
    args: ProperList,
    at: usize,
    left: Proper,
) -> Result<Next<State>, NoMemory>
    requires within { at < length args.items }
    requires left { drop at args.items ≡ left.value ∷ drop (at + 1) args.items }
    ensures { IfOk result (λ r. Takes (equals negated (plains (drop at args.items))) r) }
{
    match args.get(at + 1)? {
        None => Ok(no_more(negated, args, left)),
        Some(right) => Ok(first_pair(alloc, negated, args, at + 1, left, right)),
    }
}

/// All pairs are equal.
fn no_more(negated: bool, args: ProperList, left: Proper) -> Next<State>
    ensures { Takes (give (M.bool (not negated))) result }
{
    ends_truth(!negated)
}

fn first_pair(
    alloc: Global,
    negated: bool,
    args: ProperList,
    at: usize,
    left: Proper,
    right: Proper,
) -> Next<State>
    requires { at < length args.items }
    ensures { Takes (visit (then (pair_on (plain left.value) (plain right.value)) (args_left negated (plains (drop at args.items))))) result }
{
    steps(AtStep::Pair {
        left,
        right,
        pending: Pending {
            rests: Vec::new(alloc),
            args,
            at,
            negated,
        },
    })
}

fn is_odd_pair(left: &Value, right: &Value) -> bool
    ensures { result ≡ (incomparable (plain left.now) || incomparable (plain right.now)) }
{
    is_incomparable(left) || is_incomparable(right)
}

fn are_collections(left: &Value, right: &Value) -> bool
    ensures { result ≡ (elements (plain left.now) && elements (plain right.now)) }
{
    holds_elements(left) && holds_elements(right)
}

/// The own step of a pair was taken.
#[tactic(auto, using(crate::proofs::Equals::pair_throws))]
pub(crate) fn pair_step(
    alloc: Global,
    left: Proper,
    right: Proper,
    pending: Pending,
) -> Result<Next<State>, NoMemory>
    ensures { IfOk result (λ r. Takes (left_step (T.Pair left right pending)) r) }
{
    if is_odd_pair(&left.value, &right.value) {
        return Ok(odd_pair(left, right, pending));
    }
    if are_collections(&left.value, &right.value) {
        return left_seen(alloc, left, right, pending);
    }
    let same = same_atoms(left, right);
    after_atoms(alloc, same, pending)
}

fn odd_pair(left: Proper, right: Proper, pending: Pending) -> Next<State>
    ensures { Takes (throw BadType) result }
{
    fails(Thrown::BadType)
}

fn same_atoms(left: Proper, right: Proper) -> bool
    ensures { result ≡ same (plain left.value) (plain right.value) }
{
    same_atom(&left.value, &right.value)
}

fn after_atoms(alloc: Global, same: bool, pending: Pending) -> Result<Next<State>, NoMemory>
    ensures { IfOk result (λ r. Takes (resolved pending (M.bool same)) r) }
{
    if same {
        resolve(alloc, pending)
    } else {
        Ok(unequal(pending))
    }
}

/// The whole comparison is unequal.
#[tactic(auto, using(crate::proofs::Equals::ends_unequal))]
fn unequal(pending: Pending) -> Next<State>
    ensures { Takes (resolved pending (M.bool false)) result }
{
    ends_truth(pending.negated)
}

fn left_seen(
    alloc: Global,
    left: Proper,
    right: Proper,
    pending: Pending,
) -> Result<Next<State>, NoMemory>
    ensures { IfOk result (λ r. Takes (seq (plain left.value) (λ s. seq (plain right.value) (λ t. compares s t (resolved pending)))) r) }
{
    match seek(left) {
        Sought::Now(what) => equal_right(alloc, what, Rest::Beyond(right), pending),
        Sought::Ask(value) => Ok(asks_seq(
            AtSeq::EqualLeft {
                right: Rest::Beyond(right),
                pending,
            },
            value,
        )),
    }
}

/// A comparison came out equal: what waits for it goes on.
#[cycle(equal)]
pub(crate) fn resolve(alloc: Global, pending: Pending) -> Result<Next<State>, NoMemory>
    ensures { IfOk result (λ r. Takes (resolved pending (M.bool true)) r) }
{
    let Pending {
        mut rests,
        args,
        at,
        negated,
    } = pending;
    match rests.pop() {
        None => next_pair(alloc, negated, args, at),
        Some(more) => {
            let Rests { left, right } = more;
            let pending = Pending {
                rests,
                args,
                at,
                negated,
            };
            match seek_rest(left) {
                Sought::Now(what) => equal_right(alloc, what, right, pending),
                Sought::Ask(value) => Ok(asks_seq(AtSeq::EqualLeft { right, pending }, value)),
            }
        }
    }
}

/// The seq of the left is there.
#[cycle(equal)]
pub(crate) fn equal_right(
    alloc: Global,
    left: Seen,
    right: Rest,
    pending: Pending,
) -> Result<Next<State>, NoMemory>
    ensures { IfOk result (λ r. Takes (left_seq (Q.EqualLeft right pending) (seen left)) r) }
{
    match seek_rest(right) {
        Sought::Now(what) => equal_at(alloc, left, what, pending),
        Sought::Ask(value) => Ok(asks_seq(AtSeq::EqualRight { left, pending }, value)),
    }
}

/// Both seqs are there.
#[cycle(equal)]
pub(crate) fn equal_at(
    alloc: Global,
    left: Seen,
    right: Seen,
    pending: Pending,
) -> Result<Next<State>, NoMemory>
    ensures { IfOk result (λ r. Takes (left_seq (Q.EqualRight left pending) (seen right)) r) }
{
    match left {
        Seen::Nil => left_nil(alloc, right, pending),
        Seen::At(left) => left_some(left, right, pending),
    }
}

/// The left is at its end.
#[cycle(equal)]
fn left_nil(alloc: Global, right: Seen, pending: Pending) -> Result<Next<State>, NoMemory>
    ensures { IfOk result (λ r. Takes (compares M.nil (seen right) (resolved pending)) r) }
{
    match right {
        Seen::Nil => resolve(alloc, pending),
        Seen::At(place) => Ok(ended(place, pending)),
    }
}

fn left_some(left: Cursor, right: Seen, pending: Pending) -> Result<Next<State>, NoMemory>
    ensures { IfOk result (λ r. Takes (compares (stands left) (seen right) (resolved pending)) r) }
{
    match right {
        Seen::Nil => Ok(ended(left, pending)),
        Seen::At(right) => pair_at(left, right, pending),
    }
}

/// One side is at its end, and the other isn't.
fn ended(place: Cursor, pending: Pending) -> Next<State>
    ensures { Takes (resolved pending (M.bool false)) result }
{
    unequal(pending)
}

/// The pair of first elements is compared, and then the rests.
fn pair_at(left: Cursor, right: Cursor, pending: Pending) -> Result<Next<State>, NoMemory>
    ensures { IfOk result (λ r. Takes (compares (stands left) (stands right) (resolved pending)) r) }
{
    let left = split_cursor(left)?;
    let right = split_cursor(right)?;
    let rests = Rests {
        left: left.rest,
        right: right.rest,
    };
    let pending = with_rests(pending, rests)?;
    Ok(steps(AtStep::Pair {
        left: left.first,
        right: right.first,
        pending,
    }))
}

fn with_rests(pending: Pending, more: Rests) -> Result<Pending, NoMemory>
    ensures rests { IfOk result (λ p. p.rests.items ≡ pending.rests.items ++ more ∷ []) }
    ensures others { IfOk result (λ p. (p.args.items ≡ pending.args.items) × (p.at ≡ pending.at) × (p.negated ≡ pending.negated)) }
{
    let Pending {
        mut rests,
        args,
        at,
        negated,
    } = pending;
    match rests.push(more) {
        Ok(()) => Ok(Pending {
            rests,
            args,
            at,
            negated,
        }),
        Err(_) => Err(NoMemory),
    }
}
