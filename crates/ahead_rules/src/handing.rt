//! What is handed from one turn to another: sequences, numbers and parts.
ghost use Rattle.std.specs.Prelude.{length, ◌+◌, ◌≤◌, ◌++◌, ◌≡◌, IfOk, IsTrue, true, [], ◌∷◌};
ghost use Rattle.seq_plan.specs.Cursors.{stands};
ghost use Rattle.seq_plan.specs.Nodes.{first_of, rest_of, make_term};
ghost use Rattle.seq_plan.specs.WellFormed.{sight, sights};
ghost use Rattle.seq_turns.specs.Seen.{seen};
ghost use Rattle.seq_turns.specs.Turning.{Takes};
ghost use Rattle.seq_values.specs.Model as M;
ghost use Rattle.seq_values.specs.Plain.{plain, plains, plain_term};
ghost use Rattle.seq_values.specs.WellFormedTerms.{is_seq, takes, is_well_formed_term};
ghost use Rattle.ahead_rules.specs.Left.{running, left_part};
ghost use Rattle.seq_turns.specs.Arguments.{part_in, integer_of};

use crate::state::{AtPart, Sequence, State};
use seq_plan::Cursor;
use seq_turns::{
    Gathered, Next, Proper, ProperList, Seen, first_of_cursor, makes, number_of, part_of,
    rest_value, seen_value, step_cursor,
};
use seq_values::{CellId, Kind, Op, Term};
use seq_vector::{NoMemory, Share};
use std::alloc::Global;

impl Sequence {
    #[tactic(auto, using(crate::proofs::Sequences::part_sequence))]
    /// A part.
    pub(crate) fn of_part(id: CellId) -> Sequence
        ensures { plain result.value ≡ M.cell id }
    {
        Sequence {
            value: Proper::of_part(id).value,
        }
    }

    /// The value, with one more owner.
    pub(crate) fn share(&self) -> Result<Proper, NoMemory>
        ensures { IfOk result (λ copy. copy.value ≡ self.now.value) }
    {
        let value = self.value.share()?;
        Ok(Proper { value })
    }

    /// The value alone.
    pub(crate) fn proper(self) -> Proper
        ensures { result.value ≡ self.value }
    {
        Proper { value: self.value }
    }
}

/// The first element, and what comes after it.
#[derive(Drop)]
pub(crate) struct Parted {
    pub(crate) first: Proper,
    pub(crate) rest: Sequence,
}

/// What comes after the first element, as a value.
pub(crate) fn after_first(alloc: Global, place: Cursor) -> Result<Sequence, NoMemory>
    ensures { IfOk result (λ rest. plain rest.value ≡ rest_of (stands place)) }
{
    let after = step_cursor(place)?;
    let rest = rest_value(alloc, after)?;
    Ok(Sequence { value: rest.value })
}

/// The first element, and what comes after it as a value.
pub(crate) fn taken_apart(alloc: Global, place: Cursor) -> Result<Parted, NoMemory>
    ensures first { IfOk result (λ p. plain p.first.value ≡ first_of (stands place)) }
    ensures rest { IfOk result (λ p. plain p.rest.value ≡ rest_of (stands place)) }
{
    let first = first_of_cursor(&place)?;
    let rest = after_first(alloc, place)?;
    Ok(Parted { first, rest })
}

/// What `seq` gave, as a value.
pub(crate) fn given_seq(alloc: Global, what: Seen) -> Result<Proper, NoMemory>
    ensures stands { IfOk result (λ v. plain v.value ≡ seen what) }
    ensures seq { IfOk result (λ v. IsTrue (is_seq (sight (plain v.value)))) }
{
    let value = seen_value(alloc, what)?;
    Ok(value)
}

/// The part that a value is, and `None` where it is none. The value is let go.
pub(crate) fn as_part(value: Proper) -> Option<CellId>
    ensures { result ≡ part_in (plain value.value) }
{
    part_of(&value.value)
}

/// The integer that a value is, and `None` where it is none. The value is let go.
pub(crate) fn as_number(value: Proper) -> Option<i64>
    ensures { result ≡ integer_of (plain value.value) }
{
    number_of(&value.value)
}

/// Two more values.
fn and_two(before: Gathered, first: Proper, second: Proper) -> Result<Gathered, NoMemory>
    requires { length before.items.items + 2 ≤ 4294967295 }
    ensures stands { IfOk result (λ all. plains all.items.items ≡ plains before.items.items ++ plain first.value ∷ plain second.value ∷ []) }
    ensures long { IfOk result (λ all. length all.items.items ≡ length before.items.items + 2) }
{
    let one = before.and(first)?;
    let all = one.and(second)?;
    Ok(all)
}

/// Four values.
pub(crate) fn four(
    alloc: Global,
    first: Proper,
    second: Proper,
    third: Proper,
    fourth: Proper,
) -> Result<ProperList, NoMemory>
    ensures { IfOk result (λ all. plains all.items ≡ plain first.value ∷ plain second.value ∷ plain third.value ∷ plain fourth.value ∷ []) }
{
    let none = Gathered::none(alloc);
    let half = and_two(none, first, second)?;
    let all = and_two(half, third, fourth)?;
    let list = all.listed(alloc)?;
    Ok(list)
}

/// The operation on arguments that fit it.
fn term(op: Op, args: ProperList) -> Term
    requires { takes op (sights (M.values (plains args.items))) ≡ true }
    ensures same { plain_term result ≡ record { op = op; args = plains args.items } }
    ensures well { IsTrue (is_well_formed_term result) }
{
    Term {
        op,
        args: args.items,
    }
}

/// Makes a part for the operation on arguments that fit it.
pub(crate) fn makes_part(next: AtPart, kind: Kind, op: Op, args: ProperList) -> Next<State>
    requires { takes op (sights (M.values (plains args.items))) ≡ true }
    ensures { Takes running (make_term kind op (plains args.items) (λ m. left_part next m)) result }
{
    makes(State::Part(next), kind, term(op, args))
}
