//! Where a rule stands, by what it waits for.
ghost use Rattle.std.specs.Prelude.{◌≡◌, ◌≤◌, ◌<ℤ◌, pos, length, true, IsTrue};
ghost use Rattle.fold_rules.specs.Words.{is_fold_word};
ghost use Rattle.seq_plan.specs.WellFormed.{sights};
ghost use Rattle.seq_values.specs.Model as M;
ghost use Rattle.seq_values.specs.Plain.{plains};
ghost use Rattle.seq_values.specs.WellFormed.{are_well_formed};
ghost use Rattle.seq_values.specs.WellFormedTerms.{are_fold_stages, is_well_formed_term};
ghost use Rattle.seq_values.specs.declared.words.Op.TheVariants as O;

use pull_rules::Reduction;
use reducer_values::Items;
use seq_turns::{Proper, ProperList};
use seq_values::{Builtin, CellId, Term, Value};
use seq_vector::PVec;
use xf_stages::Stages;

/// The term of a fold.
#[derive(Drop)]
pub(crate) struct Work {
    pub(crate) term: Term,
    ghost folds: { term.op ≡ O.Fold },
    ghost well: { IsTrue (is_well_formed_term term) },
}

/// A call of a word that folds or reduces.
#[derive(Drop)]
pub(crate) struct Call {
    pub(crate) word: Builtin,
    pub(crate) args: PVec<Value>,
    ghost folds: { IsTrue (is_fold_word word) },
    ghost well: { IsTrue (are_well_formed args) },
}

/// What items are folded by: how many a group has, the combining and the reducing function, and the stages, so few that a term may have them.
#[derive(Drop)]
pub(crate) struct Fold {
    pub(crate) size: i64,
    pub(crate) combine: Proper,
    pub(crate) function: Proper,
    pub(crate) stages: ProperList,
    ghost some: { pos 0 <ℤ size },
    ghost fit: { are_fold_stages (sights (M.values (plains stages.items))) ≡ true },
    ghost few: { length stages.items ≤ 4294967291 },
}

/// A second half, which a future folds, and the function that combines the answers of both halves.
#[derive(Drop)]
pub(crate) struct Half {
    pub(crate) cell: CellId,
    pub(crate) combine: Proper,
}

/// The second halves that wait until the first ones are folded here, the innermost last. They are no more than the times that the items were halved.
#[derive(Drop)]
pub(crate) struct Pending {
    pub(crate) halves: Vec<Half>,
}

/// A rule that hasn't begun.
#[derive(Drop)]
pub(crate) enum AtBegin {
    Work(Work),
    Call(Call),
}

/// A rule that waits for the answer of a call or of a future.
#[derive(Drop)]
pub(crate) enum AtValue {
    /// For the first answer of a reduction of this collection.
    First {
        stages: Stages,
        function: Proper,
        source: Proper,
        pending: Pending,
    },
    /// For the answer of a fold, with which the halves that wait go on.
    Answer(Pending),
    /// For the answer of a second half, where that of the first is there.
    Right {
        left: Proper,
        combine: Proper,
        pending: Pending,
    },
}

/// A rule that waits for its part.
#[derive(Drop)]
pub(crate) enum AtPart {
    /// For the future of a second half. The first half is folded then.
    Second {
        fold: Fold,
        items: Items,
        pending: Pending,
    },
}

/// Where a rule stands, by what it waits for.
#[derive(Drop)]
pub(crate) enum State {
    Begin(AtBegin),
    Value(AtValue),
    /// What a reduction waits for. The halves that wait go on with its answer.
    Reduction {
        reduction: Reduction,
        pending: Pending,
    },
    Part(AtPart),
    Over,
}

/// A rule that runs by turns.
#[derive(Drop)]
pub struct RuleState {
    pub(crate) state: State,
}
