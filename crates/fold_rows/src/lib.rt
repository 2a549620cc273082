//! Reducer values and `fold`: their rows.
#![tactic(auto)]

ghost use Rattle.fold_rows.specs.Laws.{RowsRename, FoldsAGroup, FoldsHalves};
ghost use Rattle.fold_rows.specs.Worked.{Reducers, Taken, Folded, Words};

/// Like arguments have like plans: the rows look at cells only to ask them.
pub fn law_rows_rename()
    ensures { RowsRename }
{}

/// A fold of so few items as a group has is one group.
pub fn law_fold_group()
    ensures { FoldsAGroup }
{}

/// A fold of more items is two folds, of which the second is a future.
pub fn law_fold_halves()
    ensures { FoldsHalves }
{}

/// Which stages a reducer value has, and what a fold may split.
pub fn worked_reducers()
    ensures { Reducers }
{}

/// An input at the `take` of the reducers.
pub fn worked_taken()
    ensures { Taken }
{}

/// A fold of three items in groups of one, and of none.
pub fn worked_folded()
    ensures { Folded }
{}

/// What the words throw.
pub fn worked_words()
    ensures { Words }
{}
