//! The stages of transducers: the rows of `transduce`, `into` with a transducer and `sequence`.
#![tactic(auto)]

ghost use Rattle.stage_rows.specs.Laws.{RowsRename, PullGoesOn, StagesAreLimited};
ghost use Rattle.stage_rows.specs.Worked.{Compositions, Passed, Taken, Dropped, Joined, Grouped, Kept, Words};

/// Like arguments have like plans: the rows look at cells only to ask them.
pub fn law_rows_rename()
    ensures { RowsRename }
{}

/// A pull goes on with the states with which the one before it stopped.
pub fn law_pull_goes_on()
    ensures { PullGoesOn }
{}

/// What is no transducer, and a transducer of too many stages, is refused each by its error.
pub fn law_stages_are_limited()
    ensures { StagesAreLimited }
{}

/// Which values are transducers, and their stages in order.
pub fn worked_compositions()
    ensures { Compositions }
{}

/// An input through `map`, `filter`, `remove` and `keep`.
pub fn worked_passed()
    ensures { Passed }
{}

/// An input at `take` and `take-while`.
pub fn worked_taken()
    ensures { Taken }
{}

/// An input at `drop` and `drop-while`.
pub fn worked_dropped()
    ensures { Dropped }
{}

/// An input at `mapcat` and `cat`.
pub fn worked_joined()
    ensures { Joined }
{}

/// Inputs at `partition-all`, and its completion.
pub fn worked_grouped()
    ensures { Grouped }
{}

/// The states that a pull keeps.
pub fn worked_kept()
    ensures { Kept }
{}

/// What the words throw, and the part that `sequence` makes.
pub fn worked_words()
    ensures { Words }
{}
