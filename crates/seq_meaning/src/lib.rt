//! The meaning of a program. Each function states a law over the definitions.
#![tactic(auto)]

ghost use Rattle.std.specs.Prelude.{ℕ};
ghost use Rattle.seq_meaning.specs.Laws.{OneWork, OnePart, OneOutcome, OneAnswer, OneOrder, RunDefined, RunGoesOn, NoneAfterThrow, MakesGrow, RunsRename, TwinsRunAlike, RetryThrows, AllIsSound, AllIsWell, TrailRuns, TrailNeeds, TrailGives, TrailThrows, TrailMakes, TrailPasses, TrailIsTrue, BeforeIsReferred};
ghost use Rattle.seq_meaning.specs.Renamed.{TrailInNames, NamedNeeds, NamedGives, NamedThrows, NamedMakes};
ghost use Rattle.seq_meaning.specs.Names.{Name};
ghost use Rattle.seq_meaning.specs.SmallTable.{SmallRenames};
ghost use Rattle.seq_meaning.specs.Worked.{SumOfThree, OneMoreThanOne, AskedTwice, WithoutEnd};

/// Each evaluation has at most one work.
pub fn law_one_work()
    ensures { OneWork }
{}

/// Each part is of one kind and has one work.
pub fn law_one_part()
    ensures { OnePart }
{}

/// Each evaluation gives at most one outcome.
pub fn law_one_outcome()
    ensures { OneOutcome }
{}

/// An evaluation has at most one list of true answers of a length.
pub fn law_one_answer()
    ensures { OneAnswer }
{}

/// Of two lists of true answers, one is the other with more answers.
pub fn law_one_order()
    ensures { OneOrder }
{}

/// Each list of answers has a run.
pub fn law_run_defined()
    ensures { RunDefined }
{}

/// What one more answer does to a run.
pub fn law_run_goes_on()
    ensures { RunGoesOn }
{}

/// After a thrown answer nothing is needed.
pub fn law_none_after_throw()
    ensures { NoneAfterThrow }
{}

/// The makes under a longer list of true answers begin with those under a shorter one.
pub fn law_makes_grow()
    ensures { MakesGrow }
{}

/// A run in numbers is like the run in names.
pub fn law_runs_rename()
    ensures { RunsRename }
{}

/// Two evaluations of one work run alike.
pub fn law_twins_run_alike()
    ensures { TwinsRunAlike }
{}

/// A failing attempt at a lazy part throws what the part throws.
pub fn law_retry_throws()
    ensures { RetryThrows }
{}

/// Where the rules keep to sound values, so does every evaluation.
pub fn law_all_is_sound()
    ensures { AllIsSound }
{}

/// Where the rules keep to well-formed values, so does every evaluation.
pub fn law_all_is_well()
    ensures { AllIsWell }
{}

/// What was walked node by node is a part of the run on the same answers.
pub fn law_trail_runs()
    ensures { TrailRuns }
{}

/// Where the walk comes to an ask, the run needs that part.
pub fn law_trail_needs()
    ensures { TrailNeeds }
{}

/// Where the walk comes to a value, the run ends by it.
pub fn law_trail_gives()
    ensures { TrailGives }
{}

/// Where the walk comes to an error, the run ends by it.
pub fn law_trail_throws()
    ensures { TrailThrows }
{}

/// A rule may pass over loops that are written out and seqs that are there already.
pub fn law_trail_passes()
    ensures { TrailPasses }
{}

/// Where the walk comes to a make, that is what the run makes next.
pub fn law_trail_makes()
    ensures { TrailMakes }
{}

/// What was walked in names, with answers that the asked parts give, has true answers, and each came to its ask.
pub fn law_trail_is_true()
    ensures { TrailIsTrue }
{}

/// Which numbers of cells are which names. Nothing is asked of it: the laws that take one hold of any.
pub trait Naming {
    ghost same: { ℕ → Name → Type 0 };
}

/// What was walked in numbers, under a name of its evaluation, is walked in names, with true answers.
pub fn law_trail_in_names<N: Naming>()
    ensures { TrailInNames N.same }
{}

/// Where a walk in numbers comes to an ask, the run of the name needs a name of that cell.
pub fn law_named_needs<N: Naming>()
    ensures { NamedNeeds N.same }
{}

/// Where a walk in numbers comes to a value, the name gives a value that is alike.
pub fn law_named_gives<N: Naming>()
    ensures { NamedGives N.same }
{}

/// Where a walk in numbers comes to an error, the name throws it.
pub fn law_named_throws<N: Naming>()
    ensures { NamedThrows N.same }
{}

/// Where a walk in numbers comes to a make, the name's next part is of that kind, with a like term.
pub fn law_named_makes<N: Naming>()
    ensures { NamedMakes N.same }
{}

/// The values of the forms before are what references see of them.
pub fn law_before_is_referred()
    ensures { BeforeIsReferred }
{}

/// A small table of rules, for worked scripts, renames.
pub fn law_small_renames()
    ensures { SmallRenames }
{}

/// `(prn (reduce + (take 3 (map inc (range 3)))))` writes 6 with fourteen own steps, and throws with thirteen.
pub fn worked_sum_of_three()
    ensures { SumOfThree }
{}

/// `(prn (inc 1))` writes 2 with two own steps, and throws with one.
pub fn worked_one_more_than_one()
    ensures { OneMoreThanOne }
{}

/// A lazy part that throws and is asked by two forms: each fails by an attempt of its own.
pub fn worked_asked_twice()
    ensures { AskedTwice }
{}

/// `(prn (iterate inc 0))` throws, and realises no more than the step limit allows.
pub fn worked_without_end()
    ensures { WithoutEnd }
{}
