//! The table of the language, and worked scripts over it. Each function states a law over the definitions.
#![tactic(auto)]

ghost use Rattle.std.specs.Prelude.{ℕ, List};
ghost use Rattle.clj_script.specs.Trees.{Program};
ghost use Rattle.seq_table.specs.Answers.{OneAnswered, Refusal};
ghost use Rattle.seq_table.specs.Laws.{TableIsSound, TableKeeps, TableRenames};
ghost use Rattle.seq_table.specs.Coming.{CallsAreSound, CallsAreWell, FoldIsTree, GivesWhatComes, LikeIsAlike, ListsOfTerms, OneCall, OneList, OneRun, PartOfRun, RunsAreWell};
ghost use Rattle.seq_table.specs.Worked.{FirstOfMap, FirstOfIterate, FailingChunk, NoneKept, SequeOfThree, FoldAsTree, CompletedGroups, TakeOfNone, PlainCall, RestAndNext, NeverAsked, NestedMapcat, GroupedSequence, LazyAndVector, NestedValue, PulledAhead, Dropped, JoinedOnce, InPlace, MadeScript};
ghost use Rattle.seq_table.specs.Generated.{OneGenerated};
ghost use Rattle.seq_table.specs.Written.{FirstOfMapWritten, NoneKeptWritten, FailingChunkWritten, FailingDefWritten, MadeScriptWritten, MadeScriptAnswered};

/// The rules look at cells only to ask them.
pub fn law_table_renames()
    ensures { TableRenames }
{}

/// The rules make no node without an element.
pub fn law_table_is_sound()
    ensures { TableIsSound }
{}

/// Each row keeps to well-formed values.
pub fn law_table_keeps()
    ensures { TableKeeps }
{}

/// All that a run of a program gives and makes is well formed.
pub fn law_runs_are_well()
    ensures { RunsAreWell }
{}

/// What a call of well-formed values comes to is well formed.
pub fn law_calls_are_well()
    ensures { CallsAreWell }
{}

/// What a call of sound values comes to is sound.
pub fn law_calls_are_sound()
    ensures { CallsAreSound }
{}

/// An evaluation that gives a value gives what the plan of its work comes to.
pub fn law_gives_what_comes()
    ensures { GivesWhatComes }
{}

/// What a fold comes to is the tree of its items.
pub fn law_fold_is_tree()
    ensures { FoldIsTree }
{}

/// What an evaluation of a term gives begins as the list that the term stands for.
pub fn law_lists()
    ensures { ListsOfTerms }
{}

/// What a call comes to is one value but for names.
pub fn law_one_call()
    ensures { OneCall }
{}

/// Values that are the same but for names are alike.
pub fn law_like_is_alike()
    ensures { LikeIsAlike }
{}

/// The list of a term is determined.
pub fn law_one_list()
    ensures { OneList }
{}

/// A run of a program ends in one way, with one text.
pub fn law_one_run()
    ensures { OneRun }
{}

/// What was written so far is a prefix of what any run writes.
pub fn law_part_of_run()
    ensures { PartOfRun }
{}

/// Which program a text means, and how it is refused. A law that takes one holds of any that meets its premises.
pub trait Reading {
    ghost means: { List ℕ → Program → Type 0 };

    ghost refuses: { List ℕ → Refusal → Type 0 };
}

/// Where a text means one program at most, is refused in one way at most, and never both, it is answered in one way.
pub fn law_one_answered<R: Reading>()
    ensures { OneAnswered R.means R.refuses }
{}

/// A chunk of three is mapped where its first element is asked.
pub fn worked_first_of_map()
    ensures { FirstOfMap }
{}

/// Where the collection is not chunked, one element is mapped.
pub fn worked_first_of_iterate()
    ensures { FirstOfIterate }
{}

/// A chunk of which one call throws: each form that asks it fails by an attempt of its own.
pub fn worked_failing_chunk()
    ensures { FailingChunk }
{}

/// Chunks of which nothing is kept are empty, and give no node.
pub fn worked_none_kept()
    ensures { NoneKept }
{}

/// Work ahead takes three elements, and one more for each that is asked.
pub fn worked_seque_of_three()
    ensures { SequeOfThree }
{}

/// A fold combines halves, where a reduction goes from the left.
pub fn worked_fold_as_tree()
    ensures { FoldAsTree }
{}

/// After an early end the last group is completed.
pub fn worked_completed_groups()
    ensures { CompletedGroups }
{}

/// One element enters before `take` says that all is done.
pub fn worked_take_of_none()
    ensures { TakeOfNone }
{}

/// A call and the visit by printing.
pub fn worked_plain_call()
    ensures { PlainCall }
{}

/// `next` asks whether there is a rest, and `rest` does not.
pub fn worked_rest_and_next()
    ensures { RestAndNext }
{}

/// A future that fails and is never asked counts as failed, and nothing throws.
pub fn worked_never_asked()
    ensures { NeverAsked }
{}

/// One `mapcat` over another.
pub fn worked_nested_mapcat()
    ensures { NestedMapcat }
{}

/// A sequence of groups, the last of which comes from the completion.
pub fn worked_grouped_sequence()
    ensures { GroupedSequence }
{}

/// A lazy part and a vector are equal where their elements are.
pub fn worked_lazy_and_vector()
    ensures { LazyAndVector }
{}

/// A vector in a vector, `()` and a function are printed.
pub fn worked_nested_value()
    ensures { NestedValue }
{}

/// A sequence over a transducer pulls outputs until it has a chunk of them.
pub fn worked_pulled_ahead()
    ensures { PulledAhead }
{}

/// Each element that is dropped is visited.
pub fn worked_dropped()
    ensures { Dropped }
{}

/// `mapcat` asks its collection once for each element.
pub fn worked_joined_once()
    ensures { JoinedOnce }
{}

/// `nth` visits the elements before its place.
pub fn worked_in_place()
    ensures { InPlace }
{}

/// The script that is made from 1.
pub fn worked_generated()
    ensures { OneGenerated }
{}

/// What a run of that script writes.
pub fn written_first_of_map()
    ensures { FirstOfMapWritten }
{}

/// What a run of that script writes.
pub fn written_none_kept()
    ensures { NoneKeptWritten }
{}

/// What a run of that script writes.
pub fn written_failing_chunk()
    ensures { FailingChunkWritten }
{}

/// `(def q (inc :a))` throws: its line is the last one.
pub fn written_failing_def()
    ensures { FailingDefWritten }
{}

/// The script that is made from 1: ten calls run ahead, of which one is asked.
pub fn worked_made_script()
    ensures { MadeScript }
{}

/// What a run of that script writes.
pub fn written_made_script()
    ensures { MadeScriptWritten }
{}

/// What the program answers where it is asked to make and run that script.
pub fn answered_made_script()
    ensures { MadeScriptAnswered }
{}
