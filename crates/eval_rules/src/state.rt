//! Where a rule of the language stands.
ghost use Rattle.std.specs.Prelude.{IsTrue};
ghost use Rattle.reducer_values.specs.Words.{is_reducer_word};

use seq_turns::ProperList;
use seq_values::Builtin;

/// A call of a word that makes a reducer value.
#[derive(Drop)]
pub(crate) struct Reducer {
    pub(crate) word: Builtin,
    pub(crate) args: ProperList,
    ghost reduces: { IsTrue (is_reducer_word word) },
}

/// Where a rule stands, by the crate that has it.
#[derive(Drop)]
pub(crate) enum State {
    Core(core_rules::RuleState),
    Walk(walk_rules::RuleState),
    Lazy(lazy_rules::RuleState),
    Stage(pull_rules::RuleState),
    Ahead(ahead_rules::RuleState),
    Fold(fold_rules::RuleState),
    Print(print_rules::RuleState),
    Reducer(Reducer),
    Over,
}

/// A rule of the language, run by turns.
#[derive(Drop)]
pub struct LanguageRule {
    pub(crate) state: State,
}
