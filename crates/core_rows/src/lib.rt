//! The words that force nothing. Each function states a law over their rules.
#![tactic(auto)]

ghost use Rattle.core_rows.specs.Laws.{CallsRename, FunctionsRename};
ghost use Rattle.core_rows.specs.Worked.{Divisions, Sums, Functions};

/// What a call of a word does looks at cells only to ask them.
pub fn law_calls_rename()
    ensures { CallsRename }
{}

/// So does what a call of a function that a word made does.
pub fn law_functions_rename()
    ensures { FunctionsRename }
{}

/// Quotients, remainders and moduli of negative numbers, by zero and at the least integer.
pub fn worked_divisions()
    ensures { Divisions }
{}

/// Sums and comparisons, and what they throw.
pub fn worked_sums()
    ensures { Sums }
{}

/// Compositions, lists and vectors.
pub fn worked_functions()
    ensures { Functions }
{}
