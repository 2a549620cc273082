//! `pmap` and `seque`, which work ahead. Each function states a law over their rules.
#![tactic(auto)]

ghost use Rattle.ahead_rows.specs.Laws.{CallsRename, TermsRename, RoundsRename};

/// What a call of a word does looks at cells only to ask them.
pub fn law_calls_rename()
    ensures { CallsRename }
{}

/// So does the work of a term.
pub fn law_terms_rename()
    ensures { TermsRename }
{}

/// So does a round of a loop.
pub fn law_rounds_rename()
    ensures { RoundsRename }
{}
