//! The ledger of a lawful book at rest: each walk comes to its end, and the text is the line of the meaning.
#![tactic(auto)]

ghost use Rattle.lawful_ledger.specs.Laws.{LedgerLine, WalksEnd};

/// In a lawful book at rest the walk of each well-formed value comes to its end.
pub fn law_walks_end()
    ensures { WalksEnd }
{}

/// Of a lawful book at rest whose last form is a `ledger`, the text of the book is the line of that form.
pub fn law_ledger_line()
    ensures { LedgerLine }
{}
