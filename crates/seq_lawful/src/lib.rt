//! What a lawful book is, and that each step of whoever runs works keeps it.
#![tactic(auto)]

ghost use Rattle.seq_lawful.specs.KeepingLaws.{LawKeeps, NewIsLawful, NextBegins};
ghost use Rattle.seq_lawful.specs.RestLaws.{Rests, OneOwnName, NamedAtRest, NamesAtRest, CountedAtRest, EndedGives, CellGives, GivesAtRest, FormGives, SpentIsOver};
ghost use Rattle.seq_lawful.specs.Grows.{StepsGrow};
ghost use Rattle.seq_lawful.specs.Turned.{TurnedSteps};

/// Each step keeps a book lawful.
pub fn law_keeps()
    ensures { LawKeeps }
{}

/// A new book is lawful.
pub fn law_new_lawful()
    ensures { NewIsLawful }
{}

/// The next form may be begun where the last one is done and no make was refused.
pub fn law_next_begins()
    ensures { NextBegins }
{}

/// Where no claim is open, nothing was noted and no future is empty, a lawful book is at rest.
pub fn law_rests()
    ensures { Rests }
{}

/// A cell and a claim have at most one own name.
pub fn law_one_own_name()
    ensures { OneOwnName }
{}

/// At rest each has one, and a claim's is demanded.
pub fn law_named_at_rest()
    ensures { NamedAtRest }
{}

/// At rest the names are those of what is made, realised and failed.
pub fn law_names_at_rest()
    ensures { NamesAtRest }
{}

/// At rest the book's totals are the numbers of what is made, realised and failed.
pub fn law_counted_at_rest()
    ensures { CountedAtRest }
{}

/// An ended claim gave what each of its names gives.
pub fn law_ended_gives()
    ensures { EndedGives }
{}

/// A cell that is Done or Failed has what each of its names gives.
pub fn law_cell_gives()
    ensures { CellGives }
{}

/// At rest each claim gave what its own name gives.
pub fn law_gives_at_rest()
    ensures { GivesAtRest }
{}

/// A form that ended gave what its evaluation gives.
pub fn law_form_gives()
    ensures { FormGives }
{}

/// A book in which a make was refused has forms that don't fit, and one at rest has forms that do.
pub fn law_spent_is_over()
    ensures { SpentIsOver }
{}

/// A book grows over each step and over any number of them; a quiet one stays the same until a form is begun.
pub fn law_steps_grow()
    ensures { StepsGrow }
{}

/// A give-up that isn't noted, and a lazy part that keeps an error, leave no lawful book.
pub fn law_turned_steps()
    ensures { TurnedSteps }
{}
