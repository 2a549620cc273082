//! What a run writes, from a lawful book at rest: how far it has come after each form, and how it ends. Each function states a law over the definitions.
#![tactic(auto)]

ghost use Rattle.lawful_output.specs.Laws.{BeforeStays, BegunCounts, BegunIsOnly, ClaimedIsOnly, DefThrowsWhere, ErrorStays, FitsAtRest, GivenIsDone, LineOfDef, LineOfDefn, LineOfPrn, LineOfThrownDef, LineOfThrownPrn, NextMayBegin, NoDefThrows, OneMoreBefore, OverWhereSpent, PartOf, PartOfNext, PrnGivesText, QuietRests, RanOut, RanThrough, ReachedNew, ReachedOn, RestIsClosed, ThrewAt, ThrownIsDone, ValueStays, ValuesStand};

/// A book in which no claim is open and no future is empty is at rest, where nothing was noted.
pub fn law_quiet_rests()
    ensures { QuietRests }
{}

/// In a book at rest no claim is open.
pub fn law_rest_is_closed()
    ensures { RestIsClosed }
{}

/// The claim of a form that is begun in such a book is the only open one.
pub fn law_begun_is_only()
    ensures { BegunIsOnly }
{}

/// So is that of a part that is claimed in such a book.
pub fn law_claimed_is_only()
    ensures { ClaimedIsOnly }
{}

/// The numbers of the forms begun tell how many forms there are.
pub fn law_begun_counts()
    ensures { BegunCounts }
{}

/// After each form the next one may be begun.
pub fn law_next_may_begin()
    ensures { NextMayBegin }
{}

/// A form that gave a value is done.
pub fn law_given_is_done()
    ensures { GivenIsDone }
{}

/// A form that threw and defines nothing is done.
pub fn law_thrown_is_done()
    ensures { ThrownIsDone }
{}

/// A form keeps its value.
pub fn law_value_stays()
    ensures { ValueStays }
{}

/// A form keeps its error.
pub fn law_error_stays()
    ensures { ErrorStays }
{}

/// The values of the forms of a book at rest stay those of the forms before.
pub fn law_values_stand()
    ensures { ValuesStand }
{}

/// The values of the forms before stay so.
pub fn law_before_stays()
    ensures { BeforeStays }
{}

/// With what the next form ended by there is one more value of the forms before.
pub fn law_one_more_before()
    ensures { OneMoreBefore }
{}

/// A `prn` that gives a value gives a text.
pub fn law_prn_gives_text()
    ensures { PrnGivesText }
{}

/// The text of a `prn`, with a newline, is its line.
pub fn law_line_of_prn()
    ensures { LineOfPrn }
{}

/// A `def` writes nothing.
pub fn law_line_of_def()
    ensures { LineOfDef }
{}

/// A `defn` writes nothing.
pub fn law_line_of_defn()
    ensures { LineOfDefn }
{}

/// A `prn` that throws writes the error.
pub fn law_line_of_thrown_prn()
    ensures { LineOfThrownPrn }
{}

/// A `def` that throws writes the error.
pub fn law_line_of_thrown_def()
    ensures { LineOfThrownDef }
{}

/// The forms of a book at rest fit.
pub fn law_fits_at_rest()
    ensures { FitsAtRest }
{}

/// The forms of a book in which a make was refused don't fit.
pub fn law_over_where_spent()
    ensures { OverWhereSpent }
{}

/// A `def` form that ended by an error is a `def` that throws.
pub fn law_def_throws_where()
    ensures { DefThrowsWhere }
{}

/// A form that is done is no `def` that throws.
pub fn law_no_def_throws()
    ensures { NoDefThrows }
{}

/// A run begins with a new book, and nothing written.
pub fn law_reached_new()
    ensures { ReachedNew }
{}

/// A run comes one form further, by the form's line.
pub fn law_reached_on()
    ensures { ReachedOn }
{}

/// A run is through after the last form.
pub fn law_ran_through()
    ensures { RanThrough }
{}

/// A run ends at the form for which a make was refused.
pub fn law_ran_out()
    ensures { RanOut }
{}

/// A run ends at a `def` that throws, with its line.
pub fn law_threw_at()
    ensures { ThrewAt }
{}

/// A prefix of what the forms so far write is part of the output.
pub fn law_part_of()
    ensures { PartOf }
{}

/// A prefix that ends in the next form's line is part of the output.
pub fn law_part_of_next()
    ensures { PartOfNext }
{}
