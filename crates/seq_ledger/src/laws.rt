ghost use Rattle.seq_ledger.specs.Ledgers.{OneText, ReadsAlike};

/// The definitions read off the values of all forms are those that are read off the values of the `def` forms alone.
pub fn law_reads_alike()
    ensures { ReadsAlike }
{}

/// A book, a program, the values of its `def` forms and totals have at most one ledger.
pub fn law_one_text()
    ensures { OneText }
{}
