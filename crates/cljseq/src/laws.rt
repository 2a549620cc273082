ghost use Rattle.cljseq.specs.Answers.{OneAnswer};

/// A text has one answer at most, by what the words ask for: one status and one output.
pub fn law_one_answer()
    ensures { OneAnswer }
{}
