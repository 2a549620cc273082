ghost use Rattle.seq_turns.specs.Laws.{SilentIn, FoundAgain};

/// What a rule passes over by its own loops, it passes over by the table's.
pub fn law_silent_in()
    ensures { SilentIn }
{}

/// `seq` of what `seq` finds is that itself.
pub fn law_found_again()
    ensures { FoundAgain }
{}
