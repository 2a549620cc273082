ghost use Rattle.command_line.specs.Asking.{BareNameRuns, OneRequest};

/// Words ask for at most one thing.
pub fn law_one_request()
    ensures { OneRequest }
{}

/// The program's name alone asks to run the script.
pub fn law_bare_name_runs()
    ensures { BareNameRuns }
{}
