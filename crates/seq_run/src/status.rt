ghost use Rattle.std.specs.Prelude.{◌≡◌};
ghost use Rattle.seq_run.specs.Statuses.{number_of};

/// How a run ended.
#[derive(Clone, Copy, Debug, PartialEq, Eq)]
pub enum Status {
    /// The whole script was run.
    Done,
    /// A `def` threw.
    DefThrew,
    /// The command line isn't one.
    Usage,
    /// The text is no script.
    ScriptRefused,
    /// The parts passed the cell limit.
    CellsSpent,
    /// Standard input failed.
    ReadFault,
    /// Standard output failed.
    WriteFault,
    /// Memory ran out.
    NoMemory,
}

impl Status {
    /// The number that the process ends with.
    pub fn number(self) -> u8
        ensures { result ≡ number_of self }
    {
        match self {
            Status::Done => 0,
            Status::DefThrew => 1,
            Status::Usage => 2,
            Status::ScriptRefused => 3,
            Status::CellsSpent => 4,
            Status::ReadFault => 5,
            Status::WriteFault => 6,
            Status::NoMemory => 7,
        }
    }
}
