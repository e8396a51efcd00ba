// How a run came out, as its caller sees it.
ghost use Rattle.std.specs.Prelude.{◌≡◌};
ghost use Rattle.solver_cli.specs.Lines.{exit_of};

/// What a run ends with.
#[derive(Clone, Copy, Debug, PartialEq, Eq, Drop)]
pub enum Status {
    Done,
    Refused,
    Usage,
    ReadFault,
    WriteFault,
    Memory,
}

impl Status {
    /// The program's exit status.
    pub fn exit(self) -> u8
        ensures { result ≡ exit_of self }
    {
        match self {
            Status::Done => 0,
            Status::Refused => 1,
            Status::Usage => 2,
            Status::ReadFault => 3,
            Status::WriteFault => 4,
            Status::Memory => 5,
        }
    }
}
