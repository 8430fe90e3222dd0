//! How a run of the program ends.
ghost use Rattle.std.specs.Prelude.{◌≡◌};
ghost use Rattle.circt_top.specs.Codes.{code_of};

use command_line::usage::UsageKind;
use diag::refusal::Refusal;
use lec_tool::Input;
use resolution_proof::log::Log;

/// How a run of the program ended.
#[derive(Drop)]
pub enum Status {
    /// The whole output went out.
    Done,
    /// The output went out: two modules differ where they are given this.
    Different(Input),
    /// The output went out: it is unknown whether two modules differ, after so many learnt clauses.
    Unknown(Log),
    /// The text was refused.
    Refused(Refusal),
    /// The words are no command.
    Usage(UsageKind),
    /// The input could not be read.
    ReadFault,
    /// The output could not be written.
    WriteFault,
    /// There was no memory. Nothing went out.
    NoMemory,
}

impl Status {
    /// The exit status of the program.
    pub fn code(&self) -> u8
        ensures { result ≡ code_of self.now }
    {
        match self {
            Status::Done => 0,
            Status::Refused(_) => 1,
            Status::Usage(_) => 2,
            Status::Different(_) => 3,
            Status::Unknown(_) => 4,
            Status::ReadFault => 5,
            Status::WriteFault => 6,
            Status::NoMemory => 7,
        }
    }
}
