// How a command ends.
ghost use Rattle.std.specs.Prelude.{◌≡◌};

use report::ModelFault;

/// What of the outside failed: a file or the formulas, or the output.
#[derive(Clone, Copy, Debug, PartialEq, Eq)]
pub enum Fault {
    Read,
    Write,
}

/// How a command ended.
#[derive(Clone, Copy, Debug, PartialEq, Eq)]
pub enum Status {
    /// Each line of the formulas is answered; all text is written and flushed.
    Done,
    /// A line of the formulas was refused, and the others are answered; or the formulas have more than 1 MiB. All text is
    /// written and flushed.
    Refused,
    /// The words are no command; the usage line is written and flushed.
    Usage,
    /// This is what is wrong with the first file that has a fault; its line is written and flushed. Nothing is read of
    /// the formulas.
    Model(ModelFault),
    /// The outside failed. A front of the text is written.
    Outside(Fault),
    /// Memory ran out. A front of the text is written.
    Memory,
}

impl Status {
    ghost use Rattle.session.specs.ExitCode.{exit_code_of};

    /// The exit status of the program.
    pub fn exit_code(self) -> u8
        ensures { result ≡ exit_code_of self }
    {
        match self {
            Status::Done => 0,
            Status::Refused => 1,
            Status::Usage => 2,
            Status::Model(_) => 3,
            Status::Outside(_) => 4,
            Status::Memory => 5,
        }
    }
}
