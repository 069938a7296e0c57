// The status of a run.
ghost use Rattle.std.specs.Prelude.{◌≡◌, Some, None, IfSome, IfNone};
ghost use Rattle.gq_diagnostics.specs.Codes.{code_of, message_of};

/// The status of a run.
#[derive(Clone, Copy, Debug, PartialEq, Eq)]
pub enum Status {
    /// The script was read to its end, and each statement ran.
    Done,

    /// The script was refused; the refusal is the last line written.
    Refused,

    /// The arguments aren't a valid use of the command.
    Usage,

    /// A file couldn't be read, which the files counted.
    ReadFault,

    /// The output couldn't be written, which the sink counted.
    WriteFault,

    /// Memory ran out.
    OutOfMemory,
}

impl Status {
    /// The exit code of the program: 0 to 5, in the order of the variants.
    pub fn code(self) -> u8
        ensures { result ≡ code_of self }
    {
        match self {
            Status::Done => 0,
            Status::Refused => 1,
            Status::Usage => 2,
            Status::ReadFault => 3,
            Status::WriteFault => 4,
            Status::OutOfMemory => 5,
        }
    }

    /// What is written to standard error if the reason isn't on standard output.
    pub fn message(self) -> Option<&'static str>
        ensures said { IfSome result (λ text. message_of self ≡ Some text.now) }
        ensures silent { IfNone result (message_of self ≡ None) }
    {
        match self {
            Status::Done | Status::Refused => None,
            Status::Usage => Some(
                "usage: gsql [--workers N] [--chunk N] [--stripes N] [--turns N] [--args FILE] SCRIPT\n       gsql [--workers N] [--chunk N] [--stripes N] [--turns N] --sample N",
            ),
            Status::ReadFault => Some("gsql: a file could not be read"),
            Status::WriteFault => Some("gsql: output could not be written"),
            Status::OutOfMemory => Some("gsql: out of memory"),
        }
    }
}
