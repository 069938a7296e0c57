// The command of a command line.
ghost use Rattle.std.specs.Prelude.{◌≡◌};

use gq_base::OutOfMemory;
use gq_io::Shape;
use gq_value::Txt;
use thiserror::Error;

/// The command of a command line.
#[derive(Debug, Drop)]
pub struct Command {
    /// How the work of a block is divided: by default 4 workers, chunks of 1,024 and 16 stripes.
    pub shape: Shape,

    /// The limit on loop iterations in a query's run: 1 to 1,000,000,000, by default 1,000,000.
    pub turns: u64,

    pub task: Task,
}

/// The task to run.
#[derive(Debug, Drop)]
pub enum Task {
    /// The script in a file, and optionally a file of arguments for its queries.
    Script { path: Txt, arguments: Option<Txt> },

    /// The sample with this number of people, 1 to 1,000,000.
    Sample(u32),
}

/// Why a command line gives no command.
#[derive(Clone, Copy, Debug, PartialEq, Eq, Error)]
pub enum WordsFault {
    /// The command line is invalid.
    #[error("invalid command line")]
    Usage,

    #[error("out of memory")]
    OutOfMemory,
}

impl From<OutOfMemory> for WordsFault {
    ghost use Rattle.gq_command.specs.declared.command.WordsFault.TheVariants as fault;

    ghost from_gives = { λ _ e. e ≡ fault.OutOfMemory };

    fn from(_: OutOfMemory) -> Self {
        WordsFault::OutOfMemory
    }
}
