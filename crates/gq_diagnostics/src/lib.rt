//! Error messages, output lines and exit codes: why a statement is refused, and the status of a run.
//!
//! A refused statement prints one line with its message; each line goes to the sink once. The status of a run
//! determines the exit code and the text on standard error.
//!
//! Read `specs/Messages.antt` first: it has the text of every refusal. Then read `specs/Outcome.antt` (the output
//! and status of a run), `specs/Answers.antt` and `specs/Effects.antt` (the effect of a statement on a
//! state) and `specs/Codes.antt`. `src/refusal.rt` has the refusals, `src/refusing.rt` writes their lines,
//! `src/status.rt` has the status.
#![tactic(auto)]

mod refusal;
mod refusing;
mod status;

pub use refusal::{Refusal, StatementFault, placed};
pub use refusing::{refuse, refuse_file, refuse_statement};
pub use status::Status;
