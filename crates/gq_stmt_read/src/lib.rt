//! Parses whole scripts: cuts the tokens into statements, or reports where the first statement that can't be
//! read begins.
//!
//! A script is cut from the left, each statement being the longest prefix of the rest that is one. Types and
//! jobs are parsed by `gq_parse_ddl`, query bodies by `gq_parse_query`.
//!
//! Read `Scripts.antt` and `Cutting.antt` of `gq_grammar` first, then `specs/Outcomes.antt`: the statements of a
//! script, and why it isn't read. `specs/Statements.antt` and `specs/Queries.antt` define what each function
//! computes. The code begins in `src/script.rt`; `src/queries.rt`, `src/installs.rt` and `src/runs.rt` read
//! statements on queries.
#![tactic(auto)]

mod fault;
mod installs;
mod laws;
mod parameters;
mod queries;
mod query_laws;
mod runs;
mod script;
mod series;
mod statements;

pub use fault::ScriptFault;
pub use laws::{one_script, statements_are_exact};
pub use query_laws::queries_are_exact;
pub use script::read_script;
