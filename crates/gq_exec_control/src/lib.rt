//! The context of the statements of a run: graph and plan, the live data, and why a run ends.
//!
//! Conditions, LIMIT of WHILE, the iterations of FOREACH, and the declaration of local variables are here too. The
//! loops over statements are in `gq_flow`.
//!
//! Read `specs/Standing.antt` first: when a run corresponds to one of the definitions. Then read
//! `specs/Contexts.antt` and `specs/Changes.antt` (the graph and plan that statements see, and their effects),
//! `specs/Rounds.antt` (loop bounds) and `specs/Locals.antt`. The code begins in `src/run_context.rt`, which has the graph
//! and plan; `src/running.rt` has a run, `src/over.rt` what FOREACH iterates over.
#![tactic(auto)]

mod conditions;
mod elements;
mod faults;
mod limits;
mod locals;
mod over;
mod places;
mod range;
mod run_context;
mod running;
mod value;

pub use conditions::truth;
pub use faults::{block_fault, or_fault, run_fault};
pub use limits::limit;
pub use locals::declare;
pub use over::rounds;
pub use places::variable_in_view;
pub use run_context::RunContext;
pub use running::{Rounds, RunFault, Running};
pub use value::value_as;
