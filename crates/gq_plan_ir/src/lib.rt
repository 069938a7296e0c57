//! The intermediate representation of plans: queries whose names are resolved to numbers.
//!
//! A plan has the form of a query's tree, with a reference in the place of each name, so the definitions of
//! `gq_rules_meaning` give its meaning too. It also stores what execution would otherwise look up, such as the position
//! of a field.
//!
//! Read `specs/Reference.antt` and `specs/References.antt` first (references and what they denote).
//! `specs/ExprView.antt`, `specs/BlockView.antt` and `specs/PlanView.antt` map plans to plain data.
//! `specs/StandsFor.antt` and `specs/Plans.antt` define when a plan represents a query. The types are in
//! `src/expr.rt`, `src/block.rt`, `src/step.rt` and `src/plan.rt`.
#![tactic(auto)]

mod block;
mod expr;
mod laws;
mod plan;
mod step;

pub use block::{Act, Block, Change, Feed, Hop, PathStep, SelectSource, Types, Walk};
pub use expr::{Behind, Expr, Field, FieldPlaces, Function, Method};
pub use laws::references_mean_what_names_do;
pub use plan::{Accum, Declared, Definition, Parameter, Plan};
pub use step::{Over, PrintItem, Right, Seed, SetTerm, SetTypes, Sets, Step};
