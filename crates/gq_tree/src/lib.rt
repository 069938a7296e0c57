//! The syntax trees of scripts.
//!
//! A tree has one variant for each production of the grammar in `gq_grammar`. Parentheses and separators
//! aren't kept, and a chain with a single operand is that operand.
//!
//! Read `specs/Tree.antt` first: expressions as plain data, with the representation of names as a parameter,
//! so that queries and plans share it. `specs/View.antt` maps the code's trees to that data. `src/expr.rt`
//! has expressions, `src/select.rt` SELECT, `src/body.rt` the statements of a query and `src/statement.rt`
//! those of a script; `src/copy.rt` copies trees.
#![tactic(auto)]

mod body;
mod copy;
mod expr;
mod job;
mod kind;
mod number;
mod query;
mod schema;
mod select;
mod statement;

pub use body::{
    Body, ItemTree, Label, OverTree, RightTree, SeedTree, SetOp, SetTermTree, SetTypesTree,
    SetsTree, Stmt,
};
pub use expr::{AddSign, CmpSign, MulSign, Node, Part};
pub use job::{
    Column, Destination, FileTree, JobLine, JobTree, LoadOption, LoadTree, RunJobTree, Table,
};
pub use kind::{AccumTree, Bits, DefinitionTree, Elem, EntryTree, KindTree, Plain};
pub use number::signed;
pub use query::{Argument, BaseTree, Installed, Mode, ParameterTree, QueryTree, RunTree};
pub use schema::{
    AttributeKind, AttributeTree, EdgeTree, EndsTree, GraphTree, InsertTree, Literal, MembersTree,
    VertexOption, VertexTree,
};
pub use select::{
    ActTree, ChangeTree, HopTree, InputTree, PatternTree, SelectTree, StepTree, TypesTree, Way,
};
pub use statement::{Placed, Statement};
