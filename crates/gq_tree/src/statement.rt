// The trees of a script.
use crate::job::{JobTree, RunJobTree};
use crate::query::{Installed, QueryTree, RunTree};
use crate::schema::{EdgeTree, GraphTree, InsertTree, VertexTree};
use gq_value::Txt;

/// A statement of a script.
#[derive(Drop)]
pub enum Statement {
    Vertex(VertexTree),
    Edge(EdgeTree),
    Graph(GraphTree),
    Use(Txt),
    Job(JobTree),
    RunJob(RunJobTree),

    /// CREATE QUERY: whether it has OR REPLACE, the name, and the rest.
    Query(bool, Txt, QueryTree),
    Install(Installed),
    Run(RunTree),
    Interpret(QueryTree),
    Insert(InsertTree),
    Begin,
    End,
}

/// A statement, and the byte place of its first token.
#[derive(Drop)]
pub struct Placed {
    pub statement: Statement,
    pub from: usize,
}
