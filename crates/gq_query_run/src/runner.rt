// The runner of queries.
ghost use Rattle.std.specs.Prelude.{◌<◌, IfOk, length, map, ℕ, Option};
ghost use Rattle.std.specs.Option.{ForSome};
ghost use Rattle.std.specs.Thread.{IsSync};
ghost use Rattle.gq_value.specs.Views.{val};
ghost use Rattle.gq_graph.specs.Catalog.{Schema};
ghost use Rattle.gq_rules_typing.specs.Statements.{Bytes, Query};
ghost use Rattle.gq_rules_typing.specs.StatementViews.{view_query};
ghost use Rattle.gq_rules_meaning.specs.Queries as meaning;
ghost use Rattle.gq_rules_calendar.specs.Gregorian.{gregorian};
ghost use Rattle.gq_query_run.specs.Indexed.{IsIndexed};
ghost use Rattle.gq_query_run.specs.Judging.{IsTyped};
ghost use Rattle.gq_query_run.specs.Runs.{Runs};
ghost use Rattle.gq_query_run.specs.Sessions.{graph_read};

use gq_base::{List, OutOfMemory};
use gq_index::{Index, Store};
use gq_io::Shape;
use gq_json::Printed;
use gq_schema::Catalog;
use gq_tree::QueryTree;
use gq_value::{Row, Wrong};
use std::alloc::Global;
use std::thread::Threads;
use thiserror::Error;

/// Why a query doesn't run to its end.
#[derive(Clone, Copy, Debug, PartialEq, Eq, Error)]
pub enum QueryFault {
    #[error("{0}")]
    Wrong(Wrong),

    /// The sum of the accumulator with this number, in order of declaration, doesn't fit its type.
    #[error("sum out of range")]
    SumRange(usize),

    /// No turn is left for another iteration of a loop's body.
    #[error("loop bound reached")]
    LoopBound,
    #[error("too many paths")]
    PathBound,

    /// The query's meaning is stuck. That of a typed query over arguments of its parameters' types never is.
    #[error("stuck")]
    Stuck,
    #[error("out of memory")]
    OutOfMemory,
}

/// The machine that runs the queries of a session, and its parameters.
#[derive(Drop)]
pub struct Runner<'r, M> {
    pub machine: &'r M,

    /// How the work of a block is divided. It doesn't affect any answer.
    pub shape: Shape,

    /// The number of loop iterations that a query may take.
    pub turns: u64,
}

/// A machine that runs checked queries.
pub trait RunsQueries {
    /// A query that is prepared for its runs.
    type Prepared: Drop;

    /// Whether it was prepared of a query, for the graph with this number in this catalog.
    ghost is_of: { Self.Prepared → Schema → Option ℕ → Query Bytes → Type 0 };

    /// Prepares a query for its runs, for the graph with this number, if it is typed for it.
    fn prepare(
        &self,
        alloc: Global,
        catalog: &Catalog,
        graph: Option<u32>,
        query: &QueryTree,
    ) -> Result<Self::Prepared, OutOfMemory>
        requires there { ForSome graph (λ g. g < length catalog.now.graphs) }
        requires typed { IsTyped catalog.now graph query.now }
        ensures { IfOk result (λ prepared. is_of prepared catalog.now graph (view_query query.now)) };

    /// Runs a prepared query over a store of the catalog that it was prepared for, with its index and a value for each
    /// parameter, with a limit on turns. The runtime's threads and the shape, which says how the work of its blocks is
    /// divided, don't affect any answer.
    fn run<R: Threads + Sync>(
        &self,
        rt: &R,
        alloc: Global,
        catalog: &Catalog,
        store: &Store,
        index: &Index,
        prepared: &Self::Prepared,
        arguments: &Row,
        shape: &Shape,
        turns: u64,
    ) -> Result<List<Printed>, QueryFault>
        requires sync { IsSync R.row }
        requires indexed { IsIndexed catalog.now store.now index.now }
        requires prepared { (graph : Option ℕ) × (query : Query Bytes) × is_of prepared.now catalog.now graph query }
        ensures { (graph : Option ℕ) (query : Query Bytes) → is_of prepared.now catalog.now graph query
            → Runs (meaning.run_query (graph_read catalog.now graph store.now) gregorian query (map val arguments.now) turns) result };
}
