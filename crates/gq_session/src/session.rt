// The session, and the effect of each statement on it.
ghost use Rattle.std.specs.Prelude.{◌≡◌, ◌≤◌, ℕ, [], IfOk, IfErr, IfSome, IsSome, IsErrOf, Err, Result};
ghost use Rattle.gq_io.specs.Counts.{Rose};
ghost use Rattle.gq_diagnostics.specs.declared.refusal.Refusal.{Refusal};
ghost use Rattle.gq_diagnostics.specs.Answers.{Answers};
ghost use Rattle.gq_diagnostics.specs.Messages.{message_of};
ghost use Rattle.gq_diagnostics.specs.Effects.{Becomes, Refused, lines_of};
ghost use Rattle.gq_io.specs.Known.{known_of};
ghost use Rattle.gq_load.specs.Keeping.{no_rows as rows_of_none};
ghost use Rattle.gq_session.specs.Safe.{IsWritten};
ghost use Rattle.gq_session.specs.Statements.{Does, JobLeft, Leaves, Prints, RunsJob, State, edge_made, effect_of, graph_made, graph_used, install_made, job_made, opening, query_interpreted, query_made, query_ran, row_made, vertex_made};

use crate::file::ArgsFile;
use gq_base::OutOfMemory;
use gq_ddl::{Jobs, create_edge, create_graph, create_job, create_vertex};
use gq_diagnostics::{Refusal, StatementFault};
use gq_edge::Edges;
use gq_index::{KeptIndex, Store};
use gq_insert::insert_row;
use gq_io::Files;
use gq_load_run::run_job;
use gq_query_run::{
    Queries, Ready, Runner, RunsQueries, create_query, install_queries, interpret_query, run_query,
};
use gq_schema::Catalog;
use gq_tree::{
    EdgeTree, GraphTree, InsertTree, Installed, JobTree, QueryTree, RunJobTree, RunTree, Statement,
    VertexTree,
};
use gq_value::Txt;
use gq_vertex::Vertices;
use std::alloc::Global;
use std::marker::Model;
use std::thread::Threads;

/// The state between two statements of a script: the catalog, the graph in use, the loading jobs, the queries, whose
/// trees are borrowed from the script, and the store. The file of arguments and the runner of queries are borrowed too.
///
/// The store's index is kept between queries, and is updated with what was added since when a query is run. What is
/// prepared of a query when it is first run is kept until the catalog or a query changes.
#[derive(Drop)]
pub struct Session<'s, M: RunsQueries> {
    alloc: Global,
    catalog: Catalog,
    in_use: Option<u32>,
    jobs: Jobs,
    queries: Queries<'s>,
    ready: Ready<M::Prepared>,
    store: Store,
    index: KeptIndex,
    file: ArgsFile<'s>,
    runner: &'s Runner<'s, M>,
}

impl<'s, M: RunsQueries> Model for Session<'s, M> {
    ghost use Rattle.std.specs.Coded.{codes};
    ghost use Rattle.gq_value.specs.contracts.value.Value as value;
    ghost use Rattle.gq_value.specs.contracts.kind.BaseType as base;
    ghost use Rattle.gq_tree.specs.contracts.query.QueryTree as query;
    ghost use Rattle.gq_session.specs.Statements.{State};
    ghost use Rattle.gq_query_run.specs.Ready.{AreReady};
    ghost use Rattle.gq_session.specs.Keeping.{SessionFits};

    ghost Value = { State };

    ghost coded = { Prim.hlevel (codes, value.the_row.coded, base.the_row.coded, query.the_row.coded) };

    ghost view = { λ s. record { schema = s.catalog; in_use = s.in_use; jobs = s.jobs; queries = s.queries; store = s.store; file = s.file; turns = s.runner.now.turns } };

    ghost invariant = { λ s. record {
      fits : SessionFits (record { schema = s.catalog; in_use = s.in_use; jobs = s.jobs; queries = s.queries; store = s.store; file = s.file; turns = s.runner.now.turns }) s.index;
      ready : AreReady M.is_of s.catalog s.queries s.ready.plans;
    } };
}

impl<'s, M: RunsQueries> Session<'s, M> {
    /// Returns a session without types, graphs, jobs, queries and rows.
    pub fn new(alloc: Global, file: ArgsFile<'s>, runner: &'s Runner<'s, M>) -> Session<'s, M>
        ensures { result ≡ opening file.entry runner.now.turns }
    {
        Session {
            alloc,
            catalog: Catalog::new(alloc),
            in_use: None,
            jobs: Jobs::new(alloc),
            queries: Queries::new(alloc),
            ready: Ready::new(alloc),
            store: no_rows(alloc),
            index: KeptIndex::new(alloc),
            file,
            runner,
        }
    }

    /// Runs a statement, on threads of this runtime, and returns the line that it prints, if any.
    ///
    /// If it fails, the session is unchanged. Only RUN LOADING JOB leaves upserts in the store: those of the LOADs that
    /// ended, and of one that didn't those before the refused one, or some of them for `OutOfMemory`.
    pub fn run<R: Threads + Sync, F: Files>(
        &mut self,
        rt: &R,
        files: &mut F,
        statement: &'s Statement,
    ) -> Result<Option<Vec<u8>>, StatementFault>
        requires { IsWritten statement.now }
        // A statement that succeeds got bytes for each file that it asked for, so that no count is needed.
        ensures done { (before now met : ℕ) → IfOk result (λ line.
            Does (known_of (F.held files.old) before now met) self.old statement.now (Becomes self.new (lines_of line))) }
        ensures refused { (refusal : Refusal) → result ≡ Err (StatementFault.Refused refusal) → (before : ℕ) → before ≤ F.absences files.old
            → Does (known_of (F.held files.old) before (F.absences files.new) (F.length_met files.new)) self.old statement.now (Refused (message_of refusal)) }
        ensures left { (before : ℕ) → before ≤ F.absences files.old → IfErr result (λ fault.
            Leaves (known_of (F.held files.old) before (F.absences files.new) (F.length_met files.new)) self.old statement.now fault self.new) }
        ensures read_fault { IsErrOf result StatementFault.ReadFault → Rose (F.faults files.old) (F.faults files.new) }
        ensures held { F.held files.new ≡ F.held files.old }
        ensures faults_stay { F.faults files.old ≤ F.faults files.new }
        ensures absences_stay { F.absences files.old ≤ F.absences files.new }
    {
        match statement {
            Statement::Vertex(tree) => silent(self.make_vertex(tree)),
            Statement::Edge(tree) => silent(self.make_edge(tree)),
            Statement::Graph(tree) => silent(self.make_graph(tree)),
            Statement::Use(name) => silent(self.use_graph(name)),
            Statement::Job(tree) => silent(self.make_job(tree)),
            Statement::RunJob(tree) => self.run_job(files, tree),
            Statement::Query(replace, name, tree) => silent(self.make_query(*replace, name, tree)),
            Statement::Install(which) => silent(self.install(which)),
            Statement::Interpret(tree) => self.interpret(rt, tree),
            Statement::Insert(tree) => silent(self.insert(tree)),
            Statement::Begin | Statement::End => Ok(None),
            Statement::Run(tree) => self.run_query(rt, tree),
        }
    }

    fn make_vertex(&mut self, tree: &VertexTree) -> Result<(), StatementFault>
        ensures { Answers (vertex_made self.old tree.now) self.old self.new result }
    {
        self.ready.clear();
        create_vertex(self.alloc, &mut self.catalog, tree)
    }

    fn make_edge(&mut self, tree: &EdgeTree) -> Result<(), StatementFault>
        ensures { Answers (edge_made self.old tree.now) self.old self.new result }
    {
        self.ready.clear();
        create_edge(self.alloc, &mut self.catalog, tree)
    }

    fn make_graph(&mut self, tree: &GraphTree) -> Result<(), StatementFault>
        ensures { Answers (graph_made self.old tree.now) self.old self.new result }
    {
        self.ready.clear();
        match create_graph(&mut self.catalog, tree) {
            Ok(graph) => {
                self.in_use = Some(graph);
                Ok(())
            }
            Err(fault) => Err(fault),
        }
    }

    fn use_graph(&mut self, name: &Txt) -> Result<(), StatementFault>
        ensures { Answers (graph_used self.old name.now) self.old self.new result }
    {
        match self.catalog.graph(name.as_str()) {
            Some(graph) => {
                self.in_use = Some(graph);
                Ok(())
            }
            None => match Txt::of(self.alloc, name.as_str()) {
                Ok(name) => Err(StatementFault::Refused(Refusal::UnknownName(name))),
                Err(OutOfMemory) => Err(StatementFault::OutOfMemory),
            },
        }
    }

    fn make_job(&mut self, tree: &JobTree) -> Result<(), StatementFault>
        ensures { Answers (job_made self.old tree.now) self.old self.new result }
    {
        create_job(self.alloc, &self.catalog, &mut self.jobs, tree)
    }

    fn make_query(
        &mut self,
        replace: bool,
        name: &'s Txt,
        tree: &'s QueryTree,
    ) -> Result<(), StatementFault>
        ensures { Answers (query_made self.old replace name.now tree.now) self.old self.new result }
    {
        self.ready.clear();
        let (alloc, name) = (self.alloc, name.as_str());
        create_query(
            alloc,
            &self.catalog,
            self.in_use,
            &mut self.queries,
            replace,
            name,
            tree,
        )
    }

    fn install(&mut self, which: &Installed) -> Result<(), StatementFault>
        ensures { Answers (install_made self.old which.now) self.old self.new result }
    {
        self.ready.clear();
        install_queries(self.alloc, &mut self.queries, which)
    }

    fn run_query<R: Threads + Sync>(
        &mut self,
        rt: &R,
        tree: &RunTree,
    ) -> Result<Option<Vec<u8>>, StatementFault>
        ensures prints { Prints self.old (query_ran self.old tree.now) result }
        ensures same { self.new ≡ self.old }
    {
        let (alloc, catalog, store) = (self.alloc, &self.catalog, &self.store);
        match self.index.catch_up(alloc, catalog, store) {
            Ok(()) => {}
            Err(OutOfMemory) => return Err(StatementFault::OutOfMemory),
        }
        let file = self.file.given();
        with_line(run_query(
            rt,
            alloc,
            self.runner,
            catalog,
            store,
            self.index.index(),
            &self.queries,
            &mut self.ready,
            file,
            tree,
        ))
    }

    fn interpret<R: Threads + Sync>(
        &mut self,
        rt: &R,
        tree: &QueryTree,
    ) -> Result<Option<Vec<u8>>, StatementFault>
        requires { tree.now.parameters ≡ [] }
        ensures prints { Prints self.old (query_interpreted self.old tree.now) result }
        ensures same { self.new ≡ self.old }
    {
        match self.index.catch_up(self.alloc, &self.catalog, &self.store) {
            Ok(()) => {}
            Err(OutOfMemory) => return Err(StatementFault::OutOfMemory),
        }
        with_line(interpret_query(
            rt,
            self.alloc,
            self.runner,
            &self.catalog,
            &self.store,
            self.index.index(),
            self.in_use,
            tree,
        ))
    }

    fn insert(&mut self, tree: &InsertTree) -> Result<(), StatementFault>
        ensures { Answers (row_made self.old tree.now) self.old self.new result }
    {
        insert_row(self.alloc, &self.catalog, &mut self.store, tree)
    }

    fn run_job<F: Files>(
        &mut self,
        files: &mut F,
        tree: &RunJobTree,
    ) -> Result<Option<Vec<u8>>, StatementFault>
        ensures done { (before now met : ℕ) → IfOk result (λ line.
            RunsJob (known_of (F.held files.old) before now met) self.old tree.now (Becomes self.new (lines_of line))) }
        ensures refused { (refusal : Refusal) → result ≡ Err (StatementFault.Refused refusal) → (before : ℕ) → before ≤ F.absences files.old
            → RunsJob (known_of (F.held files.old) before (F.absences files.new) (F.length_met files.new)) self.old tree.now (Refused (message_of refusal)) }
        ensures left { (before : ℕ) → before ≤ F.absences files.old → IfErr result (λ fault.
            JobLeft (known_of (F.held files.old) before (F.absences files.new) (F.length_met files.new)) self.old tree.now fault self.new) }
        ensures read_fault { IsErrOf result StatementFault.ReadFault → Rose (F.faults files.old) (F.faults files.new) }
        ensures held { F.held files.new ≡ F.held files.old }
        ensures faults_stay { F.faults files.old ≤ F.faults files.new }
        ensures absences_stay { F.absences files.old ≤ F.absences files.new }
    {
        with_line(run_job(
            self.alloc,
            &self.catalog,
            &self.jobs,
            &mut self.store,
            files,
            tree,
        ))
    }
}

fn no_rows(alloc: Global) -> Store
    ensures { result ≡ rows_of_none }
{
    Store {
        vertices: Vertices::new(alloc),
        edges: Edges::new(alloc),
    }
}

// Returns the answer of a statement that prints nothing.
fn silent(answer: Result<(), StatementFault>) -> Result<Option<Vec<u8>>, StatementFault>
    ensures done { (old new : State) (meant : Result State Refusal) → Answers meant old new answer
        → IfOk result (λ line. Becomes new (lines_of line) ≡ effect_of meant) }
    ensures same { IfErr result (λ fault. answer ≡ Err fault) }
{
    match answer {
        Ok(()) => Ok(None),
        Err(fault) => Err(fault),
    }
}

// Returns the answer of a statement that prints a line.
fn with_line(answer: Result<Vec<u8>, StatementFault>) -> Result<Option<Vec<u8>>, StatementFault>
    ensures done { IfOk result (λ printed. IfSome printed (λ line. answer ≡ Ok line)) }
    ensures printed { IfOk result IsSome }
    ensures same { IfErr result (λ fault. answer ≡ Err fault) }
{
    match answer {
        Ok(line) => Ok(Some(line)),
        Err(fault) => Err(fault),
    }
}
