// CREATE LOADING JOB.
ghost use Rattle.std.specs.Prelude.{◌≡◌, ◌<◌, Some, OnErr, false, length};
ghost use Rattle.gq_diagnostics.specs.Answers.{Answers};
ghost use Rattle.gq_ddl.specs.Fitting.{JobsFit};
ghost use Rattle.gq_ddl.specs.Jobs.{has_job, job_created, job_for};
ghost use Rattle.gq_ddl.specs.Tells.{Tells};

use crate::job_fault::statement_fault;
use crate::named::{Jobs, NamedJob};
use gq_base::OutOfMemory;
use gq_diagnostics::{Refusal, StatementFault};
use gq_load_check::check_job;
use gq_schema::Catalog;
use gq_tree::JobTree;
use gq_value::Txt;
use std::alloc::Global;

/// Executes CREATE LOADING JOB. The jobs gain the one of the tree, or are unchanged.
///
/// Refused if a job of the name exists, or else if its graph doesn't, or else by the first rule that the job fails.
pub fn create_job(
    alloc: Global,
    catalog: &Catalog,
    jobs: &mut Jobs,
    tree: &JobTree,
) -> Result<(), StatementFault>
    ensures created { Answers (job_created catalog.now jobs.old tree.now) jobs.old jobs.new result }
    // Jobs that are valid for the catalog stay so, and the new one is valid too.
    ensures fit { JobsFit catalog.now jobs.old → JobsFit catalog.now jobs.new }
{
    if jobs.has(tree.name.as_str()) {
        return Err(name_taken(alloc, tree.name.as_str()));
    }
    match catalog.graph(tree.graph.as_str()) {
        Some(graph) => add_job(alloc, catalog, graph, jobs, tree),
        None => Err(unknown_graph(alloc, tree.graph.as_str())),
    }
}

fn add_job(
    alloc: Global,
    catalog: &Catalog,
    graph: u32,
    jobs: &mut Jobs,
    tree: &JobTree,
) -> Result<(), StatementFault>
    requires graph { graph < length catalog.now.graphs }
    requires new { has_job jobs.old tree.now.name ≡ false }
    ensures created { Answers (job_for catalog.now jobs.old tree.now (Some graph)) jobs.old jobs.new result }
    ensures fit { JobsFit catalog.now jobs.old → JobsFit catalog.now jobs.new }
{
    let job = match check_job(alloc, catalog, graph, tree) {
        Ok(job) => job,
        Err(fault) => return Err(statement_fault(fault)),
    };
    let name = match Txt::of(alloc, tree.name.as_str()) {
        Ok(name) => name,
        Err(OutOfMemory) => return Err(StatementFault::OutOfMemory),
    };
    match jobs.push(alloc, NamedJob { name, job }) {
        Ok(()) => Ok(()),
        Err(OutOfMemory) => Err(StatementFault::OutOfMemory),
    }
}

// A job of the name exists, or memory for the name ran out.
fn name_taken(alloc: Global, name: &str) -> StatementFault
    ensures { Tells (Refusal.NameTaken name.now) result }
{
    match Txt::of(alloc, name) {
        Ok(name) => StatementFault::Refused(Refusal::NameTaken(name)),
        Err(OutOfMemory) => StatementFault::OutOfMemory,
    }
}

// No graph has the name, or memory for the name ran out.
fn unknown_graph(alloc: Global, name: &str) -> StatementFault
    ensures { Tells (Refusal.UnknownName name.now) result }
{
    match Txt::of(alloc, name) {
        Ok(name) => StatementFault::Refused(Refusal::UnknownName(name)),
        Err(OutOfMemory) => StatementFault::OutOfMemory,
    }
}
