// One statement.
ghost use Rattle.std.specs.Prelude.{◌≤◌, length, IfOk};
ghost use Rattle.gq_grammar.specs.Lexemes as lexemes;
ghost use Rattle.gq_grammar.specs.Parsers.{Found, after};
ghost use Rattle.gq_stmt_read.specs.Statements as spec;

use crate::installs::install;
use crate::queries::{created_query, interpret};
use crate::runs::run_query;
use gq_expr_read::Read;
use gq_grammar::Source;
use gq_parse_common::{need, of_graph};
use gq_parse_ddl::{edge, graph, insert, job, run_job, vertex};
use gq_tree::Statement;
use std::alloc::Global;

// VERTEX .. | DIRECTED EDGE .. | UNDIRECTED EDGE .. | GRAPH .. | LOADING JOB ..
#[tactic(auto, unfolding(crate::specs::Statements::declared_parser))]
fn declared(alloc: Global, source: &Source<'_>, at: usize) -> Read<Statement>
    requires { at ≤ length source.now }
    ensures { IfOk result (Found spec.declared_parser source.now at) }
{
    match vertex(alloc, source, at)? {
        Some((tree, next)) => return Ok(Some((Statement::Vertex(tree), next))),
        None => {}
    }
    match edge(alloc, source, at)? {
        Some((tree, next)) => return Ok(Some((Statement::Edge(tree), next))),
        None => {}
    }
    match graph(alloc, source, at)? {
        Some((tree, next)) => return Ok(Some((Statement::Graph(tree), next))),
        None => {}
    }
    let (tree, next) = need!(job(alloc, source, at)?);
    Ok(Some((Statement::Job(tree), next)))
}

// What follows CREATE.
#[tactic(auto, unfolding(crate::specs::Statements::created_parser))]
fn created(alloc: Global, source: &Source<'_>, at: usize) -> Read<Statement>
    requires { at ≤ length source.now }
    ensures { IfOk result (Found spec.created_parser source.now at) }
{
    match declared(alloc, source, at)? {
        Some(read) => Ok(Some(read)),
        None => {
            let ((replace, (name, query)), next) = need!(created_query(alloc, source, at)?);
            Ok(Some((Statement::Query(replace, name, query), next)))
        }
    }
}

// CREATE and what follows it
#[tactic(auto, unfolding(gq_grammar::specs::Parsers::after))]
fn create(alloc: Global, source: &Source<'_>, at: usize) -> Read<Statement>
    requires { at ≤ length source.now }
    ensures { IfOk result (Found (after (lexemes.word "CREATE") spec.created_parser) source.now at) }
{
    let at = need!(source.keyword(at, "CREATE"));
    created(alloc, source, at)
}

// USE GRAPH Name
#[tactic(auto, unfolding(crate::specs::Statements::use_parser, gq_grammar::specs::Parsers::after))]
fn use_graph(alloc: Global, source: &Source<'_>, at: usize) -> Read<Statement>
    requires { at ≤ length source.now }
    ensures { IfOk result (Found spec.use_parser source.now at) }
{
    let at = need!(source.keyword(at, "USE"));
    let (name, at) = need!(of_graph(alloc, source, at)?);
    Ok(Some((Statement::Use(name), at)))
}

// What follows RUN.
#[tactic(auto, unfolding(crate::specs::Statements::run_statement_parser))]
fn ran(alloc: Global, source: &Source<'_>, at: usize) -> Read<Statement>
    requires { at ≤ length source.now }
    ensures { IfOk result (Found spec.run_statement_parser source.now at) }
{
    match run_job(alloc, source, at)? {
        Some((tree, next)) => Ok(Some((Statement::RunJob(tree), next))),
        None => {
            let (tree, next) = need!(run_query(alloc, source, at)?);
            Ok(Some((Statement::Run(tree), next)))
        }
    }
}

// RUN and what follows it
#[tactic(auto, unfolding(gq_grammar::specs::Parsers::after))]
fn run(alloc: Global, source: &Source<'_>, at: usize) -> Read<Statement>
    requires { at ≤ length source.now }
    ensures { IfOk result (Found (after (lexemes.word "RUN") spec.run_statement_parser) source.now at) }
{
    let at = need!(source.keyword(at, "RUN"));
    ran(alloc, source, at)
}

// CREATE .. | USE .. | RUN .. | INSTALL ..
#[tactic(auto, unfolding(crate::specs::Statements::plain_parser))]
fn plain(alloc: Global, source: &Source<'_>, at: usize) -> Read<Statement>
    requires { at ≤ length source.now }
    ensures { IfOk result (Found spec.plain_parser source.now at) }
{
    match create(alloc, source, at)? {
        Some(read) => return Ok(Some(read)),
        None => {}
    }
    match use_graph(alloc, source, at)? {
        Some(read) => return Ok(Some(read)),
        None => {}
    }
    match run(alloc, source, at)? {
        Some(read) => return Ok(Some(read)),
        None => {}
    }
    let (tree, next) = need!(install(alloc, source, at)?);
    Ok(Some((Statement::Install(tree), next)))
}

/// Reads the longest statement from `at` on, and returns the place after it.
///
/// Each level of a body uses some stack frames.
#[tactic(auto, unfolding(crate::specs::Statements::statement_parser, gq_grammar::specs::Parsers::stands))]
pub fn statement(alloc: Global, source: &Source<'_>, at: usize) -> Read<Statement>
    requires { at ≤ length source.now }
    ensures { IfOk result (Found spec.statement_parser source.now at) }
{
    match plain(alloc, source, at)? {
        Some(read) => return Ok(Some(read)),
        None => {}
    }
    match interpret(alloc, source, at)? {
        Some((tree, next)) => return Ok(Some((Statement::Interpret(tree), next))),
        None => {}
    }
    match insert(alloc, source, at)? {
        Some((tree, next)) => return Ok(Some((Statement::Insert(tree), next))),
        None => {}
    }
    match source.keyword(at, "BEGIN") {
        Some(next) => return Ok(Some((Statement::Begin, next))),
        None => {}
    }
    let next = need!(source.keyword(at, "END"));
    Ok(Some((Statement::End, next)))
}
