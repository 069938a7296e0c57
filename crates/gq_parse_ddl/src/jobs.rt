// Loading jobs, and RUN LOADING JOB.
ghost use Rattle.std.specs.Prelude.{◌≤◌, length, IfOk, Some};
ghost use Rattle.gq_grammar.specs.Lexemes as lexemes;
ghost use Rattle.gq_grammar.specs.Parsers.{Found, many, maybe};
ghost use Rattle.gq_grammar.specs.Series.{chain, ended};
ghost use Rattle.gq_parse_ddl.specs.Jobs as spec;

use crate::loads::line;
use gq_base::{List, OutOfMemory};
use gq_expr_read::Read;
use gq_grammar::Source;
use gq_parse_common::{list, listed, name, need, of_graph, run, setting};
use gq_tree::{JobLine, JobTree, RunJobTree};
use gq_value::Txt;
use std::alloc::Global;

// Line ";"
#[tactic(auto, unfolding(gq_grammar::specs::Series::ended))]
fn ended_line(alloc: Global, source: &Source<'_>, at: usize) -> Read<JobLine>
    requires { at ≤ length source.now }
    ensures { IfOk result (Found (ended (lexemes.sign ";") spec.line_parser) source.now at) }
{
    let (line, at) = need!(line(alloc, source, at)?);
    let at = need!(source.sign(at, ";"));
    Ok(Some((line, at)))
}

// { Line ";" }
fn lines(
    alloc: Global,
    source: &Source<'_>,
    at: usize,
) -> Result<(List<JobLine>, usize), OutOfMemory>
    requires { at ≤ length source.now }
    ensures { IfOk result (λ read. Found (many (ended (lexemes.sign ";") spec.line_parser)) source.now at (Some read)) }
{
    let (lines, at) = run(alloc, source, at, ended_line)?;
    Ok((List::from_vec(lines), at))
}

// LOADING JOB Name
#[tactic(auto, unfolding(crate::specs::Jobs::job_name_parser, gq_grammar::specs::Parsers::after, gq_grammar::specs::Parsers::one, gq_grammar::specs::Parsers::token))]
fn job_name(alloc: Global, source: &Source<'_>, at: usize) -> Read<Txt>
    requires { at ≤ length source.now }
    ensures { IfOk result (Found spec.job_name_parser source.now at) }
{
    let at = need!(source.keyword(at, "LOADING"));
    let at = need!(source.keyword(at, "JOB"));
    name(alloc, source, at)
}

/// `LOADING JOB Name FOR GRAPH Name "{" { Line ";" } "}"`.
#[tactic(auto, unfolding(crate::specs::Jobs::job_parser, crate::specs::Jobs::job_lines_parser, gq_grammar::specs::Parsers::after, gq_grammar::specs::Series::ended))]
pub fn job(alloc: Global, source: &Source<'_>, at: usize) -> Read<JobTree>
    requires { at ≤ length source.now }
    ensures { IfOk result (Found spec.job_parser source.now at) }
{
    let (name, at) = need!(job_name(alloc, source, at)?);
    let at = need!(source.keyword(at, "FOR"));
    let (graph, at) = need!(of_graph(alloc, source, at)?);
    let at = need!(source.sign(at, "{"));
    let (lines, at) = lines(alloc, source, at)?;
    let at = need!(source.sign(at, "}"));
    Ok(Some((JobTree { name, graph, lines }, at)))
}

// Name "=" Text
#[tactic(auto, unfolding(crate::specs::Jobs::file_path_parser))]
fn file_path(alloc: Global, source: &Source<'_>, at: usize) -> Read<(Txt, Txt)>
    requires { at ≤ length source.now }
    ensures { IfOk result (Found spec.file_path_parser source.now at) }
{
    let (name, at) = need!(name(alloc, source, at)?);
    let (path, at) = need!(setting(alloc, source, at)?);
    Ok(Some(((name, path), at)))
}

// Name "=" Text { "," Name "=" Text }
fn path_list(alloc: Global, source: &Source<'_>, at: usize) -> Read<List<(Txt, Txt)>>
    requires { at ≤ length source.now }
    ensures { IfOk result (Found (chain (lexemes.sign ",") spec.file_path_parser) source.now at) }
{
    list(alloc, source, at, file_path)
}

// [ USING Name "=" Text { "," Name "=" Text } ]
#[tactic(auto, unfolding(crate::specs::Jobs::paths_parser, gq_grammar::specs::Parsers::after))]
fn paths(
    alloc: Global,
    source: &Source<'_>,
    at: usize,
) -> Result<(Option<List<(Txt, Txt)>>, usize), OutOfMemory>
    requires { at ≤ length source.now }
    ensures { IfOk result (λ read. Found (maybe spec.paths_parser) source.now at (Some read)) }
{
    let next = need!(source.keyword(at, "USING"), else (None, at));
    let (paths, end) = need!(path_list(alloc, source, next)?, else (None, at));
    Ok((Some(paths), end))
}

/// `LOADING JOB Name [ USING Name "=" Text { "," Name "=" Text } ]`.
#[tactic(auto, unfolding(crate::specs::Jobs::run_job_parser))]
pub fn run_job(alloc: Global, source: &Source<'_>, at: usize) -> Read<RunJobTree>
    requires { at ≤ length source.now }
    ensures { IfOk result (Found spec.run_job_parser source.now at) }
{
    let (name, at) = need!(job_name(alloc, source, at)?);
    let (paths, at) = paths(alloc, source, at)?;
    let paths = listed(alloc, paths);
    Ok(Some((RunJobTree { name, paths }, at)))
}
