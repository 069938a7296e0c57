// CREATE QUERY, after its CREATE, and INTERPRET QUERY.
ghost use Rattle.std.specs.Prelude.{◌≤◌, length, IfOk, Some};
ghost use Rattle.gq_grammar.specs.Lexemes as lexemes;
ghost use Rattle.gq_grammar.specs.Parsers.{Found, many, maybe, after, enclosed, token};
ghost use Rattle.gq_stmt_read.specs.Queries as spec;

use crate::parameters::parameters;
use gq_base::{List, OutOfMemory};
use gq_expr_read::Read;
use gq_grammar::Source;
use gq_parse_common::{name, need, of_graph, run, text};
use gq_parse_query::body;
use gq_tree::{Body, Mode, QueryTree};
use gq_value::Txt;
use std::alloc::Global;

// What follows the parameters: the graph, the modes and the body.
type QueryRest = (Option<Txt>, (List<Mode>, Body));

// [ FOR GRAPH Name ]
#[tactic(auto, unfolding(crate::specs::Queries::for_graph_parser, gq_grammar::specs::Parsers::after))]
fn for_graph(
    alloc: Global,
    source: &Source<'_>,
    at: usize,
) -> Result<(Option<Txt>, usize), OutOfMemory>
    requires { at ≤ length source.now }
    ensures { IfOk result (λ read. Found (maybe spec.for_graph_parser) source.now at (Some read)) }
{
    let next = need!(source.keyword(at, "FOR"), else (None, at));
    let (graph, end) = need!(of_graph(alloc, source, next)?, else (None, at));
    Ok((Some(graph), end))
}

// API "(" Text ")"
#[tactic(auto, unfolding(gq_grammar::specs::Parsers::after, gq_grammar::specs::Parsers::enclosed))]
fn api(alloc: Global, source: &Source<'_>, at: usize) -> Read<Txt>
    requires { at ≤ length source.now }
    ensures { IfOk result (Found (after (lexemes.word "API") (enclosed (token lexemes.Text lexemes.said))) source.now at) }
{
    let at = need!(source.keyword(at, "API"));
    let at = need!(source.sign(at, "("));
    let (text, at) = need!(text(alloc, source, at)?);
    let at = need!(source.sign(at, ")"));
    Ok(Some((text, at)))
}

// Mode = API "(" Text ")" | SYNTAX Name
#[tactic(auto, unfolding(crate::specs::Queries::mode_parser, gq_grammar::specs::Parsers::after))]
fn mode(alloc: Global, source: &Source<'_>, at: usize) -> Read<Mode>
    requires { at ≤ length source.now }
    ensures { IfOk result (Found spec.mode_parser source.now at) }
{
    match api(alloc, source, at)? {
        Some((text, next)) => Ok(Some((Mode::Api(text), next))),
        None => {
            let next = need!(source.keyword(at, "SYNTAX"));
            let (name, end) = need!(name(alloc, source, next)?);
            Ok(Some((Mode::Syntax(name), end)))
        }
    }
}

// { Mode }
fn modes(alloc: Global, source: &Source<'_>, at: usize) -> Result<(List<Mode>, usize), OutOfMemory>
    requires { at ≤ length source.now }
    ensures { IfOk result (λ read. Found (many spec.mode_parser) source.now at (Some read)) }
{
    let (modes, at) = run(alloc, source, at, mode)?;
    Ok((List::from_vec(modes), at))
}

// [ FOR GRAPH Name ] { Mode } Body
#[tactic(auto, unfolding(crate::specs::Queries::query_rest_parser, crate::specs::Queries::modes_and_body_parser))]
fn query_rest(alloc: Global, source: &Source<'_>, at: usize) -> Read<QueryRest>
    requires { at ≤ length source.now }
    ensures { IfOk result (Found spec.query_rest_parser source.now at) }
{
    let (graph, at) = for_graph(alloc, source, at)?;
    let (modes, at) = modes(alloc, source, at)?;
    let (body, at) = need!(body(alloc, source, at)?);
    Ok(Some(((graph, (modes, body)), at)))
}

// "(" [ Param { "," Param } ] ")" [ FOR GRAPH Name ] { Mode } Body
#[tactic(auto, unfolding(crate::specs::Queries::query_parser, gq_grammar::specs::Parsers::enclosed))]
fn query(alloc: Global, source: &Source<'_>, at: usize) -> Read<QueryTree>
    requires { at ≤ length source.now }
    ensures { IfOk result (Found spec.query_parser source.now at) }
{
    let at = need!(source.sign(at, "("));
    let (parameters, at) = parameters(alloc, source, at)?;
    let at = need!(source.sign(at, ")"));
    let ((graph, (modes, body)), at) = need!(query_rest(alloc, source, at)?);
    Ok(Some((
        QueryTree {
            parameters,
            graph,
            modes,
            body,
        },
        at,
    )))
}

// [ OR REPLACE ], and whether it is there
#[tactic(auto, unfolding(crate::specs::Queries::replace_parser, gq_grammar::specs::Parsers::after))]
fn replace(source: &Source<'_>, at: usize) -> (Option<()>, usize)
    requires { at ≤ length source.now }
    ensures { Found (maybe spec.replace_parser) source.now at (Some result) }
{
    match source.keyword(at, "OR") {
        None => (None, at),
        Some(next) => match source.keyword(next, "REPLACE") {
            None => (None, at),
            Some(end) => (Some(()), end),
        },
    }
}

// [ OR REPLACE ] QUERY, and whether OR REPLACE is there
#[tactic(auto, unfolding(crate::specs::Queries::query_head_parser, gq_grammar::specs::Series::ended))]
fn query_head(source: &Source<'_>, at: usize) -> Option<(bool, usize)>
    requires { at ≤ length source.now }
    ensures { Found spec.query_head_parser source.now at result }
{
    let (replace, at) = replace(source, at);
    match source.keyword(at, "QUERY") {
        None => None,
        Some(next) => Some((replace.is_some(), next)),
    }
}

/// `[ OR REPLACE ] QUERY Name "(" [ Param { "," Param } ] ")" [ FOR GRAPH Name ] { Mode } Body`, which follows CREATE:
/// whether it has OR REPLACE, the name, and the rest.
#[tactic(auto, unfolding(crate::specs::Queries::created_query_parser))]
pub fn created_query(
    alloc: Global,
    source: &Source<'_>,
    at: usize,
) -> Read<(bool, (Txt, QueryTree))>
    requires { at ≤ length source.now }
    ensures { IfOk result (Found spec.created_query_parser source.now at) }
{
    let (replace, at) = need!(query_head(source, at));
    let (name, at) = need!(name(alloc, source, at)?);
    let (query, at) = need!(query(alloc, source, at)?);
    Ok(Some(((replace, (name, query)), at)))
}

/// `INTERPRET QUERY "(" ")" [ FOR GRAPH Name ] { Mode } Body`.
#[tactic(auto, unfolding(crate::specs::Queries::interpret_parser, gq_grammar::specs::Parsers::after))]
pub fn interpret(alloc: Global, source: &Source<'_>, at: usize) -> Read<QueryTree>
    requires { at ≤ length source.now }
    ensures { IfOk result (Found spec.interpret_parser source.now at) }
{
    let at = need!(source.keyword(at, "INTERPRET"));
    let at = need!(source.keyword(at, "QUERY"));
    let at = need!(source.sign(at, "("));
    let at = need!(source.sign(at, ")"));
    let ((graph, (modes, body)), at) = need!(query_rest(alloc, source, at)?);
    Ok(Some((
        QueryTree {
            parameters: List::new(alloc),
            graph,
            modes,
            body,
        },
        at,
    )))
}
