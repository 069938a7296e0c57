// RUN QUERY.
ghost use Rattle.std.specs.Prelude.{◌≤◌, length, IfOk, Some};
ghost use Rattle.gq_grammar.specs.Parsers.{Found, maybe, enclosed, separated};
ghost use Rattle.gq_stmt_read.specs.Queries as spec;

use crate::series::series;
use gq_base::{List, OutOfMemory};
use gq_expr_read::Read;
use gq_grammar::Source;
use gq_parse_common::{literal, name, need, text};
use gq_tree::{Argument, RunTree};
use gq_value::Txt;
use std::alloc::Global;

// "(" Text "," Text ")"
#[tactic(auto, unfolding(crate::specs::Queries::vertex_argument_parser, gq_grammar::specs::Parsers::after, gq_grammar::specs::Parsers::enclosed))]
fn vertex_argument(alloc: Global, source: &Source<'_>, at: usize) -> Read<(Txt, Txt)>
    requires { at ≤ length source.now }
    ensures { IfOk result (Found spec.vertex_argument_parser source.now at) }
{
    let at = need!(source.sign(at, "("));
    let (id, at) = need!(text(alloc, source, at)?);
    let at = need!(source.sign(at, ","));
    let (kind, at) = need!(text(alloc, source, at)?);
    let at = need!(source.sign(at, ")"));
    Ok(Some(((id, kind), at)))
}

// Arg = Literal | "(" Text "," Text ")"
#[tactic(auto, unfolding(crate::specs::Queries::argument_parser))]
fn argument(alloc: Global, source: &Source<'_>, at: usize) -> Read<Argument>
    requires { at ≤ length source.now }
    ensures { IfOk result (Found spec.argument_parser source.now at) }
{
    match literal(alloc, source, at)? {
        Some((literal, next)) => Ok(Some((Argument::Literal(literal), next))),
        None => {
            let ((id, kind), next) = need!(vertex_argument(alloc, source, at)?);
            Ok(Some((Argument::Vertex(id, kind), next)))
        }
    }
}

// [ Arg { "," Arg } ]
fn argument_list(
    alloc: Global,
    source: &Source<'_>,
    at: usize,
) -> Result<(List<Argument>, usize), OutOfMemory>
    requires { at ≤ length source.now }
    ensures { IfOk result (λ read. Found (separated spec.argument_parser) source.now at (Some read)) }
{
    series(alloc, source, at, argument)
}

// [ "(" [ Arg { "," Arg } ] ")" ]
#[tactic(auto, unfolding(gq_grammar::specs::Parsers::enclosed))]
fn arguments(
    alloc: Global,
    source: &Source<'_>,
    at: usize,
) -> Result<(Option<List<Argument>>, usize), OutOfMemory>
    requires { at ≤ length source.now }
    ensures { IfOk result (λ read. Found (maybe (enclosed (separated spec.argument_parser))) source.now at (Some read)) }
{
    let next = need!(source.sign(at, "("), else (None, at));
    let (arguments, next) = argument_list(alloc, source, next)?;
    let end = need!(source.sign(next, ")"), else (None, at));
    Ok((Some(arguments), end))
}

/// `QUERY Name [ "(" [ Arg { "," Arg } ] ")" ]`, which follows RUN.
#[tactic(auto, unfolding(crate::specs::Queries::run_parser, gq_grammar::specs::Parsers::after))]
pub fn run_query(alloc: Global, source: &Source<'_>, at: usize) -> Read<RunTree>
    requires { at ≤ length source.now }
    ensures { IfOk result (Found spec.run_parser source.now at) }
{
    let at = need!(source.keyword(at, "QUERY"));
    let (name, at) = need!(name(alloc, source, at)?);
    let (arguments, at) = arguments(alloc, source, at)?;
    Ok(Some((RunTree { name, arguments }, at)))
}
