// The operand of FOREACH, and the LIMIT of WHILE.
ghost use Rattle.std.specs.Prelude.{◌≤◌, length, IfOk, Some};
ghost use Rattle.gq_grammar.specs.Lexemes as lexemes;
ghost use Rattle.gq_grammar.specs.Parsers.{Found, after, both, maybe};
ghost use Rattle.gq_parse_common.specs.Expression as part;
ghost use Rattle.gq_parse_select.specs.Bodies as spec;

use gq_base::OutOfMemory;
use gq_expr_read::Read;
use gq_grammar::Source;
use gq_parse_common::{expression, need};
use gq_parse_select::beside;
use gq_tree::{Node, OverTree};
use std::alloc::Global;

// LIMIT Expr
#[tactic(auto, unfolding(gq_parse_select::specs::Bodies::limit_parser, gq_grammar::specs::Parsers::after))]
fn limit(alloc: Global, source: &Source<'_>, at: usize) -> Read<Node>
    requires { at ≤ length source.now }
    ensures { IfOk result (Found spec.limit_parser source.now at) }
{
    let at = need!(source.keyword(at, "LIMIT"));
    expression(alloc, source, at)
}

// [ LIMIT Expr ]
fn some_limit(
    alloc: Global,
    source: &Source<'_>,
    at: usize,
) -> Result<(Option<Node>, usize), OutOfMemory>
    requires { at ≤ length source.now }
    ensures { IfOk result (λ read. Found (maybe spec.limit_parser) source.now at (Some read)) }
{
    let (limit, end) = need!(limit(alloc, source, at)?, else (None, at));
    Ok((Some(limit), end))
}

// Expr [ LIMIT Expr ]
fn condition(alloc: Global, source: &Source<'_>, at: usize) -> Read<(Node, Option<Node>)>
    requires { at ≤ length source.now }
    ensures { IfOk result (Found (both part.expression (maybe spec.limit_parser)) source.now at) }
{
    match expression(alloc, source, at)? {
        None => Ok(None),
        Some((condition, at)) => beside(condition, some_limit(alloc, source, at)),
    }
}

/// `WHILE Expr [ LIMIT Expr ]`.
#[tactic(auto, unfolding(gq_grammar::specs::Parsers::after))]
pub fn while_head(alloc: Global, source: &Source<'_>, at: usize) -> Read<(Node, Option<Node>)>
    requires { at ≤ length source.now }
    ensures { IfOk result (Found (after (lexemes.word "WHILE") (both part.expression (maybe spec.limit_parser))) source.now at) }
{
    let at = need!(source.keyword(at, "WHILE"));
    condition(alloc, source, at)
}

// RANGE "[" Expr "," Expr "]"
#[tactic(auto, unfolding(gq_parse_select::specs::Bodies::range_parser, gq_grammar::specs::Parsers::after, gq_grammar::specs::Series::ended))]
fn range(alloc: Global, source: &Source<'_>, at: usize) -> Read<OverTree>
    requires { at ≤ length source.now }
    ensures { IfOk result (Found spec.range_parser source.now at) }
{
    let at = need!(source.keyword(at, "RANGE"));
    let at = need!(source.sign(at, "["));
    let (first, at) = need!(expression(alloc, source, at)?);
    let at = need!(source.sign(at, ","));
    let (last, at) = need!(expression(alloc, source, at)?);
    let at = need!(source.sign(at, "]"));
    Ok(Some((OverTree::Range(first, last), at)))
}

// Expr | RANGE "[" Expr "," Expr "]"
#[tactic(auto, unfolding(gq_parse_select::specs::Bodies::over_parser))]
fn over(alloc: Global, source: &Source<'_>, at: usize) -> Read<OverTree>
    requires { at ≤ length source.now }
    ensures { IfOk result (Found spec.over_parser source.now at) }
{
    match expression(alloc, source, at)? {
        Some((elements, next)) => Ok(Some((OverTree::Elements(elements), next))),
        None => range(alloc, source, at),
    }
}

/// `IN ( Expr | RANGE "[" Expr "," Expr "]" )`.
#[tactic(auto, unfolding(gq_grammar::specs::Parsers::after))]
pub fn in_over(alloc: Global, source: &Source<'_>, at: usize) -> Read<OverTree>
    requires { at ≤ length source.now }
    ensures { IfOk result (Found (after (lexemes.word "IN") spec.over_parser) source.now at) }
{
    let at = need!(source.keyword(at, "IN"));
    over(alloc, source, at)
}
