// The optional parts of SELECT.
ghost use Rattle.std.specs.Prelude.{◌≤◌, length, IfOk, Some};
ghost use Rattle.gq_grammar.specs.Lexemes as lexemes;
ghost use Rattle.gq_grammar.specs.Parsers.{Found, maybe, after};
ghost use Rattle.gq_grammar.specs.Series.{chain};
ghost use Rattle.gq_parse_common.specs.Expression as part;
ghost use Rattle.gq_parse_select.specs.Acts.{acts_parser};
ghost use Rattle.gq_parse_select.specs.Selects as spec;

use crate::act::acts;
use crate::hops::hop;
use crate::paths::path;
use gq_base::{List, OutOfMemory};
use gq_expr_read::Read;
use gq_grammar::Source;
use gq_parse_common::{direction, expression, list, need};
use gq_tree::{ActTree, Node, PatternTree};
use std::alloc::Global;

// Hop | Path: a path is tried first
#[tactic(auto, unfolding(crate::specs::Selects::walk_parser))]
fn walk(alloc: Global, source: &Source<'_>, at: usize) -> Read<PatternTree>
    requires { at ≤ length source.now }
    ensures { IfOk result (Found spec.walk_parser source.now at) }
{
    match path(alloc, source, at)? {
        Some((steps, next)) => Ok(Some((PatternTree::Path(steps), next))),
        None => {
            let (hop, next) = need!(hop(alloc, source, at)?);
            Ok(Some((PatternTree::Hop(hop), next)))
        }
    }
}

/// `[ Hop | Path ]`.
pub fn some_walk(
    alloc: Global,
    source: &Source<'_>,
    at: usize,
) -> Result<(Option<PatternTree>, usize), OutOfMemory>
    requires { at ≤ length source.now }
    ensures { IfOk result (λ read. Found (maybe spec.walk_parser) source.now at (Some read)) }
{
    let (walk, end) = need!(walk(alloc, source, at)?, else (None, at));
    Ok((Some(walk), end))
}

// Reads a word and an expression.
#[tactic(auto, unfolding(gq_grammar::specs::Parsers::after))]
fn after_word(alloc: Global, source: &Source<'_>, at: usize, word: &str) -> Read<Node>
    requires { at ≤ length source.now }
    ensures { IfOk result (Found (after (lexemes.Keyword word.now) part.expression) source.now at) }
{
    let at = need!(source.keyword(at, word));
    expression(alloc, source, at)
}

/// `[ WHERE Expr ]`.
#[tactic(auto, unfolding(crate::specs::Selects::filter_parser))]
pub fn filter(
    alloc: Global,
    source: &Source<'_>,
    at: usize,
) -> Result<(Option<Node>, usize), OutOfMemory>
    requires { at ≤ length source.now }
    ensures { IfOk result (λ read. Found (maybe spec.filter_parser) source.now at (Some read)) }
{
    let (filter, end) = need!(after_word(alloc, source, at, "WHERE")?, else (None, at));
    Ok((Some(filter), end))
}

/// `[ HAVING Expr ]`.
#[tactic(auto, unfolding(crate::specs::Selects::having_parser))]
pub fn having(
    alloc: Global,
    source: &Source<'_>,
    at: usize,
) -> Result<(Option<Node>, usize), OutOfMemory>
    requires { at ≤ length source.now }
    ensures { IfOk result (λ read. Found (maybe spec.having_parser) source.now at (Some read)) }
{
    let (having, end) = need!(after_word(alloc, source, at, "HAVING")?, else (None, at));
    Ok((Some(having), end))
}

/// `[ LIMIT Expr ]`.
#[tactic(auto, unfolding(crate::specs::Selects::limit_parser))]
pub fn limit(
    alloc: Global,
    source: &Source<'_>,
    at: usize,
) -> Result<(Option<Node>, usize), OutOfMemory>
    requires { at ≤ length source.now }
    ensures { IfOk result (λ read. Found (maybe spec.limit_parser) source.now at (Some read)) }
{
    let (limit, end) = need!(after_word(alloc, source, at, "LIMIT")?, else (None, at));
    Ok((Some(limit), end))
}

// Reads a word and acts.
#[tactic(auto, unfolding(gq_grammar::specs::Parsers::after))]
fn acts_after(alloc: Global, source: &Source<'_>, at: usize, word: &str) -> Read<List<ActTree>>
    requires { at ≤ length source.now }
    ensures { IfOk result (Found (after (lexemes.Keyword word.now) acts_parser) source.now at) }
{
    let at = need!(source.keyword(at, word));
    acts(alloc, source, at)
}

/// `[ ACCUM Acts ]`.
#[tactic(auto, unfolding(crate::specs::Selects::accum_acts_parser))]
pub fn accum(
    alloc: Global,
    source: &Source<'_>,
    at: usize,
) -> Result<(Option<List<ActTree>>, usize), OutOfMemory>
    requires { at ≤ length source.now }
    ensures { IfOk result (λ read. Found (maybe spec.accum_acts_parser) source.now at (Some read)) }
{
    let (acts, end) = need!(acts_after(alloc, source, at, "ACCUM")?, else (None, at));
    Ok((Some(acts), end))
}

// POST "-" ACCUM Acts
#[tactic(auto, unfolding(gq_grammar::specs::Parsers::after))]
fn post_words(alloc: Global, source: &Source<'_>, at: usize) -> Read<List<ActTree>>
    requires { at ≤ length source.now }
    ensures { IfOk result (Found (after (lexemes.word "POST") (after (lexemes.sign "-") (after (lexemes.word "ACCUM") acts_parser))) source.now at) }
{
    let at = need!(source.keyword(at, "POST"));
    let at = need!(source.sign(at, "-"));
    acts_after(alloc, source, at, "ACCUM")
}

// Post Acts
#[tactic(auto, unfolding(crate::specs::Selects::post_acts_parser))]
fn post_acts(alloc: Global, source: &Source<'_>, at: usize) -> Read<List<ActTree>>
    requires { at ≤ length source.now }
    ensures { IfOk result (Found spec.post_acts_parser source.now at) }
{
    match post_words(alloc, source, at)? {
        Some(read) => Ok(Some(read)),
        None => acts_after(alloc, source, at, "POST_ACCUM"),
    }
}

/// `[ Post Acts ]`.
pub fn post(
    alloc: Global,
    source: &Source<'_>,
    at: usize,
) -> Result<(Option<List<ActTree>>, usize), OutOfMemory>
    requires { at ≤ length source.now }
    ensures { IfOk result (λ read. Found (maybe spec.post_acts_parser) source.now at (Some read)) }
{
    let (acts, end) = need!(post_acts(alloc, source, at)?, else (None, at));
    Ok((Some(acts), end))
}

// Expr [ ASC | DESC ]
#[tactic(auto, unfolding(crate::specs::Selects::order_value_parser))]
fn order_value(alloc: Global, source: &Source<'_>, at: usize) -> Read<(Node, bool)>
    requires { at ≤ length source.now }
    ensures { IfOk result (Found spec.order_value_parser source.now at) }
{
    let (value, at) = need!(expression(alloc, source, at)?);
    match direction(source, at) {
        Some((descends, end)) => Ok(Some(((value, descends), end))),
        None => Ok(Some(((value, false), at))),
    }
}

// Expr [ ASC | DESC ] { "," Expr [ ASC | DESC ] }
fn order_values(alloc: Global, source: &Source<'_>, at: usize) -> Read<List<(Node, bool)>>
    requires { at ≤ length source.now }
    ensures { IfOk result (Found (chain (lexemes.sign ",") spec.order_value_parser) source.now at) }
{
    list(alloc, source, at, order_value)
}

// ORDER BY Expr [ ASC | DESC ] { "," Expr [ ASC | DESC ] }
#[tactic(auto, unfolding(crate::specs::Selects::order_by_parser, gq_grammar::specs::Parsers::after))]
fn order_by(alloc: Global, source: &Source<'_>, at: usize) -> Read<List<(Node, bool)>>
    requires { at ≤ length source.now }
    ensures { IfOk result (Found spec.order_by_parser source.now at) }
{
    let at = need!(source.keyword(at, "ORDER"));
    let at = need!(source.keyword(at, "BY"));
    order_values(alloc, source, at)
}

/// `[ ORDER BY Expr [ ASC | DESC ] { "," Expr [ ASC | DESC ] } ]`.
pub fn order(
    alloc: Global,
    source: &Source<'_>,
    at: usize,
) -> Result<(Option<List<(Node, bool)>>, usize), OutOfMemory>
    requires { at ≤ length source.now }
    ensures { IfOk result (λ read. Found (maybe spec.order_by_parser) source.now at (Some read)) }
{
    let (order, end) = need!(order_by(alloc, source, at)?, else (None, at));
    Ok((Some(order), end))
}
