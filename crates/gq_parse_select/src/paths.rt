// Patterns of one to three steps.
ghost use Rattle.std.specs.Prelude.{◌≤◌, length, IfOk, Some};
ghost use Rattle.gq_grammar.specs.Selects.{forward_if, backward};
ghost use Rattle.gq_grammar.specs.Lexemes as lexemes;
ghost use Rattle.gq_grammar.specs.Parsers.{Found, token, both, made, maybe, many, one, after};
ghost use Rattle.gq_grammar.specs.Series.{chain};
ghost use Rattle.gq_parse_select.specs.Selects as spec;

use crate::patterns::{edge_alias, some_alias, types};
use crate::stages::{beside, chained, paired};
use gq_base::{List, OutOfMemory};
use gq_expr_read::Read;
use gq_grammar::Source;
use gq_parse_common::{first_of, name, need, run};
use gq_tree::{StepTree, TypesTree, Way};
use gq_value::Txt;
use std::alloc::Global;

// `EdgesTree`: the edge types of a step with their directions, and their alias. `TargetsTree`: those with the types to
// which they lead.
type EdgesTree = (List<(Way, Txt)>, Option<Txt>);

type TargetsTree = (EdgesTree, TypesTree);

// Name [ ">" ]
fn way_on(alloc: Global, source: &Source<'_>, at: usize) -> Read<(Way, Txt)>
    requires { at ≤ length source.now }
    ensures { IfOk result (Found (made forward_if (both (token lexemes.Name lexemes.spelling) (maybe (one (lexemes.sign ">"))))) source.now at) }
{
    let (name, next) = need!(name(alloc, source, at)?);
    match source.sign(next, ">") {
        Some(end) => Ok(Some(((Way::Forward, name), end))),
        None => Ok(Some(((Way::Both, name), next))),
    }
}

// "<" Name
#[tactic(auto, unfolding(gq_grammar::specs::Parsers::after))]
fn way_back(alloc: Global, source: &Source<'_>, at: usize) -> Read<(Way, Txt)>
    requires { at ≤ length source.now }
    ensures { IfOk result (Found (made backward (after (lexemes.sign "<") (token lexemes.Name lexemes.spelling))) source.now at) }
{
    let at = need!(source.sign(at, "<"));
    let (name, at) = need!(name(alloc, source, at)?);
    Ok(Some(((Way::Backward, name), at)))
}

// Dir = Name [ ">" ] | "<" Name
#[tactic(auto, unfolding(crate::specs::Selects::way_parser))]
fn way(alloc: Global, source: &Source<'_>, at: usize) -> Read<(Way, Txt)>
    requires { at ≤ length source.now }
    ensures { IfOk result (Found spec.way_parser source.now at) }
{
    first_of!(way_on(alloc, source, at)?, way_back(alloc, source, at)?)
}

// "|" Dir
#[tactic(auto, unfolding(gq_grammar::specs::Parsers::after))]
fn next_way(alloc: Global, source: &Source<'_>, at: usize) -> Read<(Way, Txt)>
    requires { at ≤ length source.now }
    ensures { IfOk result (Found (after (lexemes.sign "|") spec.way_parser) source.now at) }
{
    let at = need!(source.sign(at, "|"));
    way(alloc, source, at)
}

// { "|" Dir }
fn more_ways(
    alloc: Global,
    source: &Source<'_>,
    at: usize,
) -> Result<(Vec<(Way, Txt)>, usize), OutOfMemory>
    requires { at ≤ length source.now }
    ensures { IfOk result (λ read. Found (many (after (lexemes.sign "|") spec.way_parser)) source.now at (Some (read.0.items, read.1))) }
{
    run(alloc, source, at, next_way)
}

// Dir { "|" Dir }
#[tactic(auto, unfolding(gq_grammar::specs::Series::chain))]
fn ways(alloc: Global, source: &Source<'_>, at: usize) -> Read<List<(Way, Txt)>>
    requires { at ≤ length source.now }
    ensures { IfOk result (Found (chain (lexemes.sign "|") spec.way_parser) source.now at) }
{
    match way(alloc, source, at)? {
        None => Ok(None),
        Some((first, at)) => chained(first, more_ways(alloc, source, at)),
    }
}

// "-" "(" Dir { "|" Dir } [ ":" Name ] ")"
#[tactic(auto, unfolding(crate::specs::Selects::step_edges_parser, gq_grammar::specs::Parsers::after))]
fn step_edges(alloc: Global, source: &Source<'_>, at: usize) -> Read<EdgesTree>
    requires { at ≤ length source.now }
    ensures { IfOk result (Found spec.step_edges_parser source.now at) }
{
    let at = need!(source.sign(at, "-"));
    let at = need!(source.sign(at, "("));
    let (ways, at) = need!(ways(alloc, source, at)?);
    let (alias, at) = need!(edge_alias(alloc, source, at)?);
    Ok(Some(((ways, alias), at)))
}

// "-" TypesTree
#[tactic(auto, unfolding(gq_grammar::specs::Parsers::after))]
fn step_types(alloc: Global, source: &Source<'_>, at: usize) -> Read<TypesTree>
    requires { at ≤ length source.now }
    ensures { IfOk result (Found (after (lexemes.sign "-") spec.types_parser) source.now at) }
{
    let at = need!(source.sign(at, "-"));
    types(alloc, source, at)
}

// "-" "(" Dir { "|" Dir } [ ":" Name ] ")" "-" TypesTree
fn step_targets(alloc: Global, source: &Source<'_>, at: usize) -> Read<TargetsTree>
    requires { at ≤ length source.now }
    ensures { IfOk result (Found (both spec.step_edges_parser (after (lexemes.sign "-") spec.types_parser)) source.now at) }
{
    match step_edges(alloc, source, at)? {
        None => Ok(None),
        Some((edges, at)) => paired(edges, step_types(alloc, source, at)),
    }
}

// "-" "(" Dir { "|" Dir } [ ":" Name ] ")" "-" TypesTree [ ":" Name ]
fn step_parts(alloc: Global, source: &Source<'_>, at: usize) -> Read<(TargetsTree, Option<Txt>)>
    requires { at ≤ length source.now }
    ensures { IfOk result (Found (both (both spec.step_edges_parser (after (lexemes.sign "-") spec.types_parser)) (maybe spec.alias_parser)) source.now at) }
{
    match step_targets(alloc, source, at)? {
        None => Ok(None),
        Some((targets, at)) => beside(targets, some_alias(alloc, source, at)),
    }
}

// Step = "-" "(" Dir { "|" Dir } [ ":" Name ] ")" "-" TypesTree [ ":" Name ]
#[tactic(auto, unfolding(crate::specs::Selects::step_parser))]
fn step(alloc: Global, source: &Source<'_>, at: usize) -> Read<StepTree>
    requires { at ≤ length source.now }
    ensures { IfOk result (Found spec.step_parser source.now at) }
{
    let ((((ways, edge_alias), targets), target_alias), at) = need!(step_parts(alloc, source, at)?);
    Ok(Some((
        StepTree {
            ways,
            edge_alias,
            targets,
            target_alias,
        },
        at,
    )))
}

/// `Path = Step [ Step [ Step ] ]`.
#[tactic(auto, unfolding(crate::specs::Selects::path_parser))]
pub fn path(alloc: Global, source: &Source<'_>, at: usize) -> Read<List<StepTree>>
    requires { at ≤ length source.now }
    ensures { IfOk result (Found spec.path_parser source.now at) }
{
    let (first, at) = need!(step(alloc, source, at)?);
    let mut steps = List::new(alloc);
    steps.push(first)?;
    let (second, at) = need!(step(alloc, source, at)?, else Some((steps, at)));
    steps.push(second)?;
    let (third, at) = need!(step(alloc, source, at)?, else Some((steps, at)));
    steps.push(third)?;
    Ok(Some((steps, at)))
}
