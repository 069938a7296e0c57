// Patterns of one hop.
ghost use Rattle.std.specs.Prelude.{◌≤◌, length, IfOk};
ghost use Rattle.gq_grammar.specs.Lexemes as lexemes;
ghost use Rattle.gq_grammar.specs.Parsers.{Found, both, maybe};
ghost use Rattle.gq_grammar.specs.Series.{ended};
ghost use Rattle.gq_parse_select.specs.Selects as spec;

use crate::patterns::{edge_alias, some_alias, some_types};
use crate::stages::beside;
use gq_expr_read::Read;
use gq_grammar::Source;
use gq_parse_common::need;
use gq_tree::{HopTree, TypesTree};
use gq_value::Txt;
use std::alloc::Global;

// `EdgesTree`: the edge types of a hop, and their alias. `TargetsTree`: those with the types to which they lead.
type EdgesTree = (Option<TypesTree>, Option<Txt>);

type TargetsTree = (EdgesTree, Option<TypesTree>);

// "-" "(" [ TypesTree ] [ ":" Name ] ")"
#[tactic(auto, unfolding(crate::specs::Selects::hop_edges_parser, gq_grammar::specs::Parsers::after))]
fn hop_edges(alloc: Global, source: &Source<'_>, at: usize) -> Read<EdgesTree>
    requires { at ≤ length source.now }
    ensures { IfOk result (Found spec.hop_edges_parser source.now at) }
{
    let at = need!(source.sign(at, "-"));
    let at = need!(source.sign(at, "("));
    let (types, at) = some_types(alloc, source, at)?;
    let (alias, at) = need!(edge_alias(alloc, source, at)?);
    Ok(Some(((types, alias), at)))
}

// .. "->"
#[tactic(auto, unfolding(gq_grammar::specs::Series::ended))]
fn hop_arrow(alloc: Global, source: &Source<'_>, at: usize) -> Read<EdgesTree>
    requires { at ≤ length source.now }
    ensures { IfOk result (Found (ended (lexemes.sign "->") spec.hop_edges_parser) source.now at) }
{
    let (edges, at) = need!(hop_edges(alloc, source, at)?);
    let at = need!(source.sign(at, "->"));
    Ok(Some((edges, at)))
}

// .. [ TypesTree ]
fn hop_targets(alloc: Global, source: &Source<'_>, at: usize) -> Read<TargetsTree>
    requires { at ≤ length source.now }
    ensures { IfOk result (Found (both (ended (lexemes.sign "->") spec.hop_edges_parser) (maybe spec.types_parser)) source.now at) }
{
    match hop_arrow(alloc, source, at)? {
        None => Ok(None),
        Some((edges, at)) => beside(edges, some_types(alloc, source, at)),
    }
}

// .. [ ":" Name ]
fn hop_parts(alloc: Global, source: &Source<'_>, at: usize) -> Read<(TargetsTree, Option<Txt>)>
    requires { at ≤ length source.now }
    ensures { IfOk result (Found (both (both (ended (lexemes.sign "->") spec.hop_edges_parser) (maybe spec.types_parser)) (maybe spec.alias_parser)) source.now at) }
{
    match hop_targets(alloc, source, at)? {
        None => Ok(None),
        Some((targets, at)) => beside(targets, some_alias(alloc, source, at)),
    }
}

/// `Hop = "-" "(" [ TypesTree ] [ ":" Name ] ")" "->" [ TypesTree ] [ ":" Name ]`.
#[tactic(auto, unfolding(crate::specs::Selects::hop_parser))]
pub fn hop(alloc: Global, source: &Source<'_>, at: usize) -> Read<HopTree>
    requires { at ≤ length source.now }
    ensures { IfOk result (Found spec.hop_parser source.now at) }
{
    let ((((edges, edge_alias), targets), target_alias), at) = need!(hop_parts(alloc, source, at)?);
    Ok(Some((
        HopTree {
            edges,
            edge_alias,
            targets,
            target_alias,
        },
        at,
    )))
}
