// Graphs.
ghost use Rattle.std.specs.Prelude.{◌≤◌, length, IfOk, Some};
ghost use Rattle.gq_grammar.specs.Schema.{members_of};
ghost use Rattle.gq_grammar.specs.Parsers.{Found, made, maybe};
ghost use Rattle.gq_parse_ddl.specs.Schema as spec;

use gq_base::{List, OutOfMemory};
use gq_expr_read::Read;
use gq_grammar::Source;
use gq_parse_common::{name, names, need};
use gq_tree::{GraphTree, MembersTree};
use std::alloc::Global;

// [ "*" | Name { "," Name } ]
#[tactic(auto, unfolding(crate::specs::Schema::some_members_parser, gq_grammar::specs::Parsers::stands))]
fn members(
    alloc: Global,
    source: &Source<'_>,
    at: usize,
) -> Result<(MembersTree, usize), OutOfMemory>
    requires { at ≤ length source.now }
    ensures { IfOk result (λ read. Found (made members_of (maybe spec.some_members_parser)) source.now at (Some read)) }
{
    match source.sign(at, "*") {
        Some(next) => Ok((MembersTree::All, next)),
        None => match names(alloc, source, at)? {
            Some((types, next)) => Ok((MembersTree::Named(types), next)),
            None => Ok((MembersTree::Named(List::new(alloc)), at)),
        },
    }
}

/// `GRAPH Name "(" [ "*" | Name { "," Name } ] ")"`.
#[tactic(auto, unfolding(crate::specs::Schema::graph_parser, gq_grammar::specs::Parsers::after, gq_grammar::specs::Parsers::enclosed))]
pub fn graph(alloc: Global, source: &Source<'_>, at: usize) -> Read<GraphTree>
    requires { at ≤ length source.now }
    ensures { IfOk result (Found spec.graph_parser source.now at) }
{
    let at = need!(source.keyword(at, "GRAPH"));
    let (name, at) = need!(name(alloc, source, at)?);
    let at = need!(source.sign(at, "("));
    let (members, at) = members(alloc, source, at)?;
    let at = need!(source.sign(at, ")"));
    Ok(Some((GraphTree { name, members }, at)))
}
