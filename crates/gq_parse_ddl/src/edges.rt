// Edge types.
ghost use Rattle.std.specs.Prelude.{◌≤◌, length, IfOk, Some};
ghost use Rattle.gq_grammar.specs.Lexemes as lexemes;
ghost use Rattle.gq_grammar.specs.Parsers.{Found, maybe, after};
ghost use Rattle.gq_parse_ddl.specs.Schema as spec;

use crate::attributes::{attributes, plain_attributes};
use gq_base::{List, OutOfMemory};
use gq_expr_read::Read;
use gq_grammar::Source;
use gq_parse_common::{listed, name, need, setting};
use gq_tree::{AttributeKind, EdgeTree, EndsTree};
use gq_value::Txt;
use std::alloc::Global;

// [ "," DISCRIMINATOR "(" Name AttrType { "," Name AttrType } ")" ]
#[tactic(auto, unfolding(crate::specs::Schema::discriminators_parser, gq_grammar::specs::Parsers::after, gq_grammar::specs::Parsers::enclosed, gq_grammar::specs::Parsers::one, gq_grammar::specs::Parsers::token))]
fn discriminators(
    alloc: Global,
    source: &Source<'_>,
    at: usize,
) -> Result<(Option<List<(Txt, AttributeKind)>>, usize), OutOfMemory>
    requires { at ≤ length source.now }
    ensures { IfOk result (λ read. Found (maybe spec.discriminators_parser) source.now at (Some read)) }
{
    let next = need!(source.sign(at, ","), else (None, at));
    let next = need!(source.keyword(next, "DISCRIMINATOR"), else (None, at));
    let next = need!(source.sign(next, "("), else (None, at));
    let (attributes, next) = need!(plain_attributes(alloc, source, next)?, else (None, at));
    let end = need!(source.sign(next, ")"), else (None, at));
    Ok((Some(attributes), end))
}

// FROM Name "," TO Name
#[tactic(auto, unfolding(crate::specs::Schema::edge_ends_parser, gq_grammar::specs::Parsers::after))]
fn edge_ends(alloc: Global, source: &Source<'_>, at: usize) -> Read<(Txt, Txt)>
    requires { at ≤ length source.now }
    ensures { IfOk result (Found spec.edge_ends_parser source.now at) }
{
    let at = need!(source.keyword(at, "FROM"));
    let (from, at) = need!(name(alloc, source, at)?);
    let at = need!(source.sign(at, ","));
    let at = need!(source.keyword(at, "TO"));
    let (to, at) = need!(name(alloc, source, at)?);
    Ok(Some(((from, to), at)))
}

// Name "(" FROM Name "," TO Name [ "," DISCRIMINATOR "(" Name AttrType { "," Name AttrType } ")" ] { "," Attr } ")"
#[tactic(auto, unfolding(crate::specs::Schema::ends_parser, crate::specs::Schema::edge_columns_parser, crate::specs::Schema::last_attributes_parser, gq_grammar::specs::Parsers::after, gq_grammar::specs::Series::ended))]
fn ends(alloc: Global, source: &Source<'_>, at: usize) -> Read<EndsTree>
    requires { at ≤ length source.now }
    ensures { IfOk result (Found spec.ends_parser source.now at) }
{
    let (name, at) = need!(name(alloc, source, at)?);
    let at = need!(source.sign(at, "("));
    let ((from, to), at) = need!(edge_ends(alloc, source, at)?);
    let (discriminators, at) = discriminators(alloc, source, at)?;
    let (attributes, at) = attributes(alloc, source, at)?;
    let at = need!(source.sign(at, ")"));
    let discriminators = listed(alloc, discriminators);
    Ok(Some((
        EndsTree {
            name,
            from,
            to,
            discriminators,
            attributes,
        },
        at,
    )))
}

// This word, EDGE, and the ends.
#[tactic(auto, unfolding(gq_grammar::specs::Parsers::after))]
fn word_edge(alloc: Global, source: &Source<'_>, at: usize, word: &str) -> Read<EndsTree>
    requires { at ≤ length source.now }
    ensures { IfOk result (Found (after (lexemes.Keyword word.now) (after (lexemes.word "EDGE") spec.ends_parser)) source.now at) }
{
    let at = need!(source.keyword(at, word));
    let at = need!(source.keyword(at, "EDGE"));
    ends(alloc, source, at)
}

// [ WITH REVERSE_EDGE "=" Text ]
#[tactic(auto, unfolding(crate::specs::Schema::reverse_parser, gq_grammar::specs::Parsers::after, gq_grammar::specs::Parsers::one, gq_grammar::specs::Parsers::token))]
fn reverse(
    alloc: Global,
    source: &Source<'_>,
    at: usize,
) -> Result<(Option<Txt>, usize), OutOfMemory>
    requires { at ≤ length source.now }
    ensures { IfOk result (λ read. Found (maybe spec.reverse_parser) source.now at (Some read)) }
{
    let next = need!(source.keyword(at, "WITH"), else (None, at));
    let next = need!(source.keyword(next, "REVERSE_EDGE"), else (None, at));
    let (text, end) = need!(setting(alloc, source, next)?, else (None, at));
    Ok((Some(text), end))
}

/// `DIRECTED EDGE Ends [ WITH REVERSE_EDGE "=" Text ] | UNDIRECTED EDGE Ends`.
#[tactic(auto, unfolding(crate::specs::Schema::edge_parser))]
pub fn edge(alloc: Global, source: &Source<'_>, at: usize) -> Read<EdgeTree>
    requires { at ≤ length source.now }
    ensures { IfOk result (Found spec.edge_parser source.now at) }
{
    match word_edge(alloc, source, at, "DIRECTED")? {
        Some((ends, next)) => {
            let (reverse, end) = reverse(alloc, source, next)?;
            Ok(Some((EdgeTree::Directed(ends, reverse), end)))
        }
        None => {
            let (ends, end) = need!(word_edge(alloc, source, at, "UNDIRECTED")?);
            Ok(Some((EdgeTree::Undirected(ends), end)))
        }
    }
}
