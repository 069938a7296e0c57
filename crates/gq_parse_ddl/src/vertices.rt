// Vertex types.
ghost use Rattle.std.specs.Prelude.{◌≤◌, length, IfOk, Some};
ghost use Rattle.gq_grammar.specs.Lexemes as lexemes;
ghost use Rattle.gq_grammar.specs.Parsers.{Found, maybe, after};
ghost use Rattle.gq_grammar.specs.Series.{chain};
ghost use Rattle.gq_parse_common.specs.Literals.{setting_parser};
ghost use Rattle.gq_parse_ddl.specs.Schema as spec;

use crate::attributes::attributes;
use gq_base::{List, OutOfMemory};
use gq_expr_read::Read;
use gq_grammar::Source;
use gq_graph::IdKind;
use gq_parse_common::{list, listed, name, need, of_words, setting};
use gq_tree::{VertexOption, VertexTree};
use gq_value::Txt;
use std::alloc::Global;

// STRING | INT | UINT
#[tactic(auto, unfolding(crate::specs::Schema::id_type_parser, gq_grammar::specs::Parsers::stands))]
fn id_type(source: &Source<'_>, at: usize) -> Option<(IdKind, usize)>
    requires { at ≤ length source.now }
    ensures { Found spec.id_type_parser source.now at result }
{
    of_words!(source, at; "STRING" => IdKind::Text, "INT" => IdKind::Int, "UINT" => IdKind::UInt)
}

// PRIMARY_ID Name IdType
#[tactic(auto, unfolding(crate::specs::Schema::id_parser, gq_grammar::specs::Parsers::after, gq_grammar::specs::Parsers::one, gq_grammar::specs::Parsers::token))]
fn id(alloc: Global, source: &Source<'_>, at: usize) -> Read<(Txt, IdKind)>
    requires { at ≤ length source.now }
    ensures { IfOk result (Found spec.id_parser source.now at) }
{
    let at = need!(source.keyword(at, "PRIMARY_ID"));
    let (name, at) = need!(name(alloc, source, at)?);
    let (kind, at) = need!(id_type(source, at));
    Ok(Some(((name, kind), at)))
}

// This word and "=" Text
#[tactic(auto, unfolding(gq_grammar::specs::Parsers::after))]
fn word_setting(alloc: Global, source: &Source<'_>, at: usize, word: &str) -> Read<Txt>
    requires { at ≤ length source.now }
    ensures { IfOk result (Found (after (lexemes.Keyword word.now) setting_parser) source.now at) }
{
    let at = need!(source.keyword(at, word));
    setting(alloc, source, at)
}

// VOpt = STATS "=" Text | PRIMARY_ID_AS_ATTRIBUTE "=" Text
#[tactic(auto, unfolding(crate::specs::Schema::option_parser, gq_grammar::specs::Parsers::after, gq_grammar::specs::Parsers::one, gq_grammar::specs::Parsers::token))]
fn option(alloc: Global, source: &Source<'_>, at: usize) -> Read<VertexOption>
    requires { at ≤ length source.now }
    ensures { IfOk result (Found spec.option_parser source.now at) }
{
    match word_setting(alloc, source, at, "STATS")? {
        Some((text, next)) => Ok(Some((VertexOption::Stats(text), next))),
        None => {
            let (text, next) = need!(word_setting(alloc, source, at, "PRIMARY_ID_AS_ATTRIBUTE")?);
            Ok(Some((VertexOption::IdAsAttribute(text), next)))
        }
    }
}

// VOpt { "," VOpt }
fn option_list(alloc: Global, source: &Source<'_>, at: usize) -> Read<List<VertexOption>>
    requires { at ≤ length source.now }
    ensures { IfOk result (Found (chain (lexemes.sign ",") spec.option_parser) source.now at) }
{
    list(alloc, source, at, option)
}

// [ WITH VOpt { "," VOpt } ]
#[tactic(auto, unfolding(crate::specs::Schema::options_parser, gq_grammar::specs::Parsers::after))]
fn options(
    alloc: Global,
    source: &Source<'_>,
    at: usize,
) -> Result<(Option<List<VertexOption>>, usize), OutOfMemory>
    requires { at ≤ length source.now }
    ensures { IfOk result (λ read. Found (maybe spec.options_parser) source.now at (Some read)) }
{
    let next = need!(source.keyword(at, "WITH"), else (None, at));
    let (options, end) = need!(option_list(alloc, source, next)?, else (None, at));
    Ok((Some(options), end))
}

/// `VERTEX Name "(" PRIMARY_ID Name IdType { "," Attr } ")" [ WITH VOpt { "," VOpt } ]`.
#[tactic(auto, unfolding(crate::specs::Schema::vertex_parser, crate::specs::Schema::vertex_shape_parser, gq_grammar::specs::Parsers::after, gq_grammar::specs::Parsers::enclosed))]
pub fn vertex(alloc: Global, source: &Source<'_>, at: usize) -> Read<VertexTree>
    requires { at ≤ length source.now }
    ensures { IfOk result (Found spec.vertex_parser source.now at) }
{
    let at = need!(source.keyword(at, "VERTEX"));
    let (name, at) = need!(name(alloc, source, at)?);
    let at = need!(source.sign(at, "("));
    let ((id, id_kind), at) = need!(id(alloc, source, at)?);
    let (attributes, at) = attributes(alloc, source, at)?;
    let at = need!(source.sign(at, ")"));
    let (options, at) = options(alloc, source, at)?;
    let options = listed(alloc, options);
    Ok(Some((
        VertexTree {
            name,
            id,
            id_kind,
            attributes,
            options,
        },
        at,
    )))
}
