// Attributes of vertex types and edge types.
ghost use Rattle.std.specs.Prelude.{◌≤◌, length, IfOk, Some};
ghost use Rattle.gq_grammar.specs.Lexemes as lexemes;
ghost use Rattle.gq_grammar.specs.Parsers.{Found, maybe, after};
ghost use Rattle.gq_grammar.specs.Series.{chain};
ghost use Rattle.gq_parse_common.specs.Literals.{literal_parser};
ghost use Rattle.gq_parse_ddl.specs.Schema as spec;

use gq_base::{List, OutOfMemory};
use gq_expr_read::Read;
use gq_grammar::Source;
use gq_parse_common::{list, literal, name, need, of_words, run};
use gq_tree::{AttributeKind, AttributeTree, Literal};
use gq_value::Txt;
use std::alloc::Global;

// INT | UINT | BOOL | STRING
#[tactic(auto, unfolding(crate::specs::Schema::attribute_type_parser, gq_grammar::specs::Parsers::stands))]
fn attribute_type(source: &Source<'_>, at: usize) -> Option<(AttributeKind, usize)>
    requires { at ≤ length source.now }
    ensures { Found spec.attribute_type_parser source.now at result }
{
    of_words!(source, at;
        "INT" => AttributeKind::Int,
        "UINT" => AttributeKind::UInt,
        "BOOL" => AttributeKind::Bool,
        "STRING" => AttributeKind::Text,
    )
}

// [ DEFAULT Literal ]
#[tactic(auto, unfolding(gq_grammar::specs::Parsers::after, gq_grammar::specs::Parsers::one, gq_grammar::specs::Parsers::token))]
fn default(
    alloc: Global,
    source: &Source<'_>,
    at: usize,
) -> Result<(Option<Literal>, usize), OutOfMemory>
    requires { at ≤ length source.now }
    ensures { IfOk result (λ read. Found (maybe (after (lexemes.word "DEFAULT") literal_parser)) source.now at (Some read)) }
{
    let next = need!(source.keyword(at, "DEFAULT"), else (None, at));
    let (literal, end) = need!(literal(alloc, source, next)?, else (None, at));
    Ok((Some(literal), end))
}

// AttrType [ DEFAULT Literal ] | DATETIME
#[tactic(auto, unfolding(crate::specs::Schema::kind_and_default_parser, gq_grammar::specs::Parsers::one, gq_grammar::specs::Parsers::stands, gq_grammar::specs::Parsers::token))]
fn kind_and_default(
    alloc: Global,
    source: &Source<'_>,
    at: usize,
) -> Read<(AttributeKind, Option<Literal>)>
    requires { at ≤ length source.now }
    ensures { IfOk result (Found spec.kind_and_default_parser source.now at) }
{
    match attribute_type(source, at) {
        Some((kind, next)) => {
            let (default, end) = default(alloc, source, next)?;
            Ok(Some(((kind, default), end)))
        }
        None => {
            let end = need!(source.keyword(at, "DATETIME"));
            Ok(Some(((AttributeKind::Time, None), end)))
        }
    }
}

// Attr = Name ( AttrType [ DEFAULT Literal ] | DATETIME )
#[tactic(auto, unfolding(crate::specs::Schema::attribute_parser))]
fn attribute(alloc: Global, source: &Source<'_>, at: usize) -> Read<AttributeTree>
    requires { at ≤ length source.now }
    ensures { IfOk result (Found spec.attribute_parser source.now at) }
{
    let (name, at) = need!(name(alloc, source, at)?);
    let ((kind, default), at) = need!(kind_and_default(alloc, source, at)?);
    Ok(Some((
        AttributeTree {
            name,
            kind,
            default,
        },
        at,
    )))
}

// "," Attr
#[tactic(auto, unfolding(gq_grammar::specs::Parsers::after))]
fn next_attribute(alloc: Global, source: &Source<'_>, at: usize) -> Read<AttributeTree>
    requires { at ≤ length source.now }
    ensures { IfOk result (Found (after (lexemes.sign ",") spec.attribute_parser) source.now at) }
{
    let at = need!(source.sign(at, ","));
    attribute(alloc, source, at)
}

// { "," Attr }
pub fn attributes(
    alloc: Global,
    source: &Source<'_>,
    at: usize,
) -> Result<(List<AttributeTree>, usize), OutOfMemory>
    requires { at ≤ length source.now }
    ensures { IfOk result (λ read. Found spec.attributes_parser source.now at (Some read)) }
{
    let (attributes, at) = run(alloc, source, at, next_attribute)?;
    Ok((List::from_vec(attributes), at))
}

// Name AttrType
#[tactic(auto, unfolding(crate::specs::Schema::plain_attribute_parser))]
fn plain_attribute(alloc: Global, source: &Source<'_>, at: usize) -> Read<(Txt, AttributeKind)>
    requires { at ≤ length source.now }
    ensures { IfOk result (Found spec.plain_attribute_parser source.now at) }
{
    let (name, at) = need!(name(alloc, source, at)?);
    let (kind, at) = need!(attribute_type(source, at));
    Ok(Some(((name, kind), at)))
}

// Name AttrType { "," Name AttrType }
pub fn plain_attributes(
    alloc: Global,
    source: &Source<'_>,
    at: usize,
) -> Read<List<(Txt, AttributeKind)>>
    requires { at ≤ length source.now }
    ensures { IfOk result (Found (chain (lexemes.sign ",") spec.plain_attribute_parser) source.now at) }
{
    list(alloc, source, at, plain_attribute)
}
