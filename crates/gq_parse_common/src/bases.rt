// Types of values, and fields.
ghost use Rattle.std.specs.Prelude.{◌≤◌, length, IfOk, Some};
ghost use Rattle.gq_tree.specs.declared.query.BaseTree.TheVariants as tree;
ghost use Rattle.gq_grammar.specs.Lexemes as lexemes;
ghost use Rattle.gq_grammar.specs.Parsers.{Found, ◌or◌, many, stands, after};
ghost use Rattle.gq_grammar.specs.Series.{chain};
ghost use Rattle.gq_parse_common.specs.Kinds as spec;

use crate::lists::{list, run};
use crate::words::name;
use crate::{need, of_words};
use gq_base::{List, OutOfMemory};
use gq_expr_read::Read;
use gq_grammar::Source;
use gq_tree::{BaseTree, Elem};
use gq_value::Txt;
use std::alloc::Global;

/// `"<" Name ">"`.
#[tactic(auto, unfolding(crate::specs::Kinds::angled_name_parser, gq_grammar::specs::Parsers::after, gq_grammar::specs::Series::ended))]
pub fn angled_name(alloc: Global, source: &Source<'_>, at: usize) -> Read<Txt>
    requires { at ≤ length source.now }
    ensures { IfOk result (Found spec.angled_name_parser source.now at) }
{
    let at = need!(source.sign(at, "<"));
    let (name, at) = need!(name(alloc, source, at)?);
    let at = need!(source.sign(at, ">"));
    Ok(Some((name, at)))
}

// INT | UINT | BOOL | STRING
#[tactic(auto, unfolding(gq_grammar::specs::Parsers::stands))]
fn one_word(source: &Source<'_>, at: usize) -> Option<(BaseTree, usize)>
    requires { at ≤ length source.now }
    ensures { Found (stands tree.Int (lexemes.word "INT") or stands tree.UInt (lexemes.word "UINT") or stands tree.Bool (lexemes.word "BOOL") or stands tree.Text (lexemes.word "STRING")) source.now at result }
{
    of_words!(source, at;
        "INT" => BaseTree::Int,
        "UINT" => BaseTree::UInt,
        "BOOL" => BaseTree::Bool,
        "STRING" => BaseTree::Text,
    )
}

/// `Base = INT | UINT | BOOL | STRING | VERTEX [ "<" Name ">" ]`.
#[tactic(auto, unfolding(crate::specs::Kinds::base_parser))]
pub fn base(alloc: Global, source: &Source<'_>, at: usize) -> Read<BaseTree>
    requires { at ≤ length source.now }
    ensures { IfOk result (Found spec.base_parser source.now at) }
{
    match one_word(source, at) {
        Some(read) => Ok(Some(read)),
        None => {
            let next = need!(source.keyword(at, "VERTEX"));
            match angled_name(alloc, source, next)? {
                Some((name, end)) => Ok(Some((BaseTree::VertexOf(name), end))),
                None => Ok(Some((BaseTree::AnyVertex, next))),
            }
        }
    }
}

/// `Elem = Base | Name`.
#[tactic(auto, unfolding(crate::specs::Kinds::elem_parser))]
pub fn elem(alloc: Global, source: &Source<'_>, at: usize) -> Read<Elem>
    requires { at ≤ length source.now }
    ensures { IfOk result (Found spec.elem_parser source.now at) }
{
    match base(alloc, source, at)? {
        Some((base, next)) => Ok(Some((Elem::Base(base), next))),
        None => {
            let (name, next) = need!(name(alloc, source, at)?);
            Ok(Some((Elem::Tuple(name), next)))
        }
    }
}

/// `"<" Elem ">"`.
#[tactic(auto, unfolding(crate::specs::Kinds::angled_elem_parser, gq_grammar::specs::Parsers::after, gq_grammar::specs::Series::ended))]
pub fn angled_elem(alloc: Global, source: &Source<'_>, at: usize) -> Read<Elem>
    requires { at ≤ length source.now }
    ensures { IfOk result (Found spec.angled_elem_parser source.now at) }
{
    let at = need!(source.sign(at, "<"));
    let (elem, at) = need!(elem(alloc, source, at)?);
    let at = need!(source.sign(at, ">"));
    Ok(Some((elem, at)))
}

/// `Base Name`.
#[tactic(auto, unfolding(crate::specs::Kinds::field_parser))]
pub fn field(alloc: Global, source: &Source<'_>, at: usize) -> Read<(BaseTree, Txt)>
    requires { at ≤ length source.now }
    ensures { IfOk result (Found spec.field_parser source.now at) }
{
    let (base, at) = need!(base(alloc, source, at)?);
    let (name, at) = need!(name(alloc, source, at)?);
    Ok(Some(((base, name), at)))
}

// "," Base Name
#[tactic(auto, unfolding(gq_grammar::specs::Parsers::after))]
fn next_field(alloc: Global, source: &Source<'_>, at: usize) -> Read<(BaseTree, Txt)>
    requires { at ≤ length source.now }
    ensures { IfOk result (Found (after (lexemes.sign ",") spec.field_parser) source.now at) }
{
    let at = need!(source.sign(at, ","));
    field(alloc, source, at)
}

/// `{ "," Base Name }`.
pub fn more_fields(
    alloc: Global,
    source: &Source<'_>,
    at: usize,
) -> Result<(Vec<(BaseTree, Txt)>, usize), OutOfMemory>
    requires { at ≤ length source.now }
    ensures { IfOk result (λ read. Found (many (after (lexemes.sign ",") spec.field_parser)) source.now at (Some (read.0.items, read.1))) }
{
    run(alloc, source, at, next_field)
}

/// `Base Name { "," Base Name }`.
pub fn fields(alloc: Global, source: &Source<'_>, at: usize) -> Read<List<(BaseTree, Txt)>>
    requires { at ≤ length source.now }
    ensures { IfOk result (Found (chain (lexemes.sign ",") spec.field_parser) source.now at) }
{
    list(alloc, source, at, field)
}
