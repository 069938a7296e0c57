// Heaps and their order.
ghost use Rattle.std.specs.Prelude.{◌≤◌, length, IfOk};
ghost use Rattle.gq_grammar.specs.Lexemes as lexemes;
ghost use Rattle.gq_grammar.specs.Parsers.{Found};
ghost use Rattle.gq_grammar.specs.Series.{chain};
ghost use Rattle.gq_parse_common.specs.Kinds as spec;

use crate::bases::angled_name;
use crate::lists::list;
use crate::words::name;
use crate::{need, of_words};
use gq_base::List;
use gq_expr_read::Read;
use gq_grammar::Source;
use gq_tree::KindTree;
use gq_value::Txt;
use std::alloc::Global;

/// `ASC | DESC`: whether it descends.
#[tactic(auto, unfolding(crate::specs::Kinds::direction_parser, gq_grammar::specs::Parsers::stands))]
pub fn direction(source: &Source<'_>, at: usize) -> Option<(bool, usize)>
    requires { at ≤ length source.now }
    ensures { Found spec.direction_parser source.now at result }
{
    of_words!(source, at; "ASC" => false, "DESC" => true)
}

// Name [ ASC | DESC ]
#[tactic(auto, unfolding(crate::specs::Kinds::order_field_parser))]
fn order_field(alloc: Global, source: &Source<'_>, at: usize) -> Read<(Txt, bool)>
    requires { at ≤ length source.now }
    ensures { IfOk result (Found spec.order_field_parser source.now at) }
{
    let (name, at) = need!(name(alloc, source, at)?);
    match direction(source, at) {
        Some((descends, end)) => Ok(Some(((name, descends), end))),
        None => Ok(Some(((name, false), at))),
    }
}

// Name [ ASC | DESC ] { "," Name [ ASC | DESC ] }
fn order_fields(alloc: Global, source: &Source<'_>, at: usize) -> Read<List<(Txt, bool)>>
    requires { at ≤ length source.now }
    ensures { IfOk result (Found (chain (lexemes.sign ",") spec.order_field_parser) source.now at) }
{
    list(alloc, source, at, order_field)
}

/// `HeapAccum "<" Name ">" "(" Number "," Name [ ASC | DESC ] { "," Name [ ASC | DESC ] } ")"`.
#[tactic(auto, unfolding(crate::specs::Kinds::heap_kind_parser, crate::specs::Kinds::heap_order_parser, gq_grammar::specs::Parsers::after, gq_grammar::specs::Parsers::enclosed, gq_grammar::specs::Parsers::one, gq_grammar::specs::Parsers::token))]
pub fn heap_kind(alloc: Global, source: &Source<'_>, at: usize) -> Read<KindTree>
    requires { at ≤ length source.now }
    ensures { IfOk result (Found spec.heap_kind_parser source.now at) }
{
    let at = need!(source.keyword(at, "HeapAccum"));
    let (tuple, at) = need!(angled_name(alloc, source, at)?);
    let at = need!(source.sign(at, "("));
    let (capacity, at) = need!(source.number(at));
    let at = need!(source.sign(at, ","));
    let (order, at) = need!(order_fields(alloc, source, at)?);
    let at = need!(source.sign(at, ")"));
    Ok(Some((KindTree::Heap(tuple, capacity, order), at)))
}
