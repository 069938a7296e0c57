// PRINT, with the texts of the printed values.
ghost use Rattle.std.specs.Prelude.{◌≤◌, length, IfOk, Some};
ghost use Rattle.gq_grammar.specs.Bodies.{columns_item};
ghost use Rattle.gq_grammar.specs.Lexemes as lexemes;
ghost use Rattle.gq_grammar.specs.Parsers.{Found, both, made, maybe, token};
ghost use Rattle.gq_grammar.specs.Series.{chain};
ghost use Rattle.gq_parse_select.specs.Bodies as spec;

use gq_base::{List, OutOfMemory};
use gq_expr_read::Read;
use gq_grammar::Source;
use gq_parse_common::{expression, list, name, need};
use gq_parse_select::beside;
use gq_tree::{ItemTree, Label, Node, Stmt};
use gq_value::Txt;
use std::alloc::Global;

// AS Name
#[tactic(auto, unfolding(gq_parse_select::specs::Bodies::as_name_parser, gq_grammar::specs::Parsers::after))]
fn as_name(alloc: Global, source: &Source<'_>, at: usize) -> Read<Txt>
    requires { at ≤ length source.now }
    ensures { IfOk result (Found spec.as_name_parser source.now at) }
{
    let at = need!(source.keyword(at, "AS"));
    name(alloc, source, at)
}

// [ AS Name ]
fn some_name(
    alloc: Global,
    source: &Source<'_>,
    at: usize,
) -> Result<(Option<Txt>, usize), OutOfMemory>
    requires { at ≤ length source.now }
    ensures { IfOk result (λ read. Found (maybe spec.as_name_parser) source.now at (Some read)) }
{
    let (name, end) = need!(as_name(alloc, source, at)?, else (None, at));
    Ok((Some(name), end))
}

// Expr [ AS Name ]. The text of the value is joined only if it is the key
#[tactic(auto, using(crate::proofs::PrintLemmas::labels))]
fn labelled(alloc: Global, source: &Source<'_>, at: usize) -> Read<(Node, Label)>
    requires { at ≤ length source.now }
    ensures { IfOk result (Found spec.labelled_parser source.now at) }
{
    let (value, next) = need!(expression(alloc, source, at)?);
    match as_name(alloc, source, next)? {
        Some((name, end)) => Ok(Some(((value, Label::Named(name)), end))),
        None => {
            let text = List::from_vec(source.joined(alloc, at, next)?);
            Ok(Some(((value, Label::Spelled(text)), next)))
        }
    }
}

// Expr [ AS Name ] { "," Expr [ AS Name ] }
fn columns(alloc: Global, source: &Source<'_>, at: usize) -> Read<List<(Node, Label)>>
    requires { at ≤ length source.now }
    ensures { IfOk result (Found (chain (lexemes.sign ",") spec.labelled_parser) source.now at) }
{
    list(alloc, source, at, labelled)
}

// "[" Expr [ AS Name ] { "," Expr [ AS Name ] } "]"
#[tactic(auto, unfolding(gq_parse_select::specs::Bodies::item_columns_parser, gq_grammar::specs::Parsers::after, gq_grammar::specs::Series::ended))]
fn item_columns(alloc: Global, source: &Source<'_>, at: usize) -> Read<List<(Node, Label)>>
    requires { at ≤ length source.now }
    ensures { IfOk result (Found spec.item_columns_parser source.now at) }
{
    let at = need!(source.sign(at, "["));
    let (columns, at) = need!(columns(alloc, source, at)?);
    let at = need!(source.sign(at, "]"));
    Ok(Some((columns, at)))
}

// "[" Expr [ AS Name ] { "," Expr [ AS Name ] } "]" [ AS Name ]
#[tactic(auto, unfolding(gq_parse_select::specs::Bodies::named_columns_parser))]
fn named_columns(
    alloc: Global,
    source: &Source<'_>,
    at: usize,
) -> Read<(List<(Node, Label)>, Option<Txt>)>
    requires { at ≤ length source.now }
    ensures { IfOk result (Found spec.named_columns_parser source.now at) }
{
    match item_columns(alloc, source, at)? {
        None => Ok(None),
        Some((columns, at)) => beside(columns, some_name(alloc, source, at)),
    }
}

// Name "[" Expr [ AS Name ] { "," Expr [ AS Name ] } "]" [ AS Name ]
fn set_item(alloc: Global, source: &Source<'_>, at: usize) -> Read<ItemTree>
    requires { at ≤ length source.now }
    ensures { IfOk result (Found (made columns_item (both (token lexemes.Name lexemes.spelling) spec.named_columns_parser)) source.now at) }
{
    let (set, at) = need!(source.name(at));
    let ((columns, name), at) = need!(named_columns(alloc, source, at)?);
    Ok(Some((ItemTree::Columns(Txt::of(alloc, set)?, columns, name), at)))
}

// ItemTree = Expr [ AS Name ] | Name "[" Expr [ AS Name ] { "," Expr [ AS Name ] } "]" [ AS Name ]
#[tactic(auto, unfolding(gq_parse_select::specs::Bodies::item_parser))]
fn item(alloc: Global, source: &Source<'_>, at: usize) -> Read<ItemTree>
    requires { at ≤ length source.now }
    ensures { IfOk result (Found spec.item_parser source.now at) }
{
    match set_item(alloc, source, at)? {
        Some(read) => Ok(Some(read)),
        None => {
            let ((value, label), next) = need!(labelled(alloc, source, at)?);
            Ok(Some((ItemTree::Value(value, label), next)))
        }
    }
}

// ItemTree { "," ItemTree }
fn items(alloc: Global, source: &Source<'_>, at: usize) -> Read<List<ItemTree>>
    requires { at ≤ length source.now }
    ensures { IfOk result (Found (chain (lexemes.sign ",") spec.item_parser) source.now at) }
{
    list(alloc, source, at, item)
}

/// `PRINT ItemTree { "," ItemTree }`.
#[tactic(auto, unfolding(gq_parse_select::specs::Bodies::print_parser, gq_grammar::specs::Parsers::after))]
pub fn print(alloc: Global, source: &Source<'_>, at: usize) -> Read<Stmt>
    requires { at ≤ length source.now }
    ensures { IfOk result (Found spec.print_parser source.now at) }
{
    let at = need!(source.keyword(at, "PRINT"));
    let (items, at) = need!(items(alloc, source, at)?);
    Ok(Some((Stmt::Print(items), at)))
}
