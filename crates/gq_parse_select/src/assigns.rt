// Assignments, new variables, and changes of global accumulators.
ghost use Rattle.std.specs.Prelude.{◌≤◌, length, IfOk, Some};
ghost use Rattle.gq_tree.specs.declared.body.RightTree.TheVariants as tree;
ghost use Rattle.gq_tree.specs.declared.body.SetTypesTree.TheVariants as tree_types;
ghost use Rattle.gq_grammar.specs.Lexemes as lexemes;
ghost use Rattle.gq_grammar.specs.Parsers.{Found, ◌or◌, after, both, made, maybe, stands, token};
ghost use Rattle.gq_grammar.specs.Series.{chain};
ghost use Rattle.gq_parse_common.specs.Kinds as kinds;
ghost use Rattle.gq_parse_common.specs.Expression as part;
ghost use Rattle.gq_parse_select.specs.Acts as acts;
ghost use Rattle.gq_parse_select.specs.Bodies as spec;

use crate::changes::change;
use crate::selects::select;
use crate::sets::{name_chain, seeds_chain};
use crate::stages::{beside, paired};
use gq_base::{List, OutOfMemory};
use gq_expr_read::Read;
use gq_grammar::Source;
use gq_parse_common::{base, expression, global, list, name, need, value};
use gq_tree::{BaseTree, ChangeTree, Node, RightTree, SetTypesTree, Stmt};
use gq_value::Txt;
use std::alloc::Global;

// New variables, each with its value, if one is given.
type NewNames = List<(Txt, Option<Node>)>;

// Name SetOp SetTerm { SetOp SetTerm } | Expr
fn name_chain_or_value(alloc: Global, source: &Source<'_>, at: usize) -> Read<RightTree>
    requires { at ≤ length source.now }
    ensures { IfOk result (Found (made tree.Sets spec.name_chain_parser or made tree.Value part.expression) source.now at) }
{
    match name_chain(alloc, source, at)? {
        Some((sets, next)) => Ok(Some((RightTree::Sets(sets), next))),
        None => {
            let (value, next) = need!(expression(alloc, source, at)?);
            Ok(Some((RightTree::Value(value), next)))
        }
    }
}

// Select | Seeds | SetTerm SetOp SetTerm { SetOp SetTerm } | Expr
#[tactic(auto, unfolding(crate::specs::Bodies::right_parser))]
fn right(alloc: Global, source: &Source<'_>, at: usize) -> Read<RightTree>
    requires { at ≤ length source.now }
    ensures { IfOk result (Found spec.right_parser source.now at) }
{
    match select(alloc, source, at)? {
        Some((select, next)) => return Ok(Some((RightTree::Select(select), next))),
        None => {}
    }
    match seeds_chain(alloc, source, at)? {
        Some((sets, next)) => return Ok(Some((RightTree::Sets(sets), next))),
        None => {}
    }
    name_chain_or_value(alloc, source, at)
}

// Name | ANY
#[tactic(auto, unfolding(gq_grammar::specs::Parsers::stands))]
fn set_type(alloc: Global, source: &Source<'_>, at: usize) -> Read<SetTypesTree>
    requires { at ≤ length source.now }
    ensures { IfOk result (Found (made tree_types.Of (token lexemes.Name lexemes.spelling) or stands tree_types.Any (lexemes.word "ANY")) source.now at) }
{
    match name(alloc, source, at)? {
        Some((name, next)) => Ok(Some((SetTypesTree::Of(name), next))),
        None => {
            let next = need!(source.keyword(at, "ANY"));
            Ok(Some((SetTypesTree::Any, next)))
        }
    }
}

// "(" ( Name | ANY ) ")"
#[tactic(auto, unfolding(crate::specs::Bodies::set_types_parser, gq_grammar::specs::Parsers::enclosed))]
fn set_types(alloc: Global, source: &Source<'_>, at: usize) -> Read<SetTypesTree>
    requires { at ≤ length source.now }
    ensures { IfOk result (Found spec.set_types_parser source.now at) }
{
    let at = need!(source.sign(at, "("));
    let (types, at) = need!(set_type(alloc, source, at)?);
    let at = need!(source.sign(at, ")"));
    Ok(Some((types, at)))
}

// [ "(" ( Name | ANY ) ")" ]
fn some_set_types(
    alloc: Global,
    source: &Source<'_>,
    at: usize,
) -> Result<(Option<SetTypesTree>, usize), OutOfMemory>
    requires { at ≤ length source.now }
    ensures { IfOk result (λ read. Found (maybe spec.set_types_parser) source.now at (Some read)) }
{
    let (types, end) = need!(set_types(alloc, source, at)?, else (None, at));
    Ok((Some(types), end))
}

// Name [ "(" ( Name | ANY ) ")" ]
fn typed_name(alloc: Global, source: &Source<'_>, at: usize) -> Read<(Txt, Option<SetTypesTree>)>
    requires { at ≤ length source.now }
    ensures { IfOk result (Found (both (token lexemes.Name lexemes.spelling) (maybe spec.set_types_parser)) source.now at) }
{
    match name(alloc, source, at)? {
        None => Ok(None),
        Some((name, at)) => beside(name, some_set_types(alloc, source, at)),
    }
}

// "=" ( Select | SetRhs | Expr )
#[tactic(auto, unfolding(gq_grammar::specs::Parsers::after))]
fn right_side(alloc: Global, source: &Source<'_>, at: usize) -> Read<RightTree>
    requires { at ≤ length source.now }
    ensures { IfOk result (Found (after (lexemes.sign "=") spec.right_parser) source.now at) }
{
    let at = need!(source.sign(at, "="));
    right(alloc, source, at)
}

// Name [ "(" ( Name | ANY ) ")" ] "=" ( Select | SetRhs | Expr ), part by part
fn assigned(
    alloc: Global,
    source: &Source<'_>,
    at: usize,
) -> Read<((Txt, Option<SetTypesTree>), RightTree)>
    requires { at ≤ length source.now }
    ensures { IfOk result (Found (both (both (token lexemes.Name lexemes.spelling) (maybe spec.set_types_parser)) (after (lexemes.sign "=") spec.right_parser)) source.now at) }
{
    match typed_name(alloc, source, at)? {
        None => Ok(None),
        Some((name, at)) => paired(name, right_side(alloc, source, at)),
    }
}

/// `Name [ "(" ( Name | ANY ) ")" ] "=" ( Select | SetRhs | Expr )`.
#[tactic(auto, unfolding(crate::specs::Bodies::assign_parser))]
pub fn assign(alloc: Global, source: &Source<'_>, at: usize) -> Read<Stmt>
    requires { at ≤ length source.now }
    ensures { IfOk result (Found spec.assign_parser source.now at) }
{
    let (((name, types), right), at) = need!(assigned(alloc, source, at)?);
    Ok(Some((Stmt::Assign(name, types, right), at)))
}

// [ "=" Expr ]
fn opening(
    alloc: Global,
    source: &Source<'_>,
    at: usize,
) -> Result<(Option<Node>, usize), OutOfMemory>
    requires { at ≤ length source.now }
    ensures { IfOk result (λ read. Found (maybe kinds.value_parser) source.now at (Some read)) }
{
    let (value, end) = need!(value(alloc, source, at)?, else (None, at));
    Ok((Some(value), end))
}

// Name [ "=" Expr ]
#[tactic(auto, unfolding(crate::specs::Bodies::new_name_parser))]
fn new_name(alloc: Global, source: &Source<'_>, at: usize) -> Read<(Txt, Option<Node>)>
    requires { at ≤ length source.now }
    ensures { IfOk result (Found spec.new_name_parser source.now at) }
{
    match name(alloc, source, at)? {
        None => Ok(None),
        Some((name, at)) => beside(name, opening(alloc, source, at)),
    }
}

// Name [ "=" Expr ] { "," Name [ "=" Expr ] }
fn new_names(alloc: Global, source: &Source<'_>, at: usize) -> Read<NewNames>
    requires { at ≤ length source.now }
    ensures { IfOk result (Found (chain (lexemes.sign ",") spec.new_name_parser) source.now at) }
{
    list(alloc, source, at, new_name)
}

// Base Name [ "=" Expr ] { "," Name [ "=" Expr ] }, part by part
fn base_and_names(alloc: Global, source: &Source<'_>, at: usize) -> Read<(BaseTree, NewNames)>
    requires { at ≤ length source.now }
    ensures { IfOk result (Found (both kinds.base_parser (chain (lexemes.sign ",") spec.new_name_parser)) source.now at) }
{
    match base(alloc, source, at)? {
        None => Ok(None),
        Some((base, at)) => paired(base, new_names(alloc, source, at)),
    }
}

/// `Base Name [ "=" Expr ] { "," Name [ "=" Expr ] }`.
#[tactic(auto, unfolding(crate::specs::Bodies::local_parser))]
pub fn local(alloc: Global, source: &Source<'_>, at: usize) -> Read<Stmt>
    requires { at ≤ length source.now }
    ensures { IfOk result (Found spec.local_parser source.now at) }
{
    let ((base, names), at) = need!(base_and_names(alloc, source, at)?);
    Ok(Some((Stmt::Local(base, names), at)))
}

// Global "=" Expr | Global "+=" In, part by part
fn global_and_change(alloc: Global, source: &Source<'_>, at: usize) -> Read<(Txt, ChangeTree)>
    requires { at ≤ length source.now }
    ensures { IfOk result (Found (both (token lexemes.Global lexemes.spelling) acts.change_parser) source.now at) }
{
    match global(alloc, source, at)? {
        None => Ok(None),
        Some((name, at)) => paired(name, change(alloc, source, at)),
    }
}

/// `Global "=" Expr | Global "+=" In`.
#[tactic(auto, unfolding(crate::specs::Bodies::global_parser))]
pub fn global_change(alloc: Global, source: &Source<'_>, at: usize) -> Read<Stmt>
    requires { at ≤ length source.now }
    ensures { IfOk result (Found spec.global_parser source.now at) }
{
    let ((name, change), at) = need!(global_and_change(alloc, source, at)?);
    Ok(Some((Stmt::Global(name, change), at)))
}
