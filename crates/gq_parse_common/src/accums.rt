// Accumulators with their initial values.
ghost use Rattle.std.specs.Prelude.{◌≤◌, length, IfOk, Some};
ghost use Rattle.gq_grammar.specs.Lexemes as lexemes;
ghost use Rattle.gq_grammar.specs.Parsers.{Found, maybe};
ghost use Rattle.gq_grammar.specs.Series.{chain};
ghost use Rattle.gq_parse_common.specs.Kinds as spec;

use crate::lists::list;
use crate::need;
use crate::words::{attached, expression, global};
use gq_base::{List, OutOfMemory};
use gq_expr_read::Read;
use gq_grammar::Source;
use gq_tree::{AccumTree, Node};
use gq_value::Txt;
use std::alloc::Global;

/// `"=" Expr`.
#[tactic(auto, unfolding(crate::specs::Kinds::value_parser, gq_grammar::specs::Parsers::after))]
pub fn value(alloc: Global, source: &Source<'_>, at: usize) -> Read<Node>
    requires { at ≤ length source.now }
    ensures { IfOk result (Found spec.value_parser source.now at) }
{
    let at = need!(source.sign(at, "="));
    expression(alloc, source, at)
}

// [ "=" Expr ]
fn opening(
    alloc: Global,
    source: &Source<'_>,
    at: usize,
) -> Result<(Option<Node>, usize), OutOfMemory>
    requires { at ≤ length source.now }
    ensures { IfOk result (λ read. Found (maybe spec.value_parser) source.now at (Some read)) }
{
    let (value, end) = need!(value(alloc, source, at)?, else (None, at));
    Ok((Some(value), end))
}

// Acc = Global | Attached: whether it is attached, and its name
#[tactic(auto, unfolding(crate::specs::Kinds::accum_name_parser))]
fn accum_name(alloc: Global, source: &Source<'_>, at: usize) -> Read<(bool, Txt)>
    requires { at ≤ length source.now }
    ensures { IfOk result (Found spec.accum_name_parser source.now at) }
{
    match global(alloc, source, at)? {
        Some((name, next)) => Ok(Some(((false, name), next))),
        None => {
            let (name, next) = need!(attached(alloc, source, at)?);
            Ok(Some(((true, name), next)))
        }
    }
}

// Acc [ "=" Expr ]
#[tactic(auto, unfolding(crate::specs::Kinds::accum_parser))]
fn accum(alloc: Global, source: &Source<'_>, at: usize) -> Read<AccumTree>
    requires { at ≤ length source.now }
    ensures { IfOk result (Found spec.accum_parser source.now at) }
{
    let ((attached, name), at) = need!(accum_name(alloc, source, at)?);
    let (opening, at) = opening(alloc, source, at)?;
    Ok(Some((
        AccumTree {
            attached,
            name,
            opening,
        },
        at,
    )))
}

/// `Acc [ "=" Expr ] { "," Acc [ "=" Expr ] }`.
pub fn accums(alloc: Global, source: &Source<'_>, at: usize) -> Read<List<AccumTree>>
    requires { at ≤ length source.now }
    ensures { IfOk result (Found (chain (lexemes.sign ",") spec.accum_parser) source.now at) }
{
    list(alloc, source, at, accum)
}
