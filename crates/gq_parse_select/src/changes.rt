// Changes of accumulators.
ghost use Rattle.std.specs.Prelude.{◌≤◌, length, IfOk};
ghost use Rattle.gq_grammar.specs.Acts.{attached_act, global_act};
ghost use Rattle.gq_grammar.specs.Lexemes as lexemes;
ghost use Rattle.gq_grammar.specs.Parsers.{Found, token, both, made, after};
ghost use Rattle.gq_parse_select.specs.Acts as spec;

use crate::input::input;
use crate::stages::paired;
use gq_expr_read::Read;
use gq_grammar::Source;
use gq_parse_common::{attached, first_of, global, name, need, value};
use gq_tree::{ActTree, ChangeTree, InputTree};
use gq_value::Txt;
use std::alloc::Global;

// "+=" In
#[tactic(auto, unfolding(gq_grammar::specs::Parsers::after))]
fn fed(alloc: Global, source: &Source<'_>, at: usize) -> Read<InputTree>
    requires { at ≤ length source.now }
    ensures { IfOk result (Found (after (lexemes.sign "+=") spec.input_parser) source.now at) }
{
    let at = need!(source.sign(at, "+="));
    input(alloc, source, at)
}

/// `"+=" In | "=" Expr`: what follows the name of an accumulator that changes.
///
/// Each level of parentheses uses some stack frames.
#[tactic(auto, unfolding(crate::specs::Acts::change_parser))]
pub fn change(alloc: Global, source: &Source<'_>, at: usize) -> Read<ChangeTree>
    requires { at ≤ length source.now }
    ensures { IfOk result (Found spec.change_parser source.now at) }
{
    match fed(alloc, source, at)? {
        Some((input, next)) => Ok(Some((ChangeTree::Feed(input), next))),
        None => {
            let (value, next) = need!(value(alloc, source, at)?);
            Ok(Some((ChangeTree::Set(value), next)))
        }
    }
}

// Attached ( "+=" In | "=" Expr )
fn attached_change(alloc: Global, source: &Source<'_>, at: usize) -> Read<(Txt, ChangeTree)>
    requires { at ≤ length source.now }
    ensures { IfOk result (Found (both (token lexemes.Attached lexemes.spelling) spec.change_parser) source.now at) }
{
    match attached(alloc, source, at)? {
        None => Ok(None),
        Some((accum, at)) => paired(accum, change(alloc, source, at)),
    }
}

// "." Attached ( "+=" In | "=" Expr )
#[tactic(auto, unfolding(gq_grammar::specs::Parsers::after))]
fn dotted_change(alloc: Global, source: &Source<'_>, at: usize) -> Read<(Txt, ChangeTree)>
    requires { at ≤ length source.now }
    ensures { IfOk result (Found (after (lexemes.sign ".") (both (token lexemes.Attached lexemes.spelling) spec.change_parser)) source.now at) }
{
    let at = need!(source.sign(at, "."));
    attached_change(alloc, source, at)
}

// Name "." Attached ( "+=" In | "=" Expr ), part by part
fn named_change(alloc: Global, source: &Source<'_>, at: usize) -> Read<(Txt, (Txt, ChangeTree))>
    requires { at ≤ length source.now }
    ensures { IfOk result (Found (both (token lexemes.Name lexemes.spelling) (after (lexemes.sign ".") (both (token lexemes.Attached lexemes.spelling) spec.change_parser))) source.now at) }
{
    match name(alloc, source, at)? {
        None => Ok(None),
        Some((alias, at)) => paired(alias, dotted_change(alloc, source, at)),
    }
}

// Name "." Attached ( "+=" In | "=" Expr )
fn attached_act(alloc: Global, source: &Source<'_>, at: usize) -> Read<ActTree>
    requires { at ≤ length source.now }
    ensures { IfOk result (Found (made attached_act (both (token lexemes.Name lexemes.spelling) (after (lexemes.sign ".") (both (token lexemes.Attached lexemes.spelling) spec.change_parser)))) source.now at) }
{
    let ((alias, (accum, change)), at) = need!(named_change(alloc, source, at)?);
    Ok(Some((ActTree::Attached(alias, accum, change), at)))
}

// Global ( "+=" In | "=" Expr ), part by part
fn global_change(alloc: Global, source: &Source<'_>, at: usize) -> Read<(Txt, ChangeTree)>
    requires { at ≤ length source.now }
    ensures { IfOk result (Found (both (token lexemes.Global lexemes.spelling) spec.change_parser) source.now at) }
{
    match global(alloc, source, at)? {
        None => Ok(None),
        Some((accum, at)) => paired(accum, change(alloc, source, at)),
    }
}

// Global ( "+=" In | "=" Expr )
fn global_act(alloc: Global, source: &Source<'_>, at: usize) -> Read<ActTree>
    requires { at ≤ length source.now }
    ensures { IfOk result (Found (made global_act (both (token lexemes.Global lexemes.spelling) spec.change_parser)) source.now at) }
{
    let ((accum, change), at) = need!(global_change(alloc, source, at)?);
    Ok(Some((ActTree::Global(accum, change), at)))
}

/// `Name "." Attached ( "+=" In | "=" Expr ) | Global ( "+=" In | "=" Expr )`.
#[tactic(auto, unfolding(crate::specs::Acts::plain_act_parser))]
pub fn plain_act(alloc: Global, source: &Source<'_>, at: usize) -> Read<ActTree>
    requires { at ≤ length source.now }
    ensures { IfOk result (Found spec.plain_act_parser source.now at) }
{
    first_of!(
        attached_act(alloc, source, at)?,
        global_act(alloc, source, at)?
    )
}
