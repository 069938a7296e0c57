// Single tokens, with the text of the token copied; and expressions.
ghost use Rattle.std.specs.Prelude.{◌≤◌, length, IfOk};
ghost use Rattle.gq_grammar.specs.Parsers.{Found, token};
ghost use Rattle.gq_grammar.specs.Lexemes as lexemes;
ghost use Rattle.gq_parse_common.specs.Expression as spec;

use gq_expr_read::{Read, expr};
use gq_grammar::Source;
use gq_tree::Node;
use gq_value::Txt;
use std::alloc::Global;

/// The name at `at`, and the place after it.
pub fn name(alloc: Global, source: &Source<'_>, at: usize) -> Read<Txt>
    requires { at ≤ length source.now }
    ensures { IfOk result (Found (token lexemes.Name lexemes.spelling) source.now at) }
{
    match source.name(at) {
        None => Ok(None),
        Some((name, next)) => Ok(Some((Txt::of(alloc, name)?, next))),
    }
}

/// The value of the text at `at`, and the place after it.
pub fn text(alloc: Global, source: &Source<'_>, at: usize) -> Read<Txt>
    requires { at ≤ length source.now }
    ensures { IfOk result (Found (token lexemes.Text lexemes.said) source.now at) }
{
    match source.text(at) {
        None => Ok(None),
        Some((said, next)) => Ok(Some((Txt::of(alloc, said.as_str())?, next))),
    }
}

/// The name of the global accumulator at `at`, and the place after it.
pub fn global(alloc: Global, source: &Source<'_>, at: usize) -> Read<Txt>
    requires { at ≤ length source.now }
    ensures { IfOk result (Found (token lexemes.Global lexemes.spelling) source.now at) }
{
    match source.global(at) {
        None => Ok(None),
        Some((name, next)) => Ok(Some((Txt::of(alloc, name)?, next))),
    }
}

/// The name of the attached accumulator at `at`, and the place after it.
pub fn attached(alloc: Global, source: &Source<'_>, at: usize) -> Read<Txt>
    requires { at ≤ length source.now }
    ensures { IfOk result (Found (token lexemes.Attached lexemes.spelling) source.now at) }
{
    match source.attached(at) {
        None => Ok(None),
        Some((name, next)) => Ok(Some((Txt::of(alloc, name)?, next))),
    }
}

/// The longest expression from `at` on, and the place after it.
///
/// Each level of parentheses uses some stack frames.
pub fn expression(alloc: Global, source: &Source<'_>, at: usize) -> Read<Node>
    requires { at ≤ length source.now }
    ensures { IfOk result (Found spec.expression source.now at) }
{
    expr(alloc, source, source.len() - at, at)
}
