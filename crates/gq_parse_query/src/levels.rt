// Statements, with a bounded number of levels and with any number.
ghost use Rattle.std.specs.Prelude.{◌≤◌, length, IfOk};
ghost use Rattle.gq_grammar.specs.Parsers.{Found};
ghost use Rattle.gq_parse_select.specs.Bodies.{nested_parser, statement_parser};

use crate::blocks::Blocks;
use gq_expr_read::Read;
use gq_grammar::Source;
use gq_tree::Stmt;
use std::alloc::Global;

// Reads a statement of at most `levels` levels, and returns the place after it.
fn nested(alloc: Global, source: &Source<'_>, levels: usize, at: usize) -> Read<Stmt>
    requires { at ≤ length source.now }
    ensures { IfOk result (Found (nested_parser levels) source.now at) }
{
    if levels == 0 {
        return Ok(None);
    }
    Blocks {
        alloc,
        source,
        levels: levels - 1,
        inner: nested,
    }
    .statement_in(at)
}

/// Reads the longest statement from `at` on, without its `;`, and returns the place after it.
///
/// Each level of statements and of parentheses uses some stack frames.
pub fn statement(alloc: Global, source: &Source<'_>, at: usize) -> Read<Stmt>
    requires { at ≤ length source.now }
    ensures { IfOk result (Found statement_parser source.now at) }
{
    nested(alloc, source, source.len() - at, at)
}
