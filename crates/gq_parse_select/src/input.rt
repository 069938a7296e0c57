// Inputs, with a bounded number of levels and with any number.
ghost use Rattle.std.specs.Prelude.{◌≤◌, length, IfOk};
ghost use Rattle.gq_grammar.specs.Parsers.{Found};
ghost use Rattle.gq_parse_select.specs.Acts.{nested_input_parser, input_parser};

use crate::inputs::InputReader;
use gq_expr_read::Read;
use gq_grammar::Source;
use gq_tree::InputTree;
use std::alloc::Global;

// Reads an input of at most `levels` levels.
fn nested_input(alloc: Global, source: &Source<'_>, levels: usize, at: usize) -> Read<InputTree>
    requires { at ≤ length source.now }
    ensures { IfOk result (Found (nested_input_parser levels) source.now at) }
{
    if levels == 0 {
        return Ok(None);
    }
    InputReader {
        alloc,
        source,
        levels: levels - 1,
        inner: nested_input,
    }
    .input_in(at)
}

/// `In = Expr | "(" Expr { "," Expr } "->" In { "," In } ")"`.
///
/// Each level of parentheses uses some stack frames.
pub fn input(alloc: Global, source: &Source<'_>, at: usize) -> Read<InputTree>
    requires { at ≤ length source.now }
    ensures { IfOk result (Found input_parser source.now at) }
{
    nested_input(alloc, source, source.len() - at, at)
}
