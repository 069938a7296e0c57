// Accumulator kinds, with a bounded number of levels.
ghost use Rattle.std.specs.Prelude.{◌≤◌, length, IfOk};
ghost use Rattle.gq_grammar.specs.Parsers.{Found};
ghost use Rattle.gq_parse_common.specs.Kinds.{kind_parser};

use crate::kinds::Kinds;
use gq_expr_read::Read;
use gq_grammar::Source;
use gq_tree::KindTree;
use std::alloc::Global;

/// Reads an accumulator kind of at most `levels` levels, and returns the place after it.
///
/// Each level uses some stack frames.
pub fn kind(alloc: Global, source: &Source<'_>, levels: usize, at: usize) -> Read<KindTree>
    requires { at ≤ length source.now }
    ensures { IfOk result (Found (kind_parser levels) source.now at) }
{
    if levels == 0 {
        return Ok(None);
    }
    Kinds {
        alloc,
        source,
        levels: levels - 1,
        inner: kind,
    }
    .kind_in(at)
}
