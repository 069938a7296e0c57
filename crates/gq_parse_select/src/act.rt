// Acts, with a bounded number of levels and with any number.
ghost use Rattle.std.specs.Prelude.{◌≤◌, length, IfOk};
ghost use Rattle.gq_grammar.specs.Parsers.{Found};
ghost use Rattle.gq_parse_select.specs.Acts.{nested_act_parser, act_parser, acts_parser};

use crate::branches::Acts;
use gq_base::List;
use gq_expr_read::Read;
use gq_grammar::Source;
use gq_parse_common::list;
use gq_tree::ActTree;
use std::alloc::Global;

// Reads an act of at most `levels` levels.
fn nested_act(alloc: Global, source: &Source<'_>, levels: usize, at: usize) -> Read<ActTree>
    requires { at ≤ length source.now }
    ensures { IfOk result (Found (nested_act_parser levels) source.now at) }
{
    if levels == 0 {
        return Ok(None);
    }
    Acts {
        alloc,
        source,
        levels: levels - 1,
        inner: nested_act,
    }
    .act_in(at)
}

// Reads an act of any number of levels.
fn act(alloc: Global, source: &Source<'_>, at: usize) -> Read<ActTree>
    requires { at ≤ length source.now }
    ensures { IfOk result (Found act_parser source.now at) }
{
    nested_act(alloc, source, source.len() - at, at)
}

/// `Acts = ActTree { "," ActTree }`.
///
/// Each IF within an IF uses some stack frames, and so does each level of parentheses.
#[tactic(auto, unfolding(crate::specs::Acts::acts_parser))]
pub fn acts(alloc: Global, source: &Source<'_>, at: usize) -> Read<List<ActTree>>
    requires { at ≤ length source.now }
    ensures { IfOk result (Found acts_parser source.now at) }
{
    list(alloc, source, at, act)
}
