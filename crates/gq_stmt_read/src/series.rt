// Items in parentheses.
ghost use Rattle.std.specs.Prelude.{◌≤◌, length, IfOk, Some};
ghost use Rattle.gq_grammar.specs.Parsers.{Parser, Found, separated};
ghost use Rattle.gq_parse_common.specs.Readers.{Callable, Finds, Reads};

use gq_base::{List, OutOfMemory};
use gq_expr_read::Read;
use gq_grammar::Source;
use gq_parse_common::list;
use std::alloc::Global;

/// Reads items separated by commas, or none, and returns the place after them.
pub fn series<T: Drop, F: Fn(Global, &Source<'_>, usize) -> Read<T>>(
    alloc: Global,
    source: &Source<'_>,
    at: usize,
    item: F,
) -> Result<(List<T>, usize), OutOfMemory>
    requires callable { Callable (F.pre item) }
    requires reads { Reads (F.post item) }
    requires at { at ≤ length source.now }
    ensures { (p : Parser T) → Finds p (F.post item) → IfOk result (λ read. Found (separated p) source.now at (Some read)) }
{
    match list(alloc, source, at, item)? {
        Some(read) => Ok(read),
        None => Ok((List::new(alloc), at)),
    }
}
