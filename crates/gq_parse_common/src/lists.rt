// Lists of items, each read by a function parameter.
ghost use Rattle.std.specs.Prelude.{◌≡◌, ◌≤◌, length, IfOk, Some};
ghost use Rattle.gq_grammar.specs.Literals as literals;
ghost use Rattle.gq_grammar.specs.Lexemes.{Lexemes, sign};
ghost use Rattle.gq_grammar.specs.Parsers.{Parser, Found, many, after};
ghost use Rattle.gq_grammar.specs.Series.{chain};
ghost use Rattle.gq_parse_common.specs.Readers.{Callable, Finds, Reads};

use crate::need;
use gq_base::{List, OutOfMemory};
use gq_expr_read::Read;
use gq_grammar::Source;
use std::alloc::Global;

/// The items; none if they are left out.
pub fn listed<T: Drop>(alloc: Global, items: Option<List<T>>) -> List<T>
    ensures { result ≡ literals.listed items }
{
    match items {
        None => List::new(alloc),
        Some(items) => items,
    }
}

/// Reads items from `from` on until none follows, and returns the place after them.
pub fn run<T: Drop, F: Fn(Global, &Source<'_>, usize) -> Read<T>>(
    alloc: Global,
    source: &Source<'_>,
    from: usize,
    item: F,
) -> Result<(Vec<T>, usize), OutOfMemory>
    requires callable { Callable (F.pre item) }
    requires reads { Reads (F.post item) }
    requires from { from ≤ length source.now }
    ensures { (p : Parser T) → Finds p (F.post item) → IfOk result (λ read. Found (many p) source.now from (Some (read.0.items, read.1))) }
{
    let mut found = Vec::new(alloc);
    let mut at = from;
    for _turn in from..source.len() {
        match item(alloc, source, at)? {
            None => return Ok((found, at)),
            Some((item, next)) => {
                found.push(item)?;
                at = next;
            }
        }
    }
    Ok((found, at))
}

// Reads a comma and an item.
fn next_item<T: Drop, F: Fn(Global, &Source<'_>, usize) -> Read<T>>(
    alloc: Global,
    source: &Source<'_>,
    at: usize,
    item: &F,
) -> Read<T>
    requires callable { Callable (F.pre item.now) }
    requires reads { Reads (F.post item.now) }
    requires at { at ≤ length source.now }
    ensures { (p : Parser T) → Finds p (F.post item.now) → IfOk result (Found (after (sign ",") p) source.now at) }
{
    let at = need!(source.sign(at, ","));
    item(alloc, source, at)
}

fn more_items<T: Drop, F: Fn(Global, &Source<'_>, usize) -> Read<T>>(
    alloc: Global,
    source: &Source<'_>,
    from: usize,
    item: &F,
) -> Result<(Vec<T>, usize), OutOfMemory>
    requires callable { Callable (F.pre item.now) }
    requires reads { Reads (F.post item.now) }
    requires from { from ≤ length source.now }
    ensures { (p : Parser T) → Finds p (F.post item.now) → IfOk result (λ read. Found (many (after (sign ",") p)) source.now from (Some (read.0.items, read.1))) }
{
    let mut found = Vec::new(alloc);
    let mut at = from;
    for _turn in from..source.len() {
        match next_item(alloc, source, at, item)? {
            None => return Ok((found, at)),
            Some((item, next)) => {
                found.push(item)?;
                at = next;
            }
        }
    }
    Ok((found, at))
}

/// Reads one or more items separated by commas, and returns the place after them.
pub fn list<T: Drop, F: Fn(Global, &Source<'_>, usize) -> Read<T>>(
    alloc: Global,
    source: &Source<'_>,
    at: usize,
    item: F,
) -> Read<List<T>>
    requires callable { Callable (F.pre item) }
    requires reads { Reads (F.post item) }
    requires at { at ≤ length source.now }
    ensures { (p : Parser T) → Finds p (F.post item) → IfOk result (Found (chain (sign ",") p) source.now at) }
{
    let (first, at) = need!(item(alloc, source, at)?);
    let (mut all, at) = more_items(alloc, source, at, &item)?;
    all.insert(0, first)?;
    Ok(Some((List::from_vec(all), at)))
}
