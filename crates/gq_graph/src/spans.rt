// Where rows lie in a list of values.
ghost use Rattle.std.specs.Prelude.{◌≡◌, ◌+◌, ◌*◌, ◌<◌, ◌≤◌, ◌++◌, [], ◌∷◌, length, slice_set, take, IfOk, MatchResult, IsTrue};
ghost use Rattle.gq_graph.specs.Spans.{even_spans, span_at};

use crate::row_values::Span;
use gq_base::OutOfMemory;
use std::alloc::Global;
use std::marker::Model;

/// Spans, by number. Contracts see them as a list.
///
/// The first ones take no memory: as many as have one width and lie one after the other from the first value on. In most
/// tables these are all.
#[derive(Drop)]
pub(crate) struct Spans {
    even: usize,
    width: u32,
    rest: Vec<Span>,
}

impl Model for Spans {
    ghost use Rattle.std.specs.Prelude.{◌*◌, ◌≤◌, ◌++◌, List};
    ghost use Rattle.gq_graph.specs.Spans.{even_spans};
    ghost use Rattle.gq_graph.specs.declared.row_values.Span.{Span};

    ghost Value = { List Span };

    ghost view = { λ s. even_spans s.even s.width ++ s.rest.items };

    ghost invariant = { λ s. s.even * s.width ≤ 4294967295 };
}

impl Spans {
    /// No spans.
    pub fn new(alloc: Global) -> Spans
        ensures { result ≡ [] }
    {
        Spans {
            even: 0,
            width: 0,
            rest: Vec::new(alloc),
        }
    }

    /// The span of a row.
    pub fn at(&self, number: usize) -> Span
        requires { number < length self.now }
        ensures { result ≡ span_at self.now number }
    {
        if number < self.even {
            span_of(number, self.even, self.width)
        } else {
            self.rest[number - self.even]
        }
    }

    /// Appends a span. Unchanged after OutOfMemory.
    pub fn push(&mut self, span: Span) -> Result<(), OutOfMemory>
        ensures { MatchResult result (λ _. self.new ≡ self.old ++ span ∷ []) (λ _. self.new ≡ self.old) }
    {
        if self.rest.is_empty() && goes_on(self.even, self.width, span) {
            self.even += 1;
            self.width = span.len;
            return Ok(());
        }
        self.rest.push(span)?;
        Ok(())
    }

    /// Replaces a span. Unchanged after OutOfMemory.
    pub fn set(&mut self, number: usize, span: Span) -> Result<(), OutOfMemory>
        requires { number < length self.old }
        ensures { MatchResult result (λ _. self.new ≡ slice_set self.old number span) (λ _. self.new ≡ self.old) }
    {
        if number < self.even {
            let mut all = all(*self.rest.allocator(), self.even, self.width, &self.rest)?;
            all[number] = span;
            self.rest = all;
            self.even = 0;
            return Ok(());
        }
        self.rest[number - self.even] = span;
        Ok(())
    }

    /// Keeps the first `len` spans, or all if there are fewer.
    pub fn truncate(&mut self, len: usize)
        ensures { self.new ≡ take len self.old }
    {
        self.rest.truncate(len.saturating_sub(self.even));
        self.even = self.even.min(len);
    }

    /// A copy of the spans.
    pub fn duplicate(&self, alloc: Global) -> Result<Spans, OutOfMemory>
        ensures { IfOk result (λ copy. copy ≡ self.now) }
    {
        Ok(Spans {
            even: self.even,
            width: self.width,
            rest: Vec::from_slice(alloc, &self.rest)?,
        })
    }
}

/// A list of all spans.
fn all(alloc: Global, even: usize, width: u32, rest: &[Span]) -> Result<Vec<Span>, OutOfMemory>
    requires { even * width ≤ 4294967295 }
    ensures { IfOk result (λ all. all.items ≡ even_spans even width ++ rest.now) }
{
    let mut all = Vec::new(alloc);
    for number in 0..even {
        all.push(span_of(number, even, width))?;
    }
    for span in rest {
        all.push(*span)?;
    }
    Ok(all)
}

/// A span of those that have one width.
fn span_of(number: usize, even: usize, width: u32) -> Span
    requires low { number < even }
    requires fits { even * width ≤ 4294967295 }
    ensures { result ≡ record { start = number * width; len = width } }
{
    Span {
        start: (number * width as usize) as u32,
        len: width,
    }
}

/// Whether a span is one more of that width; the first one has any.
fn goes_on(even: usize, width: u32, span: Span) -> bool
    requires { even * width ≤ 4294967295 }
    ensures { IsTrue result → (even < 4294967295) × (span.start ≡ even * span.len) × ((even + 1) * span.len ≤ 4294967295) × (even_spans even width ≡ even_spans even span.len) }
{
    even < u32::MAX as usize
        && span.start as usize == even * width as usize
        && (even == 0 || span.len == width)
        && span.start as usize + span.len as usize <= u32::MAX as usize
}
