// Inputs of accumulators.
ghost use Rattle.std.specs.Prelude.{◌≤◌, length, IfOk, Some};
ghost use Rattle.gq_grammar.specs.Lexemes as lexemes;
ghost use Rattle.gq_grammar.specs.Parsers.{Found, both, many, after};
ghost use Rattle.gq_grammar.specs.Series.{chain};
ghost use Rattle.gq_parse_common.specs.Expression as part;
ghost use Rattle.gq_parse_select.specs.Acts as spec;
ghost use Rattle.gq_parse_select.specs.Nests.{InputNests};

use crate::stages::{chained, paired};
use gq_base::{List, OutOfMemory};
use gq_expr_read::Read;
use gq_grammar::Source;
use gq_parse_common::{expression, list, need};
use gq_tree::{InputTree, Node};
use std::alloc::Global;

// Reads a key.
fn key(alloc: Global, source: &Source<'_>, at: usize) -> Read<Node>
    requires { at ≤ length source.now }
    ensures { IfOk result (Found part.expression source.now at) }
{
    expression(alloc, source, at)
}

// Expr { "," Expr }
fn keys(alloc: Global, source: &Source<'_>, at: usize) -> Read<List<Node>>
    requires { at ≤ length source.now }
    ensures { IfOk result (Found (chain (lexemes.sign ",") part.expression) source.now at) }
{
    list(alloc, source, at, key)
}

/// Reads an input that may contain others.
#[derive(Drop)]
pub struct InputReader<'s, 'a, F> {
    pub alloc: Global,
    pub source: &'s Source<'a>,

    /// How many levels inputs may still nest.
    pub levels: usize,

    /// Reads a nested input.
    pub inner: F,
}

impl<'s, 'a, F: Fn(Global, &Source<'_>, usize, usize) -> Read<InputTree>> InputReader<'s, 'a, F> {
    // Reads a nested input.
    fn inner(&self, at: usize) -> Read<InputTree>
        requires nests { InputNests self.now.source.now self.now.levels (F.pre self.now.inner) (F.post self.now.inner) }
        requires at { at ≤ length self.now.source.now }
        ensures { IfOk result (Found (spec.nested_input_parser self.now.levels) self.now.source.now at) }
    {
        (self.inner)(self.alloc, self.source, self.levels, at)
    }

    // "," In
    #[tactic(auto, unfolding(gq_grammar::specs::Parsers::after))]
    fn next_input(&self, at: usize) -> Read<InputTree>
        requires nests { InputNests self.now.source.now self.now.levels (F.pre self.now.inner) (F.post self.now.inner) }
        requires at { at ≤ length self.now.source.now }
        ensures { IfOk result (Found (after (lexemes.sign ",") (spec.nested_input_parser self.now.levels)) self.now.source.now at) }
    {
        let at = need!(self.source.sign(at, ","));
        self.inner(at)
    }

    // { "," In }
    #[tactic(auto, using(gq_grammar::proofs::LoopLemmas::loops))]
    fn more_inputs(&self, from: usize) -> Result<(Vec<InputTree>, usize), OutOfMemory>
        requires nests { InputNests self.now.source.now self.now.levels (F.pre self.now.inner) (F.post self.now.inner) }
        requires at { from ≤ length self.now.source.now }
        ensures { IfOk result (λ read. Found (many (after (lexemes.sign ",") (spec.nested_input_parser self.now.levels))) self.now.source.now from (Some (read.0.items, read.1))) }
    {
        let mut found = Vec::new(self.alloc);
        let mut at = from;
        for _turn in from..self.source.len() {
            match self.next_input(at)? {
                None => return Ok((found, at)),
                Some((input, next)) => {
                    found.push(input)?;
                    at = next;
                }
            }
        }
        Ok((found, at))
    }

    // In { "," In }
    #[tactic(auto, unfolding(gq_grammar::specs::Series::chain))]
    fn chain(&self, at: usize) -> Read<List<InputTree>>
        requires nests { InputNests self.now.source.now self.now.levels (F.pre self.now.inner) (F.post self.now.inner) }
        requires at { at ≤ length self.now.source.now }
        ensures { IfOk result (Found (chain (lexemes.sign ",") (spec.nested_input_parser self.now.levels)) self.now.source.now at) }
    {
        match self.inner(at)? {
            None => Ok(None),
            Some((first, at)) => chained(first, self.more_inputs(at)),
        }
    }

    // "->" In { "," In }
    #[tactic(auto, unfolding(crate::specs::Acts::inputs_parser, gq_grammar::specs::Parsers::after))]
    fn inputs(&self, at: usize) -> Read<List<InputTree>>
        requires nests { InputNests self.now.source.now self.now.levels (F.pre self.now.inner) (F.post self.now.inner) }
        requires at { at ≤ length self.now.source.now }
        ensures { IfOk result (Found (spec.inputs_parser (spec.nested_input_parser self.now.levels)) self.now.source.now at) }
    {
        let at = need!(self.source.sign(at, "->"));
        self.chain(at)
    }

    // Expr { "," Expr } "->" In { "," In }
    fn keyed_parts(&self, at: usize) -> Read<(List<Node>, List<InputTree>)>
        requires nests { InputNests self.now.source.now self.now.levels (F.pre self.now.inner) (F.post self.now.inner) }
        requires at { at ≤ length self.now.source.now }
        ensures { IfOk result (Found (both (chain (lexemes.sign ",") part.expression) (spec.inputs_parser (spec.nested_input_parser self.now.levels))) self.now.source.now at) }
    {
        match keys(self.alloc, self.source, at)? {
            None => Ok(None),
            Some((keys, at)) => paired(keys, self.inputs(at)),
        }
    }

    // "(" Expr { "," Expr } "->" In { "," In } ")"
    #[tactic(auto, unfolding(crate::specs::Acts::keyed_input_parser, gq_grammar::specs::Parsers::enclosed))]
    fn keyed_input(&self, at: usize) -> Read<InputTree>
        requires nests { InputNests self.now.source.now self.now.levels (F.pre self.now.inner) (F.post self.now.inner) }
        requires at { at ≤ length self.now.source.now }
        ensures { IfOk result (Found (spec.keyed_input_parser (spec.nested_input_parser self.now.levels)) self.now.source.now at) }
    {
        let at = need!(self.source.sign(at, "("));
        let ((keys, inputs), at) = need!(self.keyed_parts(at)?);
        let at = need!(self.source.sign(at, ")"));
        Ok(Some((InputTree::Keyed(keys, inputs), at)))
    }

    /// Reads an input whose nested inputs have one level less.
    #[tactic(auto, unfolding(crate::specs::Acts::input_in_parser))]
    pub fn input_in(&self, at: usize) -> Read<InputTree>
        requires nests { InputNests self.now.source.now self.now.levels (F.pre self.now.inner) (F.post self.now.inner) }
        requires at { at ≤ length self.now.source.now }
        ensures { IfOk result (Found (spec.input_in_parser (spec.nested_input_parser self.now.levels)) self.now.source.now at) }
    {
        match self.keyed_input(at)? {
            Some(read) => Ok(Some(read)),
            None => {
                let (value, next) = need!(expression(self.alloc, self.source, at)?);
                Ok(Some((InputTree::One(value), next)))
            }
        }
    }
}
