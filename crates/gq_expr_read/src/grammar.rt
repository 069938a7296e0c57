// The reader: a method for each production, and what they share.
ghost use Rattle.std.specs.Prelude.{◌≤◌, length, IfOk, Some};
ghost use Rattle.gq_grammar.specs.Parsers.{Found, many, one, after, enclosed, separated};
ghost use Rattle.gq_grammar.specs.Lexemes as lexemes;
ghost use Rattle.gq_expr_read.specs.Descent as spec;
ghost use Rattle.gq_expr_read.specs.Nests.{Nests};

use crate::read::Read;
use gq_base::{List, OutOfMemory};
use gq_grammar::Source;
use gq_tree::Node;
use gq_value::Txt;
use std::alloc::Global;

#[derive(Drop)]
pub struct Grammar<'s, 'a, F> {
    pub alloc: Global,
    pub source: &'s Source<'a>,
    // How many levels expressions may still nest.
    pub levels: usize,
    pub expr: F,
}

impl<'s, 'a, F: Fn(Global, &Source<'_>, usize, usize) -> Read<Node>> Grammar<'s, 'a, F> {
    // Reads a nested expression.
    pub fn expr(&self, at: usize) -> Read<Node>
        requires nests { Nests self.now.source.now self.now.levels (F.pre self.now.expr) (F.post self.now.expr) }
        requires at { at ≤ length self.now.source.now }
        ensures { IfOk result (Found (spec.expr self.now.levels) self.now.source.now at) }
    {
        (self.expr)(self.alloc, self.source, self.levels, at)
    }

    #[tactic(auto, unfolding(gq_grammar::specs::Parsers::after))]
    fn next_argument(&self, at: usize) -> Read<Node>
        requires nests { Nests self.now.source.now self.now.levels (F.pre self.now.expr) (F.post self.now.expr) }
        requires at { at ≤ length self.now.source.now }
        ensures { IfOk result (Found (after (lexemes.sign ",") (spec.expr self.now.levels)) self.now.source.now at) }
    {
        match self.source.sign(at, ",") {
            None => Ok(None),
            Some(next) => self.expr(next),
        }
    }

    #[tactic(auto, using(gq_grammar::proofs::LoopLemmas::loops))]
    fn more_arguments(&self, from: usize) -> Result<(Vec<Node>, usize), OutOfMemory>
        requires nests { Nests self.now.source.now self.now.levels (F.pre self.now.expr) (F.post self.now.expr) }
        requires at { from ≤ length self.now.source.now }
        ensures { IfOk result (λ read. Found (many (after (lexemes.sign ",") (spec.expr self.now.levels))) self.now.source.now from (Some (read.0.items, read.1))) }
    {
        let mut found = Vec::new(self.alloc);
        let mut at = from;
        for _turn in from..self.source.len() {
            match self.next_argument(at)? {
                None => return Ok((found, at)),
                Some((item, next)) => {
                    found.push(item)?;
                    at = next;
                }
            }
        }
        Ok((found, at))
    }

    #[tactic(auto, unfolding(gq_grammar::specs::Parsers::separated))]
    fn arguments(&self, at: usize) -> Result<(List<Node>, usize), OutOfMemory>
        requires nests { Nests self.now.source.now self.now.levels (F.pre self.now.expr) (F.post self.now.expr) }
        requires at { at ≤ length self.now.source.now }
        ensures { IfOk result (λ read. Found (separated (spec.expr self.now.levels)) self.now.source.now at (Some read)) }
    {
        match self.expr(at)? {
            None => Ok((List::new(self.alloc), at)),
            Some((first, next)) => {
                let (mut all, end) = self.more_arguments(next)?;
                all.insert(0, first)?;
                Ok((List::from_vec(all), end))
            }
        }
    }

    // Reads arguments in parentheses.
    #[tactic(auto, unfolding(gq_grammar::specs::Parsers::enclosed))]
    fn call(&self, at: usize) -> Read<List<Node>>
        requires nests { Nests self.now.source.now self.now.levels (F.pre self.now.expr) (F.post self.now.expr) }
        requires at { at ≤ length self.now.source.now }
        ensures { IfOk result (Found (enclosed (separated (spec.expr self.now.levels))) self.now.source.now at) }
    {
        match self.source.sign(at, "(") {
            None => Ok(None),
            Some(open) => {
                let (arguments, next) = self.arguments(open)?;
                match self.source.sign(next, ")") {
                    None => Ok(None),
                    Some(end) => Ok(Some((arguments, end))),
                }
            }
        }
    }

    // Reads a name, and its arguments if parentheses follow it.
    #[tactic(auto, unfolding(crate::specs::Descent::name_and_arguments))]
    pub fn named(&self, at: usize) -> Read<(Txt, Option<List<Node>>)>
        requires nests { Nests self.now.source.now self.now.levels (F.pre self.now.expr) (F.post self.now.expr) }
        requires at { at ≤ length self.now.source.now }
        ensures { IfOk result (Found (spec.name_and_arguments (spec.expr self.now.levels)) self.now.source.now at) }
    {
        match self.source.name(at) {
            None => Ok(None),
            Some((name, next)) => {
                let name = Txt::of(self.alloc, name)?;
                match self.call(next)? {
                    None => Ok(Some(((name, None), next))),
                    Some((arguments, end)) => Ok(Some(((name, Some(arguments)), end))),
                }
            }
        }
    }

    #[tactic(auto, unfolding(gq_grammar::specs::Parsers::enclosed))]
    pub fn parenthesized(&self, at: usize) -> Read<Node>
        requires nests { Nests self.now.source.now self.now.levels (F.pre self.now.expr) (F.post self.now.expr) }
        requires at { at ≤ length self.now.source.now }
        ensures { IfOk result (Found (enclosed (spec.expr self.now.levels)) self.now.source.now at) }
    {
        match self.source.sign(at, "(") {
            None => Ok(None),
            Some(open) => match self.expr(open)? {
                None => Ok(None),
                Some((inner, next)) => match self.source.sign(next, ")") {
                    None => Ok(None),
                    Some(end) => Ok(Some((inner, end))),
                },
            },
        }
    }
}
