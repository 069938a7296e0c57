// Operands: literals, names, calls, and the parts after dots.
ghost use Rattle.std.specs.Prelude.{◌≤◌, length, IfOk, Some, replicate};
ghost use Rattle.gq_grammar.specs.Parsers.{Found, many, one};
ghost use Rattle.gq_grammar.specs.Lexemes as lexemes;
ghost use Rattle.gq_expr_read.specs.Descent as spec;
ghost use Rattle.gq_expr_read.specs.Nests.{Nests};

use crate::chains;
use crate::grammar::Grammar;
use crate::read::Read;
use gq_base::{List, OutOfMemory};
use gq_grammar::Source;
use gq_tree::{Node, Part};
use gq_value::Txt;
use std::alloc::Global;

impl<'s, 'a, F: Fn(Global, &Source<'_>, usize, usize) -> Read<Node>> Grammar<'s, 'a, F> {
    #[tactic(auto, unfolding(crate::specs::Descent::prim, gq_grammar::specs::Parsers::stands))]
    fn prim(&self, at: usize) -> Read<Node>
        requires nests { Nests self.now.source.now self.now.levels (F.pre self.now.expr) (F.post self.now.expr) }
        requires at { at ≤ length self.now.source.now }
        ensures { IfOk result (Found (spec.prim (spec.expr self.now.levels)) self.now.source.now at) }
    {
        match self.source.number(at) {
            Some((number, next)) => return Ok(Some((Node::Number(number), next))),
            None => {}
        }
        match self.source.text(at) {
            Some((said, next)) => {
                let said = Txt::of(self.alloc, said.as_str())?;
                return Ok(Some((Node::Text(said), next)));
            }
            None => {}
        }
        match self.source.keyword(at, "TRUE") {
            Some(next) => return Ok(Some((Node::Truth(true), next))),
            None => {}
        }
        match self.source.keyword(at, "FALSE") {
            Some(next) => return Ok(Some((Node::Truth(false), next))),
            None => {}
        }
        match self.source.global(at) {
            Some((name, next)) => {
                let name = Txt::of(self.alloc, name)?;
                return Ok(Some((Node::Global(name), next)));
            }
            None => {}
        }
        match self.named(at)? {
            Some(((name, arguments), next)) => Ok(Some((chains::named(name, arguments), next))),
            None => self.parenthesized(at),
        }
    }

    // Reads an accumulator of a vertex, and a `'` if there is one.
    #[tactic(auto, unfolding(crate::specs::Descent::attached))]
    fn attached(&self, at: usize) -> Read<Part>
        requires { at ≤ length self.now.source.now }
        ensures { IfOk result (Found spec.attached self.now.source.now at) }
    {
        match self.source.attached(at) {
            None => Ok(None),
            Some((name, next)) => {
                let name = Txt::of(self.alloc, name)?;
                match self.source.sign(next, "'") {
                    None => Ok(Some((Part::Attached(name), next))),
                    Some(end) => Ok(Some((Part::Before(name), end))),
                }
            }
        }
    }

    #[tactic(auto, unfolding(crate::specs::Descent::part, gq_grammar::specs::Parsers::after))]
    fn part(&self, at: usize) -> Read<Part>
        requires nests { Nests self.now.source.now self.now.levels (F.pre self.now.expr) (F.post self.now.expr) }
        requires at { at ≤ length self.now.source.now }
        ensures { IfOk result (Found (spec.part (spec.expr self.now.levels)) self.now.source.now at) }
    {
        match self.source.sign(at, ".") {
            None => Ok(None),
            Some(next) => match self.named(next)? {
                Some(((name, arguments), end)) => Ok(Some((chains::part(name, arguments), end))),
                None => self.attached(next),
            },
        }
    }

    #[tactic(auto, using(gq_grammar::proofs::LoopLemmas::loops))]
    fn parts(&self, from: usize) -> Result<(List<Part>, usize), OutOfMemory>
        requires nests { Nests self.now.source.now self.now.levels (F.pre self.now.expr) (F.post self.now.expr) }
        requires at { from ≤ length self.now.source.now }
        ensures { IfOk result (λ read. Found (many (spec.part (spec.expr self.now.levels))) self.now.source.now from (Some read)) }
    {
        let mut found = List::new(self.alloc);
        let mut at = from;
        for _turn in from..self.source.len() {
            match self.part(at)? {
                None => return Ok((found, at)),
                Some((item, next)) => {
                    found.push(item)?;
                    at = next;
                }
            }
        }
        Ok((found, at))
    }

    #[tactic(auto, unfolding(crate::specs::Descent::post))]
    pub fn post(&self, at: usize) -> Read<Node>
        requires nests { Nests self.now.source.now self.now.levels (F.pre self.now.expr) (F.post self.now.expr) }
        requires at { at ≤ length self.now.source.now }
        ensures { IfOk result (Found (spec.post (spec.expr self.now.levels)) self.now.source.now at) }
    {
        match self.prim(at)? {
            None => Ok(None),
            Some((first, next)) => {
                let (parts, end) = self.parts(next)?;
                Ok(Some((chains::post(self.alloc, first, parts)?, end)))
            }
        }
    }

    #[tactic(auto, using(gq_grammar::proofs::LoopLemmas::sign_loops))]
    fn minuses(&self, from: usize) -> (usize, usize)
        requires { from ≤ length self.now.source.now }
        ensures { Found (many (one (lexemes.sign "-"))) self.now.source.now from (Some (replicate result.0 tt, result.1)) }
    {
        let mut count = 0;
        let mut at = from;
        for _turn in from..self.source.len() {
            match self.source.sign(at, "-") {
                None => return (count, at),
                Some(next) => {
                    count += 1;
                    at = next;
                }
            }
        }
        (count, at)
    }

    #[tactic(auto, unfolding(crate::specs::Descent::neg))]
    pub fn neg(&self, at: usize) -> Read<Node>
        requires nests { Nests self.now.source.now self.now.levels (F.pre self.now.expr) (F.post self.now.expr) }
        requires at { at ≤ length self.now.source.now }
        ensures { IfOk result (Found (spec.neg (spec.expr self.now.levels)) self.now.source.now at) }
    {
        let (minuses, next) = self.minuses(at);
        match self.post(next)? {
            None => Ok(None),
            Some((operand, end)) => Ok(Some((chains::neg(self.alloc, minuses, operand)?, end))),
        }
    }
}
