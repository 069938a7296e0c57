// Sums and products.
ghost use Rattle.std.specs.Prelude.{◌≤◌, length, IfOk, Some};
ghost use Rattle.gq_grammar.specs.Parsers.{Found, many};
ghost use Rattle.gq_expr_read.specs.Descent as spec;
ghost use Rattle.gq_expr_read.specs.Nests.{Nests};

use crate::chains;
use crate::grammar::Grammar;
use crate::read::Read;
use gq_base::{List, OutOfMemory};
use gq_grammar::Source;
use gq_tree::{AddSign, MulSign, Node};
use std::alloc::Global;

impl<'s, 'a, F: Fn(Global, &Source<'_>, usize, usize) -> Read<Node>> Grammar<'s, 'a, F> {
    #[tactic(auto, using(gq_grammar::proofs::LoopLemmas::choices), unfolding(crate::specs::Descent::mul_sign))]
    fn mul_sign(&self, at: usize) -> Option<(MulSign, usize)>
        requires { at ≤ length self.now.source.now }
        ensures { Found spec.mul_sign self.now.source.now at result }
    {
        let source = self.source;
        source
            .stands(at, "*", MulSign::Times)
            .or(source.stands(at, "/", MulSign::Over))
            .or(source.stands(at, "%", MulSign::Modulo))
    }

    #[tactic(auto, unfolding(crate::specs::Descent::factor))]
    fn factor(&self, at: usize) -> Read<(MulSign, Node)>
        requires nests { Nests self.now.source.now self.now.levels (F.pre self.now.expr) (F.post self.now.expr) }
        requires at { at ≤ length self.now.source.now }
        ensures { IfOk result (Found (spec.factor (spec.expr self.now.levels)) self.now.source.now at) }
    {
        match self.mul_sign(at) {
            None => Ok(None),
            Some((sign, next)) => match self.neg(next)? {
                None => Ok(None),
                Some((operand, end)) => Ok(Some(((sign, operand), end))),
            },
        }
    }

    #[tactic(auto, using(gq_grammar::proofs::LoopLemmas::loops))]
    fn factors(&self, from: usize) -> Result<(List<(MulSign, Node)>, usize), OutOfMemory>
        requires nests { Nests self.now.source.now self.now.levels (F.pre self.now.expr) (F.post self.now.expr) }
        requires at { from ≤ length self.now.source.now }
        ensures { IfOk result (λ read. Found (many (spec.factor (spec.expr self.now.levels))) self.now.source.now from (Some read)) }
    {
        let mut found = List::new(self.alloc);
        let mut at = from;
        for _turn in from..self.source.len() {
            match self.factor(at)? {
                None => return Ok((found, at)),
                Some((item, next)) => {
                    found.push(item)?;
                    at = next;
                }
            }
        }
        Ok((found, at))
    }

    #[tactic(auto, unfolding(crate::specs::Descent::mul))]
    pub fn mul(&self, at: usize) -> Read<Node>
        requires nests { Nests self.now.source.now self.now.levels (F.pre self.now.expr) (F.post self.now.expr) }
        requires at { at ≤ length self.now.source.now }
        ensures { IfOk result (Found (spec.mul (spec.expr self.now.levels)) self.now.source.now at) }
    {
        match self.neg(at)? {
            None => Ok(None),
            Some((first, next)) => {
                let (factors, end) = self.factors(next)?;
                Ok(Some((chains::mul(self.alloc, first, factors)?, end)))
            }
        }
    }

    #[tactic(auto, using(gq_grammar::proofs::LoopLemmas::choices), unfolding(crate::specs::Descent::add_sign))]
    fn add_sign(&self, at: usize) -> Option<(AddSign, usize)>
        requires { at ≤ length self.now.source.now }
        ensures { Found spec.add_sign self.now.source.now at result }
    {
        let source = self.source;
        source
            .stands(at, "+", AddSign::Plus)
            .or(source.stands(at, "-", AddSign::Minus))
    }

    #[tactic(auto, unfolding(crate::specs::Descent::term))]
    fn term(&self, at: usize) -> Read<(AddSign, Node)>
        requires nests { Nests self.now.source.now self.now.levels (F.pre self.now.expr) (F.post self.now.expr) }
        requires at { at ≤ length self.now.source.now }
        ensures { IfOk result (Found (spec.term (spec.expr self.now.levels)) self.now.source.now at) }
    {
        match self.add_sign(at) {
            None => Ok(None),
            Some((sign, next)) => match self.mul(next)? {
                None => Ok(None),
                Some((operand, end)) => Ok(Some(((sign, operand), end))),
            },
        }
    }

    #[tactic(auto, using(gq_grammar::proofs::LoopLemmas::loops))]
    fn terms(&self, from: usize) -> Result<(List<(AddSign, Node)>, usize), OutOfMemory>
        requires nests { Nests self.now.source.now self.now.levels (F.pre self.now.expr) (F.post self.now.expr) }
        requires at { from ≤ length self.now.source.now }
        ensures { IfOk result (λ read. Found (many (spec.term (spec.expr self.now.levels))) self.now.source.now from (Some read)) }
    {
        let mut found = List::new(self.alloc);
        let mut at = from;
        for _turn in from..self.source.len() {
            match self.term(at)? {
                None => return Ok((found, at)),
                Some((item, next)) => {
                    found.push(item)?;
                    at = next;
                }
            }
        }
        Ok((found, at))
    }

    #[tactic(auto, unfolding(crate::specs::Descent::sum))]
    pub fn sum(&self, at: usize) -> Read<Node>
        requires nests { Nests self.now.source.now self.now.levels (F.pre self.now.expr) (F.post self.now.expr) }
        requires at { at ≤ length self.now.source.now }
        ensures { IfOk result (Found (spec.sum (spec.expr self.now.levels)) self.now.source.now at) }
    {
        match self.mul(at)? {
            None => Ok(None),
            Some((first, next)) => {
                let (terms, end) = self.terms(next)?;
                Ok(Some((chains::sum(self.alloc, first, terms)?, end)))
            }
        }
    }
}
