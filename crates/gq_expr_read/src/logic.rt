// Comparisons, NOT, AND and OR.
ghost use Rattle.std.specs.Prelude.{◌≤◌, length, IfOk, Some, replicate};
ghost use Rattle.gq_grammar.specs.Parsers.{Found, many, one, after};
ghost use Rattle.gq_grammar.specs.Lexemes as lexemes;
ghost use Rattle.gq_expr_read.specs.Descent as spec;
ghost use Rattle.gq_expr_read.specs.Nests.{Nests};

use crate::chains;
use crate::grammar::Grammar;
use crate::read::Read;
use gq_base::{List, OutOfMemory};
use gq_grammar::Source;
use gq_tree::{CmpSign, Node};
use std::alloc::Global;

impl<'s, 'a, F: Fn(Global, &Source<'_>, usize, usize) -> Read<Node>> Grammar<'s, 'a, F> {
    #[tactic(auto, using(gq_grammar::proofs::LoopLemmas::choices), unfolding(crate::specs::Descent::cmp_sign))]
    fn cmp_sign(&self, at: usize) -> Option<(CmpSign, usize)>
        requires { at ≤ length self.now.source.now }
        ensures { Found spec.cmp_sign self.now.source.now at result }
    {
        let source = self.source;
        source
            .stands(at, "==", CmpSign::Equal)
            .or(source.stands(at, "!=", CmpSign::NotEqual))
            .or(source.stands(at, "<>", CmpSign::NotEqual))
            .or(source.stands(at, "<", CmpSign::Less))
            .or(source.stands(at, "<=", CmpSign::LessOrEqual))
            .or(source.stands(at, ">", CmpSign::Greater))
            .or(source.stands(at, ">=", CmpSign::GreaterOrEqual))
    }

    #[tactic(auto, unfolding(crate::specs::Descent::compared))]
    fn compared(&self, at: usize) -> Read<(CmpSign, Node)>
        requires nests { Nests self.now.source.now self.now.levels (F.pre self.now.expr) (F.post self.now.expr) }
        requires at { at ≤ length self.now.source.now }
        ensures { IfOk result (Found (spec.compared (spec.expr self.now.levels)) self.now.source.now at) }
    {
        match self.cmp_sign(at) {
            None => Ok(None),
            Some((sign, next)) => match self.sum(next)? {
                None => Ok(None),
                Some((operand, end)) => Ok(Some(((sign, operand), end))),
            },
        }
    }

    #[tactic(auto, unfolding(crate::specs::Descent::cmp))]
    fn cmp(&self, at: usize) -> Read<Node>
        requires nests { Nests self.now.source.now self.now.levels (F.pre self.now.expr) (F.post self.now.expr) }
        requires at { at ≤ length self.now.source.now }
        ensures { IfOk result (Found (spec.cmp (spec.expr self.now.levels)) self.now.source.now at) }
    {
        match self.sum(at)? {
            None => Ok(None),
            Some((left, next)) => match self.compared(next)? {
                None => Ok(Some((left, next))),
                Some(((sign, right), end)) => Ok(Some((
                    chains::cmp(self.alloc, left, sign, right)?,
                    end,
                ))),
            },
        }
    }

    #[tactic(auto, using(gq_grammar::proofs::LoopLemmas::sign_loops))]
    fn nots(&self, from: usize) -> (usize, usize)
        requires { from ≤ length self.now.source.now }
        ensures { Found (many (one (lexemes.word "NOT"))) self.now.source.now from (Some (replicate result.0 tt, result.1)) }
    {
        let mut count = 0;
        let mut at = from;
        for _turn in from..self.source.len() {
            match self.source.keyword(at, "NOT") {
                None => return (count, at),
                Some(next) => {
                    count += 1;
                    at = next;
                }
            }
        }
        (count, at)
    }

    #[tactic(auto, unfolding(crate::specs::Descent::negation))]
    pub fn negation(&self, at: usize) -> Read<Node>
        requires nests { Nests self.now.source.now self.now.levels (F.pre self.now.expr) (F.post self.now.expr) }
        requires at { at ≤ length self.now.source.now }
        ensures { IfOk result (Found (spec.negation (spec.expr self.now.levels)) self.now.source.now at) }
    {
        let (nots, next) = self.nots(at);
        match self.cmp(next)? {
            None => Ok(None),
            Some((operand, end)) => Ok(Some((chains::not(self.alloc, nots, operand)?, end))),
        }
    }

    #[tactic(auto, unfolding(gq_grammar::specs::Parsers::after))]
    fn next_negation(&self, at: usize) -> Read<Node>
        requires nests { Nests self.now.source.now self.now.levels (F.pre self.now.expr) (F.post self.now.expr) }
        requires at { at ≤ length self.now.source.now }
        ensures { IfOk result (Found (after (lexemes.word "AND") (spec.negation (spec.expr self.now.levels))) self.now.source.now at) }
    {
        match self.source.keyword(at, "AND") {
            None => Ok(None),
            Some(next) => self.negation(next),
        }
    }

    #[tactic(auto, using(gq_grammar::proofs::LoopLemmas::loops))]
    fn negations(&self, from: usize) -> Result<(List<Node>, usize), OutOfMemory>
        requires nests { Nests self.now.source.now self.now.levels (F.pre self.now.expr) (F.post self.now.expr) }
        requires at { from ≤ length self.now.source.now }
        ensures { IfOk result (λ read. Found (many (after (lexemes.word "AND") (spec.negation (spec.expr self.now.levels)))) self.now.source.now from (Some read)) }
    {
        let mut found = List::new(self.alloc);
        let mut at = from;
        for _turn in from..self.source.len() {
            match self.next_negation(at)? {
                None => return Ok((found, at)),
                Some((item, next)) => {
                    found.push(item)?;
                    at = next;
                }
            }
        }
        Ok((found, at))
    }

    #[tactic(auto, unfolding(crate::specs::Descent::conjunction))]
    pub fn conjunction(&self, at: usize) -> Read<Node>
        requires nests { Nests self.now.source.now self.now.levels (F.pre self.now.expr) (F.post self.now.expr) }
        requires at { at ≤ length self.now.source.now }
        ensures { IfOk result (Found (spec.conjunction (spec.expr self.now.levels)) self.now.source.now at) }
    {
        match self.negation(at)? {
            None => Ok(None),
            Some((first, next)) => {
                let (negations, end) = self.negations(next)?;
                Ok(Some((chains::and(self.alloc, first, negations)?, end)))
            }
        }
    }

    #[tactic(auto, unfolding(gq_grammar::specs::Parsers::after))]
    fn next_conjunction(&self, at: usize) -> Read<Node>
        requires nests { Nests self.now.source.now self.now.levels (F.pre self.now.expr) (F.post self.now.expr) }
        requires at { at ≤ length self.now.source.now }
        ensures { IfOk result (Found (after (lexemes.word "OR") (spec.conjunction (spec.expr self.now.levels))) self.now.source.now at) }
    {
        match self.source.keyword(at, "OR") {
            None => Ok(None),
            Some(next) => self.conjunction(next),
        }
    }

    #[tactic(auto, using(gq_grammar::proofs::LoopLemmas::loops))]
    fn conjunctions(&self, from: usize) -> Result<(List<Node>, usize), OutOfMemory>
        requires nests { Nests self.now.source.now self.now.levels (F.pre self.now.expr) (F.post self.now.expr) }
        requires at { from ≤ length self.now.source.now }
        ensures { IfOk result (λ read. Found (many (after (lexemes.word "OR") (spec.conjunction (spec.expr self.now.levels)))) self.now.source.now from (Some read)) }
    {
        let mut found = List::new(self.alloc);
        let mut at = from;
        for _turn in from..self.source.len() {
            match self.next_conjunction(at)? {
                None => return Ok((found, at)),
                Some((item, next)) => {
                    found.push(item)?;
                    at = next;
                }
            }
        }
        Ok((found, at))
    }

    #[tactic(auto, unfolding(crate::specs::Descent::disjunction))]
    pub fn disjunction(&self, at: usize) -> Read<Node>
        requires nests { Nests self.now.source.now self.now.levels (F.pre self.now.expr) (F.post self.now.expr) }
        requires at { at ≤ length self.now.source.now }
        ensures { IfOk result (Found (spec.disjunction (spec.expr self.now.levels)) self.now.source.now at) }
    {
        match self.conjunction(at)? {
            None => Ok(None),
            Some((first, next)) => {
                let (conjunctions, end) = self.conjunctions(next)?;
                Ok(Some((chains::or(self.alloc, first, conjunctions)?, end)))
            }
        }
    }
}
