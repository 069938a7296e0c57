// Acts, which may contain others.
ghost use Rattle.std.specs.Prelude.{◌≤◌, length, IfOk, Some};
ghost use Rattle.gq_grammar.specs.Lexemes as lexemes;
ghost use Rattle.gq_grammar.specs.Parsers.{Found, both, made, maybe, many, after};
ghost use Rattle.gq_grammar.specs.Acts.{if_act};
ghost use Rattle.gq_grammar.specs.Series.{chain};
ghost use Rattle.gq_parse_select.specs.Acts as spec;
ghost use Rattle.gq_parse_select.specs.Nests.{ActNests};

use crate::changes::plain_act;
use crate::stages::{chained, paired};
use gq_base::{List, OutOfMemory};
use gq_expr_read::Read;
use gq_grammar::Source;
use gq_parse_common::{expression, first_of, need};
use gq_tree::{ActTree, Node};
use std::alloc::Global;

// A condition, and the acts after it.
type Branch = (Node, List<ActTree>);

/// Reads an act that may contain others.
#[derive(Drop)]
pub struct Acts<'s, 'a, F> {
    pub alloc: Global,
    pub source: &'s Source<'a>,

    /// How many levels acts may still nest.
    pub levels: usize,

    /// Reads a nested act.
    pub inner: F,
}

impl<'s, 'a, F: Fn(Global, &Source<'_>, usize, usize) -> Read<ActTree>> Acts<'s, 'a, F> {
    // Reads a nested act.
    fn inner(&self, at: usize) -> Read<ActTree>
        requires nests { ActNests self.now.source.now self.now.levels (F.pre self.now.inner) (F.post self.now.inner) }
        requires at { at ≤ length self.now.source.now }
        ensures { IfOk result (Found (spec.nested_act_parser self.now.levels) self.now.source.now at) }
    {
        (self.inner)(self.alloc, self.source, self.levels, at)
    }

    // "," ActTree
    #[tactic(auto, unfolding(gq_grammar::specs::Parsers::after))]
    fn next_act(&self, at: usize) -> Read<ActTree>
        requires nests { ActNests self.now.source.now self.now.levels (F.pre self.now.inner) (F.post self.now.inner) }
        requires at { at ≤ length self.now.source.now }
        ensures { IfOk result (Found (after (lexemes.sign ",") (spec.nested_act_parser self.now.levels)) self.now.source.now at) }
    {
        let at = need!(self.source.sign(at, ","));
        self.inner(at)
    }

    // { "," ActTree }
    #[tactic(auto, using(gq_grammar::proofs::LoopLemmas::loops))]
    fn more_acts(&self, from: usize) -> Result<(Vec<ActTree>, usize), OutOfMemory>
        requires nests { ActNests self.now.source.now self.now.levels (F.pre self.now.inner) (F.post self.now.inner) }
        requires at { from ≤ length self.now.source.now }
        ensures { IfOk result (λ read. Found (many (after (lexemes.sign ",") (spec.nested_act_parser self.now.levels))) self.now.source.now from (Some (read.0.items, read.1))) }
    {
        let mut found = Vec::new(self.alloc);
        let mut at = from;
        for _turn in from..self.source.len() {
            match self.next_act(at)? {
                None => return Ok((found, at)),
                Some((act, next)) => {
                    found.push(act)?;
                    at = next;
                }
            }
        }
        Ok((found, at))
    }

    // ActTree { "," ActTree }
    #[tactic(auto, unfolding(gq_grammar::specs::Series::chain))]
    fn acts(&self, at: usize) -> Read<List<ActTree>>
        requires nests { ActNests self.now.source.now self.now.levels (F.pre self.now.inner) (F.post self.now.inner) }
        requires at { at ≤ length self.now.source.now }
        ensures { IfOk result (Found (chain (lexemes.sign ",") (spec.nested_act_parser self.now.levels)) self.now.source.now at) }
    {
        match self.inner(at)? {
            None => Ok(None),
            Some((first, at)) => chained(first, self.more_acts(at)),
        }
    }

    // THEN Acts
    #[tactic(auto, unfolding(gq_grammar::specs::Parsers::after))]
    fn then_acts(&self, at: usize) -> Read<List<ActTree>>
        requires nests { ActNests self.now.source.now self.now.levels (F.pre self.now.inner) (F.post self.now.inner) }
        requires at { at ≤ length self.now.source.now }
        ensures { IfOk result (Found (after (lexemes.word "THEN") (chain (lexemes.sign ",") (spec.nested_act_parser self.now.levels))) self.now.source.now at) }
    {
        let at = need!(self.source.keyword(at, "THEN"));
        self.acts(at)
    }

    // Expr THEN Acts
    #[tactic(auto, unfolding(crate::specs::Acts::act_branch_parser))]
    fn act_branch(&self, at: usize) -> Read<Branch>
        requires nests { ActNests self.now.source.now self.now.levels (F.pre self.now.inner) (F.post self.now.inner) }
        requires at { at ≤ length self.now.source.now }
        ensures { IfOk result (Found (spec.act_branch_parser (spec.nested_act_parser self.now.levels)) self.now.source.now at) }
    {
        match expression(self.alloc, self.source, at)? {
            None => Ok(None),
            Some((condition, at)) => paired(condition, self.then_acts(at)),
        }
    }

    // IF Expr THEN Acts
    #[tactic(auto, unfolding(crate::specs::Acts::if_acts_parser, gq_grammar::specs::Parsers::after))]
    fn if_acts(&self, at: usize) -> Read<Branch>
        requires nests { ActNests self.now.source.now self.now.levels (F.pre self.now.inner) (F.post self.now.inner) }
        requires at { at ≤ length self.now.source.now }
        ensures { IfOk result (Found (spec.if_acts_parser (spec.nested_act_parser self.now.levels)) self.now.source.now at) }
    {
        let at = need!(self.source.keyword(at, "IF"));
        self.act_branch(at)
    }

    // ELSE IF Expr THEN Acts
    #[tactic(auto, unfolding(gq_grammar::specs::Parsers::after))]
    fn next_branch(&self, at: usize) -> Read<Branch>
        requires nests { ActNests self.now.source.now self.now.levels (F.pre self.now.inner) (F.post self.now.inner) }
        requires at { at ≤ length self.now.source.now }
        ensures { IfOk result (Found (after (lexemes.word "ELSE") (spec.if_acts_parser (spec.nested_act_parser self.now.levels))) self.now.source.now at) }
    {
        let at = need!(self.source.keyword(at, "ELSE"));
        self.if_acts(at)
    }

    // { ELSE IF Expr THEN Acts }
    #[tactic(auto, using(gq_grammar::proofs::LoopLemmas::loops))]
    fn more_branches(&self, from: usize) -> Result<(Vec<Branch>, usize), OutOfMemory>
        requires nests { ActNests self.now.source.now self.now.levels (F.pre self.now.inner) (F.post self.now.inner) }
        requires at { from ≤ length self.now.source.now }
        ensures { IfOk result (λ read. Found (many (after (lexemes.word "ELSE") (spec.if_acts_parser (spec.nested_act_parser self.now.levels)))) self.now.source.now from (Some (read.0.items, read.1))) }
    {
        let mut found = Vec::new(self.alloc);
        let mut at = from;
        for _turn in from..self.source.len() {
            match self.next_branch(at)? {
                None => return Ok((found, at)),
                Some((branch, next)) => {
                    found.push(branch)?;
                    at = next;
                }
            }
        }
        Ok((found, at))
    }

    // Acts, if the first act isn't IF
    #[tactic(auto, unfolding(crate::specs::Acts::last_acts_parser))]
    fn last_acts(&self, at: usize) -> Read<List<ActTree>>
        requires nests { ActNests self.now.source.now self.now.levels (F.pre self.now.inner) (F.post self.now.inner) }
        requires at { at ≤ length self.now.source.now }
        ensures { IfOk result (Found (spec.last_acts_parser (spec.nested_act_parser self.now.levels)) self.now.source.now at) }
    {
        match plain_act(self.alloc, self.source, at)? {
            None => Ok(None),
            Some((first, at)) => chained(first, self.more_acts(at)),
        }
    }

    // ELSE Acts, if the first act isn't IF
    #[tactic(auto, unfolding(crate::specs::Acts::else_acts_parser, gq_grammar::specs::Parsers::after))]
    fn else_acts(&self, at: usize) -> Read<List<ActTree>>
        requires nests { ActNests self.now.source.now self.now.levels (F.pre self.now.inner) (F.post self.now.inner) }
        requires at { at ≤ length self.now.source.now }
        ensures { IfOk result (Found (spec.else_acts_parser (spec.nested_act_parser self.now.levels)) self.now.source.now at) }
    {
        let at = need!(self.source.keyword(at, "ELSE"));
        self.last_acts(at)
    }

    // [ ELSE Acts ]
    fn last_branch(&self, at: usize) -> Result<(Option<List<ActTree>>, usize), OutOfMemory>
        requires nests { ActNests self.now.source.now self.now.levels (F.pre self.now.inner) (F.post self.now.inner) }
        requires at { at ≤ length self.now.source.now }
        ensures { IfOk result (λ read. Found (maybe (spec.else_acts_parser (spec.nested_act_parser self.now.levels))) self.now.source.now at (Some read)) }
    {
        let (acts, end) = need!(self.else_acts(at)?, else (None, at));
        Ok((Some(acts), end))
    }

    // [ ELSE Acts ] END
    #[tactic(auto, unfolding(crate::specs::Acts::acts_end_parser, gq_grammar::specs::Series::ended))]
    fn acts_end(&self, at: usize) -> Read<Option<List<ActTree>>>
        requires nests { ActNests self.now.source.now self.now.levels (F.pre self.now.inner) (F.post self.now.inner) }
        requires at { at ≤ length self.now.source.now }
        ensures { IfOk result (Found (spec.acts_end_parser (spec.nested_act_parser self.now.levels)) self.now.source.now at) }
    {
        let (last, at) = self.last_branch(at)?;
        let at = need!(self.source.keyword(at, "END"));
        Ok(Some((last, at)))
    }

    // IF Expr THEN Acts { ELSE IF Expr THEN Acts }
    #[tactic(auto, unfolding(gq_grammar::specs::Series::chain))]
    fn branches(&self, at: usize) -> Read<List<Branch>>
        requires nests { ActNests self.now.source.now self.now.levels (F.pre self.now.inner) (F.post self.now.inner) }
        requires at { at ≤ length self.now.source.now }
        ensures { IfOk result (Found (chain (lexemes.word "ELSE") (spec.if_acts_parser (spec.nested_act_parser self.now.levels))) self.now.source.now at) }
    {
        match self.if_acts(at)? {
            None => Ok(None),
            Some((first, at)) => chained(first, self.more_branches(at)),
        }
    }

    // IF Expr THEN Acts { ELSE IF Expr THEN Acts } [ ELSE Acts ] END, part by part
    fn if_parts(&self, at: usize) -> Read<(List<Branch>, Option<List<ActTree>>)>
        requires nests { ActNests self.now.source.now self.now.levels (F.pre self.now.inner) (F.post self.now.inner) }
        requires at { at ≤ length self.now.source.now }
        ensures { IfOk result (Found (both (chain (lexemes.word "ELSE") (spec.if_acts_parser (spec.nested_act_parser self.now.levels))) (spec.acts_end_parser (spec.nested_act_parser self.now.levels))) self.now.source.now at) }
    {
        match self.branches(at)? {
            None => Ok(None),
            Some((branches, at)) => paired(branches, self.acts_end(at)),
        }
    }

    // IF Expr THEN Acts { ELSE IF Expr THEN Acts } [ ELSE Acts ] END
    fn if_act(&self, at: usize) -> Read<ActTree>
        requires nests { ActNests self.now.source.now self.now.levels (F.pre self.now.inner) (F.post self.now.inner) }
        requires at { at ≤ length self.now.source.now }
        ensures { IfOk result (Found (made if_act (both (spec.if_acts_parser (spec.nested_act_parser self.now.levels)) (spec.act_branches_parser (spec.nested_act_parser self.now.levels)))) self.now.source.now at) }
    {
        match self.if_parts(at)? {
            None => Ok(None),
            Some(((branches, last), at)) => Ok(Some((ActTree::If(branches, last), at))),
        }
    }

    /// Reads an act whose nested acts have one level less.
    #[tactic(auto, unfolding(crate::specs::Acts::act_in_parser))]
    pub fn act_in(&self, at: usize) -> Read<ActTree>
        requires nests { ActNests self.now.source.now self.now.levels (F.pre self.now.inner) (F.post self.now.inner) }
        requires at { at ≤ length self.now.source.now }
        ensures { IfOk result (Found (spec.act_in_parser (spec.nested_act_parser self.now.levels)) self.now.source.now at) }
    {
        first_of!(plain_act(self.alloc, self.source, at)?, self.if_act(at)?)
    }
}
