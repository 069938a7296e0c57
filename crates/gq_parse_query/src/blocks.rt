// Statements that contain others: WHILE, FOREACH, and chains of IF.
ghost use Rattle.std.specs.Prelude.{◌≤◌, length, IfOk, Some};
ghost use Rattle.gq_grammar.specs.Lexemes as lexemes;
ghost use Rattle.gq_grammar.specs.Parsers.{Found, token, both, made, many, maybe, after};
ghost use Rattle.gq_grammar.specs.Series.{chain, ended, one_and_all};
ghost use Rattle.gq_parse_common.specs.Expression as part;
ghost use Rattle.gq_parse_select.specs.Bodies as spec;
ghost use Rattle.gq_parse_query.specs.StmtNests.{Nests};

use crate::items::{closed, keep};
use crate::overs::{in_over, while_head};
use crate::prints::print;
use gq_base::{List, OutOfMemory};
use gq_expr_read::Read;
use gq_grammar::Source;
use gq_parse_common::{expression, first_of, listed, name, need};
use gq_parse_select::{assign, chained, global_change, local, paired};
use gq_tree::{Node, OverTree, Stmt};
use gq_value::Txt;
use std::alloc::Global;

// A condition, and the statements after it.
type Branch = (Node, List<Stmt>);

/// Reads a statement that may contain others.
#[derive(Drop)]
pub struct Blocks<'s, 'a, F> {
    pub alloc: Global,
    pub source: &'s Source<'a>,

    /// How many levels statements may still nest.
    pub levels: usize,

    /// Reads a nested statement.
    pub inner: F,
}

impl<'s, 'a, F: Fn(Global, &Source<'_>, usize, usize) -> Read<Stmt>> Blocks<'s, 'a, F> {
    // Reads a nested statement.
    fn inner(&self, at: usize) -> Read<Stmt>
        requires nests { Nests self.now.source.now self.now.levels (F.pre self.now.inner) (F.post self.now.inner) }
        requires at { at ≤ length self.now.source.now }
        ensures { IfOk result (Found (spec.nested_parser self.now.levels) self.now.source.now at) }
    {
        (self.inner)(self.alloc, self.source, self.levels, at)
    }

    // Stmt ";"
    fn next(&self, at: usize) -> Read<Stmt>
        requires nests { Nests self.now.source.now self.now.levels (F.pre self.now.inner) (F.post self.now.inner) }
        requires at { at ≤ length self.now.source.now }
        ensures { IfOk result (Found (ended (lexemes.sign ";") (spec.nested_parser self.now.levels)) self.now.source.now at) }
    {
        closed(self.source, self.inner(at), ";")
    }

    // { Stmt ";" }, as a vector
    #[tactic(auto, using(gq_grammar::proofs::LoopLemmas::loops, crate::proofs::ItemLemmas::kept))]
    fn more(&self, from: usize) -> Result<(Vec<Stmt>, usize), OutOfMemory>
        requires nests { Nests self.now.source.now self.now.levels (F.pre self.now.inner) (F.post self.now.inner) }
        requires at { from ≤ length self.now.source.now }
        ensures { IfOk result (λ read. Found (many (ended (lexemes.sign ";") (spec.nested_parser self.now.levels))) self.now.source.now from (Some (read.0.items, read.1))) }
    {
        let mut found = Vec::new(self.alloc);
        let mut at = from;
        for _turn in from..self.source.len() {
            match keep(&mut found, self.next(at))? {
                None => return Ok((found, at)),
                Some(next) => at = next,
            }
        }
        Ok((found, at))
    }

    // { Stmt ";" }
    #[tactic(auto, unfolding(gq_parse_select::specs::Bodies::stmts_parser))]
    fn statements(&self, at: usize) -> Result<(List<Stmt>, usize), OutOfMemory>
        requires nests { Nests self.now.source.now self.now.levels (F.pre self.now.inner) (F.post self.now.inner) }
        requires at { at ≤ length self.now.source.now }
        ensures { IfOk result (λ read. Found (spec.stmts_parser (spec.nested_parser self.now.levels)) self.now.source.now at (Some read)) }
    {
        let (found, end) = self.more(at)?;
        Ok((List::from_vec(found), end))
    }

    // DO { Stmt ";" } END
    #[tactic(auto, unfolding(gq_parse_select::specs::Bodies::do_body_parser, gq_grammar::specs::Parsers::after, gq_grammar::specs::Series::ended))]
    fn do_body(&self, at: usize) -> Read<List<Stmt>>
        requires nests { Nests self.now.source.now self.now.levels (F.pre self.now.inner) (F.post self.now.inner) }
        requires at { at ≤ length self.now.source.now }
        ensures { IfOk result (Found (spec.do_body_parser (spec.nested_parser self.now.levels)) self.now.source.now at) }
    {
        let at = need!(self.source.keyword(at, "DO"));
        let (statements, at) = self.statements(at)?;
        let at = need!(self.source.keyword(at, "END"));
        Ok(Some((statements, at)))
    }

    // WHILE Expr [ LIMIT Expr ] DO { Stmt ";" } END, part by part
    fn while_parts(&self, at: usize) -> Read<((Node, Option<Node>), List<Stmt>)>
        requires nests { Nests self.now.source.now self.now.levels (F.pre self.now.inner) (F.post self.now.inner) }
        requires at { at ≤ length self.now.source.now }
        ensures { IfOk result (Found (both (after (lexemes.word "WHILE") (both part.expression (maybe spec.limit_parser))) (spec.do_body_parser (spec.nested_parser self.now.levels))) self.now.source.now at) }
    {
        match while_head(self.alloc, self.source, at)? {
            None => Ok(None),
            Some((head, at)) => paired(head, self.do_body(at)),
        }
    }

    // WHILE Expr [ LIMIT Expr ] DO { Stmt ";" } END
    #[tactic(auto, unfolding(gq_parse_select::specs::Bodies::while_parser))]
    fn while_loop(&self, at: usize) -> Read<Stmt>
        requires nests { Nests self.now.source.now self.now.levels (F.pre self.now.inner) (F.post self.now.inner) }
        requires at { at ≤ length self.now.source.now }
        ensures { IfOk result (Found (spec.while_parser (spec.nested_parser self.now.levels)) self.now.source.now at) }
    {
        let (((condition, limit), body), at) = need!(self.while_parts(at)?);
        Ok(Some((Stmt::While(condition, limit, body), at)))
    }

    // IN ( Expr | RANGE "[" Expr "," Expr "]" ) DO { Stmt ";" } END
    fn over_body(&self, at: usize) -> Read<(OverTree, List<Stmt>)>
        requires nests { Nests self.now.source.now self.now.levels (F.pre self.now.inner) (F.post self.now.inner) }
        requires at { at ≤ length self.now.source.now }
        ensures { IfOk result (Found (both (after (lexemes.word "IN") spec.over_parser) (spec.do_body_parser (spec.nested_parser self.now.levels))) self.now.source.now at) }
    {
        match in_over(self.alloc, self.source, at)? {
            None => Ok(None),
            Some((over, at)) => paired(over, self.do_body(at)),
        }
    }

    // Name IN ( Expr | RANGE "[" Expr "," Expr "]" ) DO { Stmt ";" } END
    fn foreach_parts(&self, at: usize) -> Read<(Txt, (OverTree, List<Stmt>))>
        requires nests { Nests self.now.source.now self.now.levels (F.pre self.now.inner) (F.post self.now.inner) }
        requires at { at ≤ length self.now.source.now }
        ensures { IfOk result (Found (both (token lexemes.Name lexemes.spelling) (both (after (lexemes.word "IN") spec.over_parser) (spec.do_body_parser (spec.nested_parser self.now.levels)))) self.now.source.now at) }
    {
        match name(self.alloc, self.source, at)? {
            None => Ok(None),
            Some((name, at)) => paired(name, self.over_body(at)),
        }
    }

    // FOREACH Name IN ( Expr | RANGE "[" Expr "," Expr "]" ) DO { Stmt ";" } END
    #[tactic(auto, unfolding(gq_parse_select::specs::Bodies::foreach_parser, gq_grammar::specs::Parsers::after))]
    fn foreach(&self, at: usize) -> Read<Stmt>
        requires nests { Nests self.now.source.now self.now.levels (F.pre self.now.inner) (F.post self.now.inner) }
        requires at { at ≤ length self.now.source.now }
        ensures { IfOk result (Found (spec.foreach_parser (spec.nested_parser self.now.levels)) self.now.source.now at) }
    {
        let at = need!(self.source.keyword(at, "FOREACH"));
        let ((name, (over, body)), at) = need!(self.foreach_parts(at)?);
        Ok(Some((Stmt::Foreach(name, over, body), at)))
    }

    // A statement other than IF
    #[tactic(auto, unfolding(gq_parse_select::specs::Bodies::plain_parser))]
    fn plain(&self, at: usize) -> Read<Stmt>
        requires nests { Nests self.now.source.now self.now.levels (F.pre self.now.inner) (F.post self.now.inner) }
        requires at { at ≤ length self.now.source.now }
        ensures { IfOk result (Found (spec.plain_parser (spec.nested_parser self.now.levels)) self.now.source.now at) }
    {
        first_of!(
            local(self.alloc, self.source, at)?,
            assign(self.alloc, self.source, at)?,
            global_change(self.alloc, self.source, at)?,
            print(self.alloc, self.source, at)?,
            self.while_loop(at)?,
            self.foreach(at)?
        )
    }

    // IF Expr THEN { Stmt ";" }
    #[tactic(auto, unfolding(gq_parse_select::specs::Bodies::if_branch_parser, gq_parse_select::specs::Bodies::branch_parser, gq_grammar::specs::Parsers::after))]
    fn branch(&self, at: usize) -> Read<Branch>
        requires nests { Nests self.now.source.now self.now.levels (F.pre self.now.inner) (F.post self.now.inner) }
        requires at { at ≤ length self.now.source.now }
        ensures { IfOk result (Found (spec.if_branch_parser (spec.nested_parser self.now.levels)) self.now.source.now at) }
    {
        let at = need!(self.source.keyword(at, "IF"));
        let (condition, at) = need!(expression(self.alloc, self.source, at)?);
        let at = need!(self.source.keyword(at, "THEN"));
        let (statements, at) = self.statements(at)?;
        Ok(Some(((condition, statements), at)))
    }

    // ELSE IF Expr THEN { Stmt ";" }
    #[tactic(auto, unfolding(gq_grammar::specs::Parsers::after))]
    fn else_if(&self, at: usize) -> Read<Branch>
        requires nests { Nests self.now.source.now self.now.levels (F.pre self.now.inner) (F.post self.now.inner) }
        requires at { at ≤ length self.now.source.now }
        ensures { IfOk result (Found (after (lexemes.word "ELSE") (spec.if_branch_parser (spec.nested_parser self.now.levels))) self.now.source.now at) }
    {
        let at = need!(self.source.keyword(at, "ELSE"));
        self.branch(at)
    }

    // { ELSE IF Expr THEN { Stmt ";" } }
    #[tactic(auto, using(gq_grammar::proofs::LoopLemmas::loops))]
    fn else_ifs(&self, from: usize) -> Result<(Vec<Branch>, usize), OutOfMemory>
        requires nests { Nests self.now.source.now self.now.levels (F.pre self.now.inner) (F.post self.now.inner) }
        requires at { from ≤ length self.now.source.now }
        ensures { IfOk result (λ read. Found (many (after (lexemes.word "ELSE") (spec.if_branch_parser (spec.nested_parser self.now.levels)))) self.now.source.now from (Some (read.0.items, read.1))) }
    {
        let mut found = Vec::new(self.alloc);
        let mut at = from;
        for _turn in from..self.source.len() {
            match self.else_if(at)? {
                None => return Ok((found, at)),
                Some((branch, next)) => {
                    found.push(branch)?;
                    at = next;
                }
            }
        }
        Ok((found, at))
    }

    // Stmt ";", if the statement isn't IF
    fn first_plain(&self, at: usize) -> Read<Stmt>
        requires nests { Nests self.now.source.now self.now.levels (F.pre self.now.inner) (F.post self.now.inner) }
        requires at { at ≤ length self.now.source.now }
        ensures { IfOk result (Found (ended (lexemes.sign ";") (spec.plain_parser (spec.nested_parser self.now.levels))) self.now.source.now at) }
    {
        closed(self.source, self.plain(at), ";")
    }

    // Stmt ";" { Stmt ";" }, if the first statement isn't IF
    fn plain_and_more(&self, at: usize) -> Read<List<Stmt>>
        requires nests { Nests self.now.source.now self.now.levels (F.pre self.now.inner) (F.post self.now.inner) }
        requires at { at ≤ length self.now.source.now }
        ensures { IfOk result (Found (made one_and_all (both (ended (lexemes.sign ";") (spec.plain_parser (spec.nested_parser self.now.levels))) (many (ended (lexemes.sign ";") (spec.nested_parser self.now.levels))))) self.now.source.now at) }
    {
        match self.first_plain(at)? {
            None => Ok(None),
            Some((first, at)) => chained(first, self.more(at)),
        }
    }

    // [ Stmt ";" { Stmt ";" } ], if the first statement isn't IF
    fn some_plain_and_more(&self, at: usize) -> Result<(Option<List<Stmt>>, usize), OutOfMemory>
        requires nests { Nests self.now.source.now self.now.levels (F.pre self.now.inner) (F.post self.now.inner) }
        requires at { at ≤ length self.now.source.now }
        ensures { IfOk result (λ read. Found (maybe (made one_and_all (both (ended (lexemes.sign ";") (spec.plain_parser (spec.nested_parser self.now.levels))) (many (ended (lexemes.sign ";") (spec.nested_parser self.now.levels)))))) self.now.source.now at (Some read)) }
    {
        let (statements, end) = need!(self.plain_and_more(at)?, else (None, at));
        Ok((Some(statements), end))
    }

    // ELSE { Stmt ";" }, if the first statement isn't IF
    #[tactic(auto, unfolding(gq_parse_select::specs::Bodies::else_parser))]
    fn else_branch(&self, at: usize) -> Read<List<Stmt>>
        requires nests { Nests self.now.source.now self.now.levels (F.pre self.now.inner) (F.post self.now.inner) }
        requires at { at ≤ length self.now.source.now }
        ensures { IfOk result (Found (spec.else_parser (spec.nested_parser self.now.levels)) self.now.source.now at) }
    {
        match self.source.keyword(at, "ELSE") {
            None => Ok(None),
            Some(next) => {
                let (statements, end) = self.some_plain_and_more(next)?;
                Ok(Some((listed(self.alloc, statements), end)))
            }
        }
    }

    // [ ELSE { Stmt ";" } ]
    fn last_branch(&self, at: usize) -> Result<(Option<List<Stmt>>, usize), OutOfMemory>
        requires nests { Nests self.now.source.now self.now.levels (F.pre self.now.inner) (F.post self.now.inner) }
        requires at { at ≤ length self.now.source.now }
        ensures { IfOk result (λ read. Found (maybe (spec.else_parser (spec.nested_parser self.now.levels))) self.now.source.now at (Some read)) }
    {
        let (statements, end) = need!(self.else_branch(at)?, else (None, at));
        Ok((Some(statements), end))
    }

    // [ ELSE { Stmt ";" } ] END
    #[tactic(auto, unfolding(gq_parse_select::specs::Bodies::if_end_parser, gq_grammar::specs::Series::ended))]
    fn if_end(&self, at: usize) -> Read<Option<List<Stmt>>>
        requires nests { Nests self.now.source.now self.now.levels (F.pre self.now.inner) (F.post self.now.inner) }
        requires at { at ≤ length self.now.source.now }
        ensures { IfOk result (Found (spec.if_end_parser (spec.nested_parser self.now.levels)) self.now.source.now at) }
    {
        let (last, at) = self.last_branch(at)?;
        let at = need!(self.source.keyword(at, "END"));
        Ok(Some((last, at)))
    }

    // IF Expr THEN { Stmt ";" } { ELSE IF Expr THEN { Stmt ";" } }
    #[tactic(auto, unfolding(gq_grammar::specs::Series::chain))]
    fn branches(&self, at: usize) -> Read<List<Branch>>
        requires nests { Nests self.now.source.now self.now.levels (F.pre self.now.inner) (F.post self.now.inner) }
        requires at { at ≤ length self.now.source.now }
        ensures { IfOk result (Found (chain (lexemes.word "ELSE") (spec.if_branch_parser (spec.nested_parser self.now.levels))) self.now.source.now at) }
    {
        match self.branch(at)? {
            None => Ok(None),
            Some((first, at)) => chained(first, self.else_ifs(at)),
        }
    }

    // IF Expr THEN { Stmt ";" } { ELSE IF Expr THEN { Stmt ";" } } [ ELSE { Stmt ";" } ] END, part by part
    fn if_parts(&self, at: usize) -> Read<(List<Branch>, Option<List<Stmt>>)>
        requires nests { Nests self.now.source.now self.now.levels (F.pre self.now.inner) (F.post self.now.inner) }
        requires at { at ≤ length self.now.source.now }
        ensures { IfOk result (Found (both (chain (lexemes.word "ELSE") (spec.if_branch_parser (spec.nested_parser self.now.levels))) (spec.if_end_parser (spec.nested_parser self.now.levels))) self.now.source.now at) }
    {
        match self.branches(at)? {
            None => Ok(None),
            Some((branches, at)) => paired(branches, self.if_end(at)),
        }
    }

    // IF Expr THEN { Stmt ";" } { ELSE IF Expr THEN { Stmt ";" } } [ ELSE { Stmt ";" } ] END
    fn if_chain(&self, at: usize) -> Read<Stmt>
        requires nests { Nests self.now.source.now self.now.levels (F.pre self.now.inner) (F.post self.now.inner) }
        requires at { at ≤ length self.now.source.now }
        ensures { IfOk result (Found (spec.if_parser (spec.nested_parser self.now.levels)) self.now.source.now at) }
    {
        match self.if_parts(at)? {
            None => Ok(None),
            Some(((branches, last), at)) => Ok(Some((Stmt::If(branches, last), at))),
        }
    }

    /// Reads a statement whose nested statements have one level less.
    #[tactic(auto, unfolding(gq_parse_select::specs::Bodies::stmt_in_parser))]
    pub fn statement_in(&self, at: usize) -> Read<Stmt>
        requires nests { Nests self.now.source.now self.now.levels (F.pre self.now.inner) (F.post self.now.inner) }
        requires at { at ≤ length self.now.source.now }
        ensures { IfOk result (Found (spec.stmt_in_parser (spec.nested_parser self.now.levels)) self.now.source.now at) }
    {
        first_of!(self.plain(at)?, self.if_chain(at)?)
    }
}
