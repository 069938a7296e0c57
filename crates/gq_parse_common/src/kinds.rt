// Kinds that contain others.
ghost use Rattle.std.specs.Prelude.{◌≤◌, length, IfOk, Some};
ghost use Rattle.gq_grammar.specs.Lexemes as lexemes;
ghost use Rattle.gq_grammar.specs.Parsers.{Found, many, after};
ghost use Rattle.gq_grammar.specs.Series.{chain};
ghost use Rattle.gq_parse_common.specs.Kinds as spec;
ghost use Rattle.gq_parse_common.specs.KindNests.{Nests};

use crate::bases::{elem, field, more_fields};
use crate::flat::flat_kind;
use crate::heaps::heap_kind;
use crate::words::name;
use crate::{first_of, need};
use gq_base::{Boxed, List, OutOfMemory};
use gq_expr_read::Read;
use gq_grammar::Source;
use gq_tree::{EntryTree, KindTree};
use gq_value::Txt;
use std::alloc::Global;

/// Reads a kind that may contain others.
#[derive(Drop)]
pub struct Kinds<'s, 'a, F> {
    pub alloc: Global,
    pub source: &'s Source<'a>,

    /// How many levels kinds may still nest.
    pub levels: usize,

    /// Reads a nested kind.
    pub inner: F,
}

impl<'s, 'a, F: Fn(Global, &Source<'_>, usize, usize) -> Read<KindTree>> Kinds<'s, 'a, F> {
    // Reads a nested kind.
    fn inner(&self, at: usize) -> Read<KindTree>
        requires nests { Nests self.now.source.now self.now.levels (F.pre self.now.inner) (F.post self.now.inner) }
        requires at { at ≤ length self.now.source.now }
        ensures { IfOk result (Found (spec.kind_parser self.now.levels) self.now.source.now at) }
    {
        (self.inner)(self.alloc, self.source, self.levels, at)
    }

    // Elem | Kind
    #[tactic(auto, unfolding(crate::specs::Kinds::held_parser))]
    fn held(&self, at: usize) -> Read<EntryTree>
        requires nests { Nests self.now.source.now self.now.levels (F.pre self.now.inner) (F.post self.now.inner) }
        requires at { at ≤ length self.now.source.now }
        ensures { IfOk result (Found (spec.held_parser (spec.kind_parser self.now.levels)) self.now.source.now at) }
    {
        match elem(self.alloc, self.source, at)? {
            Some((elem, next)) => Ok(Some((EntryTree::Elem(elem), next))),
            None => {
                let (kind, next) = need!(self.inner(at)?);
                Ok(Some((EntryTree::Kind(Boxed::new(self.alloc, kind)?), next)))
            }
        }
    }

    // MapAccum "<" Elem "," ( Elem | Kind ) ">"
    #[tactic(auto, unfolding(crate::specs::Kinds::map_kind_parser, gq_grammar::specs::Parsers::after, gq_grammar::specs::Parsers::one, gq_grammar::specs::Parsers::token, gq_grammar::specs::Series::ended))]
    fn map_kind(&self, at: usize) -> Read<KindTree>
        requires nests { Nests self.now.source.now self.now.levels (F.pre self.now.inner) (F.post self.now.inner) }
        requires at { at ≤ length self.now.source.now }
        ensures { IfOk result (Found (spec.map_kind_parser (spec.kind_parser self.now.levels)) self.now.source.now at) }
    {
        let at = need!(self.source.keyword(at, "MapAccum"));
        let at = need!(self.source.sign(at, "<"));
        let (key, at) = need!(elem(self.alloc, self.source, at)?);
        let at = need!(self.source.sign(at, ","));
        let (held, at) = need!(self.held(at)?);
        let at = need!(self.source.sign(at, ">"));
        Ok(Some((KindTree::Map(key, held), at)))
    }

    // Kind Name
    #[tactic(auto, unfolding(crate::specs::Kinds::group_part_parser))]
    fn part(&self, at: usize) -> Read<(KindTree, Txt)>
        requires nests { Nests self.now.source.now self.now.levels (F.pre self.now.inner) (F.post self.now.inner) }
        requires at { at ≤ length self.now.source.now }
        ensures { IfOk result (Found (spec.group_part_parser (spec.kind_parser self.now.levels)) self.now.source.now at) }
    {
        let (kind, at) = need!(self.inner(at)?);
        let (name, at) = need!(name(self.alloc, self.source, at)?);
        Ok(Some(((kind, name), at)))
    }

    // "," Kind Name
    #[tactic(auto, unfolding(gq_grammar::specs::Parsers::after))]
    fn next_part(&self, at: usize) -> Read<(KindTree, Txt)>
        requires nests { Nests self.now.source.now self.now.levels (F.pre self.now.inner) (F.post self.now.inner) }
        requires at { at ≤ length self.now.source.now }
        ensures { IfOk result (Found (after (lexemes.sign ",") (spec.group_part_parser (spec.kind_parser self.now.levels))) self.now.source.now at) }
    {
        let at = need!(self.source.sign(at, ","));
        self.part(at)
    }

    // { "," Kind Name }
    #[tactic(auto, using(gq_grammar::proofs::LoopLemmas::loops))]
    fn more_parts(&self, from: usize) -> Result<(Vec<(KindTree, Txt)>, usize), OutOfMemory>
        requires nests { Nests self.now.source.now self.now.levels (F.pre self.now.inner) (F.post self.now.inner) }
        requires at { from ≤ length self.now.source.now }
        ensures { IfOk result (λ read. Found (many (after (lexemes.sign ",") (spec.group_part_parser (spec.kind_parser self.now.levels)))) self.now.source.now from (Some (read.0.items, read.1))) }
    {
        let mut found = Vec::new(self.alloc);
        let mut at = from;
        for _turn in from..self.source.len() {
            match self.next_part(at)? {
                None => return Ok((found, at)),
                Some((part, next)) => {
                    found.push(part)?;
                    at = next;
                }
            }
        }
        Ok((found, at))
    }

    // Kind Name { "," Kind Name }
    #[tactic(auto, unfolding(gq_grammar::specs::Series::chain))]
    fn parts(&self, at: usize) -> Read<List<(KindTree, Txt)>>
        requires nests { Nests self.now.source.now self.now.levels (F.pre self.now.inner) (F.post self.now.inner) }
        requires at { at ≤ length self.now.source.now }
        ensures { IfOk result (Found (chain (lexemes.sign ",") (spec.group_part_parser (spec.kind_parser self.now.levels))) self.now.source.now at) }
    {
        let (first, at) = need!(self.part(at)?);
        let (mut all, at) = self.more_parts(at)?;
        all.insert(0, first)?;
        Ok(Some((List::from_vec(all), at)))
    }

    // GroupByAccum "<" Base Name { "," Base Name } "," Kind Name { "," Kind Name } ">"
    #[tactic(auto, unfolding(crate::specs::Kinds::group_kind_parser, crate::specs::Kinds::group_rest_parser, crate::specs::Kinds::group_parts_parser, gq_grammar::specs::Parsers::after, gq_grammar::specs::Parsers::one, gq_grammar::specs::Parsers::token, gq_grammar::specs::Series::ended))]
    fn group_kind(&self, at: usize) -> Read<KindTree>
        requires nests { Nests self.now.source.now self.now.levels (F.pre self.now.inner) (F.post self.now.inner) }
        requires at { at ≤ length self.now.source.now }
        ensures { IfOk result (Found (spec.group_kind_parser (spec.kind_parser self.now.levels)) self.now.source.now at) }
    {
        let at = need!(self.source.keyword(at, "GroupByAccum"));
        let at = need!(self.source.sign(at, "<"));
        let (first, at) = need!(field(self.alloc, self.source, at)?);
        let (mut keys, at) = more_fields(self.alloc, self.source, at)?;
        let at = need!(self.source.sign(at, ","));
        let (parts, at) = need!(self.parts(at)?);
        let at = need!(self.source.sign(at, ">"));
        keys.insert(0, first)?;
        Ok(Some((KindTree::Group(List::from_vec(keys), parts), at)))
    }

    /// Reads a kind whose nested kinds have one level less.
    #[tactic(auto, unfolding(crate::specs::Kinds::kind_in_parser))]
    pub fn kind_in(&self, at: usize) -> Read<KindTree>
        requires nests { Nests self.now.source.now self.now.levels (F.pre self.now.inner) (F.post self.now.inner) }
        requires at { at ≤ length self.now.source.now }
        ensures { IfOk result (Found (spec.kind_in_parser (spec.kind_parser self.now.levels)) self.now.source.now at) }
    {
        first_of!(
            flat_kind(self.alloc, self.source, at)?,
            heap_kind(self.alloc, self.source, at)?,
            self.map_kind(at)?,
            self.group_kind(at)?
        )
    }
}
