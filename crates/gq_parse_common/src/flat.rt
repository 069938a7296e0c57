// Kinds that hold values of one type, or none.
ghost use Rattle.std.specs.Prelude.{◌≤◌, length, IfOk};
ghost use Rattle.gq_grammar.specs.Kinds.{plain_of};
ghost use Rattle.gq_grammar.specs.Parsers.{Found, both, made};
ghost use Rattle.gq_parse_common.specs.Kinds as spec;

use crate::bases::angled_elem;
use crate::{need, of_words};
use gq_expr_read::Read;
use gq_grammar::Source;
use gq_tree::{Bits, KindTree, Plain};
use std::alloc::Global;

// SumAccum | MinAccum | MaxAccum | SetAccum | BagAccum | ListAccum
#[tactic(auto, unfolding(crate::specs::Kinds::plain_parser, gq_grammar::specs::Parsers::one, gq_grammar::specs::Parsers::stands, gq_grammar::specs::Parsers::token))]
fn plain(source: &Source<'_>, at: usize) -> Option<(Plain, usize)>
    requires { at ≤ length source.now }
    ensures { Found spec.plain_parser source.now at result }
{
    of_words!(source, at;
        "SumAccum" => Plain::Sum,
        "MinAccum" => Plain::Min,
        "MaxAccum" => Plain::Max,
        "SetAccum" => Plain::Set,
        "BagAccum" => Plain::Bag,
        "ListAccum" => Plain::List,
    )
}

// OrAccum | AndAccum | BitwiseOrAccum | BitwiseAndAccum
#[tactic(auto, unfolding(crate::specs::Kinds::bits_parser, gq_grammar::specs::Parsers::one, gq_grammar::specs::Parsers::stands, gq_grammar::specs::Parsers::token))]
fn bits(source: &Source<'_>, at: usize) -> Option<(Bits, usize)>
    requires { at ≤ length source.now }
    ensures { Found spec.bits_parser source.now at result }
{
    of_words!(source, at;
        "OrAccum" => Bits::Or,
        "AndAccum" => Bits::And,
        "BitwiseOrAccum" => Bits::BitwiseOr,
        "BitwiseAndAccum" => Bits::BitwiseAnd,
    )
}

// ( SumAccum | .. ) "<" Elem ">"
fn plain_kind(alloc: Global, source: &Source<'_>, at: usize) -> Read<KindTree>
    requires { at ≤ length source.now }
    ensures { IfOk result (Found (made plain_of (both spec.plain_parser spec.angled_elem_parser)) source.now at) }
{
    let (plain, at) = need!(plain(source, at));
    let (elem, at) = need!(angled_elem(alloc, source, at)?);
    Ok(Some((KindTree::Plain(plain, elem), at)))
}

/// `( SumAccum | .. ) "<" Elem ">" | ( OrAccum | .. ) [ "<" Elem ">" ] | AvgAccum`.
#[tactic(auto, unfolding(crate::specs::Kinds::flat_kind_parser, gq_grammar::specs::Parsers::one, gq_grammar::specs::Parsers::stands, gq_grammar::specs::Parsers::token))]
pub fn flat_kind(alloc: Global, source: &Source<'_>, at: usize) -> Read<KindTree>
    requires { at ≤ length source.now }
    ensures { IfOk result (Found spec.flat_kind_parser source.now at) }
{
    match plain_kind(alloc, source, at)? {
        Some(read) => Ok(Some(read)),
        None => match bits(source, at) {
            Some((bits, next)) => match angled_elem(alloc, source, next)? {
                Some((elem, end)) => Ok(Some((KindTree::Bits(bits, Some(elem)), end))),
                None => Ok(Some((KindTree::Bits(bits, None), next))),
            },
            None => {
                let next = need!(source.keyword(at, "AvgAccum"));
                Ok(Some((KindTree::Avg, next)))
            }
        },
    }
}
