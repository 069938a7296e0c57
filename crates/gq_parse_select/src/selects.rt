// SELECT.
ghost use Rattle.std.specs.Prelude.{◌≤◌, length, IfOk};
ghost use Rattle.gq_grammar.specs.Lexemes as lexemes;
ghost use Rattle.gq_grammar.specs.Parsers.{Found, both, maybe, after, token};
ghost use Rattle.gq_parse_select.specs.Selects as spec;

use crate::parts::{accum, filter, having, limit, order, post, some_walk};
use crate::patterns::some_alias;
use crate::stages::{beside, paired};
use gq_base::List;
use gq_expr_read::Read;
use gq_grammar::Source;
use gq_parse_common::{name, need};
use gq_tree::{ActTree, Node, PatternTree, SelectTree};
use gq_value::Txt;
use std::alloc::Global;

// SELECT up to each of its parts, nested like the productions: a function for each part owns nothing at its exits.
type FromTree = ((Txt, Txt), Option<Txt>);

type WalkTree = (FromTree, Option<PatternTree>);

type FilterTree = (WalkTree, Option<Node>);

type FedTree = (FilterTree, Option<List<ActTree>>);

type ActingTree = (FedTree, Option<List<ActTree>>);

type KeptTree = (ActingTree, Option<Node>);

type OrderedTree = (KeptTree, Option<List<(Node, bool)>>);

type LimitedTree = (OrderedTree, Option<Node>);

// FROM Name
#[tactic(auto, unfolding(gq_grammar::specs::Parsers::after))]
fn from_set(alloc: Global, source: &Source<'_>, at: usize) -> Read<Txt>
    requires { at ≤ length source.now }
    ensures { IfOk result (Found (after (lexemes.word "FROM") (token lexemes.Name lexemes.spelling)) source.now at) }
{
    let at = need!(source.keyword(at, "FROM"));
    name(alloc, source, at)
}

// Name FROM Name
fn name_from(alloc: Global, source: &Source<'_>, at: usize) -> Read<(Txt, Txt)>
    requires { at ≤ length source.now }
    ensures { IfOk result (Found (both (token lexemes.Name lexemes.spelling) (after (lexemes.word "FROM") (token lexemes.Name lexemes.spelling))) source.now at) }
{
    match name(alloc, source, at)? {
        None => Ok(None),
        Some((selected, at)) => paired(selected, from_set(alloc, source, at)),
    }
}

// SELECT Name FROM Name
#[tactic(auto, unfolding(gq_grammar::specs::Parsers::after))]
fn selected(alloc: Global, source: &Source<'_>, at: usize) -> Read<(Txt, Txt)>
    requires { at ≤ length source.now }
    ensures { IfOk result (Found (after (lexemes.word "SELECT") (both (token lexemes.Name lexemes.spelling) (after (lexemes.word "FROM") (token lexemes.Name lexemes.spelling)))) source.now at) }
{
    let at = need!(source.keyword(at, "SELECT"));
    name_from(alloc, source, at)
}

// SELECT Name FROM Name [ ":" Name ]
#[tactic(auto, unfolding(crate::specs::Selects::from_parser))]
fn from(alloc: Global, source: &Source<'_>, at: usize) -> Read<FromTree>
    requires { at ≤ length source.now }
    ensures { IfOk result (Found spec.from_parser source.now at) }
{
    match selected(alloc, source, at)? {
        None => Ok(None),
        Some((selected, at)) => beside(selected, some_alias(alloc, source, at)),
    }
}

// .. [ Hop | Path ]
fn walked(alloc: Global, source: &Source<'_>, at: usize) -> Read<WalkTree>
    requires { at ≤ length source.now }
    ensures { IfOk result (Found (both spec.from_parser (maybe spec.walk_parser)) source.now at) }
{
    match from(alloc, source, at)? {
        None => Ok(None),
        Some((from, at)) => beside(from, some_walk(alloc, source, at)),
    }
}

// .. [ WHERE Expr ]
#[tactic(auto, unfolding(crate::specs::Selects::filtered_parser))]
fn filtered(alloc: Global, source: &Source<'_>, at: usize) -> Read<FilterTree>
    requires { at ≤ length source.now }
    ensures { IfOk result (Found spec.filtered_parser source.now at) }
{
    match walked(alloc, source, at)? {
        None => Ok(None),
        Some((walked, at)) => beside(walked, filter(alloc, source, at)),
    }
}

// .. [ ACCUM Acts ]
fn fed(alloc: Global, source: &Source<'_>, at: usize) -> Read<FedTree>
    requires { at ≤ length source.now }
    ensures { IfOk result (Found (both spec.filtered_parser (maybe spec.accum_acts_parser)) source.now at) }
{
    match filtered(alloc, source, at)? {
        None => Ok(None),
        Some((filtered, at)) => beside(filtered, accum(alloc, source, at)),
    }
}

// .. [ Post Acts ]
#[tactic(auto, unfolding(crate::specs::Selects::acting_parser))]
fn acting(alloc: Global, source: &Source<'_>, at: usize) -> Read<ActingTree>
    requires { at ≤ length source.now }
    ensures { IfOk result (Found spec.acting_parser source.now at) }
{
    match fed(alloc, source, at)? {
        None => Ok(None),
        Some((fed, at)) => beside(fed, post(alloc, source, at)),
    }
}

// .. [ HAVING Expr ]
fn kept(alloc: Global, source: &Source<'_>, at: usize) -> Read<KeptTree>
    requires { at ≤ length source.now }
    ensures { IfOk result (Found (both spec.acting_parser (maybe spec.having_parser)) source.now at) }
{
    match acting(alloc, source, at)? {
        None => Ok(None),
        Some((acting, at)) => beside(acting, having(alloc, source, at)),
    }
}

// .. [ ORDER BY .. ]
#[tactic(auto, unfolding(crate::specs::Selects::ordered_parser))]
fn ordered(alloc: Global, source: &Source<'_>, at: usize) -> Read<OrderedTree>
    requires { at ≤ length source.now }
    ensures { IfOk result (Found spec.ordered_parser source.now at) }
{
    match kept(alloc, source, at)? {
        None => Ok(None),
        Some((kept, at)) => beside(kept, order(alloc, source, at)),
    }
}

// .. [ LIMIT Expr ]
fn limited(alloc: Global, source: &Source<'_>, at: usize) -> Read<LimitedTree>
    requires { at ≤ length source.now }
    ensures { IfOk result (Found (both spec.ordered_parser (maybe spec.limit_parser)) source.now at) }
{
    match ordered(alloc, source, at)? {
        None => Ok(None),
        Some((ordered, at)) => beside(ordered, limit(alloc, source, at)),
    }
}

/// `Select = SELECT Name FROM Name [ ":" Name ] [ Hop | Path ] [ WHERE Expr ] [ ACCUM Acts ] [ Post Acts ] [ HAVING Expr ]
/// [ ORDER BY Expr [ ASC | DESC ] { "," Expr [ ASC | DESC ] } ] [ LIMIT Expr ]`, with `Post = POST "-" ACCUM | POST_ACCUM`.
///
/// Each IF within an IF uses some stack frames, and so does each level of parentheses.
#[tactic(auto, unfolding(crate::specs::Selects::select_parser))]
pub fn select(alloc: Global, source: &Source<'_>, at: usize) -> Read<SelectTree>
    requires { at ≤ length source.now }
    ensures { IfOk result (Found spec.select_parser source.now at) }
{
    let ((ordered, limit), at) = need!(limited(alloc, source, at)?);
    let ((acting, having), order) = ordered;
    let ((filtered, accum), post) = acting;
    let ((from, walk), filter) = filtered;
    let ((selected, set), alias) = from;
    Ok(Some((
        SelectTree {
            selected,
            source: set,
            alias,
            walk,
            filter,
            accum,
            post,
            having,
            order,
            limit,
        },
        at,
    )))
}
