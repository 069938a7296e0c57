// Vertex sets, and chains of operators between them.
ghost use Rattle.std.specs.Prelude.{◌≤◌, length, IfOk, Some};
ghost use Rattle.std.specs.Option.{option_map};
ghost use Rattle.gq_grammar.specs.Lexemes as lexemes;
ghost use Rattle.gq_grammar.specs.Parsers.{Found, many, separated};
ghost use Rattle.gq_grammar.specs.Series.{chain};
ghost use Rattle.gq_parse_select.specs.Bodies as spec;

use gq_base::{List, OutOfMemory};
use gq_expr_read::Read;
use gq_grammar::Source;
use gq_parse_common::{global, list, name, need, of_words, run};
use gq_tree::{SeedTree, SetOp, SetTermTree, SetsTree};
use gq_value::Txt;
use std::alloc::Global;

// "." "*": the place after it
#[tactic(auto, unfolding(crate::specs::Bodies::star_parser, gq_grammar::specs::Parsers::after))]
fn star(source: &Source<'_>, at: usize) -> Option<usize>
    requires { at ≤ length source.now }
    ensures { Found spec.star_parser source.now at (option_map (λ next. (tt, next)) result) }
{
    match source.sign(at, ".") {
        None => None,
        Some(next) => source.sign(next, "*"),
    }
}

// Start = Name "." "*" | ANY [ "." "*" ] | Name | Global
#[tactic(auto, unfolding(crate::specs::Bodies::seed_parser))]
fn seed(alloc: Global, source: &Source<'_>, at: usize) -> Read<SeedTree>
    requires { at ≤ length source.now }
    ensures { IfOk result (Found spec.seed_parser source.now at) }
{
    match name(alloc, source, at)? {
        Some((name, next)) => match star(source, next) {
            Some(end) => return Ok(Some((SeedTree::Type(name), end))),
            None => return Ok(Some((SeedTree::Name(name), next))),
        },
        None => {}
    }
    match source.keyword(at, "ANY") {
        Some(next) => match star(source, next) {
            Some(end) => return Ok(Some((SeedTree::Any, end))),
            None => return Ok(Some((SeedTree::Any, next))),
        },
        None => {}
    }
    let (name, next) = need!(global(alloc, source, at)?);
    Ok(Some((SeedTree::Global(name), next)))
}

// Start { "," Start }
fn some_seeds(alloc: Global, source: &Source<'_>, at: usize) -> Read<List<SeedTree>>
    requires { at ≤ length source.now }
    ensures { IfOk result (Found (chain (lexemes.sign ",") spec.seed_parser) source.now at) }
{
    list(alloc, source, at, seed)
}

// [ Start { "," Start } ]
#[tactic(auto, unfolding(gq_grammar::specs::Parsers::separated, gq_grammar::specs::Series::chain))]
fn seed_list(
    alloc: Global,
    source: &Source<'_>,
    at: usize,
) -> Result<(List<SeedTree>, usize), OutOfMemory>
    requires { at ≤ length source.now }
    ensures { IfOk result (λ read. Found (separated spec.seed_parser) source.now at (Some read)) }
{
    match some_seeds(alloc, source, at)? {
        Some(read) => Ok(read),
        None => Ok((List::new(alloc), at)),
    }
}

// Seeds = "{" [ Start { "," Start } ] "}"
#[tactic(auto, unfolding(crate::specs::Bodies::seeds_parser, gq_grammar::specs::Parsers::after, gq_grammar::specs::Series::ended))]
fn seeds(alloc: Global, source: &Source<'_>, at: usize) -> Read<List<SeedTree>>
    requires { at ≤ length source.now }
    ensures { IfOk result (Found spec.seeds_parser source.now at) }
{
    let at = need!(source.sign(at, "{"));
    let (seeds, at) = seed_list(alloc, source, at)?;
    let at = need!(source.sign(at, "}"));
    Ok(Some((seeds, at)))
}

// SetTermTree = Name | Seeds
#[tactic(auto, unfolding(crate::specs::Bodies::term_parser))]
fn term(alloc: Global, source: &Source<'_>, at: usize) -> Read<SetTermTree>
    requires { at ≤ length source.now }
    ensures { IfOk result (Found spec.term_parser source.now at) }
{
    match name(alloc, source, at)? {
        Some((name, next)) => Ok(Some((SetTermTree::Name(name), next))),
        None => {
            let (seeds, next) = need!(seeds(alloc, source, at)?);
            Ok(Some((SetTermTree::Seeds(seeds), next)))
        }
    }
}

// SetOp = UNION | INTERSECT | MINUS
#[tactic(auto, unfolding(crate::specs::Bodies::set_op_parser, gq_grammar::specs::Parsers::stands))]
fn set_op(source: &Source<'_>, at: usize) -> Option<(SetOp, usize)>
    requires { at ≤ length source.now }
    ensures { Found spec.set_op_parser source.now at result }
{
    of_words!(source, at;
        "UNION" => SetOp::Union,
        "INTERSECT" => SetOp::Intersect,
        "MINUS" => SetOp::Minus,
    )
}

// SetOp SetTermTree
#[tactic(auto, unfolding(crate::specs::Bodies::operand_parser))]
fn operand(alloc: Global, source: &Source<'_>, at: usize) -> Read<(SetOp, SetTermTree)>
    requires { at ≤ length source.now }
    ensures { IfOk result (Found spec.operand_parser source.now at) }
{
    let (op, at) = need!(set_op(source, at));
    let (term, at) = need!(term(alloc, source, at)?);
    Ok(Some(((op, term), at)))
}

// { SetOp SetTermTree }
fn operands(
    alloc: Global,
    source: &Source<'_>,
    at: usize,
) -> Result<(Vec<(SetOp, SetTermTree)>, usize), OutOfMemory>
    requires { at ≤ length source.now }
    ensures { IfOk result (λ read. Found (many spec.operand_parser) source.now at (Some (read.0.items, read.1))) }
{
    run(alloc, source, at, operand)
}

/// `Seeds { SetOp SetTermTree }`.
#[tactic(auto, unfolding(crate::specs::Bodies::seeds_chain_parser))]
pub fn seeds_chain(alloc: Global, source: &Source<'_>, at: usize) -> Read<SetsTree>
    requires { at ≤ length source.now }
    ensures { IfOk result (Found spec.seeds_chain_parser source.now at) }
{
    let (seeds, at) = need!(seeds(alloc, source, at)?);
    let (others, at) = operands(alloc, source, at)?;
    Ok(Some((
        SetsTree {
            first: SetTermTree::Seeds(seeds),
            others: List::from_vec(others),
        },
        at,
    )))
}

/// `Name SetOp SetTermTree { SetOp SetTermTree }`.
#[tactic(auto, unfolding(crate::specs::Bodies::name_chain_parser, crate::specs::Bodies::operands_parser))]
pub fn name_chain(alloc: Global, source: &Source<'_>, at: usize) -> Read<SetsTree>
    requires { at ≤ length source.now }
    ensures { IfOk result (Found spec.name_chain_parser source.now at) }
{
    let (name, at) = need!(source.name(at));
    let (second, at) = need!(operand(alloc, source, at)?);
    let (mut others, at) = operands(alloc, source, at)?;
    others.insert(0, second)?;
    Ok(Some((
        SetsTree {
            first: SetTermTree::Name(Txt::of(alloc, name)?),
            others: List::from_vec(others),
        },
        at,
    )))
}
