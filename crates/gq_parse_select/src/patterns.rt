// Common parts of patterns.
ghost use Rattle.std.specs.Prelude.{◌≤◌, length, IfOk, Some};
ghost use Rattle.gq_tree.specs.declared.select.TypesTree.TheVariants as tree;
ghost use Rattle.gq_grammar.specs.Lexemes as lexemes;
ghost use Rattle.gq_grammar.specs.Parsers.{Found, token, ◌or◌, maybe, many, stands, after, enclosed};
ghost use Rattle.gq_parse_select.specs.Selects as spec;

use crate::stages::chained;
use gq_base::{List, OutOfMemory};
use gq_expr_read::Read;
use gq_grammar::Source;
use gq_parse_common::{name, need, of_words, run};
use gq_tree::TypesTree;
use gq_value::Txt;
use std::alloc::Global;

/// `":" Name`.
#[tactic(auto, unfolding(crate::specs::Selects::alias_parser, gq_grammar::specs::Parsers::after))]
pub fn alias(alloc: Global, source: &Source<'_>, at: usize) -> Read<Txt>
    requires { at ≤ length source.now }
    ensures { IfOk result (Found spec.alias_parser source.now at) }
{
    let at = need!(source.sign(at, ":"));
    name(alloc, source, at)
}

/// `[ ":" Name ]`.
pub fn some_alias(
    alloc: Global,
    source: &Source<'_>,
    at: usize,
) -> Result<(Option<Txt>, usize), OutOfMemory>
    requires { at ≤ length source.now }
    ensures { IfOk result (λ read. Found (maybe spec.alias_parser) source.now at (Some read)) }
{
    let (alias, end) = need!(alias(alloc, source, at)?, else (None, at));
    Ok((Some(alias), end))
}

// "|" Name
#[tactic(auto, unfolding(gq_grammar::specs::Parsers::after))]
fn next_name(alloc: Global, source: &Source<'_>, at: usize) -> Read<Txt>
    requires { at ≤ length source.now }
    ensures { IfOk result (Found (after (lexemes.sign "|") (token lexemes.Name lexemes.spelling)) source.now at) }
{
    let at = need!(source.sign(at, "|"));
    name(alloc, source, at)
}

// { "|" Name }
fn more_names(
    alloc: Global,
    source: &Source<'_>,
    at: usize,
) -> Result<(Vec<Txt>, usize), OutOfMemory>
    requires { at ≤ length source.now }
    ensures { IfOk result (λ read. Found (many (after (lexemes.sign "|") (token lexemes.Name lexemes.spelling))) source.now at (Some (read.0.items, read.1))) }
{
    run(alloc, source, at, next_name)
}

// Name { "|" Name }
#[tactic(auto, unfolding(crate::specs::Selects::type_names_parser, gq_grammar::specs::Series::chain))]
fn type_names(alloc: Global, source: &Source<'_>, at: usize) -> Read<List<Txt>>
    requires { at ≤ length source.now }
    ensures { IfOk result (Found spec.type_names_parser source.now at) }
{
    match name(alloc, source, at)? {
        None => Ok(None),
        Some((first, at)) => chained(first, more_names(alloc, source, at)),
    }
}

// "(" Name { "|" Name } ")"
#[tactic(auto, unfolding(gq_grammar::specs::Parsers::enclosed))]
fn enclosed_names(alloc: Global, source: &Source<'_>, at: usize) -> Read<List<Txt>>
    requires { at ≤ length source.now }
    ensures { IfOk result (Found (enclosed spec.type_names_parser) source.now at) }
{
    let at = need!(source.sign(at, "("));
    let (names, at) = need!(type_names(alloc, source, at)?);
    let at = need!(source.sign(at, ")"));
    Ok(Some((names, at)))
}

// ANY | "_"
#[tactic(auto, unfolding(gq_grammar::specs::Parsers::stands))]
fn any_types(source: &Source<'_>, at: usize) -> Option<(TypesTree, usize)>
    requires { at ≤ length source.now }
    ensures { Found (stands tree.Any (lexemes.word "ANY") or stands tree.Any (lexemes.word "_")) source.now at result }
{
    of_words!(source, at; "ANY" => TypesTree::Any, "_" => TypesTree::Any)
}

/// `TypesTree = ANY | "_" | Name { "|" Name } | "(" Name { "|" Name } ")"`.
#[tactic(auto, unfolding(crate::specs::Selects::types_parser))]
pub fn types(alloc: Global, source: &Source<'_>, at: usize) -> Read<TypesTree>
    requires { at ≤ length source.now }
    ensures { IfOk result (Found spec.types_parser source.now at) }
{
    match any_types(source, at) {
        Some(read) => Ok(Some(read)),
        None => match type_names(alloc, source, at)? {
            Some((names, next)) => Ok(Some((TypesTree::Named(names), next))),
            None => {
                let (names, next) = need!(enclosed_names(alloc, source, at)?);
                Ok(Some((TypesTree::Named(names), next)))
            }
        },
    }
}

/// `[ TypesTree ]`.
pub fn some_types(
    alloc: Global,
    source: &Source<'_>,
    at: usize,
) -> Result<(Option<TypesTree>, usize), OutOfMemory>
    requires { at ≤ length source.now }
    ensures { IfOk result (λ read. Found (maybe spec.types_parser) source.now at (Some read)) }
{
    let (types, end) = need!(types(alloc, source, at)?, else (None, at));
    Ok((Some(types), end))
}

/// `[ ":" Name ] ")"`.
#[tactic(auto, unfolding(crate::specs::Selects::edge_alias_parser, gq_grammar::specs::Series::ended))]
pub fn edge_alias(alloc: Global, source: &Source<'_>, at: usize) -> Read<Option<Txt>>
    requires { at ≤ length source.now }
    ensures { IfOk result (Found spec.edge_alias_parser source.now at) }
{
    let (alias, at) = some_alias(alloc, source, at)?;
    let at = need!(source.sign(at, ")"));
    Ok(Some((alias, at)))
}
