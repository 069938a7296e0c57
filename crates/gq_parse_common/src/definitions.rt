// The definitions before the statements of a body.
ghost use Rattle.std.specs.Prelude.{◌≤◌, length, IfOk};
ghost use Rattle.gq_grammar.specs.Kinds.{accums_of};
ghost use Rattle.gq_grammar.specs.Lexemes as lexemes;
ghost use Rattle.gq_grammar.specs.Parsers.{Found, both, made};
ghost use Rattle.gq_grammar.specs.Series.{chain};
ghost use Rattle.gq_parse_common.specs.Kinds as spec;

use crate::accums::accums;
use crate::bases::fields;
use crate::kind::kind;
use crate::words::name;
use crate::{first_of, need};
use gq_expr_read::Read;
use gq_grammar::Source;
use gq_tree::DefinitionTree;
use std::alloc::Global;

// TYPEDEF TUPLE "<" Base Name { "," Base Name } ">" Name
#[tactic(auto, unfolding(crate::specs::Kinds::tuple_parser, gq_grammar::specs::Parsers::after, gq_grammar::specs::Parsers::one, gq_grammar::specs::Parsers::token, gq_grammar::specs::Series::ended))]
fn tuple(alloc: Global, source: &Source<'_>, at: usize) -> Read<DefinitionTree>
    requires { at ≤ length source.now }
    ensures { IfOk result (Found spec.tuple_parser source.now at) }
{
    let at = need!(source.keyword(at, "TYPEDEF"));
    let at = need!(source.keyword(at, "TUPLE"));
    let at = need!(source.sign(at, "<"));
    let (fields, at) = need!(fields(alloc, source, at)?);
    let at = need!(source.sign(at, ">"));
    let (name, at) = need!(name(alloc, source, at)?);
    Ok(Some((DefinitionTree::Tuple(fields, name), at)))
}

// Kind Acc [ "=" Expr ] { "," Acc [ "=" Expr ] }, with kinds to eight levels
fn declared(alloc: Global, source: &Source<'_>, at: usize) -> Read<DefinitionTree>
    requires { at ≤ length source.now }
    ensures { IfOk result (Found (made accums_of (both (spec.kind_parser 8) (chain (lexemes.sign ",") spec.accum_parser))) source.now at) }
{
    let (kind, at) = need!(kind(alloc, source, 8, at)?);
    let (accums, at) = need!(accums(alloc, source, at)?);
    Ok(Some((DefinitionTree::Accums(kind, accums), at)))
}

/// `TYPEDEF TUPLE "<" Base Name { "," Base Name } ">" Name | Kind Acc [ "=" Expr ] { "," Acc [ "=" Expr ] }`.
#[tactic(auto, unfolding(crate::specs::Kinds::definition_parser))]
pub fn definition(alloc: Global, source: &Source<'_>, at: usize) -> Read<DefinitionTree>
    requires { at ≤ length source.now }
    ensures { IfOk result (Found spec.definition_parser source.now at) }
{
    first_of!(tuple(alloc, source, at)?, declared(alloc, source, at)?)
}
