// Literals, names, and other common parts of statements.
ghost use Rattle.std.specs.Prelude.{◌≤◌, length, IfOk};
ghost use Rattle.gq_grammar.specs.Literals.{number_of};
ghost use Rattle.gq_grammar.specs.Parsers.{Found, token, both, made, maybe, one};
ghost use Rattle.gq_grammar.specs.Lexemes as lexemes;
ghost use Rattle.gq_parse_common.specs.Literals.{literal_parser, setting_parser, names_parser, of_graph_parser};

use crate::lists::list;
use crate::need;
use crate::words::{name, text};
use gq_base::List;
use gq_expr_read::Read;
use gq_grammar::Source;
use gq_tree::Literal;
use gq_value::Txt;
use std::alloc::Global;

/// `Literal = [ "-" ] Number | Text | TRUE | FALSE`.
#[tactic(auto, unfolding(crate::specs::Literals::literal_parser, gq_grammar::specs::Parsers::stands))]
pub fn literal(alloc: Global, source: &Source<'_>, at: usize) -> Read<Literal>
    requires { at ≤ length source.now }
    ensures { IfOk result (Found literal_parser source.now at) }
{
    match number(source, at) {
        Some(read) => return Ok(Some(read)),
        None => {}
    }
    match text(alloc, source, at)? {
        Some((said, next)) => return Ok(Some((Literal::Text(said), next))),
        None => {}
    }
    match source.keyword(at, "TRUE") {
        Some(next) => return Ok(Some((Literal::Truth(true), next))),
        None => {}
    }
    match source.keyword(at, "FALSE") {
        Some(next) => Ok(Some((Literal::Truth(false), next))),
        None => Ok(None),
    }
}

// [ "-" ] Number
fn number(source: &Source<'_>, at: usize) -> Option<(Literal, usize)>
    requires { at ≤ length source.now }
    ensures { Found (made number_of (both (maybe (one (lexemes.sign "-"))) (token lexemes.Number lexemes.number))) source.now at result }
{
    match source.sign(at, "-") {
        Some(next) => match source.number(next) {
            Some((number, end)) => Some((Literal::Number(true, number), end)),
            None => None,
        },
        None => match source.number(at) {
            Some((number, end)) => Some((Literal::Number(false, number), end)),
            None => None,
        },
    }
}

/// `"=" Text`.
#[tactic(auto, unfolding(crate::specs::Literals::setting_parser, gq_grammar::specs::Parsers::after))]
pub fn setting(alloc: Global, source: &Source<'_>, at: usize) -> Read<Txt>
    requires { at ≤ length source.now }
    ensures { IfOk result (Found setting_parser source.now at) }
{
    let at = need!(source.sign(at, "="));
    text(alloc, source, at)
}

/// `Name { "," Name }`.
#[tactic(auto, unfolding(crate::specs::Literals::names_parser))]
pub fn names(alloc: Global, source: &Source<'_>, at: usize) -> Read<List<Txt>>
    requires { at ≤ length source.now }
    ensures { IfOk result (Found names_parser source.now at) }
{
    list(alloc, source, at, name)
}

/// `GRAPH Name`.
#[tactic(auto, unfolding(crate::specs::Literals::of_graph_parser, gq_grammar::specs::Parsers::after))]
pub fn of_graph(alloc: Global, source: &Source<'_>, at: usize) -> Read<Txt>
    requires { at ≤ length source.now }
    ensures { IfOk result (Found of_graph_parser source.now at) }
{
    let at = need!(source.keyword(at, "GRAPH"));
    name(alloc, source, at)
}
