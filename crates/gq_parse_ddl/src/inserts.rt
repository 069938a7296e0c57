// INSERT.
ghost use Rattle.std.specs.Prelude.{◌≤◌, length, IfOk};
ghost use Rattle.gq_grammar.specs.Lexemes as lexemes;
ghost use Rattle.gq_grammar.specs.Parsers.{Found};
ghost use Rattle.gq_grammar.specs.Series.{chain};
ghost use Rattle.gq_parse_ddl.specs.Schema as spec;

use gq_base::List;
use gq_expr_read::Read;
use gq_grammar::Source;
use gq_parse_common::{list, literal, name, need};
use gq_tree::{InsertTree, Literal};
use std::alloc::Global;

// Val = Literal | "_"
#[tactic(auto, unfolding(crate::specs::Schema::insert_value_parser, gq_grammar::specs::Parsers::stands))]
fn value(alloc: Global, source: &Source<'_>, at: usize) -> Read<Option<Literal>>
    requires { at ≤ length source.now }
    ensures { IfOk result (Found spec.insert_value_parser source.now at) }
{
    match literal(alloc, source, at)? {
        Some((literal, next)) => Ok(Some((Some(literal), next))),
        None => {
            let next = need!(source.keyword(at, "_"));
            Ok(Some((None, next)))
        }
    }
}

// Val { "," Val }
fn values(alloc: Global, source: &Source<'_>, at: usize) -> Read<List<Option<Literal>>>
    requires { at ≤ length source.now }
    ensures { IfOk result (Found (chain (lexemes.sign ",") spec.insert_value_parser) source.now at) }
{
    list(alloc, source, at, value)
}

/// `INSERT INTO Name VALUES "(" Val { "," Val } ")"`.
#[tactic(auto, unfolding(crate::specs::Schema::insert_parser, crate::specs::Schema::insert_values_parser, gq_grammar::specs::Parsers::after, gq_grammar::specs::Parsers::enclosed))]
pub fn insert(alloc: Global, source: &Source<'_>, at: usize) -> Read<InsertTree>
    requires { at ≤ length source.now }
    ensures { IfOk result (Found spec.insert_parser source.now at) }
{
    let at = need!(source.keyword(at, "INSERT"));
    let at = need!(source.keyword(at, "INTO"));
    let (name, at) = need!(name(alloc, source, at)?);
    let at = need!(source.keyword(at, "VALUES"));
    let at = need!(source.sign(at, "("));
    let (values, at) = need!(values(alloc, source, at)?);
    let at = need!(source.sign(at, ")"));
    Ok(Some((InsertTree { name, values }, at)))
}
