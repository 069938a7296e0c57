// The destinations of the lines of a file.
ghost use Rattle.std.specs.Prelude.{◌≤◌, length, IfOk};
ghost use Rattle.gq_tree.specs.declared.job.Column.TheVariants as column;
ghost use Rattle.gq_grammar.specs.Lexemes as lexemes;
ghost use Rattle.gq_grammar.specs.Parsers.{Found, token, made, ◌or◌, after};
ghost use Rattle.gq_grammar.specs.Series.{chain};
ghost use Rattle.gq_parse_ddl.specs.Jobs as spec;

use gq_base::List;
use gq_expr_read::Read;
use gq_grammar::Source;
use gq_parse_common::{list, name, need, of_words, text};
use gq_tree::{Column, Destination, Table};
use std::alloc::Global;

// "$" Number | "$" Text
#[tactic(auto, unfolding(gq_grammar::specs::Parsers::after))]
fn place(alloc: Global, source: &Source<'_>, at: usize) -> Read<Column>
    requires { at ≤ length source.now }
    ensures { IfOk result (Found (after (lexemes.sign "$") (made column.Number (token lexemes.Number lexemes.number) or made column.Named (token lexemes.Text lexemes.said))) source.now at) }
{
    let at = need!(source.sign(at, "$"));
    match source.number(at) {
        Some((number, next)) => Ok(Some((Column::Number(number), next))),
        None => {
            let (name, next) = need!(text(alloc, source, at)?);
            Ok(Some((Column::Named(name), next)))
        }
    }
}

// Col = "$" Number | "$" Text | "_"
#[tactic(auto, unfolding(crate::specs::Jobs::column_parser, gq_grammar::specs::Parsers::stands))]
fn column(alloc: Global, source: &Source<'_>, at: usize) -> Read<Column>
    requires { at ≤ length source.now }
    ensures { IfOk result (Found spec.column_parser source.now at) }
{
    match place(alloc, source, at)? {
        Some(read) => Ok(Some(read)),
        None => {
            let next = need!(source.keyword(at, "_"));
            Ok(Some((Column::Default, next)))
        }
    }
}

// Col { "," Col }
fn columns(alloc: Global, source: &Source<'_>, at: usize) -> Read<List<Column>>
    requires { at ≤ length source.now }
    ensures { IfOk result (Found (chain (lexemes.sign ",") spec.column_parser) source.now at) }
{
    list(alloc, source, at, column)
}

// VERTEX | EDGE
#[tactic(auto, unfolding(crate::specs::Jobs::table_parser, gq_grammar::specs::Parsers::stands))]
fn table(source: &Source<'_>, at: usize) -> Option<(Table, usize)>
    requires { at ≤ length source.now }
    ensures { Found spec.table_parser source.now at result }
{
    of_words!(source, at; "VERTEX" => Table::Vertex, "EDGE" => Table::Edge)
}

// Dest = TO ( VERTEX | EDGE ) Name VALUES "(" Col { "," Col } ")"
#[tactic(auto, unfolding(crate::specs::Jobs::destination_parser, crate::specs::Jobs::columns_parser, gq_grammar::specs::Parsers::after, gq_grammar::specs::Parsers::enclosed))]
fn destination(alloc: Global, source: &Source<'_>, at: usize) -> Read<Destination>
    requires { at ≤ length source.now }
    ensures { IfOk result (Found spec.destination_parser source.now at) }
{
    let at = need!(source.keyword(at, "TO"));
    let (table, at) = need!(table(source, at));
    let (name, at) = need!(name(alloc, source, at)?);
    let at = need!(source.keyword(at, "VALUES"));
    let at = need!(source.sign(at, "("));
    let (columns, at) = need!(columns(alloc, source, at)?);
    let at = need!(source.sign(at, ")"));
    Ok(Some((
        Destination {
            table,
            name,
            columns,
        },
        at,
    )))
}

// Dest { "," Dest }
pub fn destinations(alloc: Global, source: &Source<'_>, at: usize) -> Read<List<Destination>>
    requires { at ≤ length source.now }
    ensures { IfOk result (Found (chain (lexemes.sign ",") spec.destination_parser) source.now at) }
{
    list(alloc, source, at, destination)
}
