// The body of a query.
ghost use Rattle.std.specs.Prelude.{◌≤◌, length, IfOk, Some};
ghost use Rattle.gq_grammar.specs.Lexemes as lexemes;
ghost use Rattle.gq_grammar.specs.Parsers.{Found, both, many};
ghost use Rattle.gq_grammar.specs.Series.{ended};
ghost use Rattle.gq_parse_common.specs.Kinds as kinds;
ghost use Rattle.gq_parse_select.specs.Bodies as spec;

use crate::items::closed;
use crate::levels::statement;
use gq_base::{List, OutOfMemory};
use gq_expr_read::Read;
use gq_grammar::Source;
use gq_parse_common::{definition, need, run};
use gq_parse_select::paired;
use gq_tree::{Body, DefinitionTree, Stmt};
use std::alloc::Global;

// Def ";"
#[tactic(auto, unfolding(gq_grammar::specs::Series::ended))]
fn ended_definition(alloc: Global, source: &Source<'_>, at: usize) -> Read<DefinitionTree>
    requires { at ≤ length source.now }
    ensures { IfOk result (Found (ended (lexemes.sign ";") kinds.definition_parser) source.now at) }
{
    let (definition, at) = need!(definition(alloc, source, at)?);
    let at = need!(source.sign(at, ";"));
    Ok(Some((definition, at)))
}

// { Def ";" }
fn definitions(
    alloc: Global,
    source: &Source<'_>,
    at: usize,
) -> Result<(List<DefinitionTree>, usize), OutOfMemory>
    requires { at ≤ length source.now }
    ensures { IfOk result (λ read. Found (many (ended (lexemes.sign ";") kinds.definition_parser)) source.now at (Some read)) }
{
    let (definitions, at) = run(alloc, source, at, ended_definition)?;
    Ok((List::from_vec(definitions), at))
}

// Stmt ";"
fn ended_statement(alloc: Global, source: &Source<'_>, at: usize) -> Read<Stmt>
    requires { at ≤ length source.now }
    ensures { IfOk result (Found (ended (lexemes.sign ";") spec.statement_parser) source.now at) }
{
    closed(source, statement(alloc, source, at), ";")
}

// { Stmt ";" }
fn statements(
    alloc: Global,
    source: &Source<'_>,
    at: usize,
) -> Result<(List<Stmt>, usize), OutOfMemory>
    requires { at ≤ length source.now }
    ensures { IfOk result (λ read. Found (many (ended (lexemes.sign ";") spec.statement_parser)) source.now at (Some read)) }
{
    let (statements, at) = run(alloc, source, at, ended_statement)?;
    Ok((List::from_vec(statements), at))
}

// { Stmt ";" } "}"
#[tactic(auto, unfolding(gq_parse_select::specs::Bodies::body_stmts_parser, gq_grammar::specs::Series::ended))]
fn body_statements(alloc: Global, source: &Source<'_>, at: usize) -> Read<List<Stmt>>
    requires { at ≤ length source.now }
    ensures { IfOk result (Found spec.body_stmts_parser source.now at) }
{
    let (statements, at) = statements(alloc, source, at)?;
    let at = need!(source.sign(at, "}"));
    Ok(Some((statements, at)))
}

// { Def ";" } { Stmt ";" } "}"
fn body_parts(
    alloc: Global,
    source: &Source<'_>,
    at: usize,
) -> Read<(List<DefinitionTree>, List<Stmt>)>
    requires { at ≤ length source.now }
    ensures { IfOk result (Found (both (many (ended (lexemes.sign ";") kinds.definition_parser)) spec.body_stmts_parser) source.now at) }
{
    let (definitions, at) = definitions(alloc, source, at)?;
    paired(definitions, body_statements(alloc, source, at))
}

/// `Body = "{" { Def ";" } { Stmt ";" } "}"`.
///
/// Each level of statements and of parentheses uses some stack frames.
#[tactic(auto, unfolding(gq_parse_select::specs::Bodies::body_parser, gq_grammar::specs::Parsers::after))]
pub fn body(alloc: Global, source: &Source<'_>, at: usize) -> Read<Body>
    requires { at ≤ length source.now }
    ensures { IfOk result (Found spec.body_parser source.now at) }
{
    let at = need!(source.sign(at, "{"));
    let ((definitions, statements), at) = need!(body_parts(alloc, source, at)?);
    Ok(Some((
        Body {
            definitions,
            statements,
        },
        at,
    )))
}
