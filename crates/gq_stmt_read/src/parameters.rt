// Parameters.
ghost use Rattle.std.specs.Prelude.{◌≤◌, length, IfOk, Some};
ghost use Rattle.gq_grammar.specs.Parsers.{Found, maybe, separated};
ghost use Rattle.gq_stmt_read.specs.Queries as spec;

use crate::series::series;
use gq_base::{List, OutOfMemory};
use gq_expr_read::Read;
use gq_grammar::Source;
use gq_parse_common::{base, literal, name, need};
use gq_tree::{Literal, ParameterTree};
use std::alloc::Global;

// [ "=" Literal ]
#[tactic(auto, unfolding(crate::specs::Queries::default_parser, gq_grammar::specs::Parsers::after))]
fn default(
    alloc: Global,
    source: &Source<'_>,
    at: usize,
) -> Result<(Option<Literal>, usize), OutOfMemory>
    requires { at ≤ length source.now }
    ensures { IfOk result (λ read. Found (maybe spec.default_parser) source.now at (Some read)) }
{
    let next = need!(source.sign(at, "="), else (None, at));
    let (literal, end) = need!(literal(alloc, source, next)?, else (None, at));
    Ok((Some(literal), end))
}

// Param = Base Name [ "=" Literal ]
#[tactic(auto, unfolding(crate::specs::Queries::parameter_parser))]
fn parameter(alloc: Global, source: &Source<'_>, at: usize) -> Read<ParameterTree>
    requires { at ≤ length source.now }
    ensures { IfOk result (Found spec.parameter_parser source.now at) }
{
    let (base, at) = need!(base(alloc, source, at)?);
    let (name, at) = need!(name(alloc, source, at)?);
    let (default, at) = default(alloc, source, at)?;
    Ok(Some((
        ParameterTree {
            base,
            name,
            default,
        },
        at,
    )))
}

/// `[ Param { "," Param } ]`.
pub fn parameters(
    alloc: Global,
    source: &Source<'_>,
    at: usize,
) -> Result<(List<ParameterTree>, usize), OutOfMemory>
    requires { at ≤ length source.now }
    ensures { IfOk result (λ read. Found (separated spec.parameter_parser) source.now at (Some read)) }
{
    series(alloc, source, at, parameter)
}
