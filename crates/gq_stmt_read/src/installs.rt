// INSTALL QUERY.
ghost use Rattle.std.specs.Prelude.{◌≤◌, length, IfOk};
ghost use Rattle.gq_grammar.specs.Parsers.{Found};
ghost use Rattle.gq_stmt_read.specs.Queries as spec;

use gq_expr_read::Read;
use gq_grammar::Source;
use gq_parse_common::{names, need};
use gq_tree::Installed;
use std::alloc::Global;

// ALL | "*" | Name { "," Name }
#[tactic(auto, unfolding(crate::specs::Queries::installed_parser, gq_grammar::specs::Parsers::stands))]
fn installed(alloc: Global, source: &Source<'_>, at: usize) -> Read<Installed>
    requires { at ≤ length source.now }
    ensures { IfOk result (Found spec.installed_parser source.now at) }
{
    match source.keyword(at, "ALL") {
        Some(next) => return Ok(Some((Installed::All, next))),
        None => {}
    }
    match source.sign(at, "*") {
        Some(next) => Ok(Some((Installed::All, next))),
        None => {
            let (names, next) = need!(names(alloc, source, at)?);
            Ok(Some((Installed::Named(names), next)))
        }
    }
}

/// `INSTALL QUERY ( ALL | "*" | Name { "," Name } )`.
#[tactic(auto, unfolding(crate::specs::Queries::install_parser, gq_grammar::specs::Parsers::after))]
pub fn install(alloc: Global, source: &Source<'_>, at: usize) -> Read<Installed>
    requires { at ≤ length source.now }
    ensures { IfOk result (Found spec.install_parser source.now at) }
{
    let at = need!(source.keyword(at, "INSTALL"));
    let at = need!(source.keyword(at, "QUERY"));
    installed(alloc, source, at)
}
