// INSTALL QUERY.
ghost use Rattle.std.specs.Prelude.{◌≡◌, not, find};
ghost use Rattle.std.specs.Option.{option_copied};
ghost use Rattle.gq_diagnostics.specs.Answers.{Answers};
ghost use Rattle.gq_query_run.specs.Queries as spec;

use crate::fault::unknown;
use crate::queries::Queries;
use gq_diagnostics::StatementFault;
use gq_tree::Installed;
use gq_value::Txt;
use std::alloc::Global;

/// Executes INSTALL QUERY: all queries, or those with the names. Refused for the first name without a query; then none
/// is installed.
pub fn install_queries(
    alloc: Global,
    queries: &mut Queries<'_>,
    which: &Installed,
) -> Result<(), StatementFault>
    ensures { Answers (spec.query_installed queries.old which.now) queries.old queries.new result }
{
    match which {
        Installed::All => {
            queries.install_all();
            Ok(())
        }
        Installed::Named(names) => install_these(alloc, queries, names.as_slice()),
    }
}

fn install_these(
    alloc: Global,
    queries: &mut Queries<'_>,
    names: &[Txt],
) -> Result<(), StatementFault>
    ensures { Answers (spec.query_installed queries.old (Installed.Named names.now)) queries.old queries.new result }
{
    match first_unknown(queries, names) {
        Some(name) => Err(unknown(alloc, name.as_str())),
        None => {
            install_named(queries, names);
            Ok(())
        }
    }
}

fn first_unknown<'a>(queries: &Queries<'_>, names: &'a [Txt]) -> Option<&'a Txt>
    ensures { option_copied result ≡ find (λ name. not (spec.has_query queries.now name)) names.now }
{
    names.iter().find(|name| !queries.has(name.as_str()))
}

#[tactic(auto, using(crate::proofs::PlaceLemmas::turn_laws))]
fn install_named(queries: &mut Queries<'_>, names: &[Txt])
    ensures { queries.new ≡ spec.with_installed names.now queries.old }
{
    for name in names {
        queries.install(name.as_str());
    }
}
