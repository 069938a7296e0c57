// The source of a SELECT, and what it selects.
ghost use Rattle.std.specs.Prelude.{◌≡◌, true};
ghost use Rattle.std.specs.Option.{option_copied};
ghost use Rattle.std.specs.Str.{bytes_eq};
ghost use Rattle.gq_rules_typing.specs.Patterns as patterns;
ghost use Rattle.gq_rules_typing.specs.SelectTypes as spec;
ghost use Rattle.gq_scope.specs.Held.{scope_in};
ghost use Rattle.gq_check_from.specs.Faults.{Judges};
ghost use Rattle.gq_check_from.specs.Walks as walks;

use crate::fault::{CheckFault, unknown};
use crate::names::vertex_type;
use gq_base::List;
use gq_graph::Numbers;
use gq_scope::{Entry, Scope};
use std::alloc::Global;

/// The types of the source: those of the set variable of the name if one is visible, or else the vertex type of the
/// name.
pub fn source_types(alloc: Global, scope: &Scope<'_>, name: &str) -> Result<Numbers, CheckFault>
    ensures { Judges (λ l. l) (spec.source_types (scope_in scope.now) name.now) result }
{
    match scope.find(name) {
        None => one_type(alloc, scope, name),
        Some(entry) => match entry {
            Entry::SetVariable(types) => Ok(List::from_slice(alloc, types.as_slice())?),
            Entry::Variable(_) | Entry::Alias(_) | Entry::EdgeAlias(_) => one_type(
                alloc, scope, name,
            ),
            Entry::Accumulator(_, _) | Entry::TupleType(_) => one_type(alloc, scope, name),
        },
    }
}

fn one_type(alloc: Global, scope: &Scope<'_>, name: &str) -> Result<Numbers, CheckFault>
    ensures { Judges (λ l. l) (walks.one_type (scope_in scope.now) name.now) result }
{
    let t = vertex_type(alloc, scope, name)?;
    Ok(List::from_slice(alloc, &[t])?)
}

/// Whether a name is the alias, if there is one.
fn is_alias(alias: Option<&str>, name: &str) -> bool
    ensures { result ≡ patterns.is_alias bytes_eq (option_copied alias.entry) name.now }
{
    match alias {
        None => false,
        Some(alias) => alias == name,
    }
}

/// Returns an unknown name if it is neither alias.
fn one_alias(
    alloc: Global,
    source: Option<&str>,
    target: Option<&str>,
    name: &str,
) -> Result<(), CheckFault>
    ensures { Judges (λ _. true) (walks.one_alias (option_copied source.entry) (option_copied target.entry) name.now) result }
{
    if is_alias(source, name) || is_alias(target, name) {
        Ok(())
    } else {
        Err(unknown(alloc, name))
    }
}

/// The types of the selected name, which must be the source or the target alias.
#[tactic(auto, using(crate::proofs::ScopeLemmas::scope_laws))]
pub fn selected_types(
    alloc: Global,
    scope: &Scope<'_>,
    source: Option<&str>,
    target: Option<&str>,
    name: &str,
) -> Result<Numbers, CheckFault>
    ensures { Judges (λ l. l)
        (spec.selected_types (scope_in scope.now) (option_copied source.entry) (option_copied target.entry) name.now) result }
{
    one_alias(alloc, source, target, name)?;
    match scope.find(name) {
        None => Err(unknown(alloc, name)),
        Some(entry) => match entry {
            Entry::Alias(types) => Ok(List::from_slice(alloc, types.as_slice())?),
            Entry::Variable(_) | Entry::SetVariable(_) => Err(unknown(alloc, name)),
            Entry::EdgeAlias(_) | Entry::Accumulator(_, _) => Err(unknown(alloc, name)),
            Entry::TupleType(_) => Err(unknown(alloc, name)),
        },
    }
}
