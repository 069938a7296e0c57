// Declaration of aliases.
ghost use Rattle.std.specs.Prelude.{◌≡◌, false, IfOk};
ghost use Rattle.gq_rules_typing.specs.Scopes as typing;
ghost use Rattle.gq_rules_typing.specs.SelectTypes as spec;
ghost use Rattle.gq_scope.specs.Held.{entry_of, scope_in};
ghost use Rattle.gq_scope.specs.Kept.{is_tuple};
ghost use Rattle.gq_check_from.specs.Faults.{Judges, Grows};

use crate::fault::CheckFault;
use crate::names::{add, new_name};
use gq_base::List;
use gq_scope::{Entry, Scope};
use gq_value::Txt;
use std::alloc::Global;

/// Declares a vertex alias of these types, whose name must be new; there may be no alias.
pub fn with_alias(
    alloc: Global,
    scope: &mut Scope<'_>,
    name: &Option<Txt>,
    types: &[u32],
) -> Result<(), CheckFault>
    ensures judged { Judges (λ _. scope_in scope.new) (spec.with_alias name.now (typing.Alias types.now) (scope_in scope.old)) result }
    ensures grows { IfOk result (λ _. Grows scope.old scope.new) }
{
    let kept = List::from_slice(alloc, types)?;
    with_entry(alloc, scope, name, Entry::Alias(kept))
}

/// Declares an edge alias in the same way.
pub(crate) fn with_edge_alias(
    alloc: Global,
    scope: &mut Scope<'_>,
    name: &Option<Txt>,
    types: &[u32],
) -> Result<(), CheckFault>
    ensures judged { Judges (λ _. scope_in scope.new) (spec.with_alias name.now (typing.EdgeAlias types.now) (scope_in scope.old)) result }
    ensures grows { IfOk result (λ _. Grows scope.old scope.new) }
{
    let kept = List::from_slice(alloc, types)?;
    with_entry(alloc, scope, name, Entry::EdgeAlias(kept))
}

/// Makes an optional name visible as what it refers to; it isn't a tuple type.
#[tactic(auto, using(crate::proofs::ScopeLemmas::grow_laws))]
fn with_entry(
    alloc: Global,
    scope: &mut Scope<'_>,
    name: &Option<Txt>,
    what: Entry,
) -> Result<(), CheckFault>
    requires { is_tuple what ≡ false }
    ensures judged { Judges (λ _. scope_in scope.new) (spec.with_alias name.now (entry_of what) (scope_in scope.old)) result }
    ensures grows { IfOk result (λ _. Grows scope.old scope.new) }
{
    match name {
        None => Ok(()),
        Some(name) => {
            new_name(alloc, scope, name.as_str())?;
            add(scope, name.as_str(), what)?;
            Ok(())
        }
    }
}
