// Rules on names that the whole checker shares.
ghost use Rattle.std.specs.Prelude.{◌≡◌, true, false, is_some, IfOk};
ghost use Rattle.gq_rules_typing.specs.Scopes as typing;
ghost use Rattle.gq_scope.specs.Kept.{is_tuple};
ghost use Rattle.gq_scope.specs.Held.{entry_of, scope_in};
ghost use Rattle.gq_check_from.specs.Faults.{Judges, Grows};

use crate::fault::{CheckFault, name_twice, unknown};
use gq_base::OutOfMemory;
use gq_scope::{Entry, Scope};
use std::alloc::Global;

/// Checks that a new name isn't visible already.
#[tactic(auto, using(crate::proofs::NameLemmas::name_laws))]
pub fn new_name(alloc: Global, scope: &Scope<'_>, name: &str) -> Result<(), CheckFault>
    ensures judged { Judges (λ _. true) (typing.new_name (scope_in scope.now) name.now) result }
    ensures fresh { IfOk result (λ _. is_some (typing.entry (scope_in scope.now) name.now) ≡ false) }
{
    match scope.has(name) {
        true => Err(name_twice(alloc, name)),
        false => Ok(()),
    }
}

/// Finds the number of the graph's vertex type of a name.
#[tactic(auto, using(crate::proofs::NameLemmas::name_laws))]
pub fn vertex_type(alloc: Global, scope: &Scope<'_>, name: &str) -> Result<u32, CheckFault>
    ensures { Judges (λ n. n) (typing.vertex_type (scope_in scope.now) name.now) result }
{
    match scope.vertex_type(name) {
        None => Err(unknown(alloc, name)),
        Some(number) => Ok(number),
    }
}

/// Finds the number of the graph's edge type of a name.
#[tactic(auto, using(crate::proofs::NameLemmas::name_laws))]
pub fn edge_type(alloc: Global, scope: &Scope<'_>, name: &str) -> Result<u32, CheckFault>
    ensures { Judges (λ n. n) (typing.edge_type (scope_in scope.now) name.now) result }
{
    match scope.edge_type(name) {
        None => Err(unknown(alloc, name)),
        Some(number) => Ok(number),
    }
}

/// Makes a new name visible as what it refers to; it isn't a tuple type.
#[tactic(auto, using(crate::proofs::GrowLemmas::add_laws))]
pub fn add(scope: &mut Scope<'_>, name: &str, what: Entry) -> Result<(), OutOfMemory>
    requires fresh { is_some (typing.entry (scope_in scope.old) name.now) ≡ false }
    requires plain { is_tuple what ≡ false }
    ensures added { IfOk result (λ _. scope_in scope.new ≡ typing.with_entry name.now (entry_of what) (scope_in scope.old)) }
    ensures grows { IfOk result (λ _. Grows scope.old scope.new) }
{
    scope.add(name, what)
}
