// Tuple types, and accumulators with their initial values.
ghost use Rattle.std.specs.Prelude.{◌≡◌, ◌+◌, ◌<◌, true, IfOk, map};
ghost use Rattle.std.specs.Option.{option_map, option_copied};
ghost use Rattle.gq_value.specs.AccumViews.{accum_of};
ghost use Rattle.gq_tree.specs.View.{view};
ghost use Rattle.gq_rules_typing.specs.Judging.{through_judged};
ghost use Rattle.gq_rules_typing.specs.Scopes as typing;
ghost use Rattle.gq_rules_typing.specs.KindTypes.{kind_written};
ghost use Rattle.gq_rules_typing.specs.QueryTypes as heads;
ghost use Rattle.gq_rules_typing.specs.StatementViews.{view_accum, view_definition, view_fields, view_kind};
ghost use Rattle.gq_scope.specs.Held.{scope_in};
ghost use Rattle.gq_scope.specs.Views.{base_is};
ghost use Rattle.gq_check_from.specs.Faults.{Judges, Grows};
ghost use Rattle.gq_check_decls.specs.Counts.{accum_count};
ghost use Rattle.gq_check_decls.specs.Heads as spec;

use crate::fields::fields_written;
use crate::kinds::kind_written;
use gq_check_from::{CheckFault, add, bad_kind, new_name};
use gq_scope::{Base, Entry, Place, Scope, set_type};
use gq_tree::{AccumTree, BaseTree, DefinitionTree, KindTree, Node};
use gq_type::converting;
use gq_value::{Kind, Txt};
use std::alloc::Global;

/// Checks the definitions of a query in order, with no accumulator visible before; makes visible what each defines.
#[tactic(auto, using(gq_check_from::proofs::GrowLemmas::grow_laws))]
pub fn definitions(
    alloc: Global,
    scope: &mut Scope<'_>,
    trees: &[DefinitionTree],
) -> Result<(), CheckFault>
    requires place { scope.old.place ≡ typing.InStatement }
    requires none { accum_count (scope_in scope.old) ≡ 0 }
    ensures judged { Judges (λ _. scope_in scope.new)
        (through_judged (heads.typing_definition kind_written) (scope_in scope.old) (map view_definition trees.now)) result }
    ensures grows { IfOk result (λ _. Grows scope.old scope.new) }
{
    let mut count = 0;
    for tree in trees {
        count = definition(alloc, scope, count, tree)?;
    }
    Ok(())
}

/// Checks one definition, given the number of accumulators so far; returns the number after it.
fn definition(
    alloc: Global,
    scope: &mut Scope<'_>,
    count: u32,
    tree: &DefinitionTree,
) -> Result<u32, CheckFault>
    requires place { scope.old.place ≡ typing.InStatement }
    requires counted { count ≡ accum_count (scope_in scope.old) }
    ensures judged { Judges (λ _. scope_in scope.new)
        (heads.typing_definition kind_written (scope_in scope.old) (view_definition tree.now)) result }
    ensures counted { IfOk result (λ n. n ≡ accum_count (scope_in scope.new)) }
    ensures grows { IfOk result (λ _. Grows scope.old scope.new) }
{
    match tree {
        DefinitionTree::Tuple(fields, name) => {
            tuple_type(alloc, scope, fields.as_slice(), name.as_str())?;
            Ok(count)
        }
        DefinitionTree::Accums(kind, trees) => accums(alloc, scope, count, kind, trees.as_slice()),
    }
}

/// Checks a tuple type, which has at most 16 fields.
#[tactic(auto, using(crate::proofs::HeadLemmas::tuple_laws, gq_check_from::proofs::GrowLemmas::add_laws))]
fn tuple_type(
    alloc: Global,
    scope: &mut Scope<'_>,
    trees: &[(BaseTree, Txt)],
    name: &str,
) -> Result<(), CheckFault>
    ensures judged { Judges (λ _. scope_in scope.new) (spec.tuple_type (scope_in scope.old) (view_fields trees.now) name.now) result }
    ensures counted { IfOk result (λ _. accum_count (scope_in scope.new) ≡ accum_count (scope_in scope.old)) }
    ensures grows { IfOk result (λ _. Grows scope.old scope.new) }
{
    let fields = fields_written(alloc, scope, 16, trees)?;
    new_name(alloc, scope, name)?;
    scope.add(name, Entry::TupleType(fields))?;
    Ok(())
}

// ---- accumulators

/// Checks accumulators of one kind. A bad kind names the first.
fn accums(
    alloc: Global,
    scope: &mut Scope<'_>,
    count: u32,
    tree: &KindTree,
    trees: &[AccumTree],
) -> Result<u32, CheckFault>
    requires place { scope.old.place ≡ typing.InStatement }
    requires counted { count ≡ accum_count (scope_in scope.old) }
    ensures judged { Judges (λ _. scope_in scope.new)
        (spec.accums (scope_in scope.old) (view_kind tree.now) (map view_accum trees.now)) result }
    ensures counted { IfOk result (λ n. n ≡ accum_count (scope_in scope.new)) }
    ensures grows { IfOk result (λ _. Grows scope.old scope.new) }
{
    let kind = kind_written(alloc, scope, first_name(trees), tree)?;
    all_accums(alloc, scope, count, &kind, trees)
}

fn first_name(trees: &[AccumTree]) -> &str
    ensures { result.now ≡ spec.first_name (map view_accum trees.now) }
{
    match trees {
        [] => "",
        [first, ..] => first.name.as_str(),
    }
}

#[tactic(auto, using(gq_check_from::proofs::GrowLemmas::grow_laws))]
fn all_accums(
    alloc: Global,
    scope: &mut Scope<'_>,
    before: u32,
    kind: &Kind,
    trees: &[AccumTree],
) -> Result<u32, CheckFault>
    requires place { scope.old.place ≡ typing.InStatement }
    requires counted { before ≡ accum_count (scope_in scope.old) }
    ensures judged { Judges (λ _. scope_in scope.new)
        (through_judged (heads.typing_accum (accum_of kind.now)) (scope_in scope.old) (map view_accum trees.now)) result }
    ensures counted { IfOk result (λ n. n ≡ accum_count (scope_in scope.new)) }
    ensures grows { IfOk result (λ _. Grows scope.old scope.new) }
{
    let mut count = before;
    for tree in trees {
        accum(alloc, scope, count, kind, tree)?;
        count += 1;
    }
    Ok(count)
}

/// Checks an accumulator; there are at most 256. It becomes visible after its initial value.
#[tactic(auto, using(gq_check_from::proofs::NameLemmas::name_laws))]
fn accum(
    alloc: Global,
    scope: &mut Scope<'_>,
    count: u32,
    kind: &Kind,
    tree: &AccumTree,
) -> Result<(), CheckFault>
    requires place { scope.old.place ≡ typing.InStatement }
    requires counted { count ≡ accum_count (scope_in scope.old) }
    ensures judged { Judges (λ _. scope_in scope.new)
        (heads.typing_accum (accum_of kind.now) (scope_in scope.old) (view_accum tree.now)) result }
    ensures counted { IfOk result (λ _. accum_count (scope_in scope.new) ≡ count + 1) }
    ensures few { IfOk result (λ _. count < 256) }
    ensures grows { IfOk result (λ _. Grows scope.old scope.new) }
{
    let name = tree.name.as_str();
    new_name(alloc, scope, name)?;
    few(count)?;
    opening(alloc, scope, name, kind, tree.opening.as_ref())?;
    let entry = Entry::Accumulator(kind.duplicate(alloc)?, tree.attached);
    add(scope, name, entry)?;
    Ok(())
}

fn few(count: u32) -> Result<(), CheckFault>
    ensures judged { Judges (λ _. true) (spec.few count) result }
    ensures few { IfOk result (λ _. count < 256) }
{
    if count < 256 {
        Ok(())
    } else {
        Err(CheckFault::TooMany)
    }
}

/// Checks an initial value, to which `=` must be able to set the accumulator; it may name only parameters.
#[tactic(auto, using(crate::proofs::HeadLemmas::place_laws))]
fn opening(
    alloc: Global,
    scope: &mut Scope<'_>,
    name: &str,
    kind: &Kind,
    tree: Option<&Node>,
) -> Result<(), CheckFault>
    requires { scope.old.place ≡ typing.InStatement }
    ensures judged { Judges (λ _. true) (heads.typing_opening (scope_in scope.old) name.now (accum_of kind.now)
        (option_map view (option_copied tree.entry))) result }
    ensures same { IfOk result (λ _. scope.new ≡ scope.old) }
{
    match tree {
        None => Ok(()),
        Some(tree) => {
            let base = settable(alloc, name, set_type(kind))?;
            scope.put_at(Place::Opening);
            converting(alloc, scope, base, tree)?;
            scope.put_at(Place::Statement);
            Ok(())
        }
    }
}

/// Returns the type of value that `=` sets, or a bad kind.
fn settable<'k>(alloc: Global, name: &str, base: Option<Base<'k>>) -> Result<Base<'k>, CheckFault>
    ensures { Judges base_is (spec.settable name.now (option_map base_is base.entry)) result }
{
    match base {
        None => Err(bad_kind(alloc, name)),
        Some(base) => Ok(base),
    }
}
