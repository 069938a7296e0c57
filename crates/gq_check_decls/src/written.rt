// Types, as they are written.
ghost use Rattle.std.specs.Prelude.{◌≡◌, Some, IfOk, map};
ghost use Rattle.std.specs.Option.{option_map, option_copied};
ghost use Rattle.gq_value.specs.AccumViews.{base_of};
ghost use Rattle.gq_rules_typing.specs.Judging as judging;
ghost use Rattle.gq_rules_typing.specs.Sorts.{bases_of};
ghost use Rattle.gq_rules_typing.specs.FieldTypes.{tuple_fields};
ghost use Rattle.gq_rules_typing.specs.Scopes as typing;
ghost use Rattle.gq_rules_typing.specs.KindTypes as kinds;
ghost use Rattle.gq_rules_typing.specs.StatementViews.{view_base, view_elem};
ghost use Rattle.gq_scope.specs.Held.{scope_in, setting_in};
ghost use Rattle.gq_check_from.specs.Faults.{Judges};
ghost use Rattle.gq_check_decls.specs.Written as spec;

use gq_base::{List, OutOfMemory};
use gq_check_from::{CheckFault, unknown, vertex_type};
use gq_scope::Scope;
use gq_tree::{BaseTree, Elem};
use gq_value::{BaseType, Fields, Txt};
use std::alloc::Global;

/// The meaning of a written type: VERTEX is of any type of the graph.
#[tactic(auto, using(gq_scope::proofs::BaseLemmas::base_laws))]
pub fn base_written(
    alloc: Global,
    scope: &Scope<'_>,
    tree: &BaseTree,
) -> Result<BaseType, CheckFault>
    ensures { Judges base_of (typing.base_written (scope_in scope.now) (view_base tree.now)) result }
{
    match tree {
        BaseTree::Int => Ok(BaseType::Int),
        BaseTree::UInt => Ok(BaseType::UInt),
        BaseTree::Bool => Ok(BaseType::Bool),
        BaseTree::Text => Ok(BaseType::Text),
        BaseTree::AnyVertex => Ok(BaseType::AnyVertex),
        BaseTree::VertexOf(name) => {
            let number = vertex_type(alloc, scope, name.as_str())?;
            Ok(BaseType::VertexOf(number))
        }
    }
}

/// The meaning of an accumulator's element: a type, or a tuple type.
#[tactic(auto, using(crate::proofs::TupleLemmas::tuple_laws))]
pub(crate) fn elem_written(
    alloc: Global,
    scope: &Scope<'_>,
    elem: &Elem,
) -> Result<BaseType, CheckFault>
    ensures { Judges base_of (kinds.elem_written (scope_in scope.now) (view_elem elem.now)) result }
{
    match elem {
        Elem::Base(tree) => base_written(alloc, scope, tree),
        Elem::Tuple(name) => tuple_written(alloc, scope, name.as_str()),
    }
}

/// The same for an optional element.
pub(crate) fn optional_elem(
    alloc: Global,
    scope: &Scope<'_>,
    elem: Option<&Elem>,
) -> Result<Option<BaseType>, CheckFault>
    ensures { Judges (λ b. option_map base_of b)
        (kinds.optional_elem (scope_in scope.now) (option_map view_elem (option_copied elem.entry))) result }
{
    match elem {
        None => Ok(None),
        Some(elem) => {
            let base = elem_written(alloc, scope, elem)?;
            Ok(Some(base))
        }
    }
}

// ---- tuple types

#[tactic(auto, using(gq_scope::proofs::BaseLemmas::base_laws, crate::proofs::TupleLemmas::tuple_laws))]
fn tuple_written(alloc: Global, scope: &Scope<'_>, name: &str) -> Result<BaseType, CheckFault>
    ensures { Judges base_of (spec.tuple_written (setting_in scope.now) name.now) result }
{
    let number = tuple_number(alloc, scope, name)?;
    let types = tuple_types(alloc, scope, number)?;
    Ok(BaseType::Tuple(number, types))
}

/// Finds the number of the tuple type of a name.
#[tactic(auto, using(crate::proofs::TupleLemmas::tuple_laws))]
pub(crate) fn tuple_number(alloc: Global, scope: &Scope<'_>, name: &str) -> Result<u32, CheckFault>
    ensures { Judges (λ n. n) (spec.tuple_number (setting_in scope.now) name.now) result }
{
    match scope.tuple_named(name) {
        None => Err(unknown(alloc, name)),
        Some(number) => Ok(number),
    }
}

/// The types of the fields of a tuple type.
#[tactic(auto, using(crate::proofs::TupleLemmas::field_laws))]
pub(crate) fn tuple_types(
    alloc: Global,
    scope: &Scope<'_>,
    number: u32,
) -> Result<Fields, OutOfMemory>
    ensures { IfOk result (λ types. map base_of types ≡ bases_of (tuple_fields (setting_in scope.now) number)) }
{
    match scope.tuple_at(number) {
        None => Ok(List::new(alloc)),
        Some(fields) => types_of(alloc, fields.as_slice()),
    }
}

fn types_of(alloc: Global, fields: &[(Txt, BaseType)]) -> Result<Fields, OutOfMemory>
    ensures { IfOk result (λ types. map base_of types ≡ map (λ f. base_of f.1) fields.now) }
{
    let mut types = List::new(alloc);
    for field in fields {
        types.push(field.1.duplicate(alloc)?)?;
    }
    Ok(types)
}
