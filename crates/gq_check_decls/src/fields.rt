// Fields with their types: those of a tuple type, and the keys of a group.
ghost use Rattle.std.specs.Prelude.{◌≡◌, ◌++◌, [], ◌∷◌, map};
ghost use Rattle.gq_rules_typing.specs.KindTypes as kinds;
ghost use Rattle.gq_rules_typing.specs.StatementViews.{view_fields};
ghost use Rattle.gq_scope.specs.Held.{fields_of, scope_in};
ghost use Rattle.gq_check_from.specs.Faults.{Judges};

use crate::written::base_written;
use gq_base::List;
use gq_check_from::{CheckFault, name_twice};
use gq_scope::Scope;
use gq_tree::BaseTree;
use gq_value::{BaseType, Txt};
use std::alloc::Global;

/// Fields in order, each with its name and its type.
pub(crate) type FieldTypes = List<(Txt, BaseType)>;

/// Types the fields, which have base types; there is a maximum number.
#[tactic(auto, using(gq_type::proofs::ArgumentLemmas::all_laws, crate::proofs::FieldLemmas::field_laws))]
pub(crate) fn fields_written(
    alloc: Global,
    scope: &Scope<'_>,
    most: usize,
    trees: &[(BaseTree, Txt)],
) -> Result<FieldTypes, CheckFault>
    ensures { Judges fields_of (kinds.fields_written (scope_in scope.now) most [] (view_fields trees.now)) result }
{
    let mut fields = List::new(alloc);
    for tree in trees {
        let base = base_written(alloc, scope, &tree.0)?;
        own_name(alloc, most, fields.as_slice(), tree.1.as_str())?;
        fields.push((Txt::of(alloc, tree.1.as_str())?, base))?;
    }
    Ok(fields)
}

/// Adds the name of one more field, which must be new in its type; there is a maximum number. The search is linear,
/// over few names.
pub(crate) fn own_name<T>(
    alloc: Global,
    most: usize,
    named: &[(Txt, T)],
    name: &str,
) -> Result<(), CheckFault>
    ensures { Judges (λ _. map (λ f. f.0) named.now ++ name.now ∷ [])
        (kinds.own_name most (map (λ f. f.0) named.now) name.now) result }
{
    if stands_in(named, name) {
        return Err(name_twice(alloc, name));
    }
    if named.len() >= most {
        return Err(CheckFault::TooMany);
    }
    Ok(())
}

/// Whether one of these has the name.
pub(crate) fn stands_in<T>(named: &[(Txt, T)], name: &str) -> bool
    ensures { result ≡ kinds.stands_in (map (λ f. f.0) named.now) name.now }
{
    for one in named {
        if name == one.0.as_str() {
            return true;
        }
    }
    false
}
