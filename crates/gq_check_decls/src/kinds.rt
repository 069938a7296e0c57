// Kinds of accumulators, as they are written. Each function handles one production; levels are counted from the
// outermost kind.
ghost use Rattle.std.specs.Prelude.{◌≡◌, ◌&&◌, ◌-◌, ◌++◌, [], ◌∷◌, IfOk, true, map};
ghost use Rattle.gq_value.specs.AccumViews.{base_of, accum_of};
ghost use Rattle.gq_value.specs.Typed.{has_no_list};
ghost use Rattle.gq_rules_typing.specs.Sorts.{names_of};
ghost use Rattle.gq_rules_typing.specs.KindTypes as kinds;
ghost use Rattle.gq_rules_typing.specs.StatementViews.{view_elem, view_kind, part_trees};
ghost use Rattle.gq_rules_typing.proofs.ViewLaws.{view_held};
ghost use Rattle.gq_scope.specs.Views.{parts_are};
ghost use Rattle.gq_scope.specs.Held.{fields_of, scope_in};
ghost use Rattle.gq_check_from.specs.Faults.{Judges};
ghost use Rattle.gq_check_decls.specs.Written as spec;

use crate::elements::{as_number, good, is_key, over_bits, over_elem};
use crate::fields::{FieldTypes, fields_written, own_name, stands_in};
use crate::lists::{has_no_list, have_no_list};
use crate::sorting::heap;
use crate::written::{elem_written, optional_elem};
use gq_base::{Boxed, List};
use gq_check_from::{CheckFault, name_twice};
use gq_scope::Scope;
use gq_tree::{Elem, EntryTree, KindTree};
use gq_value::{BaseType, GroupShape, Kind, Txt};
use std::alloc::Global;

/// The kind of the accumulator of this name, with at most 8 levels. Maps and groups hold no ListAccum.
pub fn kind_written(
    alloc: Global,
    scope: &Scope<'_>,
    name: &str,
    tree: &KindTree,
) -> Result<Kind, CheckFault>
    ensures { Judges accum_of (kinds.kind_written (scope_in scope.now) name.now (view_kind tree.now)) result }
{
    kind_within(tree, 8, alloc, scope, name)
}

/// Counts one more level; returns how many are left below it.
fn level_left(levels: u8) -> Result<u8, CheckFault>
    ensures judged { Judges (λ _. true) (kinds.level_left levels) result }
    ensures below { IfOk result (λ n. n ≡ levels - 1) }
{
    if levels == 0 {
        return Err(CheckFault::TooMany);
    }
    Ok(levels - 1)
}

#[cycle(kinds)]
#[tactic(auto, using(gq_value::proofs::AccumLemmas::accum_laws, gq_rules_typing::proofs::ViewLaws::statement_laws, crate::proofs::KindLemmas::level_laws))]
fn kind_within(
    tree: &KindTree,
    levels: u8,
    alloc: Global,
    scope: &Scope<'_>,
    name: &str,
) -> Result<Kind, CheckFault>
    ensures { Judges accum_of (kinds.kind_within levels (scope_in scope.now) name.now (view_kind tree.now)) result }
{
    let below = level_left(levels)?;
    match tree {
        KindTree::Plain(plain, elem) => {
            let base = elem_written(alloc, scope, elem)?;
            over_elem(alloc, *plain, name, base)
        }
        KindTree::Bits(bits, elem) => {
            let base = optional_elem(alloc, scope, elem.as_ref())?;
            over_bits(alloc, *bits, name, base)
        }
        KindTree::Avg => Ok(Kind::Avg),
        KindTree::Map(key, held) => map_to(held, below, alloc, scope, name, key),
        KindTree::Group(key_trees, trees) => {
            let keys = fields_written(alloc, scope, 8, key_trees.as_slice())?;
            let parts = parts_within(trees.as_slice(), below, alloc, scope, name, keys.as_slice())?;
            group(alloc, name, keys, parts)
        }
        KindTree::Heap(tuple, capacity, order) => {
            heap(
                alloc,
                scope,
                name,
                tuple.as_str(),
                *capacity,
                order.as_slice(),
            )
        }
    }
}

// ---- maps

/// Types a map, given the levels left for what it holds.
#[cycle(kinds)]
#[tactic(auto, using(gq_value::proofs::AccumLemmas::accum_laws, gq_rules_typing::proofs::ViewLaws::statement_laws))]
fn map_to(
    held: &EntryTree,
    below: u8,
    alloc: Global,
    scope: &Scope<'_>,
    name: &str,
    key: &Elem,
) -> Result<Kind, CheckFault>
    ensures { Judges accum_of
        (spec.map_below below (scope_in scope.now) name.now (view_elem key.now) (view_held held.now)) result }
{
    match held {
        EntryTree::Elem(elem) => sum_map(alloc, scope, name, key, elem),
        EntryTree::Kind(tree) => {
            let base = elem_written(alloc, scope, key)?;
            let kind = kind_within(tree.get(), below, alloc, scope, name)?;
            good(alloc, name, may_map(&base, &kind))?;
            Ok(Kind::Map(base, Boxed::new(alloc, kind)?))
        }
    }
}

/// Whether a map is allowed: the key isn't a tuple, and what is held neither is nor holds a ListAccum.
fn may_map(key: &BaseType, held: &Kind) -> bool
    ensures { result ≡ (kinds.is_key (base_of key.now) && has_no_list (accum_of held.now)) }
{
    is_key(key) && has_no_list(held)
}

/// Types a map to a type, which means the sum over it.
#[tactic(auto, using(gq_value::proofs::AccumLemmas::accum_laws, crate::proofs::KindLemmas::number_laws))]
fn sum_map(
    alloc: Global,
    scope: &Scope<'_>,
    name: &str,
    key: &Elem,
    elem: &Elem,
) -> Result<Kind, CheckFault>
    ensures { Judges accum_of (spec.sum_map (scope_in scope.now) name.now (view_elem key.now) (view_elem elem.now)) result }
{
    let base = elem_written(alloc, scope, key)?;
    let summed = elem_written(alloc, scope, elem)?;
    good(alloc, name, is_key(&base))?;
    let number = as_number(alloc, name, &summed)?;
    Ok(Kind::Map(base, Boxed::new(alloc, Kind::Sum(number))?))
}

// ---- groups

/// Types a group of these keys and parts.
#[tactic(auto, using(gq_value::proofs::AccumLemmas::accum_laws))]
fn group(
    alloc: Global,
    name: &str,
    keys: FieldTypes,
    parts: List<(Txt, Kind)>,
) -> Result<Kind, CheckFault>
    ensures { Judges accum_of (spec.group name.now (fields_of keys) (parts_are parts)) result }
{
    good(alloc, name, have_no_list(parts.as_slice()))?;
    Ok(Kind::Group(GroupShape { keys, parts }))
}

/// Types the parts of a group, each with its name.
#[cycle(kinds)]
#[tactic(auto, using(crate::proofs::KindLemmas::part_laws))]
fn parts_within(
    trees: &[(KindTree, Txt)],
    levels: u8,
    alloc: Global,
    scope: &Scope<'_>,
    name: &str,
    keys: &[(Txt, BaseType)],
) -> Result<List<(Txt, Kind)>, CheckFault>
    ensures { Judges (λ parts. parts_are parts) (kinds.parts_within levels (scope_in scope.now) name.now
        (names_of (fields_of keys.now)) [] (part_trees (map (λ p. (view_kind p.0, p.1)) trees.now))) result }
{
    let mut parts = List::new(alloc);
    for tree in trees {
        let kind = kind_within(&tree.0, levels, alloc, scope, name)?;
        part_name(alloc, keys, parts.as_slice(), tree.1.as_str())?;
        parts.push((Txt::of(alloc, tree.1.as_str())?, kind))?;
    }
    Ok(parts)
}

/// Checks a part's name, which no key and no other part may have; there are at most 8 parts.
#[tactic(auto, using(crate::proofs::TupleLemmas::field_laws))]
fn part_name(
    alloc: Global,
    keys: &[(Txt, BaseType)],
    parts: &[(Txt, Kind)],
    name: &str,
) -> Result<(), CheckFault>
    ensures { Judges (λ _. map (λ p. p.0) parts.now ++ name.now ∷ [])
        (kinds.part_name (names_of (fields_of keys.now)) (map (λ p. p.0) parts.now) name.now) result }
{
    if stands_in(keys, name) {
        return Err(name_twice(alloc, name));
    }
    own_name(alloc, 8, parts, name)
}
