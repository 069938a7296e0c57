// Inputs: the operands of `+=`.
ghost use Rattle.std.specs.Prelude.{◌≡◌, ◌≢◌, map, length, slice_get, true, Ok, Err, MatchResult};
ghost use Rattle.std.specs.Option.{option_copied, option_map};
ghost use Rattle.gq_value.specs.AccumViews.{accum_of};
ghost use Rattle.gq_tree.specs.View.{views};
ghost use Rattle.gq_rules_typing.specs.Kinds.{part_kinds};
ghost use Rattle.gq_rules_typing.specs.ExpressionTypes.{typing_all};
ghost use Rattle.gq_rules_typing.specs.SelectViews.{view_input};
ghost use Rattle.gq_rules_typing.specs.ActTypes as spec;
ghost use Rattle.gq_scope.specs.Held.{names_in};
ghost use Rattle.gq_scope.specs.Views.{base_is, typed_is};
ghost use Rattle.gq_type.specs.Arguments.{all_bases};
ghost use Rattle.gq_check_from.specs.Faults.{fault_of, Judges};
ghost use Rattle.gq_check_select.specs.Trees.{view_inputs};

use gq_check_from::CheckFault;
use gq_scope::{Base, Scope, Typed, input_type, key_types, matched};
use gq_tree::{InputTree, Node};
use gq_type::{as_base, base_type, convert_all, converts, type_of};
use gq_value::Kind;
use std::alloc::Global;

// ---- the inputs of a kind

/// Whether a value of a type is an input of the kind. If there are more inputs than parts, an extra one has no kind,
/// and accepts any value.
fn takes(kind: Option<&Kind>, base: Base<'_>) -> bool
    ensures { result ≡ spec.takes (option_map accum_of (option_copied kind.entry)) (base_is base.entry) }
{
    match kind {
        None => true,
        Some(kind) => converts_into(base, input_type(kind)),
    }
}

fn converts_into(base: Base<'_>, want: Option<Base<'_>>) -> bool
    ensures { result ≡ spec.converts_into (base_is base.entry) (option_map base_is want.entry) }
{
    match want {
        None => false,
        Some(want) => converts(base, want),
    }
}

/// Whether keys of these types and `count` inputs are an input of the kind: there must be as many inputs as the kind
/// has parts.
fn takes_keys(kind: Option<&Kind>, keys: &[Base<'_>], count: usize) -> bool
    ensures { result ≡ spec.takes_keys (option_map accum_of (option_copied kind.entry)) (map base_is keys.now) count }
{
    match kind {
        None => true,
        Some(kind) => {
            convert_all(keys, key_types(kind)) && (count == part_count(kind) && !(count == 0))
        }
    }
}

/// The number of kinds under a key.
#[tactic(auto, using(gq_value::proofs::AccumLemmas::accum_laws))]
fn part_count(kind: &Kind) -> usize
    ensures { result ≡ length (part_kinds (accum_of kind.now)) }
{
    match kind {
        Kind::Map(_, _) => 1,
        Kind::Group(shape) => shape.parts.len(),
        Kind::Sum(_) | Kind::Min(_) | Kind::Max(_) | Kind::Or | Kind::And | Kind::Heap(_) => 0,
        Kind::BitOr | Kind::BitAnd | Kind::Avg => 0,
        Kind::Set(_) | Kind::Bag(_) | Kind::List(_) => 0,
    }
}

/// The kind at a place under a key.
fn part_at(kind: Option<&Kind>, place: usize) -> Option<&Kind>
    ensures { option_map accum_of (option_copied result) ≡ slice_get (spec.kinds_of (option_map accum_of (option_copied kind.entry))) place }
{
    match kind {
        None => None,
        Some(kind) => part_of(kind, place),
    }
}

#[tactic(auto, using(gq_value::proofs::AccumLemmas::accum_laws))]
fn part_of(kind: &Kind, place: usize) -> Option<&Kind>
    ensures { option_map accum_of (option_copied result) ≡ slice_get (part_kinds (accum_of kind.now)) place }
{
    match kind {
        Kind::Map(_, held) => { if place == 0 { Some(held.get()) } else { None } }
        Kind::Group(shape) => {
            if place < shape.parts.len() {
                Some(&shape.parts.at(place).1)
            } else {
                None
            }
        }
        Kind::Sum(_) | Kind::Min(_) | Kind::Max(_) | Kind::Or | Kind::And | Kind::Heap(_) => None,
        Kind::BitOr | Kind::BitAnd | Kind::Avg => None,
        Kind::Set(_) | Kind::Bag(_) | Kind::List(_) => None,
    }
}

// ---- keys

/// The types of keys, from left to right.
#[tactic(auto, using(crate::proofs::InputLemmas::all_laws))]
fn typed_all<'s>(
    alloc: Global,
    scope: &'s Scope<'_>,
    nodes: &[Node],
) -> Result<Vec<Typed<'s>>, CheckFault>
    ensures { MatchResult result
        (λ types. typing_all (names_in scope.now) (views nodes.now) ≡ Ok (map typed_is types.items))
        (λ e. e ≢ CheckFault.OutOfMemory → typing_all (names_in scope.now) (views nodes.now) ≡ Err (fault_of e)) }
{
    let mut types = Vec::new(alloc);
    for node in nodes {
        let x = type_of(alloc, scope, node)?;
        types.push(x)?;
    }
    Ok(types)
}

/// The types of keys, each of which must be a value.
#[tactic(auto, using(crate::proofs::InputLemmas::all_laws))]
fn bases<'s>(alloc: Global, typed: &[Typed<'s>]) -> Result<Vec<Base<'s>>, CheckFault>
    ensures { MatchResult result
        (λ bases. all_bases (map typed_is typed.now) ≡ Ok (map base_is bases.items))
        (λ e. e ≢ CheckFault.OutOfMemory → all_bases (map typed_is typed.now) ≡ Err (fault_of e)) }
{
    let mut bases = Vec::new(alloc);
    for x in typed {
        let base = as_base(*x)?;
        bases.push(base)?;
    }
    Ok(bases)
}

// ---- inputs

/// Checks an input of an accumulator of a kind, at the scope's place: one value of the kind's type, or keys with an
/// input for each part. If it is nested below keys and there is no corresponding part, its kind is None, and it is
/// checked on its own.
#[cycle(inputs)]
#[tactic(auto, using(crate::proofs::TreeLemmas::input_laws))]
pub(crate) fn input(
    tree: &InputTree,
    alloc: Global,
    scope: &Scope<'_>,
    kind: Option<&Kind>,
) -> Result<(), CheckFault>
    ensures { Judges (λ _. true) (spec.typing_input (names_in scope.now) (option_map accum_of (option_copied kind.entry)) (view_input tree.now)) result }
{
    match tree {
        InputTree::One(node) => {
            let base = base_type(alloc, scope, node)?;
            matched(takes(kind, base))?;
            Ok(())
        }
        InputTree::Keyed(keys, inputs) => {
            let types = typed_all(alloc, scope, keys.as_slice())?;
            parts(inputs.as_slice(), alloc, scope, kind)?;
            let bases = bases(alloc, &types)?;
            matched(takes_keys(kind, &bases, inputs.len()))?;
            Ok(())
        }
    }
}

/// Checks inputs after keys, one for each part of a kind.
#[cycle(inputs)]
fn parts(
    inputs: &[InputTree],
    alloc: Global,
    scope: &Scope<'_>,
    kind: Option<&Kind>,
) -> Result<(), CheckFault>
    ensures { Judges (λ _. true)
        (spec.typing_inputs (names_in scope.now) (spec.kinds_of (option_map accum_of (option_copied kind.entry))) (view_inputs inputs.now)) result }
{
    for (place, tree) in inputs.iter().enumerate() {
        input(tree, alloc, scope, part_at(kind, place))?;
    }
    Ok(())
}
