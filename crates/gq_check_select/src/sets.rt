// Vertex sets.
ghost use Rattle.std.specs.Prelude.{◌≡◌, ◌++◌, map, IfOk, OnOk};
ghost use Rattle.gq_value.specs.AccumViews.{accum_of};
ghost use Rattle.gq_rules_typing.specs.Scopes as typing;
ghost use Rattle.gq_rules_typing.specs.StatementViews.{view_seed, view_term};
ghost use Rattle.gq_rules_typing.specs.SetTypes as spec;
ghost use Rattle.gq_scope.specs.Held.{scope_in};
ghost use Rattle.gq_scope.specs.Views.{base_is};
ghost use Rattle.gq_check_from.specs.Faults.{Judges};
ghost use Rattle.gq_check_select.specs.Selects as selects;

use gq_base::{List, OutOfMemory};
use gq_check_from::{CheckFault, both, by_number, unknown, vertex_type};
use gq_graph::Numbers;
use gq_scope::{Base, Entry, Scope};
use gq_tree::{SeedTree, SetOp, SetTermTree, SetsTree};
use gq_type::{declared_kind, vertex_of};
use gq_value::Kind;
use std::alloc::Global;

/// The types of a visible set variable.
#[tactic(auto, using(gq_type::proofs::ScopeLemmas::scope_laws))]
pub fn set_types<'s>(
    alloc: Global,
    scope: &'s Scope<'_>,
    name: &str,
) -> Result<&'s [u32], CheckFault>
    ensures { Judges (λ types. types.now) (spec.set_types (scope_in scope.now) name.now) result }
{
    match scope.find(name) {
        None => Err(unknown(alloc, name)),
        Some(entry) => match entry {
            Entry::SetVariable(types) => Ok(types.as_slice()),
            Entry::TupleType(_) => Err(unknown(alloc, name)),
            Entry::Variable(_) | Entry::Alias(_) => Err(CheckFault::Mismatch),
            Entry::EdgeAlias(_) | Entry::Accumulator(_, _) => Err(CheckFault::Mismatch),
        },
    }
}

// ---- seeds

/// All vertex types of the graph.
#[tactic(auto, using(crate::proofs::PlaceLemmas::sort_laws))]
pub(crate) fn own_types(alloc: Global, scope: &Scope<'_>) -> Result<Numbers, OutOfMemory>
    ensures { IfOk result (λ l. l ≡ (scope_in scope.now).setting.sorts.own_vertices) }
{
    List::from_slice(alloc, scope.own_vertices())
}

/// The types of a vertex: its own, or all types of the graph.
fn types_of(alloc: Global, scope: &Scope<'_>, base: Base<'_>) -> Result<Numbers, CheckFault>
    ensures { Judges (λ l. l) (spec.types_of (scope_in scope.now) (base_is base.entry)) result }
{
    match base {
        Base::VertexOf(t) => Ok(List::from_slice(alloc, &[t])?),
        Base::AnyVertex => Ok(own_types(alloc, scope)?),
        Base::Int | Base::UInt | Base::Bool | Base::Text => Err(CheckFault::Mismatch),
        Base::Time | Base::Tuple(_, _) => Err(CheckFault::Mismatch),
    }
}

/// The types of the elements of a SetAccum of vertices.
#[tactic(auto, using(gq_value::proofs::AccumLemmas::accum_laws))]
fn content_types(alloc: Global, scope: &Scope<'_>, kind: &Kind) -> Result<Numbers, CheckFault>
    ensures { Judges (λ l. l) (spec.content_types (scope_in scope.now) (accum_of kind.now)) result }
{
    match kind {
        Kind::Set(base) => types_of(alloc, scope, Base::of(base)),
        Kind::Sum(_) | Kind::Min(_) | Kind::Max(_) | Kind::Or => Err(CheckFault::Mismatch),
        Kind::And | Kind::BitOr | Kind::BitAnd | Kind::Avg => Err(CheckFault::Mismatch),
        Kind::Bag(_) | Kind::List(_) | Kind::Map(_, _) => Err(CheckFault::Mismatch),
        Kind::Group(_) | Kind::Heap(_) => Err(CheckFault::Mismatch),
    }
}

/// The types of a name that means one vertex, in a statement.
#[tactic(auto, using(gq_type::proofs::ScopeLemmas::scope_laws))]
fn named_types(alloc: Global, scope: &Scope<'_>, name: &str) -> Result<Numbers, CheckFault>
    ensures { Judges (λ l. l) (selects.named_types (scope_in scope.now) name.now) result }
{
    match scope.find(name) {
        None => Err(unknown(alloc, name)),
        Some(entry) => match entry {
            Entry::Variable(base) => types_of(alloc, scope, Base::of(base)),
            Entry::Alias(types) => types_of(alloc, scope, vertex_of(types.as_slice())),
            Entry::SetVariable(_) | Entry::EdgeAlias(_) => Err(CheckFault::NotAllowedHere),
            Entry::Accumulator(_, _) | Entry::TupleType(_) => Err(unknown(alloc, name)),
        },
    }
}

fn all_of(alloc: Global, scope: &Scope<'_>, name: &str) -> Result<Numbers, CheckFault>
    ensures { Judges (λ l. l) (selects.all_of (scope_in scope.now) name.now) result }
{
    let t = vertex_type(alloc, scope, name)?;
    Ok(List::from_slice(alloc, &[t])?)
}

fn seed_types(alloc: Global, scope: &Scope<'_>, seed: &SeedTree) -> Result<Numbers, CheckFault>
    ensures { Judges (λ l. l) (spec.seed_types (scope_in scope.now) (view_seed seed.now)) result }
{
    match seed {
        SeedTree::Type(name) => all_of(alloc, scope, name.as_str()),
        SeedTree::Any => Ok(own_types(alloc, scope)?),
        SeedTree::Name(name) => named_types(alloc, scope, name.as_str()),
        SeedTree::Global(name) => {
            let kind = declared_kind(alloc, scope, false, name.as_str())?;
            content_types(alloc, scope, kind)
        }
    }
}

fn append(all: &mut Vec<u32>, types: &[u32]) -> Result<(), OutOfMemory>
    ensures { OnOk result (all.new.items ≡ all.old.items ++ types.now) }
{
    all.extend_from_slice(types)?;
    Ok(())
}

/// The types of the elements of a written set, sorted only once.
#[tactic(auto, using(crate::proofs::SetLemmas::seed_laws))]
fn seeds_types(alloc: Global, scope: &Scope<'_>, seeds: &[SeedTree]) -> Result<Numbers, CheckFault>
    ensures { Judges (λ l. l) (selects.seeds_types (scope_in scope.now) (map view_seed seeds.now)) result }
{
    let mut all = Vec::new(alloc);
    for seed in seeds {
        let types = seed_types(alloc, scope, seed)?;
        append(&mut all, types.as_slice())?;
    }
    Ok(by_number(all)?)
}

// ---- chains of sets

fn term_types(alloc: Global, scope: &Scope<'_>, term: &SetTermTree) -> Result<Numbers, CheckFault>
    ensures { Judges (λ l. l) (spec.term_types (scope_in scope.now) (view_term term.now)) result }
{
    match term {
        SetTermTree::Name(name) => {
            let types = set_types(alloc, scope, name.as_str())?;
            Ok(List::from_slice(alloc, types)?)
        }
        SetTermTree::Seeds(seeds) => seeds_types(alloc, scope, seeds.as_slice()),
    }
}

/// The types of an operation: a UNION has those of both sides, the others have those of the left side.
fn joined(alloc: Global, op: SetOp, left: Numbers, right: &[u32]) -> Result<Numbers, OutOfMemory>
    ensures { IfOk result (λ l. l ≡ spec.joined_types op left right.now) }
{
    match op {
        SetOp::Union => both(alloc, left.as_slice(), right),
        SetOp::Intersect | SetOp::Minus => Ok(left),
    }
}

fn chain(
    alloc: Global,
    scope: &Scope<'_>,
    first: &SetTermTree,
    others: &[(SetOp, SetTermTree)],
) -> Result<Numbers, CheckFault>
    ensures { Judges (λ l. l) (selects.chain (scope_in scope.now) (view_term first.now) (selects.view_terms others.now)) result }
{
    let mut types = term_types(alloc, scope, first)?;
    for other in others {
        let more = term_types(alloc, scope, &other.1)?;
        types = joined(alloc, other.0, types, more.as_slice())?;
    }
    Ok(types)
}

/// Whether a chain is just `{}`.
fn is_empty(first: &SetTermTree, others: &[(SetOp, SetTermTree)]) -> bool
    ensures { result ≡ selects.is_empty (view_term first.now) (selects.view_terms others.now) }
{
    match first {
        SetTermTree::Name(_) => false,
        SetTermTree::Seeds(seeds) => seeds.len() == 0 && others.is_empty(),
    }
}

/// The types of a chain of sets, from left to right. `{}` alone has all types of the graph.
#[tactic(auto, using(crate::proofs::SetLemmas::sets_laws))]
pub(crate) fn sets_types(
    alloc: Global,
    scope: &Scope<'_>,
    sets: &SetsTree,
) -> Result<Numbers, CheckFault>
    ensures { Judges (λ l. l) (spec.sets_types (scope_in scope.now) (view_term sets.now.first) (selects.view_terms sets.now.others)) result }
{
    if is_empty(&sets.first, sets.others.as_slice()) {
        Ok(own_types(alloc, scope)?)
    } else {
        chain(alloc, scope, &sets.first, sets.others.as_slice())
    }
}
