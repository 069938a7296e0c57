// The types of names at an expression's place.
ghost use Rattle.std.specs.Prelude.{◌≡◌, true, false};
ghost use Rattle.std.specs.Option.{option_copied, option_map};
ghost use Rattle.gq_value.specs.AccumViews.{accum_of};
ghost use Rattle.gq_rules_typing.specs.Scopes as typing;
ghost use Rattle.gq_scope.specs.Held.{entry_of, place_of, scope_in, names_in};
ghost use Rattle.gq_scope.specs.Views.{typed_is, kind_is, Judges};

use gq_scope::{Base, Entry, Place, Scope, TypeFault, Typed, unknown};
use gq_value::Kind;
use std::alloc::Global;

/// The type of a name, which may be followed by a dot.
#[tactic(auto, using(crate::proofs::ScopeLemmas::here_laws))]
pub(crate) fn named<'s>(
    alloc: Global,
    scope: &'s Scope<'_>,
    name: &str,
) -> Result<Typed<'s>, TypeFault>
    ensures { Judges typed_is ((names_in scope.now).named name.now) result }
{
    name_at(alloc, scope, name, scope.find(name))
}

#[tactic(auto, using(crate::proofs::ScopeLemmas::scope_laws))]
fn name_at<'s>(
    alloc: Global,
    scope: &Scope<'_>,
    name: &str,
    found: Option<&'s Entry>,
) -> Result<Typed<'s>, TypeFault>
    ensures { Judges typed_is
        (typing.name_at (scope_in scope.now) scope.now.place name.now (option_map entry_of (option_copied found.entry))) result }
{
    match found {
        None => Err(unknown(alloc, name)),
        Some(entry) => match entry {
            Entry::Variable(base) => Ok(Typed::Of(Base::of(base))),
            Entry::SetVariable(types) => Ok(set_at(scope, scope.place(), name, types.as_slice())),
            Entry::Alias(types) => alias_at(scope, scope.place(), name, types.as_slice()),
            Entry::EdgeAlias(types) => edge_at(scope.place(), types.as_slice()),
            Entry::Accumulator(_, _) => Err(unknown(alloc, name)),
            Entry::TupleType(_) => Err(unknown(alloc, name)),
        },
    }
}

/// The type of a set variable. Within the brackets of `S[..]`, S is also the current vertex.
#[tactic(auto, using(crate::proofs::ScopeLemmas::scope_laws))]
fn set_at<'s>(scope: &Scope<'_>, place: Place<'_>, name: &str, types: &'s [u32]) -> Typed<'s>
    ensures { typed_is result ≡ typing.set_at (scope_in scope.now) (place_of place.entry) name.now types.now }
{
    match place {
        Place::Selection(set) => {
            if set == name {
                Typed::MemberOf(types)
            } else {
                Typed::SetOf(types)
            }
        }
        Place::Statement | Place::Block | Place::Post | Place::Limit => Typed::SetOf(types),
        Place::Opening | Place::Tail(_) => Typed::SetOf(types),
    }
}

/// The type of a vertex alias. HAVING and ORDER BY may name only the selected alias, LIMIT none.
#[tactic(auto, using(crate::proofs::ScopeLemmas::scope_laws))]
fn alias_at<'s>(
    scope: &Scope<'_>,
    place: Place<'_>,
    name: &str,
    types: &'s [u32],
) -> Result<Typed<'s>, TypeFault>
    ensures { Judges typed_is (typing.alias_at (scope_in scope.now) (place_of place.entry) name.now types.now) result }
{
    match place {
        Place::Tail(selected) => {
            if selected == name {
                Ok(Typed::AliasOf(types))
            } else {
                Err(TypeFault::NotAllowedHere)
            }
        }
        Place::Limit => Err(TypeFault::NotAllowedHere),
        Place::Statement | Place::Block | Place::Post => Ok(Typed::AliasOf(types)),
        Place::Opening | Place::Selection(_) => Ok(Typed::AliasOf(types)),
    }
}

/// The type of an edge alias. POST-ACCUM, HAVING, ORDER BY, LIMIT and initial values may name none.
fn edge_at<'s>(place: Place<'_>, types: &'s [u32]) -> Result<Typed<'s>, TypeFault>
    ensures { Judges typed_is (typing.edge_at (place_of place.entry) types.now) result }
{
    match place {
        Place::Statement | Place::Block | Place::Selection(_) => Ok(Typed::EdgeOf(types)),
        Place::Post | Place::Limit => Err(TypeFault::NotAllowedHere),
        Place::Opening | Place::Tail(_) => Err(TypeFault::NotAllowedHere),
    }
}

// ---- accumulators

/// The kind of a declared accumulator; `attached` is true for one that belongs to each vertex.
#[tactic(auto, using(crate::proofs::ScopeLemmas::scope_laws))]
pub fn declared_kind<'s>(
    alloc: Global,
    scope: &'s Scope<'_>,
    attached: bool,
    name: &str,
) -> Result<&'s Kind, TypeFault>
    ensures { Judges kind_is (typing.declared_kind (scope_in scope.now) attached name.now) result }
{
    match scope.find(name) {
        None => Err(unknown(alloc, name)),
        Some(entry) => match entry {
            Entry::Accumulator(kind, flag) => {
                if *flag == attached {
                    Ok(kind)
                } else {
                    Err(unknown(alloc, name))
                }
            }
            Entry::Variable(_) | Entry::SetVariable(_) | Entry::Alias(_) => Err(unknown(
                alloc, name,
            )),
            Entry::EdgeAlias(_) | Entry::TupleType(_) => Err(unknown(alloc, name)),
        },
    }
}

/// The type of a global accumulator; an initial value may name none.
#[tactic(auto, using(crate::proofs::ScopeLemmas::here_laws))]
pub(crate) fn global<'s>(
    alloc: Global,
    scope: &'s Scope<'_>,
    name: &str,
) -> Result<&'s Kind, TypeFault>
    ensures { Judges kind_is ((names_in scope.now).global name.now) result }
{
    let kind = declared_kind(alloc, scope, false, name)?;
    global_at(scope.place(), kind)
}

fn global_at<'s>(place: Place<'_>, kind: &'s Kind) -> Result<&'s Kind, TypeFault>
    ensures { Judges kind_is (typing.global_at (place_of place.entry) (accum_of kind.now)) result }
{
    match place {
        Place::Opening => Err(TypeFault::NotAllowedHere),
        Place::Statement | Place::Block | Place::Post | Place::Limit => Ok(kind),
        Place::Selection(_) | Place::Tail(_) => Ok(kind),
    }
}

/// The type of an accumulator of a vertex.
#[tactic(auto, using(crate::proofs::ScopeLemmas::here_laws))]
pub(crate) fn attached<'s>(
    alloc: Global,
    scope: &'s Scope<'_>,
    name: &str,
) -> Result<&'s Kind, TypeFault>
    ensures { Judges kind_is ((names_in scope.now).attached name.now) result }
{
    declared_kind(alloc, scope, true, name)
}

/// The same with a `'`, which is allowed only in POST-ACCUM.
#[tactic(auto, using(crate::proofs::ScopeLemmas::here_laws))]
pub(crate) fn before<'s>(
    alloc: Global,
    scope: &'s Scope<'_>,
    name: &str,
) -> Result<&'s Kind, TypeFault>
    ensures { Judges kind_is ((names_in scope.now).before name.now) result }
{
    let kind = declared_kind(alloc, scope, true, name)?;
    before_at(scope.place(), kind)
}

fn before_at<'s>(place: Place<'_>, kind: &'s Kind) -> Result<&'s Kind, TypeFault>
    ensures { Judges kind_is (typing.before_at (place_of place.entry) (accum_of kind.now)) result }
{
    match place {
        Place::Post => Ok(kind),
        Place::Statement | Place::Block | Place::Limit => Err(TypeFault::NotAllowedHere),
        Place::Opening | Place::Selection(_) | Place::Tail(_) => Err(TypeFault::NotAllowedHere),
    }
}
