// Parts after a dot: fields of vertices, edges, tuples and group rows, and `type`.
ghost use Rattle.std.specs.Prelude.{◌≡◌, ◌≢◌, ℕ, map, true, false, List, length, slice_get, Ok};
ghost use Rattle.std.specs.Option.{option_copied, option_map};
ghost use Rattle.gq_value.specs.AccumViews.{base_of, accum_of};
ghost use Rattle.gq_rules_typing.specs.Sorts as sorts;
ghost use Rattle.gq_rules_typing.specs.FieldTypes as spec;
ghost use Rattle.gq_scope.specs.Held.{setting_in, sorts_in, fields_of};
ghost use Rattle.gq_rules_typing.specs.Words.{OfTupleType};
ghost use Rattle.gq_rules_typing.specs.Judging.{Of};
ghost use Rattle.gq_scope.specs.Views.{base_is, typed_is, parts_are, Judges};
ghost use Rattle.gq_scope.specs.Views as views;
ghost use Rattle.gq_scope.specs.Parts.{first_named, type_field, chained};

use crate::rules::{same, stands_for_vertex};
use gq_graph::{Attribute, IdKind, IdShape};
use gq_scope::{Base, Scope, TypeFault, Typed, matched, no_attribute, read_type};
use gq_value::{BaseType, Kind, Txt};
use std::alloc::Global;

// ---- a field of one type

/// The type of an attribute.
fn attribute_type<'s>(attributes: &'s [Attribute], name: &str) -> Option<Base<'s>>
    ensures { option_map base_is result ≡ first_named (sorts.attribute_fields attributes.now) name.now }
{
    for attribute in attributes {
        if name == attribute.name.as_str() {
            return Some(Base::of(&attribute.kind));
        }
    }
    None
}

/// The type of an id.
fn id_type<'s>(kind: IdKind) -> Base<'s>
    ensures { base_is result ≡ sorts.id_base kind }
{
    match kind {
        IdKind::Text => Base::Text,
        IdKind::Int => Base::Int,
        IdKind::UInt => Base::UInt,
    }
}

/// The type of a field of a vertex type; a shown id is the first field.
fn vertex_type_field<'s>(id: &IdShape, attributes: &'s [Attribute], name: &str) -> Option<Base<'s>>
    ensures { option_map base_is result ≡ first_named (sorts.with_id id.now (sorts.attribute_fields attributes.now)) name.now }
{
    match id.shown {
        true => {
            if name == id.name.as_str() {
                Some(id_type(id.kind))
            } else {
                attribute_type(attributes, name)
            }
        }
        false => attribute_type(attributes, name),
    }
}

fn vertex_field<'s>(scope: &'s Scope<'_>, t: u32, name: &str) -> Option<Base<'s>>
    ensures { option_map base_is result ≡ type_field (setting_in scope.now) false name.now t }
{
    let catalog = scope.catalog();
    let count = catalog.type_count() - catalog.edge_types().len() as u32;
    if t >= count {
        return None;
    }
    let vertex = catalog.vertex_at(t);
    vertex_type_field(&vertex.id, vertex.attributes.as_slice(), name)
}

fn edge_field<'s>(scope: &'s Scope<'_>, t: u32, name: &str) -> Option<Base<'s>>
    ensures { option_map base_is result ≡ type_field (setting_in scope.now) true name.now t }
{
    let types = scope.catalog().edge_types();
    if t as usize >= types.len() {
        return None;
    }
    attribute_type(types[t as usize].attributes.as_slice(), name)
}

fn field_in<'s>(scope: &'s Scope<'_>, edges: bool, t: u32, name: &str) -> Option<Base<'s>>
    ensures { option_map base_is result ≡ type_field (setting_in scope.now) edges name.now t }
{
    match edges {
        true => edge_field(scope, t, name),
        false => vertex_field(scope, t, name),
    }
}

// ---- a field of several types

/// Whether all the types have the field, each with the same type as the one before it.
fn all_have(scope: &Scope<'_>, edges: bool, base: Base<'_>, types: &[u32], name: &str) -> bool
    ensures { result ≡ chained (base_is base.entry) (map (type_field (setting_in scope.now) edges name.now) types.now) }
{
    let mut last = base;
    for t in types {
        match field_in(scope, edges, *t, name) {
            None => return false,
            Some(next) => {
                if !same(last, next) {
                    return false;
                }
                last = next;
            }
        }
    }
    true
}

/// The common type of the field in all these types, if all have it.
fn one_field<'s>(scope: &'s Scope<'_>, edges: bool, types: &[u32], name: &str) -> Option<Base<'s>>
    ensures { option_map base_is result ≡ spec.one_base (map (type_field (setting_in scope.now) edges name.now) types.now) }
{
    if types.is_empty() {
        return None;
    }
    match field_in(scope, edges, types[0], name) {
        None => None,
        Some(base) => {
            if all_have(scope, edges, base, &types[1..], name) {
                Some(base)
            } else {
                None
            }
        }
    }
}

/// The type of an attribute of vertices, or of edges, of these types.
#[tactic(auto, using(crate::proofs::ScopeLemmas::setting_laws))]
fn of_types<'s>(
    alloc: Global,
    scope: &'s Scope<'_>,
    edges: bool,
    types: &[u32],
    name: &str,
) -> Result<Typed<'s>, TypeFault>
    ensures { Judges typed_is
        (spec.field_or_fault (setting_in scope.now) name.now (spec.one_base (map (type_field (setting_in scope.now) edges name.now) types.now)))
        result }
{
    field_or_fault(alloc, scope, name, one_field(scope, edges, types, name))
}

#[tactic(auto, using(crate::proofs::ScopeLemmas::setting_laws))]
fn field_or_fault<'s>(
    alloc: Global,
    scope: &Scope<'_>,
    name: &str,
    base: Option<Base<'s>>,
) -> Result<Typed<'s>, TypeFault>
    ensures { Judges typed_is (spec.field_or_fault (setting_in scope.now) name.now (option_map base_is base.entry)) result }
{
    match base {
        None => Err(no_attribute(alloc, name)),
        Some(base) => Ok(Typed::Of(base)),
    }
}

// ---- tuples and group rows

/// The type of a tuple's field.
fn tuple_field<'s>(fields: &'s [(Txt, BaseType)], name: &str) -> Option<Base<'s>>
    ensures { option_map base_is result ≡ first_named (fields_of fields.now) name.now }
{
    for field in fields {
        if name == field.0.as_str() {
            return Some(Base::of(&field.1));
        }
    }
    None
}

/// The kind of a group's part.
fn part_kind<'s>(parts: &'s [(Txt, Kind)], name: &str) -> Option<&'s Kind>
    ensures { option_map accum_of (option_copied result) ≡ first_named (map (λ p. (p.0, accum_of p.1)) parts.now) name.now }
{
    for part in parts {
        if name == part.0.as_str() {
            return Some(&part.1);
        }
    }
    None
}

/// The type of a tuple's field, by the number of the tuple's type.
fn tuple_type<'s>(scope: &'s Scope<'_>, number: u32, name: &str) -> Option<Base<'s>>
    ensures { option_map base_is result
        ≡ spec.field_base (setting_in scope.now) (OfTupleType number) (spec.tuple_fields (setting_in scope.now) number) name.now }
{
    match scope.tuple_at(number) {
        None => None,
        Some(fields) => tuple_field(fields.as_slice(), name),
    }
}

fn of_parts<'s>(
    alloc: Global,
    scope: &Scope<'_>,
    parts: &'s [(Txt, Kind)],
    name: &str,
) -> Result<Typed<'s>, TypeFault>
    ensures { Judges typed_is (spec.of_parts (setting_in scope.now) (parts_are parts.now) name.now) result }
{
    part_read(alloc, name, part_kind(parts, name))
}

fn part_read<'s>(alloc: Global, name: &str, kind: Option<&'s Kind>) -> Result<Typed<'s>, TypeFault>
    ensures { Judges typed_is (views.part_read name.now (option_map accum_of (option_copied kind.entry))) result }
{
    match kind {
        None => Err(no_attribute(alloc, name)),
        Some(kind) => Ok(read_type(kind)),
    }
}

// ---- after a dot

/// The type of a field of the operand before the dot.
#[tactic(auto, using(crate::proofs::ScopeLemmas::setting_laws))]
fn field_type<'s>(
    alloc: Global,
    scope: &'s Scope<'_>,
    x: Typed<'s>,
    name: &str,
) -> Result<Typed<'s>, TypeFault>
    ensures { Judges typed_is (spec.field_type (setting_in scope.now) (typed_is x.entry) name.now) result }
{
    match x {
        Typed::AliasOf(types) => of_types(alloc, scope, false, types, name),
        Typed::MemberOf(types) => of_types(alloc, scope, false, types, name),
        Typed::EdgeOf(types) => of_types(alloc, scope, true, types, name),
        Typed::GroupRow(parts) => of_parts(alloc, scope, parts, name),
        Typed::Of(base) => base_field_type(alloc, scope, base, name),
        Typed::Average => Err(no_attribute(alloc, name)),
        Typed::Whole(_) => Err(no_attribute(alloc, name)),
        Typed::SetOf(_) => Err(no_attribute(alloc, name)),
    }
}

#[tactic(auto, using(crate::proofs::ScopeLemmas::setting_laws))]
fn base_field_type<'s>(
    alloc: Global,
    scope: &'s Scope<'_>,
    base: Base<'s>,
    name: &str,
) -> Result<Typed<'s>, TypeFault>
    ensures { Judges typed_is (spec.field_type (setting_in scope.now) (Of (base_is base.entry)) name.now) result }
{
    match base {
        Base::VertexOf(t) => of_types(alloc, scope, false, &[t], name),
        Base::AnyVertex => of_types(alloc, scope, false, scope.own_vertices(), name),
        Base::Tuple(number, _) => {
            field_or_fault(alloc, scope, name, tuple_type(scope, number, name))
        }
        Base::Int | Base::UInt | Base::Bool => Err(no_attribute(alloc, name)),
        Base::Text | Base::Time => Err(no_attribute(alloc, name)),
    }
}

/// Whether `x.type` exists: vertices and edges have a type, and it is the type's name.
fn has_type_name(x: Typed<'_>) -> bool
    ensures { result ≡ spec.has_type_name (typed_is x.entry) }
{
    match x {
        Typed::EdgeOf(_) => true,
        Typed::Of(_) | Typed::AliasOf(_) | Typed::MemberOf(_) => stands_for_vertex(x),
        Typed::Average | Typed::Whole(_) | Typed::GroupRow(_) => stands_for_vertex(x),
        Typed::SetOf(_) => stands_for_vertex(x),
    }
}

/// The type of `x.f`, and of `x.type`, which takes precedence over attributes.
#[tactic(auto, using(crate::proofs::ScopeLemmas::setting_laws))]
pub(crate) fn behind_dot<'s>(
    alloc: Global,
    scope: &'s Scope<'_>,
    x: Typed<'s>,
    name: &str,
) -> Result<Typed<'s>, TypeFault>
    ensures { Judges typed_is (spec.behind_dot (setting_in scope.now) (typed_is x.entry) name.now) result }
{
    match "type" == name {
        true => type_name(x),
        false => field_type(alloc, scope, x, name),
    }
}

fn type_name<'s>(x: Typed<'_>) -> Result<Typed<'s>, TypeFault>
    ensures { Judges typed_is (views.type_name (typed_is x.entry)) result }
{
    matched(has_type_name(x))?;
    Ok(Typed::Of(Base::Text))
}
