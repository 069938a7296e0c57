// Checks that an INSERT describes a row of a catalog.
ghost use Rattle.std.specs.Prelude.{◌≡◌, ◌<◌, ◌||◌, ◌+◌, ℕ, ℤ, List, false, Option, Some, None, IfOk, IfSome, OnOk, length, take, drop};
ghost use Rattle.std.specs.List.{list_any};
ghost use Rattle.gq_load_csv.specs.Fields.{TellsTimes};
ghost use Rattle.gq_load_check.specs.Targets.{HasTarget, vertex_type_at as vertex_of, edge_type_at as edge_of, value_count as count_of};
ghost use Rattle.gq_insert.specs.Fits.{IsSound, EndFits, EndsFit, InsertFits};
ghost use Rattle.gq_insert.specs.Inserts as spec;

use crate::values::{given_id, row_of};
use gq_base::OutOfMemory;
use gq_load::default_row;
use gq_load_check::{
    Endpoint, Insert, InsertFault, Target, edge_type_at, id_count, key_count, value_count,
    vertex_type_at,
};
use gq_schema::Catalog;
use gq_tree::{InsertTree, Literal};
use gq_value::Txt;
use std::alloc::Global;

fn edge_target(catalog: &Catalog, number: u32) -> Option<Target>
    requires { number < length catalog.now.edge_types }
    ensures { result ≡ spec.edge_target catalog.now (Some number) }
{
    if edge_type_at(catalog, number).forward.is_some() {
        None
    } else {
        Some(Target::Edge(number))
    }
}

/// Returns the type that an INSERT names.
fn target_named(catalog: &Catalog, name: &str) -> Option<Target>
    ensures named { result ≡ spec.target_named catalog.now name.now }
    ensures there { IfSome result (HasTarget catalog.now) }
{
    match catalog.vertex_type(name) {
        Some(number) => Some(Target::Vertex(number)),
        None => match catalog.edge_type(name) {
            Some(number) => edge_target(catalog, number),
            None => None,
        },
    }
}

fn no_such_type(alloc: Global, name: &str) -> InsertFault
    ensures { spec.Tells (InsertFault.NoSuchType name.now) result }
{
    match Txt::of(alloc, name) {
        Ok(name) => InsertFault::NoSuchType(name),
        Err(OutOfMemory) => InsertFault::OutOfMemory,
    }
}

fn wrong_count(alloc: Global, name: &str) -> InsertFault
    ensures { spec.Tells (InsertFault.WrongCount name.now) result }
{
    match Txt::of(alloc, name) {
        Ok(name) => InsertFault::WrongCount(name),
        Err(OutOfMemory) => InsertFault::OutOfMemory,
    }
}

fn check_count(
    alloc: Global,
    catalog: &Catalog,
    target: Target,
    tree: &InsertTree,
) -> Result<(), InsertFault>
    requires { HasTarget catalog.now target }
    ensures judged { spec.Judges (spec.wrong_count catalog.now target tree.now) result }
    ensures counted { OnOk result (length tree.now.values ≡ count_of catalog.now target) }
{
    if tree.values.len() != value_count(catalog, target) {
        return Err(wrong_count(alloc, tree.name.as_str()));
    }
    Ok(())
}

fn is_no_id(value: &Option<Literal>) -> bool
    ensures { result ≡ spec.is_no_id value.now }
{
    match value {
        Some(Literal::Text(text)) => text.as_str().is_empty(),
        Some(Literal::Number(_, _) | Literal::Truth(_)) => false,
        None => true,
    }
}

fn is_default(value: &Option<Literal>) -> bool
    ensures { result ≡ spec.is_default value.now }
{
    value.is_none()
}

fn lacks_id(values: &[Option<Literal>], count: usize) -> bool
    ensures { result ≡ list_any spec.is_no_id (take count values.now) }
{
    values.iter().take(count).any(|value| is_no_id(value))
}

fn lacks_key(values: &[Option<Literal>], ids: usize, count: usize) -> bool
    ensures { result ≡ list_any spec.is_default (take count (drop ids values.now)) }
{
    values
        .iter()
        .skip(ids)
        .take(count)
        .any(|value| is_default(value))
}

fn check_names(
    catalog: &Catalog,
    target: Target,
    values: &[Option<Literal>],
) -> Result<(), InsertFault>
    requires { HasTarget catalog.now target }
    ensures { spec.Judges (spec.not_allowed catalog.now target values.now) result }
{
    let ids = id_count(target);
    if lacks_id(values, ids) || lacks_key(values, ids, key_count(catalog, target)) {
        return Err(InsertFault::NotAllowed);
    }
    Ok(())
}

/// Returns an end of an edge, or None if its id doesn't fit the type.
fn end_of(
    alloc: Global,
    catalog: &Catalog,
    kind: u32,
    value: &Option<Literal>,
) -> Result<Option<Endpoint>, OutOfMemory>
    requires there { kind < length catalog.now.vertex_types }
    requires sound { IsSound catalog.now }
    requires given { spec.is_no_id value.now ≡ false }
    ensures made { IfOk result (λ end. end ≡ spec.end_of catalog.now kind value.now) }
    ensures fits { IfOk result (λ end. IfSome end (EndFits catalog.now kind)) }
{
    let shape = vertex_type_at(catalog, kind);
    match given_id(alloc, shape.id.kind, value)? {
        Some(id) => Ok(Some(Endpoint {
            kind,
            id,
            missing: default_row(alloc, shape.attributes.as_slice())?,
        })),
        None => Ok(None),
    }
}

fn vertex_insert(
    alloc: Global,
    catalog: &Catalog,
    number: u32,
    id: &Option<Literal>,
    values: &[Option<Literal>],
) -> Result<Option<Insert>, OutOfMemory>
    requires there { number < length catalog.now.vertex_types }
    requires count { length (vertex_of catalog.now number).attributes ≡ length values.now }
    requires sound { IsSound catalog.now }
    requires given { spec.is_no_id id.now ≡ false }
    ensures fits { IfOk result (λ row. IfSome row (InsertFits catalog.now)) }
    ensures made { (read : List ℕ → Option ℤ) → TellsTimes read → IfOk result (λ row. row ≡ spec.vertex_with number
        (spec.given_id (vertex_of catalog.now number).id.kind id.now) (spec.row_of read (vertex_of catalog.now number).attributes values.now)) }
{
    let shape = vertex_type_at(catalog, number);
    match given_id(alloc, shape.id.kind, id)? {
        Some(id) => match row_of(alloc, shape.attributes.as_slice(), values)? {
            Some(attributes) => Ok(Some(Insert::Vertex {
                kind: number,
                id,
                attributes,
            })),
            None => Ok(None),
        },
        None => Ok(None),
    }
}

/// Returns both ends of an edge, or None if an id doesn't fit its type.
fn ends_of(
    alloc: Global,
    catalog: &Catalog,
    number: u32,
    from: &Option<Literal>,
    to: &Option<Literal>,
) -> Result<Option<(Endpoint, Endpoint)>, OutOfMemory>
    requires there { number < length catalog.now.edge_types }
    requires sound { IsSound catalog.now }
    requires from_given { spec.is_no_id from.now ≡ false }
    requires to_given { spec.is_no_id to.now ≡ false }
    ensures made { IfOk result (λ ends. ends ≡ spec.both
        (spec.end_of catalog.now (edge_of catalog.now number).from from.now) (spec.end_of catalog.now (edge_of catalog.now number).to to.now)) }
    ensures fits { IfOk result (λ ends. IfSome ends (EndsFit catalog.now number)) }
{
    let shape = edge_type_at(catalog, number);
    match end_of(alloc, catalog, shape.from, from)? {
        Some(from) => match end_of(alloc, catalog, shape.to, to)? {
            Some(to) => Ok(Some((from, to))),
            None => Ok(None),
        },
        None => Ok(None),
    }
}

fn edge_between(
    alloc: Global,
    catalog: &Catalog,
    number: u32,
    ends: (Endpoint, Endpoint),
    values: &[Option<Literal>],
) -> Result<Option<Insert>, OutOfMemory>
    requires there { HasTarget catalog.now (Target.Edge number) }
    requires count { length (edge_of catalog.now number).attributes ≡ length values.now }
    requires sound { IsSound catalog.now }
    requires ends { EndsFit catalog.now number ends }
    ensures fits { IfOk result (λ row. IfSome row (InsertFits catalog.now)) }
    ensures made { (read : List ℕ → Option ℤ) → TellsTimes read → IfOk result (λ row. row ≡ spec.edge_with catalog.now number
        (Some ends) (spec.row_of read (edge_of catalog.now number).attributes values.now)) }
{
    let shape = edge_type_at(catalog, number);
    match row_of(alloc, shape.attributes.as_slice(), values)? {
        Some(attributes) => {
            let (from, to) = ends;
            Ok(Some(Insert::Edge {
                kind: number,
                directed: shape.directed,
                key: shape.discriminators,
                from,
                to,
                attributes,
            }))
        }
        None => Ok(None),
    }
}

fn edge_insert(
    alloc: Global,
    catalog: &Catalog,
    number: u32,
    from: &Option<Literal>,
    to: &Option<Literal>,
    values: &[Option<Literal>],
) -> Result<Option<Insert>, OutOfMemory>
    requires there { HasTarget catalog.now (Target.Edge number) }
    requires count { length (edge_of catalog.now number).attributes ≡ length values.now }
    requires sound { IsSound catalog.now }
    requires from_given { spec.is_no_id from.now ≡ false }
    requires to_given { spec.is_no_id to.now ≡ false }
    ensures fits { IfOk result (λ row. IfSome row (InsertFits catalog.now)) }
    ensures made { (read : List ℕ → Option ℤ) → TellsTimes read → IfOk result (λ row. row ≡ spec.edge_with catalog.now number
        (spec.both (spec.end_of catalog.now (edge_of catalog.now number).from from.now) (spec.end_of catalog.now (edge_of catalog.now number).to to.now))
        (spec.row_of read (edge_of catalog.now number).attributes values.now)) }
{
    match ends_of(alloc, catalog, number, from, to) {
        Ok(Some(ends)) => edge_between(alloc, catalog, number, ends, values),
        Ok(None) => Ok(None),
        Err(memory) => Err(memory),
    }
}

/// Returns the row of a type with these values, or None if one doesn't have its type.
fn insert_of(
    alloc: Global,
    catalog: &Catalog,
    target: Target,
    values: &[Option<Literal>],
) -> Result<Option<Insert>, OutOfMemory>
    requires there { HasTarget catalog.now target }
    requires count { length values.now ≡ count_of catalog.now target }
    requires sound { IsSound catalog.now }
    requires given { spec.not_allowed catalog.now target values.now ≡ None }
    ensures fits { IfOk result (λ row. IfSome row (InsertFits catalog.now)) }
    ensures made { (read : List ℕ → Option ℤ) → TellsTimes read → IfOk result (λ row. row ≡ spec.insert_of read catalog.now target values.now) }
{
    match target {
        Target::Vertex(number) => match values {
            [id, rest @ ..] => vertex_insert(alloc, catalog, number, id, rest),
            [] => Ok(None),
        },
        Target::Edge(number) => match values {
            [from, to, rest @ ..] => edge_insert(alloc, catalog, number, from, to, rest),
            _ => Ok(None),
        },
    }
}

/// Returns the row of the type, or why the values are refused.
fn checked(
    alloc: Global,
    catalog: &Catalog,
    target: Target,
    tree: &InsertTree,
) -> Result<Insert, InsertFault>
    requires there { HasTarget catalog.now target }
    requires sound { IsSound catalog.now }
    ensures judged { (read : List ℕ → Option ℤ) → TellsTimes read → spec.Judges (spec.values_refusal read catalog.now tree.now (Some target)) result }
    ensures fits { IfOk result (InsertFits catalog.now) }
    ensures made { (read : List ℕ → Option ℤ) → TellsTimes read → IfOk result (λ row. spec.insert_of read catalog.now target tree.now.values ≡ Some row) }
{
    match check_count(alloc, catalog, target, tree) {
        Ok(()) => {}
        Err(fault) => return Err(fault),
    }
    match check_names(catalog, target, tree.values.as_slice()) {
        Ok(()) => {}
        Err(fault) => return Err(fault),
    }
    match insert_of(alloc, catalog, target, tree.values.as_slice()) {
        Ok(Some(row)) => Ok(row),
        Ok(None) => Err(InsertFault::Mismatch),
        Err(OutOfMemory) => Err(InsertFault::OutOfMemory),
    }
}

/// Returns the row that an INSERT describes, with values of its type, or the first rule that fails: its type, the
/// number of its values, `_` or an empty text for an id and `_` for a discriminator, and the type of a value.
pub fn check_insert(
    alloc: Global,
    catalog: &Catalog,
    tree: &InsertTree,
) -> Result<Insert, InsertFault>
    requires { IsSound catalog.now }
    ensures judged { (read : List ℕ → Option ℤ) → TellsTimes read → spec.Judges (spec.insert_refusal read catalog.now tree.now) result }
    ensures fits { IfOk result (InsertFits catalog.now) }
    ensures made { (read : List ℕ → Option ℤ) → TellsTimes read → IfOk result (λ row. spec.insert_named read catalog.now tree.now ≡ Some row) }
{
    match target_named(catalog, tree.name.as_str()) {
        Some(target) => checked(alloc, catalog, target, tree),
        None => Err(no_such_type(alloc, tree.name.as_str())),
    }
}
