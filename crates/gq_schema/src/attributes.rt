// Attributes: checks of their defaults and names, and copies of them.
ghost use Rattle.std.specs.Prelude.{◌≡◌, ◌≢◌, ◌++◌, true, All, IfOk, IsTrue, OnOk, MatchResult, Some, None, map};
ghost use Rattle.std.specs.Option.{option_map};
ghost use Rattle.gq_value.specs.Views.{val};
ghost use Rattle.gq_value.specs.Val.{Int, UInt};
ghost use Rattle.gq_graph.specs.Defaults as spec;
ghost use Rattle.gq_schema.specs.Refusals.{Judges, attribute_names, twice_after, bad_default as bad_default_of};

use crate::fault::{SchemaFault, attribute_twice, bad_default};
use crate::names::NameTable;
use gq_base::OutOfMemory;
use gq_graph::Attribute;
use gq_value::{BaseType, Txt, Value};
use std::alloc::Global;

const FIRST_SECOND: i64 = -62_167_219_200;

const LAST_SECOND: i64 = 253_402_300_799;

/// Whether a value is of the type, or is a number that is converted to it.
#[tactic(auto, using(gq_value::specs::ViewLaws::view_laws, gq_graph::specs::SortLaws::sort_laws))]
fn suits(kind: &BaseType, value: &Value) -> bool
    ensures { result ≡ spec.suits (val value.now) (spec.sort_of kind.now) }
{
    match value {
        Value::Int(n) => int_suits(kind, *n),
        Value::UInt(n) => uint_suits(kind, *n),
        Value::Bool(_) => match kind {
            BaseType::Bool => true,
            BaseType::Int | BaseType::UInt | BaseType::Text | BaseType::AnyVertex => false,
            BaseType::VertexOf(_) | BaseType::Tuple(_, _) | BaseType::Time => false,
        },
        Value::Text(_) => match kind {
            BaseType::Text => true,
            BaseType::Int | BaseType::UInt | BaseType::Bool | BaseType::AnyVertex => false,
            BaseType::VertexOf(_) | BaseType::Tuple(_, _) | BaseType::Time => false,
        },
        Value::Vertex(_) | Value::Tuple(_) | Value::Fraction(_) => false,
    }
}

#[tactic(auto, using(gq_graph::specs::SortLaws::sort_laws))]
fn int_suits(kind: &BaseType, n: i64) -> bool
    ensures { result ≡ spec.suits (Int n) (spec.sort_of kind.now) }
{
    match kind {
        BaseType::Int => true,
        BaseType::UInt => n >= 0,
        BaseType::Time => n >= FIRST_SECOND && n <= LAST_SECOND,
        BaseType::Bool | BaseType::Text | BaseType::AnyVertex => false,
        BaseType::VertexOf(_) | BaseType::Tuple(_, _) => false,
    }
}

#[tactic(auto, using(gq_graph::specs::SortLaws::sort_laws))]
fn uint_suits(kind: &BaseType, n: u64) -> bool
    ensures { result ≡ spec.suits (UInt n) (spec.sort_of kind.now) }
{
    match kind {
        BaseType::Int => n < 9_223_372_036_854_775_808,
        BaseType::UInt => true,
        BaseType::Bool | BaseType::Text | BaseType::AnyVertex => false,
        BaseType::VertexOf(_) | BaseType::Tuple(_, _) | BaseType::Time => false,
    }
}

/// Copies a value that suits the type, converted to the type.
#[tactic(auto, using(gq_value::specs::ViewLaws::view_laws, gq_graph::specs::SortLaws::sort_laws))]
fn converted(alloc: Global, kind: &BaseType, value: &Value) -> Result<Value, OutOfMemory>
    requires { spec.suits (val value.now) (spec.sort_of kind.now) ≡ true }
    ensures { IfOk result (λ v. v ≡ spec.converted (spec.sort_of kind.now) value.now) }
{
    match value {
        Value::Int(n) => match kind {
            BaseType::UInt => Ok(Value::UInt(n.unsigned_abs())),
            BaseType::Int | BaseType::Time => Ok(Value::Int(*n)),
            BaseType::Bool | BaseType::Text | BaseType::AnyVertex => Ok(Value::Int(*n)),
            BaseType::VertexOf(_) | BaseType::Tuple(_, _) => Ok(Value::Int(*n)),
        },
        Value::UInt(n) => match kind {
            BaseType::Int => Ok(Value::Int(*n as i64)),
            BaseType::UInt | BaseType::Time => Ok(Value::UInt(*n)),
            BaseType::Bool | BaseType::Text | BaseType::AnyVertex => Ok(Value::UInt(*n)),
            BaseType::VertexOf(_) | BaseType::Tuple(_, _) => Ok(Value::UInt(*n)),
        },
        Value::Bool(_) | Value::Text(_) | Value::Vertex(_) => value.duplicate(alloc),
        Value::Tuple(_) | Value::Fraction(_) => value.duplicate(alloc),
    }
}

#[tactic(auto, using(gq_graph::specs::SortLaws::sort_laws))]
fn kind_of(kind: &BaseType) -> BaseType
    requires { spec.is_plain_sort (spec.sort_of kind.now) ≡ true }
    ensures { result ≡ kind.now }
{
    match kind {
        BaseType::Int => BaseType::Int,
        BaseType::UInt => BaseType::UInt,
        BaseType::Bool => BaseType::Bool,
        BaseType::Text => BaseType::Text,
        BaseType::Time => BaseType::Time,
        BaseType::AnyVertex | BaseType::VertexOf(_) | BaseType::Tuple(_, _) => unreachable!(),
    }
}

/// Copies an attribute as the catalog keeps it, with its default converted to the attribute's type.
fn settled(alloc: Global, attribute: &Attribute) -> Result<Attribute, OutOfMemory>
    requires plain { spec.is_plain attribute.now ≡ true }
    requires good { spec.has_good_default attribute.now ≡ true }
    ensures { IfOk result (λ a. a ≡ spec.settled attribute.now) }
{
    let name = Txt::of(alloc, attribute.name.as_str())?;
    let kind = kind_of(&attribute.kind);
    let default = match &attribute.default {
        Some(value) => Some(converted(alloc, &attribute.kind, value)?),
        None => None,
    };
    Ok(Attribute {
        name,
        kind,
        default,
    })
}

/// Appends copies of attributes, as the catalog keeps them.
pub(crate) fn add_settled(
    alloc: Global,
    into: &mut Vec<Attribute>,
    attributes: &[Attribute],
) -> Result<(), OutOfMemory>
    requires plain { All (λ a. spec.is_plain a ≡ true) attributes.now }
    requires good { All (λ a. spec.has_good_default a ≡ true) attributes.now }
    ensures { OnOk result (into.new.items ≡ into.old.items ++ map spec.settled attributes.now) }
{
    for attribute in attributes {
        into.push(settled(alloc, attribute)?)?;
    }
    Ok(())
}

/// Checks that no attribute has the name of an earlier one or of one in the table. Adds all names to the table.
pub(crate) fn check_names(
    alloc: Global,
    table: &mut NameTable,
    attributes: &[Attribute],
) -> Result<(), SchemaFault>
    ensures judged { Judges (option_map SchemaFault.AttributeTwice (twice_after table.old (attribute_names attributes.now))) result }
    ensures added { OnOk result (table.new ≡ table.old ++ attribute_names attributes.now) }
{
    for attribute in attributes {
        let name = attribute.name.as_str();
        if table.find(name).is_some() {
            return Err(attribute_twice(alloc, name));
        }
        match table.push(name) {
            Ok(()) => {}
            Err(OutOfMemory) => return Err(SchemaFault::OutOfMemory),
        }
    }
    Ok(())
}

/// Checks that each default suits its attribute's type.
pub(crate) fn check_defaults(alloc: Global, attributes: &[Attribute]) -> Result<(), SchemaFault>
    ensures { Judges (bad_default_of attributes.now) result }
{
    for attribute in attributes {
        if !has_good_default(attribute) {
            return Err(bad_default(alloc, attribute.name.as_str()));
        }
    }
    Ok(())
}

fn has_good_default(attribute: &Attribute) -> bool
    ensures { result ≡ spec.has_good_default attribute.now }
{
    match &attribute.default {
        Some(value) => suits(&attribute.kind, value),
        None => true,
    }
}
