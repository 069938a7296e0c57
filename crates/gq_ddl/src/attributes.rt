// The attributes and the id in the tree of a declaration.
ghost use Rattle.std.specs.Prelude.{◌≡◌, IfOk, All, map, true};
ghost use Rattle.std.specs.Option.{option_map};
ghost use Rattle.gq_graph.specs.Defaults.{is_plain};
ghost use Rattle.gq_ddl.specs.Attributes as spec;

use gq_base::{List, OutOfMemory};
use gq_graph::{Attribute, Attributes, IdShape};
use gq_tree::{AttributeKind, AttributeTree, Literal, VertexOption, VertexTree};
use gq_value::{BaseType, Txt, Value};
use std::alloc::Global;

pub(crate) fn attributes_of(
    alloc: Global,
    trees: &[AttributeTree],
) -> Result<Attributes, OutOfMemory>
    ensures attributes { IfOk result (λ attributes. attributes ≡ map spec.attribute_of trees.now) }
    ensures plain { IfOk result (λ attributes. All (λ a. is_plain a ≡ true) attributes) }
{
    let mut attributes = List::new(alloc);
    for tree in trees {
        attributes.push(attribute_of(alloc, tree)?)?;
    }
    Ok(attributes)
}

pub(crate) fn discriminators_of(
    alloc: Global,
    trees: &[(Txt, AttributeKind)],
) -> Result<Attributes, OutOfMemory>
    ensures attributes { IfOk result (λ attributes. attributes ≡ map spec.discriminator_of trees.now) }
    ensures plain { IfOk result (λ attributes. All (λ a. is_plain a ≡ true) attributes) }
{
    let mut attributes = List::new(alloc);
    for (name, kind) in trees {
        attributes.push(discriminator_of(alloc, name, *kind)?)?;
    }
    Ok(attributes)
}

pub(crate) fn id_of(alloc: Global, tree: &VertexTree) -> Result<IdShape, OutOfMemory>
    ensures { IfOk result (λ id. id ≡ spec.id_of tree.now) }
{
    Ok(IdShape {
        name: Txt::of(alloc, tree.id.as_str())?,
        kind: tree.id_kind,
        shown: is_shown(tree.options.as_slice()),
    })
}

fn attribute_of(alloc: Global, tree: &AttributeTree) -> Result<Attribute, OutOfMemory>
    ensures { IfOk result (λ attribute. attribute ≡ spec.attribute_of tree.now) }
{
    Ok(Attribute {
        name: Txt::of(alloc, tree.name.as_str())?,
        kind: kind_of(tree.kind),
        default: default_of(alloc, &tree.default)?,
    })
}

fn discriminator_of(
    alloc: Global,
    name: &Txt,
    kind: AttributeKind,
) -> Result<Attribute, OutOfMemory>
    ensures { IfOk result (λ attribute. attribute ≡ spec.discriminator_of (name.now, kind)) }
{
    Ok(Attribute {
        name: Txt::of(alloc, name.as_str())?,
        kind: kind_of(kind),
        default: None,
    })
}

fn kind_of(kind: AttributeKind) -> BaseType
    ensures { result ≡ spec.kind_of kind }
{
    match kind {
        AttributeKind::Int => BaseType::Int,
        AttributeKind::UInt => BaseType::UInt,
        AttributeKind::Bool => BaseType::Bool,
        AttributeKind::Text => BaseType::Text,
        AttributeKind::Time => BaseType::Time,
    }
}

fn default_of(alloc: Global, default: &Option<Literal>) -> Result<Option<Value>, OutOfMemory>
    ensures { IfOk result (λ value. value ≡ option_map spec.literal_value default.now) }
{
    match default {
        Some(literal) => Ok(Some(literal_value(alloc, literal)?)),
        None => Ok(None),
    }
}

fn literal_value(alloc: Global, literal: &Literal) -> Result<Value, OutOfMemory>
    ensures { IfOk result (λ value. value ≡ spec.literal_value literal.now) }
{
    match literal {
        Literal::Number(minus, number) => Ok(number_value(*minus, *number)),
        Literal::Text(said) => Ok(Value::Text(Txt::of(alloc, said.as_str())?)),
        Literal::Truth(truth) => Ok(Value::Bool(*truth)),
    }
}

fn number_value(minus: bool, number: u64) -> Value
    ensures { result ≡ spec.number_value minus number }
{
    if minus {
        negative_value(number)
    } else if number < 9_223_372_036_854_775_808 {
        Value::Int(number as i64)
    } else {
        Value::UInt(number)
    }
}

fn negative_value(number: u64) -> Value
    ensures { result ≡ spec.number_value true number }
{
    if 9_223_372_036_854_775_808 < number {
        return Value::Vertex(0);
    }
    if number == 9_223_372_036_854_775_808 {
        return Value::Int(i64::MIN);
    }
    Value::Int(-(number as i64))
}

fn is_shown(options: &[VertexOption]) -> bool
    ensures { result ≡ spec.is_shown options.now }
{
    let mut shown = false;
    for option in options {
        shown = shown_by(shown, option);
    }
    shown
}

fn shown_by(shown: bool, option: &VertexOption) -> bool
    ensures { result ≡ spec.shown_by shown option.now }
{
    match option {
        VertexOption::Stats(_) => shown,
        VertexOption::IdAsAttribute(text) => text.as_str().eq_ignore_ascii_case("true"),
    }
}
