// Arguments as values.
ghost use Rattle.std.specs.Prelude.{◌≡◌, IfOk, List};
ghost use Rattle.std.specs.Option.{option_map};
ghost use Rattle.gq_value.specs.Arithmetic.{is_within};
ghost use Rattle.gq_value.specs.Val.{Int, UInt};
ghost use Rattle.gq_value.specs.Views.{val};
ghost use Rattle.gq_value.specs.declared.kind.Number.TheVariants as numbers;
ghost use Rattle.gq_scope.specs.Held.{sorts_in};
ghost use Rattle.gq_rules_typing.specs.Statements.{AnyVertex, Bools, Ints, Strings, UInts, VertexOf};
ghost use Rattle.gq_rules_typing.specs.StatementViews.{view_base};
ghost use Rattle.gq_rules_typing.specs.Sorts.{Sorts};
ghost use Rattle.gq_graph.specs.declared.rows.VertexRow.{VertexRow};
ghost use Rattle.gq_tree.specs.Signed.{signed as signed_number};
ghost use Rattle.gq_rules_meaning.specs.Arguments as spec;
ghost use Rattle.gq_arguments.specs.Given.{view_given};

use crate::given::Given;
use crate::lookup::{numbered_vertex, vertex_in};
use gq_base::OutOfMemory;
use gq_scope::Scope;
use gq_tree::{BaseTree, signed};
use gq_value::{Txt, Value};
use gq_vertex::Vertices;
use std::alloc::Global;

/// Returns the value that an argument gives a parameter of this type, if there is one.
pub(crate) fn value_of(
    alloc: Global,
    types: &Scope<'_>,
    vertices: &Vertices,
    base: &BaseTree,
    given: Given<'_>,
) -> Result<Option<Value>, OutOfMemory>
    ensures { IfOk result (λ v. option_map val v ≡ spec.argument_value (sorts_in types.now) vertices.now (view_base base.now) (view_given given.entry)) }
{
    match base {
        BaseTree::Int => Ok(int_value(given)),
        BaseTree::UInt => Ok(uint_value(given)),
        BaseTree::Bool => Ok(truth_value(given)),
        BaseTree::Text => text_value(alloc, given),
        BaseTree::AnyVertex => Ok(any_vertex(types, vertices, given)),
        BaseTree::VertexOf(kind) => Ok(vertex_of(types, vertices, kind.as_str(), given)),
    }
}

#[tactic(auto, using(gq_value::specs::ViewLaws::view_laws))]
fn int_in(minus: bool, number: u64) -> Option<Value>
    ensures { option_map val result ≡ spec.if_fits (is_within numbers.Int (signed_number minus number)) (Int (signed_number minus number)) }
{
    match i64::try_from(signed(minus, number)) {
        Ok(x) => Some(Value::Int(x)),
        Err(_) => None,
    }
}

#[tactic(auto, using(gq_value::specs::ViewLaws::view_laws))]
fn uint_in(minus: bool, number: u64) -> Option<Value>
    ensures { option_map val result ≡ spec.if_fits (is_within numbers.UInt (signed_number minus number)) (UInt number) }
{
    if minus && number > 0 {
        return None;
    }
    Some(Value::UInt(number))
}

fn int_value(given: Given<'_>) -> Option<Value>
    ensures { (types : Sorts) (rows : List VertexRow) → option_map val result ≡ spec.argument_value types rows Ints (view_given given.entry) }
{
    match given {
        Given::Number(minus, number) => int_in(minus, number),
        Given::Text(_) | Given::Truth(_) | Given::Vertex(_, _) | Given::Nothing => None,
    }
}

fn uint_value(given: Given<'_>) -> Option<Value>
    ensures { (types : Sorts) (rows : List VertexRow) → option_map val result ≡ spec.argument_value types rows UInts (view_given given.entry) }
{
    match given {
        Given::Number(minus, number) => uint_in(minus, number),
        Given::Text(_) | Given::Truth(_) | Given::Vertex(_, _) | Given::Nothing => None,
    }
}

#[tactic(auto, using(gq_value::specs::ViewLaws::view_laws))]
fn truth_value(given: Given<'_>) -> Option<Value>
    ensures { (types : Sorts) (rows : List VertexRow) → option_map val result ≡ spec.argument_value types rows Bools (view_given given.entry) }
{
    match given {
        Given::Truth(truth) => Some(Value::Bool(truth)),
        Given::Number(_, _) | Given::Text(_) | Given::Vertex(_, _) | Given::Nothing => None,
    }
}

#[tactic(auto, using(gq_value::specs::ViewLaws::view_laws))]
fn text_value(alloc: Global, given: Given<'_>) -> Result<Option<Value>, OutOfMemory>
    ensures { (types : Sorts) (rows : List VertexRow) → IfOk result (λ v. option_map val v ≡ spec.argument_value types rows Strings (view_given given.entry)) }
{
    match given {
        Given::Text(text) => Ok(Some(Value::Text(Txt::of(alloc, text)?))),
        Given::Number(_, _) | Given::Truth(_) | Given::Vertex(_, _) | Given::Nothing => Ok(None),
    }
}

fn any_vertex(types: &Scope<'_>, vertices: &Vertices, given: Given<'_>) -> Option<Value>
    ensures { option_map val result ≡ spec.argument_value (sorts_in types.now) vertices.now AnyVertex (view_given given.entry) }
{
    match given {
        Given::Vertex(id, kind) => vertex_in(types, vertices, kind, id),
        Given::Number(_, _) | Given::Text(_) | Given::Truth(_) | Given::Nothing => None,
    }
}

fn vertex_of(types: &Scope<'_>, vertices: &Vertices, kind: &str, given: Given<'_>) -> Option<Value>
    ensures { option_map val result ≡ spec.argument_value (sorts_in types.now) vertices.now (VertexOf kind.now) (view_given given.entry) }
{
    match given {
        Given::Text(id) => vertex_in(types, vertices, kind, id),
        Given::Number(minus, number) => numbered_vertex(types, vertices, kind, minus, number),
        Given::Truth(_) | Given::Vertex(_, _) | Given::Nothing => None,
    }
}
