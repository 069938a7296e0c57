// Functions and methods.
ghost use Rattle.std.specs.Prelude.{◌≡◌, map};
ghost use Rattle.std.specs.Str.{bytes_eq};
ghost use Rattle.std.specs.Option.{option_copied, option_map};
ghost use Rattle.gq_value.specs.AccumViews.{accum_of};
ghost use Rattle.gq_tree.specs.View.{views};
ghost use Rattle.gq_rules_typing.specs.CallTypes as spec;
ghost use Rattle.gq_rules_typing.specs.Words as words;
ghost use Rattle.gq_rules_typing.specs.Judging as judging;
ghost use Rattle.gq_scope.specs.Held.{setting_in};
ghost use Rattle.gq_scope.specs.Views.{base_is, typed_is, parts_are, Judges};
ghost use Rattle.gq_type.specs.Calls as calls;
ghost use Rattle.gq_type.specs.Calls.{function_is, method_is};

use crate::rules::{convert_all, converts, is_number, stands_for_vertex};
use gq_rules_typing::{Builtin, builtin_named};
use gq_scope::{
    Base, Scope, TupleFieldTypes, TypeFault, Typed, contained_type, key_types, matched, read_type,
    text_of, unknown,
};
use gq_tree::Node;
use gq_value::{BaseType, Kind, Txt};
use std::alloc::Global;

/// A method: what may follow a dot and has arguments.
#[derive(Clone, Copy)]
pub(crate) enum CheckedMethod {
    Size,
    Contains,
    ContainsKey,
    Get,
    Outdegree,
}

/// A function: it makes a tuple of a type, or is built in.
#[derive(Clone, Copy)]
pub(crate) enum CheckedFunction<'a> {
    Makes(u32, &'a [(Txt, BaseType)]),
    Own(Builtin),
}

/// Finds the method of a name.
pub(crate) fn method_named(name: &str) -> Option<CheckedMethod>
    ensures { option_map method_is result ≡ words.under bytes_eq name.now words.methods }
{
    if "size" == name {
        Some(CheckedMethod::Size)
    } else if "contains" == name {
        Some(CheckedMethod::Contains)
    } else if "containsKey" == name {
        Some(CheckedMethod::ContainsKey)
    } else if "get" == name {
        Some(CheckedMethod::Get)
    } else if "outdegree" == name {
        Some(CheckedMethod::Outdegree)
    } else {
        None
    }
}

/// Finds the built-in function of a name.
fn own_function<'a>(name: &str) -> Option<CheckedFunction<'a>>
    ensures { option_map function_is result ≡ words.under bytes_eq name.now words.functions }
{
    match builtin_named(name) {
        None => None,
        Some(builtin) => Some(CheckedFunction::Own(builtin)),
    }
}

/// Finds the function of a name: a tuple type takes precedence over a built-in function.
pub(crate) fn function_named<'s>(scope: &'s Scope<'_>, name: &str) -> Option<CheckedFunction<'s>>
    ensures { option_map function_is result ≡ words.function_named (setting_in scope.now) name.now }
{
    match scope.tuple_named(name) {
        None => own_function(name),
        Some(number) => match scope.tuple_at(number) {
            None => own_function(name),
            Some(fields) => Some(CheckedFunction::Makes(number, fields.as_slice())),
        },
    }
}

// ---- methods

/// Whether x has a size: collections and sets do.
fn has_size(x: Typed<'_>) -> bool
    ensures { result ≡ spec.has_size (typed_is x.entry) }
{
    match x {
        Typed::Whole(_) | Typed::SetOf(_) | Typed::MemberOf(_) => true,
        Typed::Of(_) | Typed::Average | Typed::GroupRow(_) => false,
        Typed::AliasOf(_) | Typed::EdgeOf(_) => false,
    }
}

/// Whether x is a Set, Bag or List, with a single argument that converts to its element type.
fn may_contain(x: Typed<'_>, types: &[Base<'_>]) -> bool
    ensures { result ≡ spec.may_contain (typed_is x.entry) (map base_is types.now) }
{
    match x {
        Typed::Whole(kind) => converts_to(types, contained_type(kind)),
        Typed::Of(_) | Typed::Average | Typed::GroupRow(_) | Typed::SetOf(_) => false,
        Typed::MemberOf(_) | Typed::AliasOf(_) | Typed::EdgeOf(_) => false,
    }
}

fn converts_to(types: &[Base<'_>], want: Option<Base<'_>>) -> bool
    ensures { result ≡ spec.converts_to (map base_is types.now) (option_map base_is want.entry) }
{
    match only(types) {
        None => false,
        Some(base) => match want {
            None => false,
            Some(want) => converts(base, want),
        },
    }
}

/// The single type, if there is just one.
pub(crate) fn only<'a>(types: &[Base<'a>]) -> Option<Base<'a>>
    ensures { option_map base_is result ≡ calls.only (map base_is types.now) }
{
    if types.len() == 1 {
        Some(types[0])
    } else {
        None
    }
}

/// The type of `get`, for a Map or a GroupBy with arguments that convert to all its keys; a group gives a row.
#[tactic(auto, using(gq_value::proofs::AccumLemmas::accum_laws))]
fn got_type<'s>(x: Typed<'s>, types: &[Base<'_>]) -> Result<Typed<'s>, TypeFault>
    ensures { Judges typed_is (spec.got_type (typed_is x.entry) (map base_is types.now)) result }
{
    match x {
        Typed::Whole(kind) => got_from(kind, types),
        Typed::Of(_) | Typed::Average | Typed::GroupRow(_) => Err(TypeFault::Mismatch),
        Typed::SetOf(_) | Typed::MemberOf(_) => Err(TypeFault::Mismatch),
        Typed::AliasOf(_) | Typed::EdgeOf(_) => Err(TypeFault::Mismatch),
    }
}

#[tactic(auto, using(gq_value::proofs::AccumLemmas::accum_laws))]
fn got_from<'s>(kind: &'s Kind, types: &[Base<'_>]) -> Result<Typed<'s>, TypeFault>
    ensures { Judges typed_is (spec.got_type (judging.Whole (accum_of kind.now)) (map base_is types.now)) result }
{
    match kind {
        Kind::Map(_, held) => {
            matched(convert_all(types, key_types(kind)))?;
            Ok(read_type(held.get()))
        }
        Kind::Group(shape) => {
            matched(convert_all(types, key_types(kind)))?;
            Ok(Typed::GroupRow(shape.parts.as_slice()))
        }
        Kind::Sum(_) | Kind::Min(_) | Kind::Max(_) | Kind::Or => Err(TypeFault::Mismatch),
        Kind::And | Kind::BitOr | Kind::BitAnd | Kind::Avg => Err(TypeFault::Mismatch),
        Kind::Set(_) | Kind::Bag(_) | Kind::List(_) => Err(TypeFault::Mismatch),
        Kind::Heap(_) => Err(TypeFault::Mismatch),
    }
}

/// The type of an outdegree: over all edge types of the graph, or over one that a text literal names.
fn outdegree_type<'s>(
    alloc: Global,
    scope: &Scope<'_>,
    x: Typed<'_>,
    arguments: &[Node],
) -> Result<Typed<'s>, TypeFault>
    ensures { Judges typed_is (spec.outdegree_type (setting_in scope.now).sorts (typed_is x.entry) (views arguments.now)) result }
{
    if arguments.is_empty() {
        return degree_of_all(x);
    }
    if arguments.len() > 1 {
        return Err(TypeFault::Mismatch);
    }
    degree_of(alloc, scope, x, text_of(&arguments[0]))
}

fn degree_of_all<'s>(x: Typed<'_>) -> Result<Typed<'s>, TypeFault>
    ensures { Judges typed_is (calls.degree_of_all (typed_is x.entry)) result }
{
    matched(stands_for_vertex(x))?;
    Ok(Typed::Of(Base::Int))
}

#[tactic(auto, using(crate::proofs::ScopeLemmas::setting_laws))]
fn degree_of<'s>(
    alloc: Global,
    scope: &Scope<'_>,
    x: Typed<'_>,
    edge: Option<&str>,
) -> Result<Typed<'s>, TypeFault>
    ensures { Judges typed_is (calls.degree_of (setting_in scope.now).sorts (typed_is x.entry) (option_copied edge.entry)) result }
{
    match edge {
        None => Err(TypeFault::Mismatch),
        Some(edge) => {
            matched(stands_for_vertex(x))?;
            match scope.edge_type(edge) {
                None => Err(unknown(alloc, edge)),
                Some(_) => Ok(Typed::Of(Base::Int)),
            }
        }
    }
}

/// The type of a method of x for arguments of these types.
pub(crate) fn method_type<'s>(
    alloc: Global,
    scope: &'s Scope<'_>,
    method: CheckedMethod,
    x: Typed<'s>,
    arguments: &[Node],
    types: &[Base<'_>],
) -> Result<Typed<'s>, TypeFault>
    ensures { Judges typed_is
        (spec.method_type (setting_in scope.now).sorts (method_is method) (typed_is x.entry) (views arguments.now) (map base_is types.now))
        result }
{
    match method {
        CheckedMethod::Size => {
            matched(has_size(x) && types.len() == 0)?;
            Ok(Typed::Of(Base::Int))
        }
        CheckedMethod::Contains => {
            matched(may_contain(x, types))?;
            Ok(Typed::Of(Base::Bool))
        }
        CheckedMethod::ContainsKey => {
            got_type(x, types)?;
            Ok(Typed::Of(Base::Bool))
        }
        CheckedMethod::Get => got_type(x, types),
        CheckedMethod::Outdegree => outdegree_type(alloc, scope, x, arguments),
    }
}
