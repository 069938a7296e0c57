// The rules on types alone: conversions, and which types an operator accepts and returns.
ghost use Rattle.std.specs.Prelude.{◌≡◌, ◌<◌, map};
ghost use Rattle.gq_value.specs.Accums.{VERTEX_OF, TUPLE};
ghost use Rattle.gq_value.specs.AccumViews.{bases, base_of};
ghost use Rattle.gq_rules_typing.specs.Types as spec;
ghost use Rattle.gq_scope.specs.Views.{types_are, base_is, typed_is, Judges, IsValue};
ghost use Rattle.gq_scope.specs.Parts.{form_of};

use gq_scope::{Base, TupleFieldTypes, TypeFault, Typed};
use gq_value::BaseType;

// ---- one type

/// Whether a type is INT or UINT.
pub fn is_number(base: Base<'_>) -> bool
    ensures { result ≡ spec.is_number (base_is base.entry) }
{
    match base {
        Base::Int | Base::UInt => true,
        Base::Bool | Base::Text | Base::Time => false,
        Base::AnyVertex | Base::VertexOf(_) | Base::Tuple(_, _) => false,
    }
}

/// Whether a type is BOOL.
pub fn is_bool(base: Base<'_>) -> bool
    ensures { result ≡ spec.is_bool (base_is base.entry) }
{
    match base {
        Base::Bool => true,
        Base::Int | Base::UInt | Base::Text | Base::Time => false,
        Base::AnyVertex | Base::VertexOf(_) | Base::Tuple(_, _) => false,
    }
}

/// Whether a type is a vertex of any type, or of one.
pub fn is_vertex(base: Base<'_>) -> bool
    ensures { result ≡ spec.is_vertex (base_is base.entry) }
{
    match base {
        Base::AnyVertex | Base::VertexOf(_) => true,
        Base::Int | Base::UInt | Base::Bool | Base::Text | Base::Time => false,
        Base::Tuple(_, _) => false,
    }
}

/// A number for each form of type.
pub(crate) fn form(base: Base<'_>) -> u8
    ensures { result ≡ form_of (base_is base.entry) }
{
    match base {
        Base::Int => 0,
        Base::UInt => 1,
        Base::Bool => 2,
        Base::Text => 3,
        Base::Time => 4,
        Base::AnyVertex => 5,
        Base::VertexOf(_) => 6,
        Base::Tuple(_, _) => 7,
    }
}

// ---- the same type

/// Whether two types are the same.
pub fn same(a: Base<'_>, b: Base<'_>) -> bool
    ensures { result ≡ spec.same_base (base_is a.entry) (base_is b.entry) }
{
    match a {
        Base::Tuple(n, types) => same_tuple(n, types, b),
        Base::Int | Base::UInt | Base::Bool | Base::Text => same_simple(a, b),
        Base::Time | Base::AnyVertex | Base::VertexOf(_) => same_simple(a, b),
    }
}

/// Whether two types are the same, if the first isn't a tuple.
fn same_simple(a: Base<'_>, b: Base<'_>) -> bool
    requires { form_of (base_is a) < 7 }
    ensures { result ≡ spec.same_base (base_is a.entry) (base_is b.entry) }
{
    match a {
        Base::VertexOf(t) => same_vertex(t, b),
        Base::Tuple(_, _) => unreachable!(),
        Base::Int | Base::UInt | Base::Bool | Base::Text | Base::Time | Base::AnyVertex => {
            form(a) == form(b)
        }
    }
}

fn same_vertex(t: u32, b: Base<'_>) -> bool
    ensures { result ≡ spec.same_base (VERTEX_OF t) (base_is b.entry) }
{
    match b {
        Base::VertexOf(u) => t == u,
        Base::Int | Base::UInt | Base::Bool | Base::Text | Base::Time => false,
        Base::AnyVertex | Base::Tuple(_, _) => false,
    }
}

fn same_tuple(n: u32, types: TupleFieldTypes<'_>, b: Base<'_>) -> bool
    ensures { result ≡ spec.same_base (TUPLE n (bases (types_are types.entry))) (base_is b.entry) }
{
    match b {
        Base::Tuple(m, others) => n == m && same_types(types, others),
        Base::Int | Base::UInt | Base::Bool | Base::Text | Base::Time => false,
        Base::AnyVertex | Base::VertexOf(_) => false,
    }
}

fn same_types(a: TupleFieldTypes<'_>, b: TupleFieldTypes<'_>) -> bool
    ensures { result ≡ spec.same_bases (bases (types_are a.entry)) (bases (types_are b.entry)) }
{
    if a.len() != b.len() {
        return false;
    }
    for place in 0..a.len() {
        if !same_kept(a.at(place), b.at(place)) {
            return false;
        }
    }
    true
}

/// Whether two kept types are the same.
#[cycle(kept)]
#[tactic(auto, using(gq_scope::proofs::BaseLemmas::base_laws))]
fn same_kept(a: &BaseType, b: &BaseType) -> bool
    ensures { result ≡ spec.same_base (base_of a.now) (base_of b.now) }
{
    match a {
        BaseType::Tuple(n, types) => match b {
            BaseType::Tuple(m, others) => *n == *m && same_all(types.as_slice(), others.as_slice()),
            BaseType::Int | BaseType::UInt | BaseType::Bool | BaseType::Text => false,
            BaseType::Time | BaseType::AnyVertex | BaseType::VertexOf(_) => false,
        },
        BaseType::Int | BaseType::UInt | BaseType::Bool => same_simple(Base::of(a), Base::of(b)),
        BaseType::Text | BaseType::Time => same_simple(Base::of(a), Base::of(b)),
        BaseType::AnyVertex | BaseType::VertexOf(_) => same_simple(Base::of(a), Base::of(b)),
    }
}

#[cycle(kept)]
fn same_all(a: &[BaseType], b: &[BaseType]) -> bool
    ensures { result ≡ spec.same_bases (bases (map base_of a.now)) (bases (map base_of b.now)) }
{
    if a.len() != b.len() {
        return false;
    }
    for (place, x) in a.iter().enumerate() {
        if !same_kept(x, &b[place]) {
            return false;
        }
    }
    true
}

// ---- what converts

/// Whether a type converts to another: each to itself, INT and UINT to each other, and VERTEX<T> to VERTEX.
pub fn converts(from: Base<'_>, to: Base<'_>) -> bool
    ensures { result ≡ spec.converts (base_is from.entry) (base_is to.entry) }
{
    match from {
        Base::VertexOf(t) => vertex_converts(t, to),
        Base::Int | Base::UInt | Base::Bool | Base::Text | Base::Time => {
            same(from, to) || is_number(from) && is_number(to)
        }
        Base::AnyVertex | Base::Tuple(_, _) => same(from, to) || is_number(from) && is_number(to),
    }
}

fn vertex_converts(t: u32, to: Base<'_>) -> bool
    ensures { result ≡ spec.converts (VERTEX_OF t) (base_is to.entry) }
{
    match to {
        Base::AnyVertex => true,
        Base::VertexOf(_) => same_vertex(t, to),
        Base::Int | Base::UInt | Base::Bool | Base::Text => false,
        Base::Time | Base::Tuple(_, _) => false,
    }
}

/// Whether the types convert pairwise, and there are as many of both.
pub fn convert_all(from: &[Base<'_>], to: TupleFieldTypes<'_>) -> bool
    ensures { result ≡ spec.convert_all (map base_is from.now) (types_are to.entry) }
{
    if from.len() != to.len() {
        return false;
    }
    for place in 0..from.len() {
        if !converts(from[place], Base::of(to.at(place))) {
            return false;
        }
    }
    true
}

/// The type of a vertex of one of these types.
pub fn vertex_of<'a>(types: &[u32]) -> Base<'a>
    ensures { base_is result ≡ spec.vertex_base types.now }
{
    if types.len() == 1 {
        Base::VertexOf(types[0])
    } else {
        Base::AnyVertex
    }
}

// ---- what an expression's type allows

/// The type of an expression that is a single value; None means type mismatch.
pub fn value(typed: Typed<'_>) -> Option<Base<'_>>
    ensures { IsValue (spec.as_base (typed_is typed.entry)) result }
{
    match typed {
        Typed::Of(base) => Some(base),
        Typed::AliasOf(types) => Some(vertex_of(types)),
        Typed::Average | Typed::Whole(_) | Typed::GroupRow(_) => None,
        Typed::EdgeOf(_) | Typed::SetOf(_) | Typed::MemberOf(_) => None,
    }
}

/// The type of an expression that is a single value, or type mismatch.
pub fn as_base(typed: Typed<'_>) -> Result<Base<'_>, TypeFault>
    ensures { Judges base_is (spec.as_base (typed_is typed.entry)) result }
{
    match value(typed) {
        Some(base) => Ok(base),
        None => Err(TypeFault::Mismatch),
    }
}

/// Whether it is a value with an exact number; an average is one too.
pub fn is_numeric(typed: Typed<'_>) -> bool
    ensures { result ≡ spec.is_numeric (typed_is typed.entry) }
{
    match typed {
        Typed::Of(base) => is_number(base),
        Typed::Average => true,
        Typed::Whole(_) | Typed::GroupRow(_) | Typed::AliasOf(_) => false,
        Typed::EdgeOf(_) | Typed::SetOf(_) | Typed::MemberOf(_) => false,
    }
}

/// Whether it is a vertex: as a value, an alias or the set of an `S[..]`.
pub fn stands_for_vertex(typed: Typed<'_>) -> bool
    ensures { result ≡ spec.stands_for_vertex (typed_is typed.entry) }
{
    match typed {
        Typed::Of(base) => is_vertex(base),
        Typed::AliasOf(_) | Typed::MemberOf(_) => true,
        Typed::Average | Typed::Whole(_) | Typed::GroupRow(_) => false,
        Typed::EdgeOf(_) | Typed::SetOf(_) => false,
    }
}

/// Whether it may precede the accumulator of a vertex: a vertex alias, or the set of an `S[..]`.
pub fn has_accums(typed: Typed<'_>) -> bool
    ensures { result ≡ spec.has_accums (typed_is typed.entry) }
{
    match typed {
        Typed::AliasOf(_) | Typed::MemberOf(_) => true,
        Typed::Of(_) | Typed::Average | Typed::Whole(_) | Typed::GroupRow(_) => false,
        Typed::EdgeOf(_) | Typed::SetOf(_) => false,
    }
}

/// Refuses an edge alias or a set that isn't followed by a dot.
pub fn alone(typed: Typed<'_>) -> Result<Typed<'_>, TypeFault>
    ensures { Judges typed_is (spec.alone (typed_is typed.entry)) result }
{
    match typed {
        Typed::EdgeOf(_) | Typed::SetOf(_) | Typed::MemberOf(_) => Err(TypeFault::NotAllowedHere),
        Typed::Of(_) | Typed::Average | Typed::Whole(_) => Ok(typed),
        Typed::GroupRow(_) | Typed::AliasOf(_) => Ok(typed),
    }
}

/// Refuses a whole group row, which can't be printed.
pub fn printable(typed: Typed<'_>) -> Result<Typed<'_>, TypeFault>
    ensures { Judges typed_is (spec.printable (typed_is typed.entry)) result }
{
    match typed {
        Typed::GroupRow(_) => Err(TypeFault::Mismatch),
        Typed::Of(_) | Typed::Average | Typed::Whole(_) | Typed::AliasOf(_) => Ok(typed),
        Typed::EdgeOf(_) | Typed::SetOf(_) | Typed::MemberOf(_) => Ok(typed),
    }
}
