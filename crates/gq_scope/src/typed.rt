// Types of expressions.
ghost use Rattle.std.specs.Prelude.{◌≡◌, ◌<◌, IfOk, Some, length, slice_get, map};
ghost use Rattle.gq_value.specs.AccumViews.{base_of};
ghost use Rattle.gq_value.specs.Typed.{number_type};
ghost use Rattle.gq_scope.specs.Views.{types_are, base_is};

use gq_base::{List, OutOfMemory};
use gq_value::{BaseType, Kind, Number, Txt};
use std::alloc::Global;

/// Types in order: those of a tuple's fields.
#[derive(Clone, Copy)]
pub enum TupleFieldTypes<'a> {
    Bare(&'a [BaseType]),

    /// With the names of the fields, as a tuple type declares them.
    Named(&'a [(Txt, BaseType)]),
}

/// The type of a value.
#[derive(Clone, Copy)]
pub enum Base<'a> {
    Int,
    UInt,
    Bool,
    Text,

    /// DATETIME.
    Time,

    /// A vertex of any type of the graph.
    AnyVertex,

    /// A vertex of the type with this number.
    VertexOf(u32),

    /// A tuple type, by its number among those of its query, with the types of its fields.
    Tuple(u32, TupleFieldTypes<'a>),
}

/// The type of an expression.
#[derive(Clone, Copy)]
pub enum Typed<'a> {
    /// A value of a type.
    Of(Base<'a>),

    /// An average. It isn't a value type: it can only be compared and printed.
    Average,

    /// A whole collection.
    Whole(&'a Kind),

    /// The row of a group's key, with its parts.
    GroupRow(&'a [(Txt, Kind)]),

    /// A vertex alias, with its types.
    AliasOf(&'a [u32]),

    /// An edge alias, with its types; it is allowed only before a dot.
    EdgeOf(&'a [u32]),

    /// A set variable, with its types; it is allowed only before a dot.
    SetOf(&'a [u32]),

    /// The set of an `S[..]`, within the brackets: both the current vertex and the set. It is allowed only before a
    /// dot.
    MemberOf(&'a [u32]),
}

impl<'a> TupleFieldTypes<'a> {
    /// The number of types.
    pub fn len(self) -> usize
        ensures { result ≡ length (types_are self.entry) }
    {
        match self {
            TupleFieldTypes::Bare(types) => types.len(),
            TupleFieldTypes::Named(fields) => fields.len(),
        }
    }

    /// The type at a place.
    pub fn at(self, place: usize) -> &'a BaseType
        requires { place < length (types_are self) }
        ensures { slice_get (types_are self.entry) place ≡ Some (base_of result.now) }
    {
        match self {
            TupleFieldTypes::Bare(types) => &types[place],
            TupleFieldTypes::Named(fields) => &fields[place].1,
        }
    }
}

impl<'a> Base<'a> {
    /// Views a kept type as a type.
    #[tactic(auto, using(crate::proofs::BaseLemmas::base_laws))]
    pub fn of(base: &'a BaseType) -> Base<'a>
        ensures { base_is result ≡ base_of base.now }
    {
        match base {
            BaseType::Int => Base::Int,
            BaseType::UInt => Base::UInt,
            BaseType::Bool => Base::Bool,
            BaseType::Text => Base::Text,
            BaseType::AnyVertex => Base::AnyVertex,
            BaseType::VertexOf(t) => Base::VertexOf(*t),
            BaseType::Tuple(n, fields) => Base::Tuple(*n, TupleFieldTypes::Bare(fields.as_slice())),
            BaseType::Time => Base::Time,
        }
    }

    /// INT or UINT.
    pub fn of_number(number: Number) -> Base<'a>
        ensures { base_is result ≡ number_type number }
    {
        match number {
            Number::Int => Base::Int,
            Number::UInt => Base::UInt,
        }
    }

    /// Copies the type into newly allocated memory. Only tuples allocate.
    #[tactic(auto, using(crate::proofs::BaseLemmas::base_laws))]
    pub fn keep(self, alloc: Global) -> Result<BaseType, OutOfMemory>
        ensures { IfOk result (λ b. base_of b ≡ base_is self.entry) }
    {
        match self {
            Base::Int => Ok(BaseType::Int),
            Base::UInt => Ok(BaseType::UInt),
            Base::Bool => Ok(BaseType::Bool),
            Base::Text => Ok(BaseType::Text),
            Base::Time => Ok(BaseType::Time),
            Base::AnyVertex => Ok(BaseType::AnyVertex),
            Base::VertexOf(t) => Ok(BaseType::VertexOf(t)),
            Base::Tuple(n, types) => Ok(BaseType::Tuple(n, keep_types(alloc, types)?)),
        }
    }
}

/// Copies the types into newly allocated memory.
fn keep_types(alloc: Global, types: TupleFieldTypes<'_>) -> Result<List<BaseType>, OutOfMemory>
    ensures { IfOk result (λ kept. map base_of kept ≡ types_are types.entry) }
{
    match types {
        TupleFieldTypes::Bare(types) => keep_bare(alloc, types),
        TupleFieldTypes::Named(fields) => keep_named(alloc, fields),
    }
}

fn keep_bare(alloc: Global, types: &[BaseType]) -> Result<List<BaseType>, OutOfMemory>
    ensures { IfOk result (λ kept. kept ≡ types.now) }
{
    let mut kept = List::new(alloc);
    for base in types {
        kept.push(base.duplicate(alloc)?)?;
    }
    Ok(kept)
}

fn keep_named(alloc: Global, fields: &[(Txt, BaseType)]) -> Result<List<BaseType>, OutOfMemory>
    ensures { IfOk result (λ kept. map base_of kept ≡ map (λ f. base_of f.1) fields.now) }
{
    let mut kept = List::new(alloc);
    for field in fields {
        kept.push(field.1.duplicate(alloc)?)?;
    }
    Ok(kept)
}
