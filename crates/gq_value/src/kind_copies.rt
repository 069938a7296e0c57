// Deep copies of types and kinds.
ghost use Rattle.std.specs.Prelude.{◌≡◌, IfOk};

use crate::kind::{BaseType, Fields, GroupShape, HeapShape, Kind};
use crate::txt::Txt;
use gq_base::{Boxed, List, OutOfMemory};
use std::alloc::Global;

impl BaseType {
    /// A deep copy of the type. Takes memory only for tuples.
    #[cycle(type_copies)]
    pub fn duplicate(&self, alloc: Global) -> Result<BaseType, OutOfMemory>
        ensures { IfOk result (λ copy. copy ≡ self.now) }
    {
        match self {
            BaseType::Int => Ok(BaseType::Int),
            BaseType::UInt => Ok(BaseType::UInt),
            BaseType::Bool => Ok(BaseType::Bool),
            BaseType::Text => Ok(BaseType::Text),
            BaseType::AnyVertex => Ok(BaseType::AnyVertex),
            BaseType::VertexOf(n) => Ok(BaseType::VertexOf(*n)),
            BaseType::Tuple(n, fields) => {
                Ok(BaseType::Tuple(*n, duplicate_fields(alloc, fields.as_slice())?))
            }
            BaseType::Time => Ok(BaseType::Time),
        }
    }
}

/// Equal types in the same order.
#[cycle(type_copies)]
fn duplicate_fields(alloc: Global, fields: &[BaseType]) -> Result<Fields, OutOfMemory>
    ensures { IfOk result (λ copy. copy ≡ fields.now) }
{
    let mut copy = List::new(alloc);
    for field in fields {
        copy.push(field.duplicate(alloc)?)?;
    }
    Ok(copy)
}

impl Kind {
    /// A deep copy of the kind. A scalar kind takes no memory.
    #[cycle(kind_copies)]
    pub fn duplicate(&self, alloc: Global) -> Result<Kind, OutOfMemory>
        ensures { IfOk result (λ copy. copy ≡ self.now) }
    {
        match self {
            Kind::Sum(number) => Ok(Kind::Sum(*number)),
            Kind::Min(number) => Ok(Kind::Min(*number)),
            Kind::Max(number) => Ok(Kind::Max(*number)),
            Kind::Or => Ok(Kind::Or),
            Kind::And => Ok(Kind::And),
            Kind::BitOr => Ok(Kind::BitOr),
            Kind::BitAnd => Ok(Kind::BitAnd),
            Kind::Avg => Ok(Kind::Avg),
            Kind::Set(base) => Ok(Kind::Set(base.duplicate(alloc)?)),
            Kind::Bag(base) => Ok(Kind::Bag(base.duplicate(alloc)?)),
            Kind::List(base) => Ok(Kind::List(base.duplicate(alloc)?)),
            Kind::Map(key, values) => {
                let values = values.get().duplicate(alloc)?;
                Ok(Kind::Map(key.duplicate(alloc)?, Boxed::new(alloc, values)?))
            }
            Kind::Group(shape) => Ok(Kind::Group(GroupShape {
                keys: duplicate_keys(alloc, shape.keys.as_slice())?,
                parts: duplicate_parts(alloc, shape.parts.as_slice())?,
            })),
            Kind::Heap(shape) => Ok(Kind::Heap(HeapShape {
                tuple: shape.tuple,
                fields: duplicate_fields(alloc, shape.fields.as_slice())?,
                capacity: shape.capacity,
                order: List::from_slice(alloc, shape.order.as_slice())?,
            })),
        }
    }
}

/// Equal names with equal types, in the same order.
fn duplicate_keys(
    alloc: Global,
    keys: &[(Txt, BaseType)],
) -> Result<List<(Txt, BaseType)>, OutOfMemory>
    ensures { IfOk result (λ copy. copy ≡ keys.now) }
{
    let mut copy = List::new(alloc);
    for (name, base) in keys {
        copy.push((Txt::of(alloc, name.as_str())?, base.duplicate(alloc)?))?;
    }
    Ok(copy)
}

/// Equal names with equal kinds, in the same order.
#[cycle(kind_copies)]
fn duplicate_parts(alloc: Global, parts: &[(Txt, Kind)]) -> Result<List<(Txt, Kind)>, OutOfMemory>
    ensures { IfOk result (λ copy. copy ≡ parts.now) }
{
    let mut copy = List::new(alloc);
    for (name, kind) in parts {
        copy.push((Txt::of(alloc, name.as_str())?, kind.duplicate(alloc)?))?;
    }
    Ok(copy)
}
