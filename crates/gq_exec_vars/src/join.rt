// The set operators.
ghost use Rattle.std.specs.Prelude.{◌≡◌, ◌++◌, IfOk};
ghost use Rattle.gq_rules_typing.specs.Patterns.{by_number};
ghost use Rattle.gq_rules_meaning.specs.Sets.{joined};
ghost use Rattle.gq_exec_vars.specs.Written.{typed, set_is};

use crate::bits::{sifted, union};
use crate::typed::{SetOperand, TypedSet};
use gq_base::{List, OutOfMemory};
use gq_tree::SetOp;
use std::alloc::Global;

/// Applies an operator to two sets. A union has the types of both sides, the others have those of the left side.
pub fn join(
    alloc: Global,
    op: SetOp,
    a: &SetOperand<'_>,
    b: &SetOperand<'_>,
) -> Result<TypedSet, OutOfMemory>
    ensures { IfOk result (λ set. typed set ≡ joined op (set_is a.now) (set_is b.now)) }
{
    let (v, w) = (a.vertices(), b.vertices());
    match op {
        SetOp::Union => Ok(TypedSet {
            types: types_of_both(alloc, a.types(), b.types())?,
            vertices: union(alloc, v, w)?,
        }),
        SetOp::Intersect => Ok(TypedSet {
            types: List::from_slice(alloc, a.types())?,
            vertices: sifted(alloc, v, w, true)?,
        }),
        SetOp::Minus => Ok(TypedSet {
            types: List::from_slice(alloc, a.types())?,
            vertices: sifted(alloc, v, w, false)?,
        }),
    }
}

/// The types of both lists in order, each once.
fn types_of_both(alloc: Global, a: &[u32], b: &[u32]) -> Result<List<u32>, OutOfMemory>
    ensures { IfOk result (λ list. list ≡ by_number (a.now ++ b.now)) }
{
    let list = union(alloc, a, b)?;
    List::from_slice(alloc, list.as_slice())
}
