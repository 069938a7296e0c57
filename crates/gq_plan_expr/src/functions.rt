// Functions, by name.
ghost use Rattle.std.specs.Prelude.{◌≡◌, IfOk};
ghost use Rattle.gq_plan_expr.specs.Found.{field_types, function_at, language};

use crate::names::NamedTupleType;
use gq_base::{List, OutOfMemory, within};
use gq_plan_ir::Function;
use gq_rules_typing::builtin_named;
use gq_value::{BaseType, Fields, Txt};
use std::alloc::Global;

/// Returns the built-in function with a name.
fn own_function(name: &str) -> Option<Function>
    ensures { result ≡ language name.now }
{
    match builtin_named(name) {
        None => None,
        Some(builtin) => Some(Function::Own(builtin)),
    }
}

/// Returns the types of a tuple type's fields.
#[tactic(auto, using(crate::proofs::RowLemmas::row_laws))]
fn types_of(alloc: Global, fields: &[(Txt, BaseType)]) -> Result<Fields, OutOfMemory>
    ensures { IfOk result (λ types. types ≡ field_types fields.now) }
{
    let mut types = List::new(alloc);
    for field in fields {
        let copy = field.1.duplicate(alloc)?;
        types.push(copy)?;
    }
    Ok(types)
}

/// Returns the tuple type, or else the function, with a name. Returns `OutOfMemory` past 2^32 - 1 tuple types.
#[tactic(auto, using(crate::proofs::TupleLemmas::tuple_laws))]
pub(crate) fn function_of(
    alloc: Global,
    tuples: &[NamedTupleType],
    name: &str,
) -> Result<Option<Function>, OutOfMemory>
    ensures { IfOk result (λ function. function ≡ function_at tuples.now name.now) }
{
    within(tuples.len(), u32::MAX as usize)?;
    for (number, tuple) in tuples.iter().enumerate() {
        if tuple.0.as_str() == name {
            let types = types_of(alloc, tuple.1.as_slice())?;
            return Ok(Some(Function::Tuple(number as u32, types)));
        }
    }
    Ok(own_function(name))
}
