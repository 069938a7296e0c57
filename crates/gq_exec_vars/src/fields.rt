// Declared types, and fields of tuple types.
ghost use Rattle.std.specs.Prelude.{◌≡◌, ◌++◌, ◌∷◌, [], true, false, IfErr, IfOk, MatchOption, Ok};
ghost use Rattle.gq_rules_typing.specs.KindTypes as kinds;
ghost use Rattle.gq_exec_vars.specs.Begun.{FieldsHalt, HasFields, IsDeclared, IsForeign, is_refused};

use gq_base::List;
use gq_eval_attributes::TupleType;
use gq_eval_operand::Halt;
use gq_exec_source::is_own;
use gq_plan_ir::Declared;
use gq_value::{BaseType, Txt};
use std::alloc::Global;

/// The largest number of fields of a tuple type.
const MOST_FIELDS: usize = 16;

/// A tuple type of these fields; one that isn't well formed is `Stuck`.
#[tactic(auto, using(crate::proofs::FieldLemmas::field_laws, crate::proofs::FieldLemmas::no_memory))]
pub(crate) fn tuple_type(
    alloc: Global,
    own: &[u32],
    fields: &[(Declared, Txt)],
) -> Result<TupleType, Halt>
    ensures fields { IfOk result (HasFields own.now fields.now) }
    ensures halts { IfErr result (FieldsHalt own.now fields.now) }
{
    let mut names = List::new(alloc);
    let mut types = List::new(alloc);
    for field in fields {
        match declared_base(field.0, own) {
            None => return Err(Halt::Stuck),
            Some(base) => {
                if !is_free(names.as_slice(), field.1.as_str()) {
                    return Err(Halt::Stuck);
                }
                names.push(Txt::of(alloc, field.1.as_str())?)?;
                types.push(base)?;
            }
        }
    }
    Ok(TupleType { names, types })
}

/// The declared type, if it is one of the graph.
#[tactic(auto, using(crate::proofs::FieldLemmas::declared_laws, crate::proofs::FieldLemmas::foreign_type))]
pub(crate) fn declared_base(declared: Declared, own: &[u32]) -> Option<BaseType>
    ensures { MatchOption result (IsForeign own.now declared) (IsDeclared own.now declared) }
{
    match declared {
        Declared::Int => Some(BaseType::Int),
        Declared::UInt => Some(BaseType::UInt),
        Declared::Bool => Some(BaseType::Bool),
        Declared::Text => Some(BaseType::Text),
        Declared::AnyVertex => Some(BaseType::AnyVertex),
        Declared::VertexOf(kind) => {
            if is_own(own, kind) {
                Some(BaseType::VertexOf(kind))
            } else {
                None
            }
        }
    }
}

/// Whether a field may have a name after these.
#[tactic(auto, using(crate::proofs::FieldLemmas::free_name, crate::proofs::FieldLemmas::taken_name, crate::proofs::FieldLemmas::too_many))]
fn is_free(names: &[Txt], name: &str) -> bool
    ensures free { result ≡ true → kinds.own_name 16 names.now name.now ≡ Ok (names.now ++ name.now ∷ []) }
    ensures taken { result ≡ false → is_refused (kinds.own_name 16 names.now name.now) ≡ true }
{
    if stands_in(names, name) {
        return false;
    }
    if names.len() >= MOST_FIELDS {
        return false;
    }
    true
}

/// Whether a name is among these.
fn stands_in(names: &[Txt], name: &str) -> bool
    ensures { result ≡ kinds.stands_in names.now name.now }
{
    for known in names {
        if name == known.as_str() {
            return true;
        }
    }
    false
}
