// Kinds over elements.
ghost use Rattle.std.specs.Prelude.{◌≡◌, true, Option};
ghost use Rattle.std.specs.Option.{option_map};
ghost use Rattle.gq_value.specs.AccumViews.{base_of, accum_of};
ghost use Rattle.gq_rules_typing.specs.KindTypes as kinds;
ghost use Rattle.gq_check_from.specs.Faults.{Judges};
ghost use Rattle.gq_check_decls.specs.Written as spec;

use gq_check_from::{CheckFault, bad_kind};
use gq_tree::{Bits, Plain};
use gq_value::{BaseType, Kind, Number};
use std::alloc::Global;

/// Refuses the kind of the accumulator as bad if a test fails.
pub(crate) fn good(alloc: Global, name: &str, test: bool) -> Result<(), CheckFault>
    ensures { Judges (λ _. true) (spec.good name.now test) result }
{
    match test {
        true => Ok(()),
        false => Err(bad_kind(alloc, name)),
    }
}

/// Returns INT or UINT; any other type is a bad kind.
#[tactic(auto, using(gq_scope::proofs::BaseLemmas::base_laws))]
pub(crate) fn as_number(alloc: Global, name: &str, base: &BaseType) -> Result<Number, CheckFault>
    ensures { Judges (λ n. n) (spec.as_number name.now (base_of base.now)) result }
{
    match base {
        BaseType::Int => Ok(Number::Int),
        BaseType::UInt => Ok(Number::UInt),
        BaseType::Bool | BaseType::Text | BaseType::Time => Err(bad_kind(alloc, name)),
        BaseType::AnyVertex | BaseType::VertexOf(_) => Err(bad_kind(alloc, name)),
        BaseType::Tuple(_, _) => Err(bad_kind(alloc, name)),
    }
}

/// The kind over elements of this type.
#[tactic(auto, using(gq_value::proofs::AccumLemmas::accum_laws, crate::proofs::KindLemmas::number_laws))]
pub(crate) fn over_elem(
    alloc: Global,
    plain: Plain,
    name: &str,
    base: BaseType,
) -> Result<Kind, CheckFault>
    ensures { Judges accum_of (kinds.over_elem plain name.now (base_of base)) result }
{
    match plain {
        Plain::Sum => {
            let number = as_number(alloc, name, &base)?;
            Ok(Kind::Sum(number))
        }
        Plain::Min => {
            let number = as_number(alloc, name, &base)?;
            Ok(Kind::Min(number))
        }
        Plain::Max => {
            let number = as_number(alloc, name, &base)?;
            Ok(Kind::Max(number))
        }
        Plain::Set => Ok(Kind::Set(base)),
        Plain::Bag => Ok(Kind::Bag(base)),
        Plain::List => Ok(Kind::List(base)),
    }
}

/// The kind of truths or bits: the element of truths is BOOL and that of bits is INT, if a type is written at all.
#[tactic(auto, using(gq_value::proofs::AccumLemmas::accum_laws, crate::proofs::KindLemmas::bits_laws))]
pub(crate) fn over_bits(
    alloc: Global,
    bits: Bits,
    name: &str,
    base: Option<BaseType>,
) -> Result<Kind, CheckFault>
    ensures { Judges accum_of (kinds.over_bits bits name.now (option_map base_of base)) result }
{
    match bits {
        Bits::Or => {
            good(alloc, name, may_be_truth(&base))?;
            Ok(Kind::Or)
        }
        Bits::And => {
            good(alloc, name, may_be_truth(&base))?;
            Ok(Kind::And)
        }
        Bits::BitwiseOr => {
            good(alloc, name, may_be_bits(&base))?;
            Ok(Kind::BitOr)
        }
        Bits::BitwiseAnd => {
            good(alloc, name, may_be_bits(&base))?;
            Ok(Kind::BitAnd)
        }
    }
}

#[tactic(auto, using(gq_scope::proofs::BaseLemmas::base_laws))]
fn may_be_truth(base: &Option<BaseType>) -> bool
    ensures { result ≡ spec.may_be_truth (option_map base_of base.now) }
{
    match base {
        None => true,
        Some(base) => match base {
            BaseType::Bool => true,
            BaseType::Int | BaseType::UInt | BaseType::Text | BaseType::Time => false,
            BaseType::AnyVertex | BaseType::VertexOf(_) | BaseType::Tuple(_, _) => false,
        },
    }
}

#[tactic(auto, using(gq_scope::proofs::BaseLemmas::base_laws))]
fn may_be_bits(base: &Option<BaseType>) -> bool
    ensures { result ≡ spec.may_be_bits (option_map base_of base.now) }
{
    match base {
        None => true,
        Some(base) => match base {
            BaseType::Int => true,
            BaseType::Bool | BaseType::UInt | BaseType::Text | BaseType::Time => false,
            BaseType::AnyVertex | BaseType::VertexOf(_) | BaseType::Tuple(_, _) => false,
        },
    }
}

/// Whether a type can be a key; a tuple can't.
#[tactic(auto, using(gq_scope::proofs::BaseLemmas::base_laws))]
pub(crate) fn is_key(base: &BaseType) -> bool
    ensures { result ≡ kinds.is_key (base_of base.now) }
{
    match base {
        BaseType::Tuple(_, _) => false,
        BaseType::Int | BaseType::UInt | BaseType::Bool | BaseType::Text => true,
        BaseType::Time | BaseType::AnyVertex | BaseType::VertexOf(_) => true,
    }
}
