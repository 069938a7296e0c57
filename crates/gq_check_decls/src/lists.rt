// Kinds without a ListAccum.
ghost use Rattle.std.specs.Prelude.{◌≡◌};
ghost use Rattle.gq_value.specs.AccumViews.{accum_of};
ghost use Rattle.gq_value.specs.Typed as spec;
ghost use Rattle.gq_scope.specs.Views.{parts_are};

use gq_value::{Kind, Txt};

/// Whether no level of a kind is a ListAccum.
#[cycle(lists)]
#[tactic(auto, using(gq_value::proofs::AccumLemmas::accum_laws))]
pub(crate) fn has_no_list(kind: &Kind) -> bool
    ensures { result ≡ spec.has_no_list (accum_of kind.now) }
{
    match kind {
        Kind::List(_) => false,
        Kind::Map(_, held) => has_no_list(held.get()),
        Kind::Group(shape) => have_no_list(shape.parts.as_slice()),
        Kind::Sum(_) | Kind::Min(_) | Kind::Max(_) | Kind::Or | Kind::And | Kind::Heap(_) => true,
        Kind::BitOr | Kind::BitAnd | Kind::Avg | Kind::Set(_) | Kind::Bag(_) => true,
    }
}

#[cycle(lists)]
pub(crate) fn have_no_list(parts: &[(Txt, Kind)]) -> bool
    ensures { result ≡ spec.have_no_list (parts_are parts.now) }
{
    for part in parts {
        if !has_no_list(&part.1) {
            return false;
        }
    }
    true
}
