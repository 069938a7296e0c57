// The place of a field in one type.
ghost use Rattle.std.specs.Prelude.{◌≡◌, IfOk, map, suc};
ghost use Rattle.std.specs.Option.{option_map};
ghost use Rattle.gq_rules_typing.specs.Sorts.{names_of, attribute_fields, with_id};
ghost use Rattle.gq_rules_typing.specs.Words.{place_of};

use gq_base::{OutOfMemory, narrow, within};
use gq_graph::{Attribute, IdShape};

/// Returns the place of an attribute. Returns `OutOfMemory` past 2^32 - 1 attributes.
#[tactic(auto, using(crate::proofs::PlaceLemmas::place_laws))]
pub(crate) fn attribute_place(
    attributes: &[Attribute],
    name: &str,
) -> Result<Option<u32>, OutOfMemory>
    ensures { IfOk result (λ place. place ≡ place_of (names_of (attribute_fields attributes.now)) name.now) }
{
    within(attributes.len(), u32::MAX as usize)?;
    for (place, attribute) in attributes.iter().enumerate() {
        if name == attribute.name.as_str() {
            return Ok(Some(place as u32));
        }
    }
    Ok(None)
}

/// Returns the place of an attribute of a vertex; an id that is shown comes first.
#[tactic(auto, using(crate::proofs::PlaceLemmas::id_laws))]
pub(crate) fn vertex_place(
    id: &IdShape,
    attributes: &[Attribute],
    name: &str,
) -> Result<Option<u32>, OutOfMemory>
    ensures { IfOk result (λ place. place ≡ place_of (names_of (with_id id.now (attribute_fields attributes.now))) name.now) }
{
    let place = attribute_place(attributes, name)?;
    match id.shown {
        false => Ok(place),
        true => {
            if name == id.name.as_str() {
                return Ok(Some(0));
            }
            behind(place)
        }
    }
}

/// Returns the next place.
fn behind(place: Option<u32>) -> Result<Option<u32>, OutOfMemory>
    ensures { IfOk result (λ next. next ≡ option_map suc place) }
{
    match place {
        None => Ok(None),
        Some(place) => Ok(Some(narrow(place as usize + 1)?)),
    }
}
