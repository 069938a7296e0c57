// Fields by name.
ghost use Rattle.std.specs.Prelude.{◌≡◌, IfOk, map};
ghost use Rattle.gq_rules_typing.specs.Words as words;

use gq_base::{OutOfMemory, within};
use gq_value::{BaseType, Txt};

/// Finds the place of the first field of a name. Also returns `OutOfMemory` past the last place of 32 bits.
#[tactic(auto, using(crate::proofs::FieldLemmas::place_laws))]
pub fn field_place(fields: &[(Txt, BaseType)], name: &str) -> Result<Option<u32>, OutOfMemory>
    ensures { IfOk result (λ place. place ≡ words.place_of (map (λ f. f.0) fields.now) name.now) }
{
    within(fields.len(), u32::MAX as usize)?;
    for (place, field) in fields.iter().enumerate() {
        if name == field.0.as_str() {
            return Ok(Some(place as u32));
        }
    }
    Ok(None)
}
