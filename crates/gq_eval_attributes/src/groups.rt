// Parts of group rows.
ghost use Rattle.std.specs.Prelude.{◌≡◌, IfOk, map};
ghost use Rattle.std.specs.List.{position};
ghost use Rattle.std.specs.Str.{bytes_eq};
ghost use Rattle.gq_value.specs.Accums.{GroupByAccum};
ghost use Rattle.gq_value.specs.Views.{val};
ghost use Rattle.gq_accum_laws.specs.After.{fresh_each};
ghost use Rattle.gq_rules_typing.specs.Words.{place_of};
ghost use Rattle.gq_eval_operand.specs.Meant.{meant, keys_are, parts_are, parts_at, Tells};
ghost use Rattle.gq_eval_operand.specs.Sound.{IsSound, Sound};
ghost use Rattle.gq_eval_attributes.specs.Parts.{name_in, part_named};

use gq_eval_operand::{Halt, Seen, opening, read};
use gq_nest::Content;
use gq_plan_ir::Field;
use gq_value::{GroupShape, Kind, Row, Txt};

/// The part of a group at a key row that a field names, or the part's opening if the row isn't held. Takes no memory.
#[tactic(auto, using(crate::proofs::PartLemmas::part_laws))]
pub fn row_part<'a>(
    shape: &'a GroupShape,
    content: &'a Content,
    row: &Row,
    field: &Field,
) -> Result<Seen<'a>, Halt>
    requires { IsSound (GroupByAccum (keys_are shape.now) (parts_are shape.now)) content.now }
    ensures told { Tells meant (part_named (parts_are shape.entry.now) (parts_at shape.entry.now content.entry.now (map val row.now)) (name_in field.now)) result }
    ensures sound { IfOk result Sound }
{
    match part_place(shape.parts.as_slice(), field) {
        None => Err(Halt::Stuck),
        Some(place) => match shape.parts.get(place) {
            None => Err(Halt::Stuck),
            Some(part) => match content.part_at(row, place) {
                Some(held) => read(&part.1, held),
                None => Ok(opening(&part.1)),
            },
        },
    }
}

/// The part of a group before any input that a field names. Takes no memory.
#[tactic(auto, using(crate::proofs::PartLemmas::opening_laws))]
pub fn opening_part<'a>(shape: &'a GroupShape, field: &Field) -> Result<Seen<'a>, Halt>
    ensures told { Tells meant (part_named (parts_are shape.entry.now) (fresh_each (parts_are shape.entry.now)) (name_in field.now)) result }
    ensures sound { IfOk result Sound }
{
    match part_place(shape.parts.as_slice(), field) {
        None => Err(Halt::Stuck),
        Some(place) => match shape.parts.get(place) {
            None => Err(Halt::Stuck),
            Some(part) => Ok(opening(&part.1)),
        },
    }
}

/// The place of the part that a field names.
#[tactic(auto, using(crate::proofs::PartLemmas::place_laws))]
fn part_place(parts: &[(Txt, Kind)], field: &Field) -> Option<usize>
    ensures { result ≡ place_of (map (λ p. p.0) parts.now) (name_in field.now) }
{
    place_of_name(parts, name_of(field))
}

/// The first part of a name.
fn place_of_name(parts: &[(Txt, Kind)], name: &str) -> Option<usize>
    ensures { result ≡ position (λ p. bytes_eq name.now p.0) parts.now }
{
    parts.iter().position(|part| name == part.0.as_str())
}

/// The name of a field, as a part's.
fn name_of(field: &Field) -> &str
    ensures { result.now ≡ name_in field.now }
{
    match field {
        Field::Type => "type",
        Field::Named(places) => places.name.as_str(),
    }
}
