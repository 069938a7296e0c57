// Name look-up.
ghost use Rattle.std.specs.Prelude.{◌≡◌, ◌==◌, IfOk, MatchOption, Some, false, map};
ghost use Rattle.std.specs.Option.{option_map};
ghost use Rattle.gq_eval_operand.specs.Types.{vertex_base};
ghost use Rattle.gq_eval_operand.specs.Words.{under};
ghost use Rattle.gq_eval_operand.specs.States as states;
ghost use Rattle.gq_eval_operand.specs.Reference.{Place};
ghost use Rattle.gq_eval_operand.specs.Meant.{meant, sort_is, Tells};
ghost use Rattle.gq_eval_operand.specs.Sound.{Sound};
ghost use Rattle.gq_rules_meaning.specs.States.{SetOf};
ghost use Rattle.gq_rules_meaning.specs.Statements.{is_set};
ghost use Rattle.gq_frame.specs.Names.{alias_of, placed_of, thing_of, thing_at, thing_in, named_in, thing_meant};

use crate::frame::{Alias, Bound, Thing};
use gq_eval_operand::{Halt, Operand, Seen, Sort};
use gq_index::VertexList;
use gq_value::Value;

/// Looks up the name of a place: the first alias of the place, or else the variable or the set there. Doesn't allocate.
pub fn named<'a>(
    aliases: &[Alias<'a>],
    things: &'a [Option<Thing>],
    place: u32,
) -> Result<Seen<'a>, Halt>
    ensures named { Tells meant (named_in (thing_at (map alias_of aliases.now) things.entry.now) (Place place)) result }
    ensures sound { IfOk result Sound }
{
    match alias_at(aliases, place) {
        Some(bound) => Ok(seen_as(bound)),
        None => held(things, place),
    }
}

/// The types and the vertices of the set at a place, if it is visible. Doesn't allocate.
pub fn set_at(things: &[Option<Thing>], place: u32) -> Option<(&[u32], &VertexList)>
    ensures { MatchOption result (is_set (thing_in things.entry.now place) ≡ false) (λ set. thing_in things.entry.now place ≡ Some (SetOf set.0.now set.1.now)) }
{
    match things.get(place as usize) {
        Some(Some(Thing::Set(types, vertices))) => Some((types.as_slice(), vertices)),
        Some(Some(Thing::Value(_, _))) | Some(None) | None => None,
    }
}

/// The first alias of a place.
#[tactic(auto, using(crate::proofs::NameLemmas::alias_laws))]
fn alias_at<'a>(aliases: &[Alias<'a>], place: u32) -> Option<Bound<'a>>
    ensures { option_map placed_of result ≡ under ◌==◌ place (map alias_of aliases.now) }
{
    for alias in aliases {
        if alias.place == place {
            return Some(alias.is);
        }
    }
    None
}

#[tactic(auto, using(gq_value::specs::ViewLaws::view_laws))]
fn seen_as<'a>(bound: Bound<'a>) -> Seen<'a>
    ensures named { meant result ≡ states.meant (thing_of (placed_of bound.entry)) }
    ensures sound { Sound result }
{
    match bound {
        Bound::Vertex(types, vertex) => {
            Seen::Value(sort_among(types), Operand::Made(Value::Vertex(vertex)))
        }
        Bound::Edge(row, kind) => Seen::Edge(row, kind),
        Bound::Member(types, set, vertex) => Seen::Member(set, sort_among(types), vertex),
    }
}

/// The type of a vertex of one of these types.
fn sort_among<'a>(types: &[u32]) -> Sort<'a>
    ensures { sort_is result ≡ vertex_base types.now }
{
    match types {
        [kind] => Sort::VertexOf(*kind),
        [] | [_, _, ..] => Sort::AnyVertex,
    }
}

/// The variable or the set at a place.
fn held(things: &[Option<Thing>], place: u32) -> Result<Seen<'_>, Halt>
    ensures named { Tells meant (thing_meant (thing_in things.entry.now place)) result }
    ensures sound { IfOk result Sound }
{
    match things.get(place as usize) {
        Some(Some(Thing::Value(base, value))) => {
            Ok(Seen::Value(Sort::of(base), Operand::Lent(value)))
        }
        Some(Some(Thing::Set(_, set))) => Ok(Seen::Set(set.as_slice())),
        Some(None) | None => Err(Halt::Stuck),
    }
}
