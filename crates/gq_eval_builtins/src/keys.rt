// The contents at the keys of maps and groups.
ghost use Rattle.std.specs.Prelude.{◌≡◌, IfOk, map, length, slice_get};
ghost use Rattle.std.specs.Option.{option_copied, option_map};
ghost use Rattle.gq_value.specs.Accums.{Base, MapAccum};
ghost use Rattle.gq_value.specs.AccumViews.{accum_of, base_of};
ghost use Rattle.gq_value.specs.Views.{val};
ghost use Rattle.gq_rules_typing.specs.Kinds.{key_types};
ghost use Rattle.gq_eval_operand.specs.Meant.{meant, Tells};
ghost use Rattle.gq_eval_operand.specs.Sound.{IsSound, Sound};
ghost use Rattle.gq_eval_builtins.specs.Elements.{contains_key_meant, get_meant, keys_in, got_in, holds_row, opening_row, opening_got};
ghost use Rattle.gq_eval_builtins.specs.Wants.{wants_are};

use crate::elements::has_row;
use gq_eval_operand::{Halt, Seen, opening, read, truly};
use gq_nest::Content;
use gq_value::{BaseType, GroupShape, Kind, Row, Txt};
use std::alloc::Global;

/// The types to which arguments are converted.
#[derive(Clone, Copy)]
pub enum Wants<'a> {
    Nothing,
    One(&'a BaseType),
    Keys(&'a [(Txt, BaseType)]),
    Fields(&'a [BaseType]),
}

impl<'a> Wants<'a> {
    /// The type of the argument at a place, if there may be one.
    #[tactic(auto, using(crate::proofs::KeyLemmas::want_laws))]
    pub fn at(self, place: usize) -> Option<&'a BaseType>
        ensures { slice_get (wants_are self.entry) place ≡ option_map base_of (option_copied result) }
    {
        match self {
            Wants::Nothing => None,
            Wants::One(base) => { if place == 0 { Some(base) } else { None } }
            Wants::Keys(keys) => match keys.get(place) {
                Some(key) => Some(&key.1),
                None => None,
            },
            Wants::Fields(bases) => bases.get(place),
        }
    }
}

/// The types of the keys of a map or group; anything else has none.
pub fn key_wants<'a>(seen: &Seen<'a>) -> Wants<'a>
    ensures { wants_are result ≡ keys_in (meant seen.entry.now) }
{
    match seen {
        Seen::Whole(kind, _) | Seen::Opening(kind) => keys_wanted(kind),
        Seen::Set(_) | Seen::Member(_, _, _) | Seen::Edge(_, _) => Wants::Nothing,
        Seen::Value(_, _) | Seen::Average(_) => Wants::Nothing,
        Seen::Row(_, _, _) | Seen::OpeningRow(_) => Wants::Nothing,
    }
}

#[tactic(auto, using(gq_value::proofs::AccumLemmas::accum_laws, crate::proofs::KeyLemmas::key_types_are))]
pub fn keys_wanted<'a>(kind: &'a Kind) -> Wants<'a>
    ensures { wants_are result ≡ key_types (accum_of kind.entry.now) }
{
    match kind {
        Kind::Map(base, _) => Wants::One(base),
        Kind::Group(shape) => Wants::Keys(shape.keys.as_slice()),
        Kind::Sum(_) | Kind::Min(_) | Kind::Max(_) | Kind::Or | Kind::And => Wants::Nothing,
        Kind::BitOr | Kind::BitAnd | Kind::Avg => Wants::Nothing,
        Kind::Set(_) | Kind::Bag(_) | Kind::List(_) | Kind::Heap(_) => Wants::Nothing,
    }
}

/// `containsKey`: whether a map or group holds a key row. Takes no memory, except for a group without parts.
#[tactic(auto, using(crate::proofs::KeyLemmas::holds_laws))]
pub fn contains_key<'a>(alloc: Global, seen: &Seen<'_>, row: &Row) -> Result<Seen<'a>, Halt>
    requires { Sound seen.now }
    ensures { Tells meant (contains_key_meant (meant seen.now) (map val row.now)) result }
{
    match seen {
        Seen::Whole(kind, content) => holds(alloc, kind, content, row),
        Seen::Opening(kind) => holds_yet(kind),
        Seen::Set(_) | Seen::Member(_, _, _) | Seen::Edge(_, _) => Err(Halt::Stuck),
        Seen::Value(_, _) | Seen::Average(_) => Err(Halt::Stuck),
        Seen::Row(_, _, _) | Seen::OpeningRow(_) => Err(Halt::Stuck),
    }
}

#[tactic(auto, using(gq_value::proofs::AccumLemmas::accum_laws, crate::proofs::KeyLemmas::holds_laws))]
fn holds<'a>(alloc: Global, kind: &Kind, content: &Content, row: &Row) -> Result<Seen<'a>, Halt>
    requires { IsSound (accum_of kind.now) content.now }
    ensures { Tells meant (holds_row (accum_of kind.now) content.now (map val row.now)) result }
{
    match kind {
        Kind::Map(_, _) => match content.get(row) {
            Some(_) => Ok(truly(true)),
            None => Ok(truly(false)),
        },
        // A group without parts, which the grammar doesn't have, holds nothing at a row: its rows are searched.
        Kind::Group(shape) => match shape.parts.as_slice() {
            [] => {
                let rows = content.keys(alloc)?;
                Ok(truly(has_row(rows.as_slice(), row)))
            }
            [_, ..] => match content.part(row, 0) {
                Some(_) => Ok(truly(true)),
                None => Ok(truly(false)),
            },
        },
        Kind::Sum(_) | Kind::Min(_) | Kind::Max(_) | Kind::Or | Kind::And => Err(Halt::Stuck),
        Kind::BitOr | Kind::BitAnd | Kind::Avg => Err(Halt::Stuck),
        Kind::Set(_) | Kind::Bag(_) | Kind::List(_) | Kind::Heap(_) => Err(Halt::Stuck),
    }
}

/// Before any input no key row is held.
#[tactic(auto, using(gq_value::proofs::AccumLemmas::accum_laws))]
fn holds_yet<'a>(kind: &Kind) -> Result<Seen<'a>, Halt>
    ensures { Tells meant (opening_row (accum_of kind.now)) result }
{
    match kind {
        Kind::Map(_, _) | Kind::Group(_) => Ok(truly(false)),
        Kind::Sum(_) | Kind::Min(_) | Kind::Max(_) | Kind::Or | Kind::And => Err(Halt::Stuck),
        Kind::BitOr | Kind::BitAnd | Kind::Avg => Err(Halt::Stuck),
        Kind::Set(_) | Kind::Bag(_) | Kind::List(_) | Kind::Heap(_) => Err(Halt::Stuck),
    }
}

/// `get`: the content at a key row of a map or group, or else its opening. Takes no memory.
#[tactic(auto, using(crate::proofs::KeyLemmas::got_laws))]
pub fn get<'a>(seen: &Seen<'a>, row: Row) -> Result<Seen<'a>, Halt>
    requires { Sound seen.now }
    ensures got { Tells meant (get_meant (meant seen.entry.now) (map val row)) result }
    ensures sound { IfOk result Sound }
{
    match seen {
        Seen::Whole(kind, content) => got(kind, content, row),
        Seen::Opening(kind) => got_yet(kind),
        Seen::Set(_) | Seen::Member(_, _, _) | Seen::Edge(_, _) => Err(Halt::Stuck),
        Seen::Value(_, _) | Seen::Average(_) => Err(Halt::Stuck),
        Seen::Row(_, _, _) | Seen::OpeningRow(_) => Err(Halt::Stuck),
    }
}

#[tactic(auto, using(gq_value::proofs::AccumLemmas::accum_laws, crate::proofs::KeyLemmas::got_laws))]
fn got<'a>(kind: &'a Kind, content: &'a Content, row: Row) -> Result<Seen<'a>, Halt>
    requires { IsSound (accum_of kind.now) content.now }
    ensures got { Tells meant (got_in (accum_of kind.entry.now) content.entry.now (map val row)) result }
    ensures sound { IfOk result Sound }
{
    match kind {
        Kind::Map(_, inner) => at_key(kind, inner.get(), content, &row),
        Kind::Group(shape) => Ok(Seen::Row(shape, content, row)),
        Kind::Sum(_) | Kind::Min(_) | Kind::Max(_) | Kind::Or | Kind::And => Err(Halt::Stuck),
        Kind::BitOr | Kind::BitAnd | Kind::Avg => Err(Halt::Stuck),
        Kind::Set(_) | Kind::Bag(_) | Kind::List(_) | Kind::Heap(_) => Err(Halt::Stuck),
    }
}

/// The content at a key of a map of this kind, whose contents are of another kind.
#[tactic(auto, using(crate::proofs::KeyLemmas::at_key_laws))]
fn at_key<'a>(
    kind: &Kind,
    inner: &'a Kind,
    content: &'a Content,
    row: &Row,
) -> Result<Seen<'a>, Halt>
    requires sound { IsSound (accum_of kind.now) content.now }
    requires is_map { (b : Base) × (accum_of kind.now ≡ MapAccum b (accum_of inner.now)) }
    ensures got { Tells meant (got_in (accum_of kind.now) content.entry.now (map val row.now)) result }
    ensures sound { IfOk result Sound }
{
    match content.get(row) {
        Some(part) => read(inner, part),
        None => Ok(opening(inner)),
    }
}

#[tactic(auto, using(gq_value::proofs::AccumLemmas::accum_laws))]
fn got_yet<'a>(kind: &'a Kind) -> Result<Seen<'a>, Halt>
    ensures got { Tells meant (opening_got (accum_of kind.entry.now)) result }
    ensures sound { IfOk result Sound }
{
    match kind {
        Kind::Map(_, inner) => Ok(opening(inner.get())),
        Kind::Group(shape) => Ok(Seen::OpeningRow(shape)),
        Kind::Sum(_) | Kind::Min(_) | Kind::Max(_) | Kind::Or | Kind::And => Err(Halt::Stuck),
        Kind::BitOr | Kind::BitAnd | Kind::Avg => Err(Halt::Stuck),
        Kind::Set(_) | Kind::Bag(_) | Kind::List(_) | Kind::Heap(_) => Err(Halt::Stuck),
    }
}
