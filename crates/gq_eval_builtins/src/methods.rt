// Methods of collections and sets.
ghost use Rattle.std.specs.Prelude.{◌≡◌, IfOk, map, Some};
ghost use Rattle.std.specs.Option.{option_copied, option_map};
ghost use Rattle.gq_value.specs.AccumViews.{accum_of, base_of};
ghost use Rattle.gq_rules_typing.specs.Kinds.{contained_type};
ghost use Rattle.gq_value.specs.Val.{Text};
ghost use Rattle.gq_value.specs.Views.{val};
ghost use Rattle.gq_rules_meaning.specs.Meanings.{counted};
ghost use Rattle.gq_eval_operand.specs.Meant.{meant, valued, Tells};
ghost use Rattle.gq_eval_operand.specs.Sound.{IsSound, Sound};
ghost use Rattle.gq_eval_builtins.specs.Elements.{size_meant, contains_meant, contains_key_meant, get_meant, contained_in, keys_in, has_in};

use crate::elements::has;
use gq_base::{OutOfMemory, within};
use gq_eval_operand::{Halt, Operand, Seen, Sort, truly};
use gq_nest::Content;
use gq_value::{BaseType, Kind, Txt, Value};
use std::alloc::Global;

/// A count, as an INT.
#[tactic(auto, using(gq_value::specs::ViewLaws::view_laws))]
pub fn counted<'a>(count: u64) -> Result<Seen<'a>, Halt>
    ensures { Tells meant (counted count) result }
{
    within(count as usize, i64::MAX as usize)?;
    Ok(Seen::Value(Sort::Int, Operand::Made(Value::Int(count as i64))))
}

/// `size`: how many elements or keys there are. Takes no memory.
#[tactic(auto, using(crate::proofs::MethodLemmas::size_laws))]
pub fn size<'a>(seen: &Seen<'_>) -> Result<Seen<'a>, Halt>
    requires { Sound seen.now }
    ensures { Tells meant (size_meant (meant seen.now)) result }
{
    match seen {
        Seen::Whole(_, content) => counted(content.size()),
        Seen::Opening(_) => counted(0),
        Seen::Set(vertices) => counted(vertices.len() as u64),
        Seen::Member(vertices, _, _) => counted(vertices.len() as u64),
        Seen::Value(_, _) | Seen::Average(_) | Seen::Edge(_, _) => Err(Halt::Stuck),
        Seen::Row(_, _, _) | Seen::OpeningRow(_) => Err(Halt::Stuck),
    }
}

/// The type of the values that `contains` looks for, if it is a set, bag or list.
#[tactic(auto, using(gq_value::proofs::AccumLemmas::accum_laws))]
pub fn contained<'a>(seen: &Seen<'a>) -> Option<&'a BaseType>
    ensures { contained_in (meant seen.entry.now) ≡ option_map base_of (option_copied result) }
{
    match seen {
        Seen::Whole(kind, _) | Seen::Opening(kind) => contained_kind(kind),
        Seen::Set(_) | Seen::Member(_, _, _) | Seen::Edge(_, _) => None,
        Seen::Value(_, _) | Seen::Average(_) => None,
        Seen::Row(_, _, _) | Seen::OpeningRow(_) => None,
    }
}

#[tactic(auto, using(gq_value::proofs::AccumLemmas::accum_laws))]
fn contained_kind<'a>(kind: &'a Kind) -> Option<&'a BaseType>
    ensures { contained_type (accum_of kind.entry.now) ≡ option_map base_of (option_copied result) }
{
    match kind {
        Kind::Set(base) | Kind::Bag(base) | Kind::List(base) => Some(base),
        Kind::Sum(_) | Kind::Min(_) | Kind::Max(_) | Kind::Or | Kind::And => None,
        Kind::BitOr | Kind::BitAnd | Kind::Avg => None,
        Kind::Map(_, _) | Kind::Group(_) | Kind::Heap(_) => None,
    }
}

/// `contains`: whether a set, bag or list has an equal value.
#[tactic(auto, using(crate::proofs::MethodLemmas::contains_laws))]
pub fn contains<'a>(alloc: Global, seen: &Seen<'_>, operand: &Operand<'_>) -> Result<Seen<'a>, Halt>
    requires { Sound seen.now }
    ensures { Tells meant (contains_meant (meant seen.now) (valued operand.now)) result }
{
    match seen {
        Seen::Whole(kind, content) => match contained_kind(kind) {
            Some(base) => {
                let found = has_operand(alloc, kind, content, base, operand)?;
                Ok(truly(found))
            }
            None => Err(Halt::Stuck),
        },
        Seen::Opening(kind) => match contained_kind(kind) {
            Some(_) => Ok(truly(false)),
            None => Err(Halt::Stuck),
        },
        Seen::Set(_) | Seen::Member(_, _, _) | Seen::Edge(_, _) => Err(Halt::Stuck),
        Seen::Value(_, _) | Seen::Average(_) => Err(Halt::Stuck),
        Seen::Row(_, _, _) | Seen::OpeningRow(_) => Err(Halt::Stuck),
    }
}

/// As `has`; a text that isn't a `Value` yet is copied.
#[tactic(auto, using(gq_value::specs::ViewLaws::view_laws))]
fn has_operand(
    alloc: Global,
    kind: &Kind,
    content: &Content,
    base: &BaseType,
    operand: &Operand<'_>,
) -> Result<bool, OutOfMemory>
    requires sound { IsSound (accum_of kind.now) content.now }
    requires of { contained_type (accum_of kind.now) ≡ Some (base_of base.now) }
    ensures { IfOk result (λ found. has_in (accum_of kind.now) content.now (valued operand.now) ≡ Some found) }
{
    match operand {
        Operand::Made(value) => has(alloc, kind, content, base, value),
        Operand::Lent(value) => has(alloc, kind, content, base, value),
        Operand::Text(text) => has_text(alloc, kind, content, base, text),
        Operand::Joined(text) => has_text(alloc, kind, content, base, text.as_str()),
    }
}

/// As `has`, for a copy of a text.
#[tactic(auto, using(gq_value::specs::ViewLaws::view_laws))]
fn has_text(
    alloc: Global,
    kind: &Kind,
    content: &Content,
    base: &BaseType,
    text: &str,
) -> Result<bool, OutOfMemory>
    requires sound { IsSound (accum_of kind.now) content.now }
    requires of { contained_type (accum_of kind.now) ≡ Some (base_of base.now) }
    ensures { IfOk result (λ found. has_in (accum_of kind.now) content.now (Text text.now) ≡ Some found) }
{
    let value = Value::Text(Txt::of(alloc, text)?);
    has(alloc, kind, content, base, &value)
}
