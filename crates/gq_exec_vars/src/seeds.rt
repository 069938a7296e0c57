// The vertices of written sets.
ghost use Rattle.std.specs.Prelude.{◌≡◌, OnOk, map};
ghost use Rattle.gq_value.specs.AccumViews.{base_of, accum_of};
ghost use Rattle.gq_rules_typing.specs.Statements as plain;
ghost use Rattle.gq_rules_meaning.specs.Expressions.{World};
ghost use Rattle.gq_rules_meaning.specs.States.{State};
ghost use Rattle.gq_rules_meaning.specs.Sets.{seed_of, term_of};
ghost use Rattle.gq_plan_ir.specs.Reference.{Reference, Place, Slot, VertexType};
ghost use Rattle.gq_plan_ir.specs.PlanView.{view_seed};
ghost use Rattle.gq_eval_operand.specs.Meant.{Tells, meant};
ghost use Rattle.gq_eval_operand.specs.Sound.{Sound};
ghost use Rattle.gq_frame.specs.Slots.{AreSound};
ghost use Rattle.gq_exec_vars.specs.Lookups.{IsSeen, base_types};
ghost use Rattle.gq_exec_vars.specs.Written.{Gains, HasFew, PutContent, PutNone, PutRead, Seeded, typed};

use crate::bits::{SetBitmap, marked, marked_numbers, put, put_all, put_row};
use crate::lookup::{Lookup, vertex_at};
use crate::typed::TypedSet;
use gq_base::{List, OutOfMemory};
use gq_eval_operand::{Halt, Seen};
use gq_frame::read_target;
use gq_nest::Content;
use gq_plan_ir::Seed;
use gq_value::{BaseType, Kind};
use std::alloc::Global;

/// The set written between braces: each vertex once, by number.
pub fn gathered(alloc: Global, seeds: &[Seed], at: &Lookup<'_>) -> Result<TypedSet, Halt>
    requires { AreSound at.now.frame.now.accums }
    ensures { (world : World Reference) (s : State Reference) → IsSeen at.now world s → Tells typed (term_of world s (plain.Seeds (map view_seed seeds.now))) result }
{
    let mut bits = SetBitmap::new(alloc, at.vertices.len())?;
    for seed in seeds {
        gather(alloc, *seed, at, &mut bits)?;
    }
    let types = marked_numbers(alloc, bits.types.as_slice())?;
    let vertices = marked(alloc, bits.vertices.as_slice())?;
    Ok(TypedSet { types, vertices })
}

/// Marks the vertices of a seed. A type of another graph, or a name that isn't a vertex or a set, is `Stuck`.
fn gather(alloc: Global, seed: Seed, at: &Lookup<'_>, bits: &mut SetBitmap) -> Result<(), Halt>
    requires { AreSound at.now.frame.now.accums }
    ensures seeded { (world : World Reference) (s : State Reference) → IsSeen at.now world s → Seeded (seed_of world s (view_seed seed)) bits.old bits.new result }
    ensures few { OnOk result (HasFew bits.old → HasFew bits.new) }
{
    match seed {
        Seed::Type(kind) => gather_type(alloc, kind, at, bits),
        Seed::Every => gather_every(alloc, at, bits),
        Seed::Name(place) => gather_vertex(place, at, bits),
        Seed::Global(slot) => gather_content(alloc, slot, at, bits),
    }
}

/// Marks all vertices of a type.
#[tactic(auto, using(crate::proofs::BitLemmas::few_laws, crate::proofs::SeedLemmas::type_seeded, crate::proofs::SeedLemmas::type_unknown))]
fn gather_type(alloc: Global, kind: u32, at: &Lookup<'_>, bits: &mut SetBitmap) -> Result<(), Halt>
    ensures seeded { (world : World Reference) (s : State Reference) → IsSeen at.now world s → Seeded (seed_of world s (plain.AllOf (VertexType kind))) bits.old bits.new result }
    ensures few { OnOk result (HasFew bits.old → HasFew bits.new) }
{
    if !at.own.contains(&kind) {
        return Err(Halt::Stuck);
    }
    bits.put_kinds(alloc, &[kind], at.vertices)?;
    Ok(())
}

/// Marks all vertices of the graph.
#[tactic(auto, using(crate::proofs::BitLemmas::few_laws, crate::proofs::SeedLemmas::every_seeded))]
fn gather_every(alloc: Global, at: &Lookup<'_>, bits: &mut SetBitmap) -> Result<(), Halt>
    ensures seeded { (world : World Reference) (s : State Reference) → IsSeen at.now world s → Seeded (seed_of world s plain.AllVertices) bits.old bits.new result }
    ensures few { OnOk result (HasFew bits.old → HasFew bits.new) }
{
    bits.put_kinds(alloc, at.own, at.vertices)?;
    Ok(())
}

/// Marks the vertex of a variable.
#[tactic(auto, using(crate::proofs::BitLemmas::few_laws))]
fn gather_vertex(place: u32, at: &Lookup<'_>, bits: &mut SetBitmap) -> Result<(), Halt>
    ensures seeded { (world : World Reference) (s : State Reference) → IsSeen at.now world s → Seeded (seed_of world s (plain.OneVertex (Place place))) bits.old bits.new result }
    ensures few { OnOk result (HasFew bits.old → HasFew bits.new) }
{
    match vertex_at(at.frame.things.as_slice(), place) {
        Some((base, vertex)) => {
            put_base(&mut bits.types, base, at.own)?;
            put(&mut bits.vertices, vertex)?;
            Ok(())
        }
        None => Err(Halt::Stuck),
    }
}

/// Marks the types that a vertex of a base type may have.
#[tactic(auto, using(gq_eval_operand::proofs::ConvertLemmas::base_laws))]
fn put_base(words: &mut List<u64>, base: &BaseType, own: &[u32]) -> Result<(), OutOfMemory>
    ensures { OnOk result (Gains (base_types own.now (base_of base.now)) words.old words.new) }
{
    match base {
        BaseType::VertexOf(kind) => put(words, *kind),
        BaseType::Int | BaseType::UInt | BaseType::Bool | BaseType::Text => put_all(words, own),
        BaseType::AnyVertex | BaseType::Tuple(_, _) | BaseType::Time => put_all(words, own),
    }
}

/// Marks the vertices of a global accumulator.
fn gather_content(
    alloc: Global,
    slot: u32,
    at: &Lookup<'_>,
    bits: &mut SetBitmap,
) -> Result<(), Halt>
    requires { AreSound at.now.frame.now.accums }
    ensures seeded { (world : World Reference) (s : State Reference) → IsSeen at.now world s → Seeded (seed_of world s (plain.ContentOf (Slot slot))) bits.old bits.new result }
    ensures few { OnOk result (HasFew bits.old → HasFew bits.new) }
{
    match read_target(&at.frame.accums, slot, 0) {
        Ok(seen) => put_seen(alloc, &seen, at.own, bits),
        Err(halt) => Err(halt),
    }
}

/// Marks the vertices of what an accumulator reads as. One that isn't a set is `Stuck`.
#[tactic(auto, using(crate::proofs::SeedLemmas::read_laws))]
fn put_seen(alloc: Global, seen: &Seen<'_>, own: &[u32], bits: &mut SetBitmap) -> Result<(), Halt>
    requires { Sound seen.now }
    ensures put { PutRead (meant seen.now) own.now bits.old bits.new result }
    ensures few { OnOk result (HasFew bits.old → HasFew bits.new) }
{
    match seen {
        Seen::Whole(kind, content) => put_content(alloc, kind, content, own, bits),
        Seen::Opening(kind) => put_none(kind, own, bits),
        Seen::Value(_, _) | Seen::Average(_) => Err(Halt::Stuck),
        Seen::Row(_, _, _) | Seen::OpeningRow(_) => Err(Halt::Stuck),
        Seen::Edge(_, _) | Seen::Set(_) | Seen::Member(_, _, _) => Err(Halt::Stuck),
    }
}

/// Marks the types of a set that has no vertices yet.
#[tactic(auto, using(gq_value::proofs::AccumLemmas::accum_laws, crate::proofs::BitLemmas::gains_none, crate::proofs::BitLemmas::few_laws))]
fn put_none(kind: &Kind, own: &[u32], bits: &mut SetBitmap) -> Result<(), Halt>
    ensures put { PutNone (accum_of kind.now) own.now bits.old bits.new result }
    ensures few { OnOk result (HasFew bits.old → HasFew bits.new) }
{
    match kind {
        Kind::Set(base) => {
            put_base(&mut bits.types, base, own)?;
            Ok(())
        }
        Kind::Sum(_) | Kind::Min(_) | Kind::Max(_) | Kind::Or | Kind::And => Err(Halt::Stuck),
        Kind::BitOr | Kind::BitAnd | Kind::Avg | Kind::Bag(_) => Err(Halt::Stuck),
        Kind::List(_) | Kind::Map(_, _) | Kind::Group(_) | Kind::Heap(_) => Err(Halt::Stuck),
    }
}

/// Marks the vertices of a set.
#[tactic(auto, using(gq_value::proofs::AccumLemmas::accum_laws, crate::proofs::BitLemmas::few_laws))]
fn put_content(
    alloc: Global,
    kind: &Kind,
    content: &Content,
    own: &[u32],
    bits: &mut SetBitmap,
) -> Result<(), Halt>
    ensures put { PutContent (accum_of kind.now) content.now own.now bits.old bits.new result }
    ensures few { OnOk result (HasFew bits.old → HasFew bits.new) }
{
    match kind {
        Kind::Set(base) => {
            put_base(&mut bits.types, base, own)?;
            let row = content.elements(alloc)?;
            put_row(&mut bits.vertices, row.as_slice())?;
            Ok(())
        }
        Kind::Sum(_) | Kind::Min(_) | Kind::Max(_) | Kind::Or | Kind::And => Err(Halt::Stuck),
        Kind::BitOr | Kind::BitAnd | Kind::Avg | Kind::Bag(_) => Err(Halt::Stuck),
        Kind::List(_) | Kind::Map(_, _) | Kind::Group(_) | Kind::Heap(_) => Err(Halt::Stuck),
    }
}
