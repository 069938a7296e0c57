// Applies changes to accumulators.
ghost use Rattle.std.specs.Prelude.{◌≡◌, ◌<◌, IfOk, IfSome, OnOk, Some, length, slice_get, true, false};
ghost use Rattle.gq_value.specs.AccumViews.{accum_of};
ghost use Rattle.gq_nest.specs.declared.content.Content as content;
ghost use Rattle.gq_nest.specs.Tells.{is_settable};
ghost use Rattle.gq_frame.specs.Targets.{number_of};
ghost use Rattle.gq_frame.specs.Slots.{AreSound};
ghost use Rattle.gq_exec_post.specs.Changing.{CanTake, Changed, ChangesOne, MayChange, MaySuit};

use crate::judging::still_fits;
use crate::making::Made;
use gq_base::OutOfMemory;
use gq_exec_feed::{needed, suits, takes};
use gq_frame::{Accums, Slots};
use gq_value::Kind;
use std::alloc::Global;

/// Why a change failed.
#[derive(Clone, Copy, Debug, PartialEq, Eq)]
pub enum ChangeFault {
    /// A sum is out of range.
    TooBig,
    OutOfMemory,
}

/// Changes the accumulator of a slot at a vertex, which is 0 for a global one, and checks the changed part of its
/// content. After a fault that content is unspecified. The change has a target that takes it.
#[tactic(auto, using(crate::proofs::ChangeLemmas::change_laws))]
pub fn change_at(
    alloc: Global,
    accums: &mut Accums,
    slot: u32,
    vertex: u32,
    made: &Made,
) -> Result<(), ChangeFault>
    requires { AreSound accums.old }
    ensures ok { OnOk result (Changed made.now accums.old accums.new slot vertex true) }
    ensures too_big { result ≡ Err ChangeFault.TooBig → Changed made.now accums.old accums.new slot vertex false }
{
    match place(&accums.slots, slot, vertex, made) {
        Err(_) => Err(ChangeFault::OutOfMemory),
        Ok(target) => {
            // A content that isn't there stays so.
            if target >= accums.contents.len() as u64 {
                return Ok(());
            }
            match put_in(alloc, accums, target, made) {
                Err(_) => Err(ChangeFault::OutOfMemory),
                Ok(true) => Ok(()),
                Ok(false) => Err(ChangeFault::TooBig),
            }
        }
    }
}

/// The number of the target, whose kind takes the change.
fn place(slots: &Slots, slot: u32, vertex: u32, made: &Made) -> Result<u64, OutOfMemory>
    ensures { IfOk result (λ target. (target ≡ number_of slots.now slot vertex) × MayChange slots.now slot vertex made.now) }
{
    needed(found(slots, slot, vertex, made))
}

/// The number of the target, if it exists and its kind takes the change.
fn found(slots: &Slots, slot: u32, vertex: u32, made: &Made) -> Option<u64>
    ensures { IfSome result (λ target. (target ≡ number_of slots.now slot vertex) × MayChange slots.now slot vertex made.now) }
{
    match slots.declared.get(slot as usize) {
        None => None,
        Some(declared) => {
            if vertex < slots.targets(declared) && may_suit(&declared.kind, made) {
                Some(slots.target(slot, vertex))
            } else {
                None
            }
        }
    }
}

/// Whether a kind takes the change.
fn may_suit(kind: &Kind, made: &Made) -> bool
    ensures { result ≡ true → MaySuit (accum_of kind.now) made.now }
{
    match made {
        Made::Input(input) => suits(input, kind),
        Made::Value(value) => is_settable(kind) && takes(value, kind),
    }
}

/// Whether accumulators of a kind can be set by `=`.
#[tactic(auto, using(gq_value::proofs::AccumLemmas::accum_laws))]
fn is_settable(kind: &Kind) -> bool
    ensures { result ≡ is_settable (accum_of kind.now) }
{
    match kind {
        Kind::Sum(_) | Kind::Min(_) | Kind::Max(_) | Kind::Or | Kind::And => true,
        Kind::BitOr | Kind::BitAnd => true,
        Kind::Avg => false,
        Kind::Set(_) | Kind::Bag(_) | Kind::List(_) => false,
        Kind::Map(_, _) | Kind::Group(_) | Kind::Heap(_) => false,
    }
}

/// Applies the change to a target, and returns whether the changed part fits.
#[tactic(auto, using(crate::proofs::ChangeLemmas::put_laws))]
fn put_in(alloc: Global, accums: &mut Accums, target: u64, made: &Made) -> Result<bool, OutOfMemory>
    requires there { target < length accums.old.contents }
    requires takes { (c : content.Content) → slice_get accums.old.contents target ≡ Some c → CanTake made.now c }
    ensures { IfOk result (ChangesOne made.now accums.old accums.new target) }
{
    match made {
        Made::Input(input) => {
            accums.contents.feed(alloc, target as usize, input)?;
            Ok(still_fits(input, accums.at(target)))
        }
        Made::Value(value) => {
            accums.contents.set(alloc, target as usize, value)?;
            Ok(accums.at(target).fits())
        }
    }
}
