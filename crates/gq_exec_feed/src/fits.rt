// Checks sums for overflow.
ghost use Rattle.std.specs.Prelude.{◌≡◌, ℕ, ◌-◌, ◌≤◌, IfSome, drop, length, take};
ghost use Rattle.gq_rules_meaning.specs.Blocks.{first_unfit};
ghost use Rattle.gq_frame.specs.Slots.{slots_are};
ghost use Rattle.gq_exec_feed.specs.Feeding.{AreFed};
ghost use Rattle.gq_value.specs.AccumViews.{accum_of};
ghost use Rattle.gq_exec_feed.specs.Steps.{AllFit, AllFitAs, has_no_sum};

use gq_frame::{Accums, Pages};
use gq_value::Kind;
use std::alloc::Global;

/// The slot number of the first accumulator with a content out of range. Pages whose contents fit are sealed: later
/// copies share them, and their contents aren't checked again until they change.
#[tactic(auto, using(crate::proofs::FitLemmas::all_fit_none))]
pub fn first_unfit(alloc: Global, accums: &mut Accums) -> Option<usize>
    ensures same { accums.new ≡ accums.old }
    ensures unfit { (f : ℕ) → AreFed f accums.old → result ≡ first_unfit 0 (slots_are accums.old) }
{
    accums.contents.seal(alloc);
    if accums.contents.fit() {
        return None;
    }
    unfit_in(accums)
}

/// The slot number of the first accumulator with a content out of range, checking all slots.
#[tactic(auto, using(crate::proofs::FitLemmas::unfit_laws))]
fn unfit_in(accums: &Accums) -> Option<usize>
    ensures { (f : ℕ) → AreFed f accums.now → result ≡ first_unfit 0 (slots_are accums.now) }
{
    let mut start = 0;
    for (number, slot) in accums.slots.declared.as_slice().iter().enumerate() {
        let targets = accums.slots.targets(slot) as usize;
        let end = start + targets.min(accums.contents.len() - start);
        if !slot_fits(&slot.kind, &accums.contents, start, end) {
            return Some(number);
        }
        start = end;
    }
    None
}

/// A slot number in 32 bits.
pub fn slot_number(number: usize) -> Option<u32>
    ensures { IfSome result (λ slot. slot ≡ number) }
{
    if number > u32::MAX as usize {
        return None;
    }
    Some(number as u32)
}

/// Whether all contents of a slot fit. If its kind has no sum, none is checked.
#[tactic(auto, using(crate::proofs::FitLemmas::kind_laws))]
fn slot_fits(kind: &Kind, contents: &Pages, start: usize, end: usize) -> bool
    requires { end ≤ length contents.now }
    ensures { AllFitAs (accum_of kind.now) (take (end - start) (drop start contents.now)) result }
{
    if has_no_sum(kind) {
        return true;
    }
    all_fit(contents, start, end)
}

/// Whether contents of a kind always fit, because they have no sum and no average.
#[cycle(sums)]
#[tactic(auto, using(gq_value::proofs::AccumLemmas::accum_laws))]
fn has_no_sum(kind: &Kind) -> bool
    ensures { result ≡ has_no_sum (accum_of kind.now) }
{
    match kind {
        Kind::Min(_) | Kind::Max(_) | Kind::Or | Kind::And | Kind::BitOr | Kind::BitAnd => true,
        Kind::Set(_) | Kind::Bag(_) | Kind::List(_) | Kind::Heap(_) => true,
        Kind::Sum(_) | Kind::Avg => false,
        Kind::Map(_, inner) => has_no_sum(inner.get()),
        Kind::Group(_) => false,
    }
}

/// Whether the contents in `start..end` fit.
#[tactic(auto, using(crate::proofs::FitLemmas::fit_laws))]
fn all_fit(contents: &Pages, start: usize, end: usize) -> bool
    requires { end ≤ length contents.now }
    ensures { AllFit (take (end - start) (drop start contents.now)) result }
{
    for at in start..end {
        if !contents.at(at).fits() {
            return false;
        }
    }
    true
}
