// The accumulators of a query.
ghost use Rattle.std.specs.Prelude.{◌≡◌, ◌<◌, length, slice_get, Some, IfOk};
ghost use Rattle.gq_frame.specs.Targets.{AreOpen, ShowTheSame};

use crate::pages::Pages;
use crate::slots::Slots;
use gq_base::OutOfMemory;
use gq_nest::Content;
use std::alloc::Global;

/// The accumulators of a query, with a content for each target, in order of their numbers.
#[derive(Drop)]
pub struct Accums {
    pub slots: Slots,
    pub contents: Pages,
}

impl Accums {
    /// Opens the accumulators: each target gets the content that its kind begins with.
    pub fn open(alloc: Global, slots: &Slots) -> Result<Accums, OutOfMemory>
        ensures slots { IfOk result (λ a. a.slots ≡ slots.now) }
        ensures open { IfOk result (λ a. AreOpen slots.now a.contents) }
    {
        Ok(Accums {
            slots: slots.duplicate(alloc)?,
            contents: opened(alloc, slots)?,
        })
    }

    /// The slots that it was opened with. Doesn't allocate.
    pub fn slots(&self) -> &Slots
        ensures { result.now ≡ self.now.slots }
    {
        &self.slots
    }

    /// The content at a target. Doesn't allocate.
    pub fn at(&self, target: u64) -> &Content
        requires { target < length self.now.contents }
        ensures { slice_get self.now.contents target ≡ Some result.now }
    {
        self.contents.at(target as usize)
    }

    /// Copies the accumulators. What is sealed is shared, a page or a content at one step; the rest is copied. Returns
    /// `OutOfMemory` if a content is spoiled, too.
    pub fn share(&self, alloc: Global) -> Result<Accums, OutOfMemory>
        ensures slots { IfOk result (λ copy. copy.slots ≡ self.now.slots) }
        ensures same { IfOk result (λ copy. ShowTheSame self.now.contents copy.contents) }
    {
        Ok(Accums {
            slots: self.slots.duplicate(alloc)?,
            contents: self.contents.share(alloc)?,
        })
    }
}

/// Returns the content that its kind begins with, for each target.
fn opened(alloc: Global, slots: &Slots) -> Result<Pages, OutOfMemory>
    ensures { IfOk result (AreOpen slots.now) }
{
    let mut contents = Pages::new(alloc);
    for slot in slots.declared.as_slice() {
        for _ in 0..slots.targets(slot) {
            contents.push(alloc, Content::fresh(alloc, &slot.kind)?)?;
        }
    }
    Ok(contents)
}

// A million vertices have a million contents of each attached accumulator.
const _: () = prove!(size_of::<Content>() <= 48);
