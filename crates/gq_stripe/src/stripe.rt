// One stripe, and the effect of a batch on it.
ghost use Rattle.std.specs.Prelude.{◌<◌, OnOk, IsOk};
ghost use Rattle.gq_stripe.specs.Feeding.{CanFeed, CanFeedScalars, IsFed, CanLay, IsLaidOn};

use gq_base::{List, OutOfMemory};
use gq_nest::Content;
use gq_value::Input;
use std::alloc::Global;

/// The contents of a stripe's targets, and the number of batches that were laid there.
///
/// A batch that runs out of memory spoils its stripe: from then on nothing more is fed.
#[derive(Drop)]
pub(crate) struct Stripe {
    pub contents: List<Content>,
    pub laid: u64,
    pub spoiled: bool,
}

impl Stripe {
    /// Feeds a batch, and counts it. A spoiled stripe stays spoiled.
    pub fn lay(&mut self, alloc: Global, stripes: u32, batch: &[(u64, Input)])
        requires some { 0 < stripes }
        requires fits { CanLay stripes batch.now self.old }
        ensures { IsLaidOn stripes batch.now self.old self.new }
    {
        self.laid += 1;
        if self.spoiled {
            return;
        }
        match feed_all(alloc, &mut self.contents, stripes, batch) {
            Ok(()) => (),
            Err(OutOfMemory) => self.spoiled = true,
        }
    }
}

/// Feeds each target of the batch, whose place is the quotient. After `OutOfMemory` some may have been fed.
fn feed_all(
    alloc: Global,
    contents: &mut List<Content>,
    stripes: u32,
    batch: &[(u64, Input)],
) -> Result<(), OutOfMemory>
    requires some { 0 < stripes }
    requires fits { CanFeed stripes batch.now contents.old }
    ensures fed { OnOk result (IsFed stripes batch.now contents.old contents.new) }
    ensures scalars { CanFeedScalars stripes batch.now contents.old → IsOk result }
{
    for (target, input) in batch {
        let place = (*target / u64::from(stripes)) as usize;
        contents.at_mut(place).feed(alloc, input)?;
    }
    Ok(())
}
