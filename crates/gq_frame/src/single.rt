// A content that copies share by itself.
ghost use Rattle.std.specs.Prelude.{◌≡◌, IfOk, OnOk, OnErr, true};
ghost use Rattle.gq_value.specs.AccumViews.{given};
ghost use Rattle.gq_value.specs.Views.{val};
ghost use Rattle.gq_accum_laws.specs.Fits.{fits};
ghost use Rattle.gq_nest.specs.Shows.{ShowsTheSame};
ghost use Rattle.gq_nest.specs.Tells.{CanBeSet, Tells};
ghost use Rattle.gq_frame.specs.Pages.{Becomes, IsHeld, IsOwnContent, SetsTo, SharesContent, Takes, TakesInt, content_of};

use crate::ints::feed_content;
use gq_base::OutOfMemory;
use gq_nest::Content;
use gq_value::{Input, Value};
use std::alloc::Global;
use std::mem::replace;
use std::sync::Arc;

/// A content by itself.
#[derive(Drop)]
pub(crate) enum Single {
    /// A content that nothing else refers to.
    Own(Content),

    /// A content that copies share. It fits.
    Shared(Arc<Content>),
}

/// The content. Doesn't allocate.
pub(crate) fn content(single: &Single) -> &Content
    ensures { result.now ≡ content_of single.now }
{
    match single {
        Single::Own(content) => content,
        Single::Shared(content) => content,
    }
}

/// Copies a content. The copy of a shared one shares it.
pub(crate) fn share(alloc: Global, single: &Single) -> Result<Single, OutOfMemory>
    ensures { IfOk result (SharesContent single.now) }
{
    match single {
        Single::Own(content) => Ok(Single::Own(copy_of(alloc, content)?)),
        Single::Shared(content) => Ok(Single::Shared(Arc::try_clone(content)?)),
    }
}

/// Lets copies share a content that fits. A number or truth value is as quickly copied, and stays unshared, as does any
/// other if there is no memory.
pub(crate) fn seal(alloc: Global, single: &mut Single)
    ensures same { content_of single.new ≡ content_of single.old }
    ensures held { IsHeld single.old → IsHeld single.new }
{
    match single {
        Single::Own(Content::Scalar(_)) | Single::Shared(_) => {}
        Single::Own(_) => seal_own(alloc, single),
    }
}

/// Does so for any content.
fn seal_own(alloc: Global, single: &mut Single)
    ensures same { content_of single.new ≡ content_of single.old }
    ensures held { IsHeld single.old → IsHeld single.new }
{
    let sealed = match replace(single, Single::Own(Content::Spoiled)) {
        Single::Own(content) => sealed(alloc, content),
        Single::Shared(content) => Single::Shared(content),
    };
    *single = sealed;
}

/// This content, shared if it fits.
fn sealed(alloc: Global, content: Content) -> Single
    ensures same { content_of result ≡ content }
    ensures held { IsHeld result }
{
    if !content.fits() {
        return Single::Own(content);
    }
    match Arc::new(alloc, content) {
        Ok(shared) => Single::Shared(shared),
        Err(failed) => Single::Own(failed.value),
    }
}

/// Whether a content fits. A shared one does.
pub(crate) fn fits(single: &Single) -> bool
    ensures { IsHeld single.now → result ≡ true → Tells (content_of single.now) true fits }
{
    match single {
        Single::Own(content) => content.fits(),
        Single::Shared(_) => true,
    }
}

/// Feeds a content.
pub(crate) fn feed(alloc: Global, single: &mut Single, input: &Input) -> Result<(), OutOfMemory>
    ensures takes { OnOk result (Becomes (Takes (given input.now)) single.old single.new) }
    ensures held { IsHeld single.old → IsHeld single.new }
{
    own(alloc, single)?;
    match single {
        Single::Own(content) => {
            content.feed(alloc, input)?;
            Ok(())
        }
        Single::Shared(_) => unreachable!(),
    }
}

/// Feeds a content with an INT.
pub(crate) fn feed_int(alloc: Global, single: &mut Single, x: i64) -> Result<(), OutOfMemory>
    ensures takes { OnOk result (Becomes (TakesInt x) single.old single.new) }
    ensures held { IsHeld single.old → IsHeld single.new }
{
    own(alloc, single)?;
    match single {
        Single::Own(content) => feed_content(alloc, content, x),
        Single::Shared(_) => unreachable!(),
    }
}

/// Sets a content to a value.
pub(crate) fn set(alloc: Global, single: &mut Single, value: &Value) -> Result<(), OutOfMemory>
    requires { CanBeSet (content_of single.old) (val value.now) }
    ensures takes { OnOk result (Becomes (SetsTo (val value.now)) single.old single.new) }
    ensures held { IsHeld single.old → IsHeld single.new }
{
    own(alloc, single)?;
    match single {
        Single::Own(content) => {
            content.set(value);
            Ok(())
        }
        Single::Shared(_) => unreachable!(),
    }
}

/// Makes sure that nothing else refers to a content. A shared one is copied, unless this is its last owner.
#[inline]
fn own(alloc: Global, single: &mut Single) -> Result<(), OutOfMemory>
    ensures ok { OnOk result (IsOwnContent single.old single.new) }
    ensures err { OnErr result (single.new ≡ single.old) }
{
    match single {
        Single::Own(_) => Ok(()),
        Single::Shared(_) => take_over(alloc, single),
    }
}

/// Does so for a shared content. On `OutOfMemory` it stays shared.
#[inline(never)]
fn take_over(alloc: Global, single: &mut Single) -> Result<(), OutOfMemory>
    ensures ok { OnOk result (IsOwnContent single.old single.new) }
    ensures err { OnErr result (single.new ≡ single.old) }
{
    match replace(single, Single::Own(Content::Spoiled)) {
        Single::Own(content) => {
            *single = Single::Own(content);
            Ok(())
        }
        Single::Shared(content) => match Arc::try_unwrap(content) {
            Ok(content) => {
                *single = Single::Own(content);
                Ok(())
            }
            Err(shared) => match copy_of(alloc, &shared) {
                Ok(content) => {
                    *single = Single::Own(content);
                    Ok(())
                }
                Err(OutOfMemory) => {
                    *single = Single::Shared(shared);
                    Err(OutOfMemory)
                }
            },
        },
    }
}

/// Copies a content. Most are one number or truth value, and these are copied without a call.
#[tactic(auto, using(crate::proofs::OpenSteps::shows_itself))]
pub(crate) fn copy_of(alloc: Global, content: &Content) -> Result<Content, OutOfMemory>
    ensures { IfOk result (ShowsTheSame content.now) }
{
    match content {
        Content::Scalar(scalar) => Ok(Content::Scalar(*scalar)),
        _ => content.duplicate(alloc),
    }
}
