// One page of contents.
ghost use Rattle.std.specs.Prelude.{◌≡◌, ◌<◌, ◌++◌, [], ◌∷◌, ◌≤◌, IfOk, OnOk, OnErr, length, slice_get, Some, true, false};
ghost use Rattle.gq_value.specs.AccumViews.{given};
ghost use Rattle.gq_value.specs.Views.{val};
ghost use Rattle.gq_nest.specs.Shows.{ShowsTheSame};
ghost use Rattle.gq_frame.specs.Targets.{ShowTheSame};
ghost use Rattle.gq_frame.specs.Pages.{AddsSame, AllFit, AllowsAt, AreHeld, ChangesAt, IsFullOf, IsKept, IsOwnCopy, IsWhole, Keeps, SealsContents, Shares, SharesContents, Takes, TakesInt, SetsTo, each_of, items_of, page_size};

use crate::ints::feed_content;
use crate::single;
use crate::single::{Single, copy_of};
use gq_base::{List, OutOfMemory};
use gq_nest::Content;
use gq_value::{Input, Value};
use std::alloc::Global;
use std::mem::replace;
use std::sync::Arc;

/// The number of contents in a full page.
pub(crate) const PAGE_SIZE: usize = 128;

/// A page of contents.
#[derive(Drop)]
pub(crate) enum Page {
    /// Contents that nothing else refers to.
    Own(List<Content>),

    /// Contents that copies share. The page is full, and each content fits.
    Shared(Arc<List<Content>>),

    /// Contents that copies share one by one.
    Loose(List<Single>),
}

/// The content of a page at an index. Doesn't allocate.
#[inline]
pub(crate) fn content(page: &Page, at: usize) -> &Content
    requires { at < length (items_of page.now) }
    ensures { slice_get (items_of page.now) at ≡ Some result.now }
{
    match page {
        Page::Own(_) | Page::Shared(_) => whole(page).at(at),
        Page::Loose(singles) => loose(singles, at),
    }
}

/// The contents of a page that aren't shared one by one.
#[inline]
fn whole(page: &Page) -> &List<Content>
    requires { IsWhole page.now }
    ensures { result.now ≡ items_of page.now }
{
    match page {
        Page::Own(items) => items,
        Page::Shared(items) => items,
        Page::Loose(_) => unreachable!(),
    }
}

/// The content at an index, of contents that are shared one by one. Few are, so this isn't inlined.
#[inline(never)]
fn loose(singles: &List<Single>, at: usize) -> &Content
    requires { at < length (each_of singles.now) }
    ensures { slice_get (each_of singles.now) at ≡ Some result.now }
{
    single::content(singles.at(at))
}

/// The number of contents of a page.
fn count(page: &Page) -> usize
    ensures { result ≡ length (items_of page.now) }
{
    match page {
        Page::Own(items) => items.len(),
        Page::Shared(items) => items.len(),
        Page::Loose(singles) => singles.len(),
    }
}

/// Whether a page has room for one more content.
pub(crate) fn has_room(page: &Page) -> bool
    ensures room { result ≡ true → length (items_of page.now) < page_size }
    ensures full { result ≡ false → page_size ≤ length (items_of page.now) }
{
    count(page) < PAGE_SIZE
}

/// Copies a page. What is shared, the page or a content by itself, is shared by the copy, too.
#[tactic(auto, using(crate::proofs::PageLemmas::own_laws))]
pub(crate) fn share(alloc: Global, page: &Page) -> Result<Page, OutOfMemory>
    ensures { IfOk result (Shares page.now) }
{
    match page {
        Page::Own(items) => Ok(Page::Own(copied(alloc, items.as_slice())?)),
        Page::Shared(items) => Ok(Page::Shared(Arc::try_clone(items)?)),
        Page::Loose(singles) => Ok(Page::Loose(share_each(alloc, singles.as_slice())?)),
    }
}

/// Copies contents one by one.
fn share_each(alloc: Global, singles: &[Single]) -> Result<List<Single>, OutOfMemory>
    ensures { IfOk result (SharesContents singles.now) }
{
    let mut copy = List::from_vec(Vec::with_capacity(alloc, singles.len())?);
    for single in singles {
        copy.push(single::share(alloc, single)?)?;
    }
    Ok(copy)
}

/// Lets copies share a page, if it is full and each content fits, or its contents one by one. If there is no memory, it
/// stays unshared.
pub(crate) fn seal(alloc: Global, page: &mut Page)
    ensures same { items_of page.new ≡ items_of page.old }
    ensures kept { IsKept page.old → IsKept page.new }
{
    let sealed = match replace(page, Page::Own(List::new(alloc))) {
        Page::Own(items) => sealed(alloc, items),
        Page::Shared(items) => Page::Shared(items),
        Page::Loose(mut singles) => {
            seal_each(alloc, &mut singles);
            Page::Loose(singles)
        }
    };
    *page = sealed;
}

/// Lets copies share contents one by one.
fn seal_each(alloc: Global, singles: &mut List<Single>)
    ensures { SealsContents singles.old singles.new }
{
    for at in 0..singles.len() {
        single::seal(alloc, singles.at_mut(at));
    }
}

/// A page with these contents, shared if it is full and each of them fits.
fn sealed(alloc: Global, items: List<Content>) -> Page
    ensures same { items_of result ≡ items }
    ensures kept { IsKept result }
{
    if items.len() != PAGE_SIZE || !all_fit(items.as_slice()) {
        return Page::Own(items);
    }
    match Arc::new(alloc, items) {
        Ok(shared) => Page::Shared(shared),
        Err(failed) => Page::Own(failed.value),
    }
}

/// Whether each content of a page fits. What is shared does.
pub(crate) fn fits(page: &Page) -> bool
    ensures { IsKept page.now → result ≡ true → AllFit (items_of page.now) }
{
    match page {
        Page::Own(items) => all_fit(items.as_slice()),
        Page::Shared(_) => true,
        Page::Loose(singles) => each_fits(singles.as_slice()),
    }
}

/// Whether each content fits. Shared ones do.
fn each_fits(singles: &[Single]) -> bool
    ensures { AreHeld singles.now → result ≡ true → AllFit (each_of singles.now) }
{
    for single in singles {
        if !single::fits(single) {
            return false;
        }
    }
    true
}

/// Whether each content fits.
fn all_fit(contents: &[Content]) -> bool
    ensures { result ≡ true → AllFit contents.now }
{
    for content in contents {
        if !content.fits() {
            return false;
        }
    }
    true
}

/// A full page of copies of `content`, which copies of the page share if they fit.
pub(crate) fn filled(alloc: Global, content: &Content) -> Result<Page, OutOfMemory>
    ensures { IfOk result (IsFullOf content.now) }
{
    let mut items = List::from_vec(Vec::with_capacity(alloc, PAGE_SIZE)?);
    for _ in 0..PAGE_SIZE {
        items.push(copy_of(alloc, content)?)?;
    }
    Ok(sealed(alloc, items))
}

/// Appends a content to a page with room for it.
pub(crate) fn push(page: &mut Page, content: Content) -> Result<(), OutOfMemory>
    requires room { length (items_of page.old) < page_size }
    requires kept { IsKept page.old }
    ensures ok { OnOk result (items_of page.new ≡ items_of page.old ++ content ∷ []) }
    ensures err { OnErr result (items_of page.new ≡ items_of page.old) }
    ensures kept { IsKept page.new }
{
    match page {
        Page::Own(items) => items.push(content),
        Page::Shared(_) => unreachable!(),
        Page::Loose(singles) => singles.push(Single::Own(content)),
    }
}

/// Feeds the content at an index.
#[tactic(auto, using(crate::proofs::PageLemmas::own_laws))]
pub(crate) fn feed(
    alloc: Global,
    page: &mut Page,
    at: usize,
    input: &Input,
) -> Result<(), OutOfMemory>
    requires { at < length (items_of page.old) }
    ensures takes { OnOk result (ChangesAt (Takes (given input.now)) at (items_of page.old) (items_of page.new)) }
    ensures keeps { Keeps page.old page.new }
{
    own(alloc, page)?;
    match page {
        Page::Own(items) => {
            items.at_mut(at).feed(alloc, input)?;
            Ok(())
        }
        Page::Shared(_) => unreachable!(),
        Page::Loose(singles) => single::feed(alloc, singles.at_mut(at), input),
    }
}

/// Feeds the content at an index with an INT.
#[tactic(auto, using(crate::proofs::PageLemmas::own_laws))]
pub(crate) fn feed_int(alloc: Global, page: &mut Page, at: usize, x: i64) -> Result<(), OutOfMemory>
    requires { at < length (items_of page.old) }
    ensures takes { OnOk result (ChangesAt (TakesInt x) at (items_of page.old) (items_of page.new)) }
    ensures keeps { Keeps page.old page.new }
{
    own(alloc, page)?;
    match page {
        Page::Own(items) => feed_content(alloc, items.at_mut(at), x),
        Page::Shared(_) => unreachable!(),
        Page::Loose(singles) => single::feed_int(alloc, singles.at_mut(at), x),
    }
}

/// Sets the content at an index to a value.
#[tactic(auto, using(crate::proofs::PageLemmas::own_laws))]
pub(crate) fn set(
    alloc: Global,
    page: &mut Page,
    at: usize,
    value: &Value,
) -> Result<(), OutOfMemory>
    requires index { at < length (items_of page.old) }
    requires allows { AllowsAt (val value.now) at (items_of page.old) }
    ensures takes { OnOk result (ChangesAt (SetsTo (val value.now)) at (items_of page.old) (items_of page.new)) }
    ensures keeps { Keeps page.old page.new }
{
    own(alloc, page)?;
    match page {
        Page::Own(items) => {
            items.at_mut(at).set(value);
            Ok(())
        }
        Page::Shared(_) => unreachable!(),
        Page::Loose(singles) => single::set(alloc, singles.at_mut(at), value),
    }
}

/// Makes sure that a page isn't shared as a whole. A shared page is copied, unless this is its last owner.
#[inline]
#[tactic(auto, using(crate::proofs::PageLemmas::own_laws))]
fn own(alloc: Global, page: &mut Page) -> Result<(), OutOfMemory>
    ensures ok { OnOk result (IsOwnCopy page.old page.new) }
    ensures err { OnErr result (page.new ≡ page.old) }
{
    match page {
        Page::Own(_) | Page::Loose(_) => Ok(()),
        Page::Shared(_) => take_over(alloc, page),
    }
}

/// Does so for a shared page. On `OutOfMemory` it stays shared.
#[inline(never)]
#[tactic(auto, using(crate::proofs::PageLemmas::own_laws))]
fn take_over(alloc: Global, page: &mut Page) -> Result<(), OutOfMemory>
    ensures ok { OnOk result (IsOwnCopy page.old page.new) }
    ensures err { OnErr result (page.new ≡ page.old) }
{
    match replace(page, Page::Own(List::new(alloc))) {
        Page::Own(items) => {
            *page = Page::Own(items);
            Ok(())
        }
        Page::Loose(singles) => {
            *page = Page::Loose(singles);
            Ok(())
        }
        Page::Shared(items) => match Arc::try_unwrap(items) {
            Ok(items) => {
                *page = Page::Own(items);
                Ok(())
            }
            Err(shared) => match copied(alloc, shared.as_slice()) {
                Ok(items) => {
                    *page = Page::Own(items);
                    Ok(())
                }
                Err(OutOfMemory) => {
                    *page = Page::Shared(shared);
                    Err(OutOfMemory)
                }
            },
        },
    }
}

/// Copies contents. Returns `OutOfMemory` if one is spoiled, too.
fn copied(alloc: Global, contents: &[Content]) -> Result<List<Content>, OutOfMemory>
    ensures { IfOk result (ShowTheSame contents.now) }
{
    let mut copy = List::from_vec(Vec::with_capacity(alloc, contents.len())?);
    for content in contents {
        push_copy(alloc, &mut copy, content)?;
    }
    Ok(copy)
}

/// Appends a copy of a content. A number or truth value goes from its place to its new one at once.
#[inline]
#[tactic(auto, using(crate::proofs::OpenSteps::shows_itself, crate::proofs::PageLemmas::adds_same))]
fn push_copy(alloc: Global, copy: &mut List<Content>, content: &Content) -> Result<(), OutOfMemory>
    ensures { OnOk result (AddsSame content.now copy.old copy.new) }
{
    match content {
        Content::Scalar(scalar) => copy.push(Content::Scalar(*scalar)),
        _ => copy.push(content.duplicate(alloc)?),
    }
}
