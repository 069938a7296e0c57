// The contents of all targets, in pages.
ghost use Rattle.std.specs.Prelude.{◌≡◌, ◌<◌, ◌++◌, [], ◌∷◌, IfOk, OnOk, OnErr, length, false, slice_get, Some, true};
ghost use Rattle.std.specs.Option.{option_copied};
ghost use Rattle.gq_value.specs.AccumViews.{given};
ghost use Rattle.gq_value.specs.Views.{val};
ghost use Rattle.gq_frame.specs.Targets.{ShowTheSame};
ghost use Rattle.gq_frame.specs.Pages.{AllFit, AllowsAt, AddsCopy, ArePages, ChangesAt, IsFull, IsFullPage, PushesPage, SealEach, ShareEach, SetsTo, Takes, TakesInt, contents_of};

use crate::page;
use crate::page::{PAGE_SIZE, Page};
use crate::single::Single;
use gq_base::{List, OutOfMemory, within};
use gq_nest::Content;
use gq_value::{Input, Value};
use std::alloc::Global;
use std::marker::Model;

/// The contents of all targets in order of their numbers. Contracts see their list.
///
/// They are stored in pages. A copy shares the full pages of alike contents as wholes, and other contents one by one, if
/// they fit. What is shared is copied only when it changes, a page with all its contents. So a copy costs what is changed
/// in it.
#[derive(Drop)]
pub struct Pages {
    pages: List<Page>,
    len: usize,
}

impl Model for Pages {
    ghost use Rattle.std.specs.Prelude.{◌≡◌, List, length};
    ghost use Rattle.std.specs.Coded.{coded_list};
    ghost use Rattle.gq_nest.specs.declared.content.Content.{Content};
    ghost use Rattle.gq_nest.specs.contracts.content.Content as content;
    ghost use Rattle.gq_frame.specs.Pages.{ArePages, contents_of};

    ghost Value = { List Content };

    ghost coded = { coded_list content.the_row.coded };

    ghost view = { λ p. contents_of p.pages };

    ghost invariant = { λ p. ArePages p.pages × (p.len ≡ length (contents_of p.pages)) };
}

impl Pages {
    /// No contents. Doesn't allocate.
    pub fn new(alloc: Global) -> Pages
        ensures { result ≡ [] }
    {
        Pages {
            pages: List::new(alloc),
            len: 0,
        }
    }

    /// The number of contents.
    pub fn len(&self) -> usize
        ensures { result ≡ length self.now }
    {
        self.len
    }

    /// The content at an index. Doesn't allocate.
    #[inline]
    pub fn at(&self, at: usize) -> &Content
        requires { at < length self.now }
        ensures { slice_get self.now at ≡ Some result.now }
    {
        page::content(self.pages.at(at / PAGE_SIZE), at % PAGE_SIZE)
    }

    /// The content at an index, if there is one. Doesn't allocate.
    #[inline]
    pub fn get(&self, at: usize) -> Option<&Content>
        ensures { slice_get self.now at ≡ option_copied result }
    {
        if at < self.len() {
            Some(self.at(at))
        } else {
            None
        }
    }

    /// Appends a content. On `OutOfMemory` nothing changes.
    pub fn push(&mut self, alloc: Global, content: Content) -> Result<(), OutOfMemory>
        ensures ok { OnOk result (self.new ≡ self.old ++ content ∷ []) }
        ensures err { OnErr result (self.new ≡ self.old) }
    {
        within(self.len, usize::MAX - 1)?;
        push_last(alloc, &mut self.pages, content)?;
        self.len += 1;
        Ok(())
    }

    /// Appends a copy of a full page, or returns false if the last page has room. On `OutOfMemory` nothing changes.
    pub(crate) fn push_page(&mut self, alloc: Global, page: &Page) -> Result<bool, OutOfMemory>
        requires { IsFullPage page.now }
        ensures pushes { IfOk result (λ pushed. PushesPage page.now pushed self.old self.new) }
        ensures err { OnErr result (self.new ≡ self.old) }
    {
        within(self.len, usize::MAX - PAGE_SIZE)?;
        if has_room(self.pages.as_slice()) {
            return Ok(false);
        }
        push_copy(alloc, &mut self.pages, page)?;
        self.len += PAGE_SIZE;
        Ok(true)
    }

    /// Feeds the content at an index. On `OutOfMemory` it may be spoiled.
    pub fn feed(&mut self, alloc: Global, at: usize, input: &Input) -> Result<(), OutOfMemory>
        requires { at < length self.old }
        ensures { OnOk result (ChangesAt (Takes (given input.now)) at self.old self.new) }
    {
        page::feed(
            alloc,
            self.pages.at_mut(at / PAGE_SIZE),
            at % PAGE_SIZE,
            input,
        )
    }

    /// Feeds the content at an index with an INT. On `OutOfMemory` it may be spoiled.
    pub fn feed_int(&mut self, alloc: Global, at: usize, x: i64) -> Result<(), OutOfMemory>
        requires { at < length self.old }
        ensures { OnOk result (ChangesAt (TakesInt x) at self.old self.new) }
    {
        page::feed_int(alloc, self.pages.at_mut(at / PAGE_SIZE), at % PAGE_SIZE, x)
    }

    /// Sets the content at an index to a value.
    pub fn set(&mut self, alloc: Global, at: usize, value: &Value) -> Result<(), OutOfMemory>
        requires index { at < length self.old }
        requires allows { AllowsAt (val value.now) at self.old }
        ensures { OnOk result (ChangesAt (SetsTo (val value.now)) at self.old self.new) }
    {
        page::set(
            alloc,
            self.pages.at_mut(at / PAGE_SIZE),
            at % PAGE_SIZE,
            value,
        )
    }

    /// Copies the contents; what is sealed is shared. Returns `OutOfMemory` if a content is spoiled, too.
    pub fn share(&self, alloc: Global) -> Result<Pages, OutOfMemory>
        ensures { IfOk result (ShowTheSame self.now) }
    {
        Ok(Pages {
            pages: share_all(alloc, self.pages.as_slice())?,
            len: self.len,
        })
    }

    /// Lets copies share each full page whose contents fit, and contents that fit one by one. If there is no memory, they
    /// stay unshared.
    pub fn seal(&mut self, alloc: Global)
        ensures { self.new ≡ self.old }
    {
        seal_all(alloc, &mut self.pages);
    }

    /// Whether each content fits. What is sealed does, and isn't looked at. Doesn't allocate.
    pub fn fit(&self) -> bool
        ensures { result ≡ true → AllFit self.now }
    {
        all_fit(self.pages.as_slice())
    }
}

/// Appends a content to the last page, or to a new one if there is no room.
fn push_last(alloc: Global, pages: &mut List<Page>, content: Content) -> Result<(), OutOfMemory>
    requires { ArePages pages.old }
    ensures ok { OnOk result (contents_of pages.new ≡ contents_of pages.old ++ content ∷ []) }
    ensures err { OnErr result (contents_of pages.new ≡ contents_of pages.old) }
    ensures pages { ArePages pages.new }
{
    let count = pages.len();
    if count == 0 {
        return push_new(alloc, pages, content);
    }
    if page::has_room(pages.at(count - 1)) {
        return page::push(pages.at_mut(count - 1), content);
    }
    push_new(alloc, pages, content)
}

/// Appends a page with one content. Copies share the contents of such a page one by one: those of global accumulators are
/// among them, which may hold much. Pages after the first are allocated in full; few accumulators need less.
fn push_new(alloc: Global, pages: &mut List<Page>, content: Content) -> Result<(), OutOfMemory>
    requires pages { ArePages pages.old }
    requires full { IsFull pages.old }
    ensures ok { OnOk result (contents_of pages.new ≡ contents_of pages.old ++ content ∷ []) }
    ensures err { OnErr result (contents_of pages.new ≡ contents_of pages.old) }
    ensures pages { ArePages pages.new }
{
    let room = if pages.len() == 0 { 1 } else { PAGE_SIZE };
    let mut items = List::from_vec(Vec::with_capacity(alloc, room)?);
    items.push(Single::Own(content))?;
    pages.push(Page::Loose(items))
}

/// Whether the last page has room for one more content.
fn has_room(pages: &[Page]) -> bool
    ensures { result ≡ false → IsFull pages.now }
{
    match pages.last() {
        Some(page) => page::has_room(page),
        None => false,
    }
}

/// Appends a copy of a full page.
fn push_copy(alloc: Global, pages: &mut List<Page>, page: &Page) -> Result<(), OutOfMemory>
    requires pages { ArePages pages.old }
    requires full { IsFull pages.old }
    requires page { IsFullPage page.now }
    ensures ok { OnOk result (AddsCopy page.now pages.old pages.new) }
    ensures err { OnErr result (contents_of pages.new ≡ contents_of pages.old) }
    ensures pages { ArePages pages.new }
{
    let copy = page::share(alloc, page)?;
    pages.push(copy)
}

/// Copies pages.
fn share_all(alloc: Global, pages: &[Page]) -> Result<List<Page>, OutOfMemory>
    ensures { IfOk result (ShareEach pages.now) }
{
    let mut copy = List::from_vec(Vec::with_capacity(alloc, pages.len())?);
    for page in pages {
        copy.push(page::share(alloc, page)?)?;
    }
    Ok(copy)
}

/// Seals each page.
fn seal_all(alloc: Global, pages: &mut List<Page>)
    ensures { SealEach pages.old pages.new }
{
    for at in 0..pages.len() {
        page::seal(alloc, pages.at_mut(at));
    }
}

/// Whether each content of each page fits.
fn all_fit(pages: &[Page]) -> bool
    ensures { ArePages pages.now → result ≡ true → AllFit (contents_of pages.now) }
{
    for page in pages {
        if !page::fits(page) {
            return false;
        }
    }
    true
}
