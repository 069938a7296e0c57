// Many contents that are alike.
ghost use Rattle.std.specs.Prelude.{OnOk};
ghost use Rattle.gq_frame.specs.Pages.{Fills, IsFullOf};

use crate::page;
use crate::page::{PAGE_SIZE, Page};
use crate::pages::Pages;
use crate::single::copy_of;
use gq_base::OutOfMemory;
use gq_nest::Content;
use std::alloc::Global;

impl Pages {
    /// Appends `count` copies of `content`. Full pages of them share their contents until one changes, so that they take
    /// almost no memory.
    pub fn fill(&mut self, alloc: Global, content: &Content, count: u32) -> Result<(), OutOfMemory>
        ensures { OnOk result (Fills content.now count self.old self.new) }
    {
        let count = count as usize;
        if count < PAGE_SIZE {
            return fill_each(alloc, content, count, self);
        }
        let page = page::filled(alloc, content)?;
        fill_by(alloc, content, &page, count, self)
    }
}

/// Appends copies of a content, by full pages where the last page has no room.
fn fill_by(
    alloc: Global,
    content: &Content,
    page: &Page,
    count: usize,
    contents: &mut Pages,
) -> Result<(), OutOfMemory>
    requires { IsFullOf content.now page.now }
    ensures { OnOk result (Fills content.now count contents.old contents.new) }
{
    let mut left = count;
    while left >= PAGE_SIZE {
        if contents.push_page(alloc, page)? {
            left -= PAGE_SIZE;
        } else {
            contents.push(alloc, copy_of(alloc, content)?)?;
            left -= 1;
        }
    }
    fill_each(alloc, content, left, contents)
}

/// Appends copies of a content one by one.
fn fill_each(
    alloc: Global,
    content: &Content,
    count: usize,
    contents: &mut Pages,
) -> Result<(), OutOfMemory>
    ensures { OnOk result (Fills content.now count contents.old contents.new) }
{
    for _copy in 0..count {
        contents.push(alloc, copy_of(alloc, content)?)?;
    }
    Ok(())
}
