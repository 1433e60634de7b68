// What the tables answer.
ghost use Rattle.std.specs.Prelude.{◌≡◌, ◌<◌, None, vec_len, slice_index, slice_index_or};
ghost use Rattle.rules.specs.Lists.{place, any};
ghost use Rattle.rules.specs.State.{page_in};
ghost use Rattle.rules.specs.Refusals.{begins, overlaps as overlapping, is_place, in_region, on_frame, free, cover as covering};

use crate::searches::{
    any_in_region, any_on_frame, any_overlap, find_cover, find_free, find_region, find_wired,
    is_place,
};
use crate::table::Tables;
use rules::region::Region;

// The object page that a page of a region stands for.
pub fn object_page(region: &Region, page: u32) -> usize
    ensures { result ≡ page_in region.now page }
{
    256 * usize::from(region.object)
        + usize::from(region.offset)
        + page.saturating_sub(region.first) as usize
}

impl Tables {
    // The region that covers a page.
    pub fn cover(&self, space: u8, page: u32) -> Option<Region>
        ensures { result ≡ covering self.now.regions.items space page }
    {
        find_cover(&self.regions, space, page)
    }

    // The position of the region that begins at a page.
    pub fn region_at(&self, space: u8, page: u32) -> Option<usize>
        ensures { result ≡ place (begins space page) self.now.regions.items }
    {
        find_region(&self.regions, space, page)
    }

    // Whether some region shares a page with `count` pages from `from` on.
    pub fn overlaps(&self, space: u8, from: u32, count: u16) -> bool
        ensures { result ≡ any (overlapping space from count) self.now.regions.items }
    {
        any_overlap(&self.regions, space, from, count)
    }

    // Whether some wired place lies in a region.
    pub fn has_wired(&self, region: &Region) -> bool
        ensures { result ≡ any (in_region region.now) self.now.wired.items }
    {
        any_in_region(&self.wired, region)
    }

    pub fn is_wired(&self, space: u8, page: u32) -> bool
        ensures { result ≡ any (is_place space page) self.now.wired.items }
    {
        self.wired.iter().any(|w| is_place(w, space, page))
    }

    // Where a place stands in the wired ones.
    pub fn wired_at(&self, space: u8, page: u32) -> Option<usize>
        ensures { result ≡ place (is_place space page) self.now.wired.items }
    {
        find_wired(&self.wired, space, page)
    }

    // Whether some place is wired to a frame.
    pub fn frame_wired(&self, frame: u16) -> bool
        ensures { result ≡ any (on_frame frame) self.now.wired.items }
    {
        any_on_frame(&self.wired, frame)
    }

    // The position in the queue of the frame whose page goes.
    pub fn victim(&self) -> Option<usize>
        ensures { result ≡ place (free self.now.wired.items) self.now.queue.items }
    {
        find_free(&self.queue, &self.wired)
    }

    // The frame of object page x.
    pub fn frame_of(&self, x: usize) -> Option<u16>
        requires { x < 2048 }
        ensures { result ≡ slice_index_or self.now.lies.items x None }
    {
        self.lies[x]
    }

    // The object page that was loaded into a frame last.
    pub fn owner(&self, frame: u16) -> u16
        requires { frame < 256 }
        ensures { result ≡ slice_index self.now.owners.items frame }
    {
        self.owners[usize::from(frame)]
    }

    // The frame at a position of the queue.
    pub fn queued(&self, at: usize) -> u16
        requires { at < vec_len self.now.queue }
        ensures { result ≡ slice_index self.now.queue.items at }
    {
        self.queue[at]
    }

    pub fn word(&self, frame: u16) -> u32
        requires { frame < 256 }
        ensures { result ≡ slice_index self.now.words.items frame }
    {
        self.words[usize::from(frame)]
    }
}
