// Searches through regions, wired places and frames, first to last.
ghost use Rattle.std.specs.Prelude.{◌≡◌};
ghost use Rattle.rules.specs.Lists.{first, place, any};
ghost use Rattle.rules.specs.Refusals.{covers, begins, overlaps, is_place, in_region, on_frame, free};

use rules::region::{Region, WiredPlace};

// Whether a region covers a page.
fn is_cover(region: &Region, space: u8, page: u32) -> bool
    ensures { result ≡ covers space page region.now }
{
    region.space == space
        && region.first <= page
        && u64::from(page) < u64::from(region.first) + u64::from(region.count)
}

// Whether a wired place is this one.
pub(crate) fn is_place(w: &WiredPlace, space: u8, page: u32) -> bool
    ensures { result ≡ is_place space page w.now }
{
    w.space == space && w.page == page
}

// The first region that covers a page.
pub fn find_cover(regions: &[Region], space: u8, page: u32) -> Option<Region>
    ensures { result ≡ first (covers space page) regions.now }
{
    regions
        .iter()
        .copied()
        .find(|region| is_cover(region, space, page))
}

// The position of the first region that begins at a page.
pub fn find_region(regions: &[Region], space: u8, page: u32) -> Option<usize>
    ensures { result ≡ place (begins space page) regions.now }
{
    regions
        .iter()
        .position(|region| region.space == space && region.first == page)
}

// Whether some region shares a page with `count` pages from `from` on.
pub fn any_overlap(regions: &[Region], space: u8, from: u32, count: u16) -> bool
    ensures { result ≡ any (overlaps space from count) regions.now }
{
    regions.iter().any(|region| {
        region.space == space
            && u64::from(region.first) < u64::from(from) + u64::from(count)
            && u64::from(from) < u64::from(region.first) + u64::from(region.count)
    })
}

// Whether some wired place lies in a region.
pub fn any_in_region(wired: &[WiredPlace], region: &Region) -> bool
    ensures { result ≡ any (in_region region.now) wired.now }
{
    wired.iter().any(|w| is_cover(region, w.space, w.page))
}

// The position of the first wired place that is this one.
pub fn find_wired(wired: &[WiredPlace], space: u8, page: u32) -> Option<usize>
    ensures { result ≡ place (is_place space page) wired.now }
{
    wired.iter().position(|w| is_place(w, space, page))
}

// Whether some place is wired to a frame.
pub fn any_on_frame(wired: &[WiredPlace], frame: u16) -> bool
    ensures { result ≡ any (on_frame frame) wired.now }
{
    wired.iter().any(|w| w.frame == frame)
}

// The position of the first frame that no place is wired to.
pub fn find_free(queue: &[u16], wired: &[WiredPlace]) -> Option<usize>
    ensures { result ≡ place (free wired.now) queue.now }
{
    queue.iter().position(|&f| !any_on_frame(wired, f))
}
