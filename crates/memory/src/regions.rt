// Regions: map, unmap and protect.
ghost use Rattle.std.specs.Prelude.{◌≡◌, true, ◌&&◌, is_ok, Some, MatchResult};
ghost use Rattle.pmap.specs.Ranges.{fits_place, fits_protection};
ghost use Rattle.calls.specs.declared.Call.TheVariants.{Map, Unmap, Protect};
ghost use Rattle.rules.specs.Lists.{first as first_of};
ghost use Rattle.rules.specs.Refusals.{begins, fits_map, region_refusal};
ghost use Rattle.rules.specs.Good.{RegionFits};
ghost use Rattle.memory_meaning.specs.Replies.{done_reply, FreeAt, Restricts};
ghost use Rattle.memory.specs.Whole.{state, Serving};

use crate::memory::Memory;
use crate::parts::Parts;
use memory_meaning::pages::{lower_pages, remove_pages};
use pmap::interface::Pmap;
use pmap::range::{PAGES, fits_place};
use refusal::memory::MemoryRefusal;
use refusal::pmap::PmapRefusal;
use rules::region::Region;

// The calls test their ranges and make no `Place` by a `?`, which would give the pmap's refusal and not the memory's.

// Whether the numbers of a map are all in range.
fn fits_map(region: Region) -> bool
    ensures { result ≡ fits_map region.space region.first region.count region.object region.offset region.protection }
{
    fits_protect(region.space, region.first, region.protection)
        && region.object < 8
        && 0 < region.count
        && u32::from(region.count) <= PAGES - region.first
        && region.count <= 256 - u16::from(region.offset)
}

// Whether the numbers of a protect are all in range.
fn fits_protect(space: u8, page: u32, protection: u8) -> bool
    ensures { result ≡ (fits_place space page && fits_protection protection) }
{
    fits_place(space, page) && (protection == 1 || protection == 3)
}

// Lowers the mappings of a region's pages if its protection becomes 1.
fn restrict_region<P: Pmap>(
    pmap: &mut P,
    region: &Region,
    protection: u8,
) -> Result<(), PmapRefusal>
    requires { (P.kept pmap.old) × (RegionFits region.now) }
    ensures passes { is_ok result ≡ true }
    ensures restricted { Restricts (P.view pmap.old) (P.view pmap.new) region.now protection }
    ensures kept { P.kept pmap.new }
{
    if protection != 1 {
        return Ok(());
    }
    lower_pages(pmap, region.space, region.first, region.count)
}

impl<P: Pmap> Parts<P> {
    // The position of the region that begins at a page, if it has no wired place.
    fn region_free(&self, space: u8, page: u32) -> Result<usize, MemoryRefusal>
        ensures { MatchResult result (λ at. FreeAt (state P.view self.now) space page at) (λ e. region_refusal (state P.view self.now) (first_of (begins space page) (state P.view self.now).regions) ≡ Some e) }
    {
        let Some(at) = self.tables.region_at(space, page) else {
            return Err(MemoryRefusal::NoRegion);
        };
        if self.tables.has_wired(&self.tables.regions[at]) {
            return Err(MemoryRefusal::Wired);
        }
        Ok(at)
    }
}

impl<P: Pmap> Memory<P> {
    // Adds a region.
    pub(crate) fn map_region(&mut self, region: Region) -> Result<(), MemoryRefusal>
        ensures { Serving P.view self.old self.new (Map region.space region.first region.count region.object region.offset region.protection) (done_reply result) }
    {
        if !fits_map(region) {
            return Err(MemoryRefusal::Range);
        }
        let Region {
            space,
            first,
            count,
            ..
        } = region;
        if self.parts.tables.overlaps(space, first, count) {
            return Err(MemoryRefusal::Overlap);
        }
        if self.parts.tables.regions.len() >= 64 {
            return Err(MemoryRefusal::RegionsFull);
        }
        self.parts.tables.add_region(region);
        Ok(())
    }

    // Removes a region and the mappings of its pages.
    pub(crate) fn unmap_region(&mut self, space: u8, page: u32) -> Result<(), MemoryRefusal>
        ensures { Serving P.view self.old self.new (Unmap space page) (done_reply result) }
    {
        if !fits_place(space, page) {
            return Err(MemoryRefusal::Range);
        }
        let at = self.parts.region_free(space, page)?;
        let Region {
            space,
            first,
            count,
            ..
        } = self.parts.tables.regions[at];
        remove_pages(&mut self.parts.pmap, space, first, count)?;
        self.parts.tables.remove_region(at);
        Ok(())
    }

    // Changes the protection of a region.
    pub(crate) fn protect_region_at(
        &mut self,
        space: u8,
        page: u32,
        protection: u8,
    ) -> Result<(), MemoryRefusal>
        ensures { Serving P.view self.old self.new (Protect space page protection) (done_reply result) }
    {
        if !fits_protect(space, page, protection) {
            return Err(MemoryRefusal::Range);
        }
        let at = self.parts.region_free(space, page)?;
        let region = self.parts.tables.regions[at];
        restrict_region(&mut self.parts.pmap, &region, protection)?;
        self.parts.tables.protect_region(at, protection);
        Ok(())
    }
}
