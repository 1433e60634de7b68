// Page v above is page (v + k) mod 262,144 below.
ghost use Rattle.std.specs.Prelude.{◌≡◌, ◌<◌, ◌≤◌, MatchResult};
ghost use Rattle.refusal.specs.declared.pmap.PmapRefusal.TheVariants.{Range};
ghost use Rattle.pmap.specs.Meaning.{Cleared};
ghost use Rattle.layers.specs.Shift.{shift, shifted};

use pmap::access::Access;
use pmap::interface::Pmap;
use pmap::range::PAGES;
use refusal::pmap::PmapRefusal;

#[derive(Drop)]
pub struct Offset<P> {
    below: P,
    by: u32,
    ghost small: { by < 262144 },
}

// An offset out of range, and the pmap that was to be shifted, as it was.
// No NotMade of the refusals: those tell a refusal of a file.
#[derive(Drop)]
pub struct OffsetRefused<P> {
    pub refusal: PmapRefusal,
    pub below: P,
}

impl<P> Offset<P> {
    pub fn new(below: P, by: u32) -> Result<Offset<P>, OffsetRefused<P>>
        ensures { MatchResult result (λ o. (by < 262144) × (o.below ≡ below) × (o.by ≡ by)) (λ e. (262144 ≤ by) × (e.refusal ≡ Range) × (e.below ≡ below)) }
    {
        if by >= PAGES {
            return Err(OffsetRefused {
                refusal: PmapRefusal::Range,
                below,
            });
        }
        Ok(Offset { below, by })
    }

    pub fn below(&self) -> &P
        ensures { result.now ≡ self.now.below }
    {
        &self.below
    }

    // The page below of a page above; a number that is no page stays one that is none.
    pub fn page_below(&self, page: u32) -> u32
        ensures { result ≡ shift self.now.by page }
    {
        if page < PAGES {
            (page + self.by) % PAGES
        } else {
            page
        }
    }
}

impl<P: Pmap> Pmap for Offset<P> {
    ghost view = { λ s. shifted s.by (P.view s.below) };

    ghost kept = { λ s. P.kept s.below };

    fn clear(&mut self)
        ensures meaning { Cleared (shifted self.new.by (P.view self.new.below)) }
        ensures kept { P.kept self.new.below }
        ensures by { self.new.by ≡ self.old.by }
    {
        self.below.clear();
    }

    fn enter(
        &mut self,
        space: u8,
        page: u32,
        frame: u16,
        protection: u8,
        wired: bool,
    ) -> Result<(), PmapRefusal> {
        let page = self.page_below(page);
        self.below.enter(space, page, frame, protection, wired)
    }

    fn remove(&mut self, space: u8, page: u32) -> Result<(), PmapRefusal> {
        let page = self.page_below(page);
        self.below.remove(space, page)
    }

    fn lower(&mut self, space: u8, page: u32) -> Result<(), PmapRefusal> {
        let page = self.page_below(page);
        self.below.lower(space, page)
    }

    fn drop_frame(&mut self, frame: u16) -> Result<(), PmapRefusal> {
        self.below.drop_frame(frame)
    }

    fn unwire(&mut self, space: u8, page: u32) -> Result<(), PmapRefusal> {
        let page = self.page_below(page);
        self.below.unwire(space, page)
    }

    fn access(&mut self, space: u8, page: u32, write: bool) -> Result<Access, PmapRefusal> {
        let page = self.page_below(page);
        self.below.access(space, page, write)
    }

    fn find(&self, space: u8, page: u32) -> Result<Option<(u16, u8, bool)>, PmapRefusal> {
        self.below.find(space, self.page_below(page))
    }

    fn modified(&self, frame: u16) -> Result<bool, PmapRefusal> {
        self.below.modified(frame)
    }

    fn clear_modified(&mut self, frame: u16) -> Result<(), PmapRefusal> {
        self.below.clear_modified(frame)
    }
}
