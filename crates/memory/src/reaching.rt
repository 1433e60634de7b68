// Reads and writes, carried to the frame of their object page.
ghost use Rattle.std.specs.Prelude.{◌≡◌, true, false, Some, None, MatchResult};
ghost use Rattle.pmap.specs.Ranges.{fits_place};
ghost use Rattle.rules.specs.State.{page_in};
ghost use Rattle.rules.specs.Refusals.{cover as covering};
ghost use Rattle.memory_meaning.specs.Ready.{serves};
ghost use Rattle.memory_meaning.specs.Reaching.{access_refusal};
ghost use Rattle.memory.specs.Whole.{seen, state, Whole, Reaching, Roomless, Still};

use crate::parts::Parts;
use memory_meaning::outcome::Reached;
use pmap::access::Access;
use pmap::interface::Pmap;
use pmap::place::Place;
use pmap::range::fits_place;
use refusal::memory::MemoryRefusal;
use rules::answer::{Kind, Report};
use rules::region::Region;
use tables::lookups::object_page;

impl<P: Pmap> Parts<P> {
    // Brings the object page in, enters the place's mapping, and repeats the access.
    fn fault(&mut self, region: Region, at: Place, write: bool) -> Result<Reached, MemoryRefusal>
        requires whole { Whole P.view P.kept self.old }
        requires covers { covering self.old.tables.regions.items at.space at.page ≡ Some region }
        requires right { write ≡ true → region.protection ≡ 3 }
        requires missed { serves ((seen P.view self.old).held at.space at.page) write ≡ false }
        ensures reaches { MatchResult result (λ x. Reaching P.view self.old self.new at.space at.page write x) (λ e. Roomless P.view self.old self.new (page_in region at.page) e) }
        ensures kept { P.kept self.new.pmap }
    {
        let Place { space, page } = at;
        let brought = self.bring(object_page(&region, page))?;
        self.pmap
            .enter(space, page, brought.frame, region.protection, false)?;
        let Access::Hit(frame) = self.pmap.access(space, page, write)? else {
            unreachable()
        };
        let kind = if brought.loaded {
            Kind::Hard
        } else {
            Kind::Soft
        };
        Ok(Reached {
            frame,
            report: Report {
                kind,
                evicted: brought.evicted,
            },
        })
    }

    // The frame of the place's object page: a hit, or a fault.
    pub fn reach(&mut self, space: u8, page: u32, write: bool) -> Result<Reached, MemoryRefusal>
        requires { Whole P.view P.kept self.old }
        ensures reaches { MatchResult result (λ x. (access_refusal (state P.view self.old) space page write ≡ None) × Reaching P.view self.old self.new space page write x) (λ e. (access_refusal (state P.view self.old) space page write ≡ Some e) × Still P.view self.old self.new) }
        ensures kept { P.kept self.new.pmap }
    {
        // no `Place::new` with a `?`, which would give the pmap's refusal
        if !fits_place(space, page) {
            return Err(MemoryRefusal::Range);
        }
        let Some(region) = self.tables.cover(space, page) else {
            return Err(MemoryRefusal::NoRegion);
        };
        if write && region.protection == 1 {
            return Err(MemoryRefusal::ReadOnly);
        }
        let Access::Hit(frame) = self.pmap.access(space, page, write)? else {
            return self.fault(region, Place { space, page }, write);
        };
        Ok(Reached {
            frame,
            report: Report {
                kind: Kind::Hit,
                evicted: None,
            },
        })
    }
}
