// Wiring a place.
ghost use Rattle.std.specs.Prelude.{◌≡◌};
ghost use Rattle.calls.specs.declared.Call.TheVariants.{Wire as WireCall};
ghost use Rattle.memory_meaning.specs.Replies.{wired_reply};
ghost use Rattle.memory.specs.Whole.{Serving, Whole};

use crate::memory::Memory;
use pmap::interface::Pmap;
use pmap::range::{WIRED_PLACES, fits_place};
use refusal::memory::MemoryRefusal;
use rules::answer::Wiring;
use rules::region::WiredPlace;
use tables::lookups::object_page;

impl<P: Pmap> Memory<P> {
    // Brings the place's object page in and enters a wired mapping of it.
    pub fn wire_place(&mut self, space: u8, page: u32) -> Result<Wiring, MemoryRefusal>
        ensures serves { Serving P.view self.old self.new (WireCall space page) (wired_reply result) }
        ensures whole { Whole P.view P.kept self.new }
    {
        let tables = &self.parts.tables;
        // no `Place::new` with a `?`, which would give the pmap's refusal
        if !fits_place(space, page) {
            return Err(MemoryRefusal::Range);
        }
        let Some(region) = tables.cover(space, page) else {
            return Err(MemoryRefusal::NoRegion);
        };
        if tables.is_wired(space, page) {
            return Err(MemoryRefusal::Wired);
        }
        if tables.wired.len() >= WIRED_PLACES {
            return Err(MemoryRefusal::WiredFull);
        }
        let brought = self.parts.bring(object_page(&region, page))?;
        self.parts
            .pmap
            .enter(space, page, brought.frame, region.protection, true)?;
        self.parts.tables.add_wired(WiredPlace {
            space,
            page,
            frame: brought.frame,
        });
        Ok(Wiring {
            loaded: brought.loaded,
            evicted: brought.evicted,
        })
    }
}
