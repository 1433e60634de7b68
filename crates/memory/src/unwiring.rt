// Unwire: a wired place is wired no more.
ghost use Rattle.calls.specs.declared.Call.TheVariants.{Unwire};
ghost use Rattle.memory_meaning.specs.Replies.{done_reply};
ghost use Rattle.memory.specs.Whole.{Serving};

use crate::memory::Memory;
use pmap::interface::Pmap;
use pmap::range::fits_place;
use refusal::memory::MemoryRefusal;

impl<P: Pmap> Memory<P> {
    // Takes the wired mark off at a place.
    pub(crate) fn unwire_place(&mut self, space: u8, page: u32) -> Result<(), MemoryRefusal>
        ensures { Serving P.view self.old self.new (Unwire space page) (done_reply result) }
    {
        // no `Place::new` with a `?`, which would give the pmap's refusal
        if !fits_place(space, page) {
            return Err(MemoryRefusal::Range);
        }
        if !self.parts.tables.is_wired(space, page) {
            return Err(MemoryRefusal::NotWired);
        }
        self.parts.pmap.unwire(space, page)?;
        self.parts.tables.remove_wired(space, page);
        Ok(())
    }
}
