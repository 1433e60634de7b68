// A memory is made over a pmap, which it clears.
ghost use Rattle.std.specs.Prelude.{◌≡◌, Ok, Err};
ghost use Rattle.refusal.specs.Making.{GivenBack};
ghost use Rattle.memory.specs.Making.{fits_frames, Made};
ghost use Rattle.memory.specs.Whole.{seen, state, Whole};

use crate::memory::Memory;
use crate::parts::Parts;
use pmap::interface::Pmap;
use refusal::file::FileRefusal;
use refusal::making::NotMade;
use rules::counts::Counts;
use std::alloc::Global;
use tables::table::Tables;

// Whether a memory may have so many frames.
pub fn fits_frames(frames: u16) -> bool
    ensures { result ≡ fits_frames frames }
{
    1 <= frames && frames <= 256
}

impl<P: Pmap> Memory<P> {
    // A new memory of `frames` frames, 1 to 256: no region, no resident page, starting words in its backing store.
    // All that its calls need is allocated here. Where none is made, the pmap comes back as it was.
    pub fn new(heap: Global, mut pmap: P, frames: u16) -> Result<Memory<P>, NotMade<P>>
        ensures { elim result [ Ok m ↦ Made frames (seen P.view m) (state P.view m) × Whole P.view P.kept m | Err e ↦ GivenBack (fits_frames frames) pmap e ] }
    {
        if !fits_frames(frames) {
            return Err(NotMade::Refused(FileRefusal::Size, pmap));
        }
        let Ok(tables) = Tables::new(heap, frames) else {
            return Err(NotMade::NoMemory(pmap));
        };
        pmap.clear();
        let parts = Parts {
            pmap,
            tables,
            counts: Counts::default(),
        };
        Ok(Memory { parts })
    }
}
