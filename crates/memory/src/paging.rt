// How object pages come into frames and go out of them.
ghost use Rattle.std.specs.Prelude.{◌≡◌, ◌<◌, Some, vec_len, MatchResult, slice_index};
ghost use Rattle.rules.specs.Lists.{place};
ghost use Rattle.rules.specs.Refusals.{free};
ghost use Rattle.rules.specs.Good.{Good};
ghost use Rattle.memory.specs.Whole.{state, Bringing, Roomless, Evicting, Saving};

use crate::parts::Parts;
use memory_meaning::outcome::Brought;
use pmap::interface::Pmap;
use refusal::memory::MemoryRefusal;
use rules::answer::Evicted;

impl<P: Pmap> Parts<P> {
    // Stores the word of a frame if it is modified, takes it out of the modified ones, and says whether it was.
    fn save_modified(&mut self, frame: u16) -> Result<bool, MemoryRefusal>
        requires kept { P.kept self.old.pmap }
        requires frame { frame < 256 }
        requires owner { slice_index self.old.tables.owners.items frame < 2048 }
        ensures saves { MatchResult result (λ b. Saving P.view self.old self.new frame b) (λ _. ⊥) }
        ensures kept { P.kept self.new.pmap }
    {
        if !self.pmap.modified(frame)? {
            return Ok(false);
        }
        self.tables.save(frame);
        self.pmap.clear_modified(frame)?;
        Ok(true)
    }

    // The page of the frame at a position of the queue goes.
    fn evict(&mut self, at: usize) -> Result<Evicted, MemoryRefusal>
        requires kept { P.kept self.old.pmap }
        requires first { place (free self.old.tables.wired.items) self.old.tables.queue.items ≡ Some at }
        requires inside { at < vec_len self.old.tables.queue }
        requires frame { slice_index self.old.tables.queue.items at < 256 }
        requires owner { slice_index self.old.tables.owners.items (slice_index self.old.tables.queue.items at) < 2048 }
        ensures evicts { MatchResult result (λ out. Evicting P.view self.old self.new (slice_index self.old.tables.queue.items at) out) (λ _. ⊥) }
        ensures kept { P.kept self.new.pmap }
    {
        let frame = self.tables.queue[at];
        let page = self.tables.owners[usize::from(frame)];
        self.pmap.drop_frame(frame)?;
        let stored = self.save_modified(frame)?;
        self.tables.release(at);
        Ok(Evicted {
            object: (page / 256) as u8,
            index: (page % 256) as u8,
            stored,
        })
    }

    // Has object page x resident: where it is not, it is loaded into an unused frame, the lowest first, else into that of the
    // page loaded longest ago whose frame is not wired.
    pub fn bring(&mut self, x: usize) -> Result<Brought, MemoryRefusal>
        requires kept { P.kept self.old.pmap }
        requires good { Good (state P.view self.old) }
        requires page { x < 2048 }
        ensures brings { MatchResult result (λ b. Bringing P.view self.old self.new x b) (λ e. Roomless P.view self.old self.new x e) }
        ensures kept { P.kept self.new.pmap }
    {
        if let Some(frame) = self.tables.frame_of(x) {
            return Ok(Brought {
                frame,
                loaded: false,
                evicted: None,
            });
        }
        let used = self.tables.queue.len();
        if used < usize::from(self.tables.frames) {
            let frame = used as u16;
            self.tables.load(x, frame);
            return Ok(Brought {
                frame,
                loaded: true,
                evicted: None,
            });
        }
        let at = self.tables.victim().ok_or(MemoryRefusal::NoFrame)?;
        let frame = self.tables.queue[at];
        let evicted = self.evict(at)?;
        self.tables.load(x, frame);
        Ok(Brought {
            frame,
            loaded: true,
            evicted: Some(evicted),
        })
    }
}
