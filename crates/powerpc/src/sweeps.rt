// The calls that name a frame: they go through all slots.
ghost use Rattle.std.specs.Prelude.{◌≡◌};
ghost use Rattle.pmap.specs.Ranges.{fits_frame};
ghost use Rattle.powerpc.specs.Reads.{state};
ghost use Rattle.powerpc_words.specs.Changes.{maps, dirty_at, modified_in, drop_at, clean_at, dropped, unmarked};
ghost use Rattle.powerpc_words.specs.Answers.{or_range, drop_leaves, modified_answer, unmark_leaves};

use crate::board::{Board, SLOTS};
use pmap::frame::Frame;
use powerpc_words::fields::changed;
use powerpc_words::slot::Slot;
use refusal::pmap::PmapRefusal;

impl Board {
    // Whether a slot maps the frame.
    #[tactic(auto, unfolding(powerpc_words::specs::Changes::maps))]
    fn maps_frame(&self, slot: Slot, frame: Frame) -> bool
        ensures { result ≡ maps self.now.words.items frame.number slot }
    {
        self.first(slot) > 0 && self.second(slot).frame() == frame
    }

    // Whether a slot maps the frame with its C bit on.
    #[tactic(auto, unfolding(powerpc_words::specs::Changes::dirty_at))]
    fn dirty_at(&self, slot: Slot, frame: Frame) -> bool
        ensures { result ≡ dirty_at self.now.words.items frame.number slot }
    {
        self.maps_frame(slot, frame) && changed(self.second(slot).word)
    }

    // Empties a slot if it maps the frame.
    fn drop_at(&mut self, slot: Slot, frame: Frame)
        ensures { state self.new ≡ drop_at (state self.old) frame.number slot }
    {
        if self.maps_frame(slot, frame) {
            self.empty(slot);
        }
    }

    // Puts the C bit of a slot off if it maps the frame.
    fn clean_at(&mut self, slot: Slot, frame: Frame)
        ensures { state self.new ≡ clean_at (state self.old) frame.number slot }
    {
        if self.maps_frame(slot, frame) {
            self.set_second(slot, self.second(slot).cleaned());
        }
    }

    // A `for` with a call: of a closure that writes to the board a proof would know nothing afterwards.
    fn drop_all(&mut self, frame: Frame)
        ensures { state self.new ≡ dropped (state self.old) frame.number }
    {
        for index in 0..SLOTS {
            self.drop_at(Slot::new(index), frame);
        }
    }

    // Puts off the mark of the frame, and the C bit of each slot that maps it; a `for` as above.
    fn unmark(&mut self, frame: Frame)
        ensures { state self.new ≡ unmarked (state self.old) frame.number }
    {
        for index in 0..SLOTS {
            self.clean_at(Slot::new(index), frame);
        }
        self.marks[frame.index()] = false;
    }

    fn is_modified(&self, frame: Frame) -> bool
        ensures { result ≡ modified_in (state self.now) frame.number }
    {
        self.is_marked(frame)
            || (0..SLOTS)
                .map(Slot::new)
                .any(|slot| self.dirty_at(slot, frame))
    }

    // Removes every mapping of the frame.
    pub fn drop_frame(&mut self, frame: u16) -> Result<(), PmapRefusal>
        ensures answer { result ≡ or_range (fits_frame frame) tt }
        ensures leaves { state self.new ≡ drop_leaves (state self.old) frame }
    {
        let frame = Frame::new(frame)?;
        self.drop_all(frame);
        Ok(())
    }

    // Whether the frame is modified.
    pub fn modified(&self, frame: u16) -> Result<bool, PmapRefusal>
        ensures { result ≡ modified_answer (state self.now) frame }
    {
        let frame = Frame::new(frame)?;
        Ok(self.is_modified(frame))
    }

    // Takes the frame out of the modified ones.
    pub fn clear_modified(&mut self, frame: u16) -> Result<(), PmapRefusal>
        ensures answer { result ≡ or_range (fits_frame frame) tt }
        ensures leaves { state self.new ≡ unmark_leaves (state self.old) frame }
    {
        let frame = Frame::new(frame)?;
        self.unmark(frame);
        Ok(())
    }
}
