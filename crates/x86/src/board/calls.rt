// The calls of the board: each with its answer and with every word, mark and the counter afterwards.
ghost use Rattle.std.specs.Prelude.{◌≡◌};
ghost use Rattle.x86_words.specs.Words.{read_only, unwired};
ghost use Rattle.x86_words.specs.State.{found, removed, rewritten_at, access_answer, accessed, dropped, modified_in, unmarked};
ghost use Rattle.x86_words.specs.Answers.{at_place, placed, at_frame, framed, enter_answer, entered};
ghost use Rattle.x86.specs.Reads.{state};

use super::Board;
use pmap::access::Access;
use pmap::frame::Frame;
use pmap::place::Place;
use pmap::range::fits_entry;
use refusal::pmap::PmapRefusal;
use x86_words::word::{Bit, leaf};

// Each call checks its numbers and goes on: two lines, which one function over a closure would not shorten.
impl Board {
    // The table words.
    pub fn words(&self) -> &[u64]
        ensures { result.now ≡ (state self.now).words }
    {
        &self.words
    }

    // The leaf to look at first when one is taken.
    pub fn next_leaf(&self) -> usize
        ensures { result ≡ (state self.now).next }
    {
        self.next.number
    }

    // Holds exactly the given mapping at the place.
    pub fn enter(
        &mut self,
        space: u8,
        page: u32,
        frame: u16,
        protection: u8,
        wired: bool,
    ) -> Result<(), PmapRefusal>
        ensures answer { result ≡ enter_answer (state self.old) space page frame protection wired tt }
        ensures after { state self.new ≡ entered (state self.old) space page frame protection wired }
    {
        if !fits_entry(space, page, frame, protection) {
            return Err(PmapRefusal::Range);
        }
        let place = Place { space, page };
        if wired && self.is_crowded(place) {
            return Err(PmapRefusal::WiredFull);
        }
        self.install(place, leaf(frame, protection, wired));
        Ok(())
    }

    // Takes away the mapping at the place.
    pub fn remove(&mut self, space: u8, page: u32) -> Result<(), PmapRefusal>
        ensures answer { result ≡ at_place space page tt }
        ensures after { state self.new ≡ placed space page (removed (state self.old) space page) (state self.old) }
    {
        let place = Place::new(space, page)?;
        self.remove_at(place);
        Ok(())
    }

    // Turns protection 3 at the place into 1.
    pub fn lower(&mut self, space: u8, page: u32) -> Result<(), PmapRefusal>
        ensures answer { result ≡ at_place space page tt }
        ensures after { state self.new ≡ placed space page (rewritten_at read_only (state self.old) space page) (state self.old) }
    {
        let place = Place::new(space, page)?;
        self.clear_bit(place, Bit::Writable);
        Ok(())
    }

    // Removes every mapping of the frame.
    pub fn drop_frame(&mut self, frame: u16) -> Result<(), PmapRefusal>
        ensures answer { result ≡ at_frame frame tt }
        ensures after { state self.new ≡ framed frame (dropped (state self.old) frame) (state self.old) }
    {
        let frame = Frame::new(frame)?;
        self.drop_all(frame);
        Ok(())
    }

    // Takes the wired mark off at the place.
    pub fn unwire(&mut self, space: u8, page: u32) -> Result<(), PmapRefusal>
        ensures answer { result ≡ at_place space page tt }
        ensures after { state self.new ≡ placed space page (rewritten_at unwired (state self.old) space page) (state self.old) }
    {
        let place = Place::new(space, page)?;
        self.clear_bit(place, Bit::Wired);
        Ok(())
    }

    // A read or a write: a hit with its frame, or a miss.
    pub fn access(&mut self, space: u8, page: u32, write: bool) -> Result<Access, PmapRefusal>
        ensures answer { result ≡ at_place space page (access_answer (state self.old) space page write) }
        ensures after { state self.new ≡ placed space page (accessed (state self.old) space page write) (state self.old) }
    {
        let place = Place::new(space, page)?;
        Ok(self.access_at(place, write))
    }

    // The frame, the protection and the wired mark held at the place, or none.
    pub fn find(&self, space: u8, page: u32) -> Result<Option<(u16, u8, bool)>, PmapRefusal>
        ensures { result ≡ at_place space page (found (state self.now) space page) }
    {
        let place = Place::new(space, page)?;
        Ok(self.find_at(place))
    }

    // Whether the frame is modified.
    pub fn modified(&self, frame: u16) -> Result<bool, PmapRefusal>
        ensures { result ≡ at_frame frame (modified_in (state self.now) frame) }
    {
        let frame = Frame::new(frame)?;
        Ok(self.is_modified(frame))
    }

    // Takes the frame out of the modified ones.
    pub fn clear_modified(&mut self, frame: u16) -> Result<(), PmapRefusal>
        ensures answer { result ≡ at_frame frame tt }
        ensures after { state self.new ≡ framed frame (unmarked (state self.old) frame) (state self.old) }
    {
        let frame = Frame::new(frame)?;
        self.unmark(frame);
        Ok(())
    }
}
