// The calls that name a place.
ghost use Rattle.std.specs.Prelude.{◌≡◌};
ghost use Rattle.pmap.specs.Ranges.{fits_place};
ghost use Rattle.pmap.specs.Meaning.{answered};
ghost use Rattle.pmap.specs.Tally.{tally};
ghost use Rattle.powerpc.specs.Reads.{state};
ghost use Rattle.powerpc_words.specs.State.{wired_at};
ghost use Rattle.powerpc_words.specs.Changes.{removed, placed, entered, restricted, unwired, accessed};
ghost use Rattle.powerpc_words.specs.Answers.{holds, wired_beside, crowded as is_crowded, or_range, enter_answer, enter_leaves, remove_leaves, lower_leaves, unwire_leaves, access_answer, access_leaves, find_answer};

use crate::board::Board;
use crate::mapping::Mapping;
use pmap::access::Access;
use pmap::place::Place;
use pmap::range::{WIRED_PLACES, allows};
use powerpc_words::fields::protection_of;
use powerpc_words::slot::Slot;
use refusal::pmap::PmapRefusal;

// The public calls check their numbers and go on: two lines each, which one function over a closure would not shorten.
impl Board {
    // How many slots are wired.
    // A `for` and no chain that is counted, which looks at the marks one by one: a wired enter took six times its time that way.
    fn count_wired(&self) -> usize
        ensures { result ≡ tally (wired_at (state self.now)) 8192 }
    {
        let mut count = 0;
        for mark in &self.wired {
            if *mark {
                count += 1;
            }
        }
        count
    }

    // How many slots other than the given one are wired.
    #[tactic(auto, using(crate::proofs::Wirings::beside_none, crate::proofs::Wirings::beside_wired, crate::proofs::Wirings::beside_unwired))]
    fn count_beside(&self, own: Option<Slot>) -> usize
        ensures { result ≡ tally (wired_beside (state self.now) own) 8192 }
    {
        let wired = self.count_wired();
        match own {
            Some(slot) if self.is_wired(slot) => wired - 1,
            _ => wired,
        }
    }

    // Whether eight other slots than the place's own are wired.
    #[tactic(auto, unfolding(powerpc_words::specs::Answers::crowded))]
    fn crowded(&self, at: Place) -> bool
        ensures { result ≡ is_crowded (state self.now) at.space at.page }
    {
        self.count_beside(self.lookup(at)) >= WIRED_PLACES
    }

    // Empties the slot of a place.
    #[tactic(auto, unfolding(powerpc_words::specs::Changes::removed))]
    fn vacate(&mut self, at: Place)
        ensures { state self.new ≡ removed (state self.old) at.space at.page }
    {
        if let Some(slot) = self.lookup(at) {
            self.empty(slot);
        }
    }

    // Puts a new entry into the first invalid slot, or else into one that is forgotten.
    #[tactic(auto, unfolding(powerpc_words::specs::Changes::placed))]
    fn place(&mut self, at: Place, mapping: Mapping)
        ensures { state self.new ≡ placed (state self.old) at.space at.page mapping.frame.number mapping.protection mapping.wired }
    {
        if let Some(slot) = self.unused(at) {
            self.fill(slot, at, mapping);
        } else if let Some(slot) = self.victim(at) {
            self.forget(slot);
            self.fill(slot, at, mapping);
        }
    }

    // The old entry of the place goes, the new one is placed.
    #[tactic(auto, unfolding(powerpc_words::specs::Changes::entered))]
    fn replace(&mut self, at: Place, mapping: Mapping)
        ensures { state self.new ≡ entered (state self.old) at.space at.page mapping.frame.number mapping.protection mapping.wired }
    {
        self.vacate(at);
        self.place(at, mapping);
    }

    // Sets PP to 3 in the slot of a place.
    #[tactic(auto, unfolding(powerpc_words::specs::Changes::restricted))]
    fn restrict(&mut self, at: Place)
        ensures { state self.new ≡ restricted (state self.old) at.space at.page }
    {
        if let Some(slot) = self.lookup(at) {
            self.set_second(slot, self.second(slot).lowered());
        }
    }

    // Takes off the wired mark of a place's slot.
    #[tactic(auto, unfolding(powerpc_words::specs::Changes::unwired))]
    fn release(&mut self, at: Place)
        ensures { state self.new ≡ unwired (state self.old) at.space at.page }
    {
        if let Some(slot) = self.lookup(at) {
            self.set_unwired(slot);
        }
    }

    // What the hardware does at a read or a write.
    #[tactic(auto, unfolding(powerpc_words::specs::Changes::accessed, powerpc_words::specs::Answers::holds))]
    fn touch(&mut self, at: Place, write: bool) -> Access
        ensures answer { result ≡ answered (holds (state self.old) at.space at.page) write }
        ensures leaves { state self.new ≡ accessed (state self.old) at.space at.page write }
    {
        let Some(slot) = self.lookup(at) else {
            return Access::Miss;
        };
        let second = self.second(slot);
        if !allows(protection_of(second.word), write) {
            return Access::Miss;
        }
        self.set_second(slot, second.touched(write));
        Access::Hit(second.frame().number)
    }

    // What the hardware's lookup finds at a place.
    #[tactic(auto, unfolding(powerpc_words::specs::Answers::holds))]
    fn held(&self, at: Place) -> Option<(u16, u8, bool)>
        ensures { result ≡ holds (state self.now) at.space at.page }
    {
        let slot = self.lookup(at)?;
        let second = self.second(slot);
        Some((
            second.frame().number,
            protection_of(second.word),
            self.is_wired(slot),
        ))
    }

    // Holds the given mapping at the place.
    pub fn enter(
        &mut self,
        space: u8,
        page: u32,
        frame: u16,
        protection: u8,
        wired: bool,
    ) -> Result<(), PmapRefusal>
        ensures answer { result ≡ enter_answer (state self.old) space page frame protection wired }
        ensures leaves { state self.new ≡ enter_leaves (state self.old) space page frame protection wired }
    {
        let at = Place::new(space, page)?;
        let mapping = Mapping::new(frame, protection, wired)?;
        if wired && self.crowded(at) {
            return Err(PmapRefusal::WiredFull);
        }
        self.replace(at, mapping);
        Ok(())
    }

    // Takes away the mapping at the place.
    pub fn remove(&mut self, space: u8, page: u32) -> Result<(), PmapRefusal>
        ensures answer { result ≡ or_range (fits_place space page) tt }
        ensures leaves { state self.new ≡ remove_leaves (state self.old) space page }
    {
        let at = Place::new(space, page)?;
        self.vacate(at);
        Ok(())
    }

    // Turns protection 3 at the place into 1.
    pub fn lower(&mut self, space: u8, page: u32) -> Result<(), PmapRefusal>
        ensures answer { result ≡ or_range (fits_place space page) tt }
        ensures leaves { state self.new ≡ lower_leaves (state self.old) space page }
    {
        let at = Place::new(space, page)?;
        self.restrict(at);
        Ok(())
    }

    // Takes the wired mark off at the place.
    pub fn unwire(&mut self, space: u8, page: u32) -> Result<(), PmapRefusal>
        ensures answer { result ≡ or_range (fits_place space page) tt }
        ensures leaves { state self.new ≡ unwire_leaves (state self.old) space page }
    {
        let at = Place::new(space, page)?;
        self.release(at);
        Ok(())
    }

    // A read or a write: a hit sets R, a write hit C too.
    pub fn access(&mut self, space: u8, page: u32, write: bool) -> Result<Access, PmapRefusal>
        ensures answer { result ≡ access_answer (state self.old) space page write }
        ensures leaves { state self.new ≡ access_leaves (state self.old) space page write }
    {
        let at = Place::new(space, page)?;
        Ok(self.touch(at, write))
    }

    // The frame, the protection and the wired mark held at the place, or none.
    pub fn find(&self, space: u8, page: u32) -> Result<Option<(u16, u8, bool)>, PmapRefusal>
        ensures { result ≡ find_answer (state self.now) space page }
    {
        let at = Place::new(space, page)?;
        Ok(self.held(at))
    }
}
