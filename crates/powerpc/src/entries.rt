// Reading and writing one slot.
ghost use Rattle.std.specs.Prelude.{◌≡◌, false, Some, slice_index_or};
ghost use Rattle.powerpc_words.specs.State.{first as first_of, second as second_of, wired_at};
ghost use Rattle.powerpc.specs.Reads.{state};
ghost use Rattle.powerpc_words.specs.Changes.{written, merged, emptied, forgotten, filled as filled_with, reworded, unwired_at};

use crate::board::Board;
use crate::mapping::Mapping;
use pmap::frame::Frame;
use pmap::place::Place;
use powerpc_words::fields::{Second, changed};
use powerpc_words::hashing::{entry_word, group};
use powerpc_words::slot::Slot;

impl Board {
    pub(crate) fn first(&self, slot: Slot) -> u32
        ensures { result ≡ first_of (state self.now) slot }
    {
        self.words[2 * slot.index()]
    }

    pub(crate) fn second(&self, slot: Slot) -> Second
        ensures { result ≡ second_of (state self.now) slot }
    {
        Second {
            word: self.words[2 * slot.index() + 1],
        }
    }

    pub(crate) fn is_wired(&self, slot: Slot) -> bool
        ensures { result ≡ wired_at (state self.now) slot }
    {
        self.wired[slot.index()]
    }

    pub(crate) fn is_marked(&self, frame: Frame) -> bool
        ensures { result ≡ slice_index_or self.now.marks.items frame.number false }
    {
        self.marks[frame.index()]
    }

    pub(crate) fn set_second(&mut self, slot: Slot, second: Second)
        ensures { state self.new ≡ reworded (state self.old) slot second }
    {
        self.words[2 * slot.index() + 1] = second.word;
    }

    pub(crate) fn set_unwired(&mut self, slot: Slot)
        ensures { state self.new ≡ unwired_at (state self.old) (Some slot) }
    {
        self.wired[slot.index()] = false;
    }

    // Writes both words and the wired mark of a slot.
    fn write(&mut self, slot: Slot, first: u32, second: Second, wired: bool)
        ensures { state self.new ≡ written (state self.old) slot first second wired }
    {
        self.words[2 * slot.index()] = first;
        self.words[2 * slot.index() + 1] = second.word;
        self.wired[slot.index()] = wired;
    }

    // Merges the C bit of a second word into the mark of its frame.
    fn merge(&mut self, second: Second)
        ensures { state self.new ≡ merged (state self.old) second }
    {
        if changed(second.word) {
            self.marks[second.frame().index()] = true;
        }
    }

    // Empties a slot, its C bit merged first.
    #[tactic(auto, unfolding(powerpc_words::specs::Changes::emptied))]
    pub(crate) fn empty(&mut self, slot: Slot)
        ensures { state self.new ≡ emptied (state self.old) slot }
    {
        self.merge(self.second(slot));
        self.write(slot, 0, Second { word: 0 }, false);
    }

    // Empties a slot to make room; the counter moves to the slot after it.
    #[tactic(auto, unfolding(powerpc_words::specs::Changes::forgotten))]
    pub(crate) fn forget(&mut self, slot: Slot)
        ensures { state self.new ≡ forgotten (state self.old) slot }
    {
        self.empty(slot);
        self.next = (slot.index() % 8 + 1) % 8;
    }

    // Writes a new entry of a place into a slot of one of its two groups.
    #[tactic(auto, unfolding(powerpc_words::specs::Changes::filled))]
    pub(crate) fn fill(&mut self, slot: Slot, at: Place, mapping: Mapping)
        ensures { state self.new ≡ filled_with (state self.old) slot at.space at.page mapping.frame.number mapping.protection mapping.wired }
    {
        let secondary = slot.group() != group(at, false);
        let first = entry_word(at, secondary);
        self.write(
            slot,
            first,
            Second::new(mapping.frame, mapping.protection),
            mapping.wired,
        );
    }
}
