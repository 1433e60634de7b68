// What concerns a place: the walk to its leaf word, and what is done there.
ghost use Rattle.std.specs.Prelude.{◌≡◌};
ghost use Rattle.x86_words.specs.Words.{put_off};
ghost use Rattle.x86_words.specs.Within.{Within, Inside};
ghost use Rattle.x86_words.specs.Walks.{linear, walk};
ghost use Rattle.x86_words.specs.State.{written, found_in, found as found_at, removed, rewritten_at, hit, access_answer, accessed, taken, free_leaf, leaf_at, installed};
ghost use Rattle.x86.specs.Reads.{state};

use super::Board;
use pmap::access::Access;
use pmap::place::Place;
use x86_words::leaves::TABLE;
use x86_words::walk::{Walk, linear_page, walk_tables};
use x86_words::word::{Bit, frame, has, protection, serves, with, without};

// What a leaf word holds: a frame, a protection and a wired mark, or nothing.
fn mapping(word: u64) -> Option<(u16, u8, bool)>
    ensures { result ≡ found_in word }
{
    has(word, Bit::Present).then(|| (frame(word), protection(word), has(word, Bit::Wired)))
}

impl Board {
    pub(super) fn walk(&self, place: Place) -> Option<Walk>
        ensures is { result ≡ walk (state self.now).words (linear place.space place.page) }
        ensures bound { Within result }
    {
        walk_tables(&self.words, linear_page(place.space, place.page))
    }

    pub(super) fn find_at(&self, place: Place) -> Option<(u16, u8, bool)>
        ensures { result ≡ found_at (state self.now) place.space place.page }
    {
        self.walk(place)
            .and_then(|met| mapping(self.word(met.leaf)))
    }

    pub(super) fn remove_at(&mut self, place: Place)
        ensures { state self.new ≡ removed (state self.old) place.space place.page }
    {
        if let Some(met) = self.walk(place) {
            self.forget(met.leaf);
        }
    }

    // Puts a bit of the place's leaf word off.
    pub(super) fn clear_bit(&mut self, place: Place, bit: Bit)
        ensures { state self.new ≡ rewritten_at (put_off bit) (state self.old) place.space place.page }
    {
        if let Some(met) = self.walk(place) {
            let word = self.word(met.leaf);
            self.put_word(met.leaf, without(word, bit));
        }
    }

    // Puts the bits on that the hardware sets at a hit.
    fn set_hit(&mut self, met: Walk, write: bool)
        requires { Inside met }
        ensures { state self.new ≡ hit (state self.old) met write }
    {
        self.touch(met.root);
        self.touch(met.entry);
        self.touch(met.directory);
        let leaf = with(self.word(met.leaf), Bit::Accessed);
        self.put_word(met.leaf, if write { with(leaf, Bit::Dirty) } else { leaf });
    }

    // A read or a write through the tables.
    pub(super) fn access_at(&mut self, place: Place, write: bool) -> Access
        ensures answer { result ≡ access_answer (state self.old) place.space place.page write }
        ensures after { state self.new ≡ accessed (state self.old) place.space place.page write }
    {
        let Some(met) = self.walk(place) else {
            return Access::Miss;
        };
        let leaf = self.word(met.leaf);
        if !serves(leaf, write) {
            return Access::Miss;
        }
        self.set_hit(met, write);
        Access::Hit(frame(leaf))
    }

    // Writes a word into a leaf that is taken for the place.
    fn install_fresh(&mut self, place: Place, word: u64)
        ensures { state self.new ≡ written (taken (state self.old) (free_leaf (state self.old)) place.space place.page) (leaf_at (free_leaf (state self.old)) place.page) word }
    {
        let leaf = self.free_leaf();
        self.take_leaf(leaf, place);
        self.put_word(TABLE * leaf.number + place.page as usize % TABLE, word);
    }

    // Writes the word of a place, whose old word or whose leaf's old words are first forgotten.
    pub(super) fn install(&mut self, place: Place, word: u64)
        ensures { state self.new ≡ installed (state self.old) place.space place.page word }
    {
        match self.walk(place) {
            Some(met) => {
                self.forget(met.leaf);
                self.put_word(met.leaf, word);
            }
            None => self.install_fresh(place, word),
        }
    }
}
