// Taking a leaf.
ghost use Rattle.std.specs.Prelude.{◌≡◌, ◌<◌};
ghost use Rattle.x86_words.specs.State.{emptied, unlinked, linked, taken, free_leaf, in_leaf};
ghost use Rattle.x86.specs.Reads.{state};

use super::{Board, DIRECTORIES, FIRST_DIRECTORY, LEAVES};
use pmap::place::Place;
use x86_words::leaves::{Leaf, TABLE, free_leaf};
use x86_words::word::{pointer, points_to};

impl Board {
    // The first leaf, from the counter on, without a wired mapping.
    pub(super) fn free_leaf(&self) -> Leaf
        ensures { result.number ≡ free_leaf (state self.now) }
    {
        free_leaf(&self.words, self.next)
    }

    // Forgets every mapping of a leaf.
    fn forget_leaf(&mut self, leaf: Leaf)
        ensures { state self.new ≡ emptied (state self.old) (in_leaf leaf.number) }
    {
        // A `for` over positions: each turn writes a word and a mark.
        let first = TABLE * leaf.number;
        for at in first..first + TABLE {
            self.forget(at);
        }
    }

    // Empties the directory word that points to a leaf.
    fn unlink(&mut self, leaf: Leaf)
        ensures { state self.new ≡ unlinked (state self.old) leaf.number }
    {
        let directories = &mut self.words[DIRECTORIES..LEAVES];
        for word in directories.iter_mut() {
            if points_to(*word, leaf.number) {
                *word = 0;
            }
        }
    }

    // Points a directory word to a leaf, and moves the counter past it.
    fn link(&mut self, leaf: Leaf, at: usize)
        requires { at < 8192 }
        ensures { state self.new ≡ linked (state self.old) leaf.number at }
    {
        self.words[at] = pointer(leaf.number);
        self.next = leaf.after();
    }

    // Takes a leaf for a place: forgets all in it and the directory word that pointed to it, and points the place's to it.
    pub(super) fn take_leaf(&mut self, leaf: Leaf, place: Place)
        ensures { state self.new ≡ taken (state self.old) leaf.number place.space place.page }
    {
        self.forget_leaf(leaf);
        self.unlink(leaf);
        self.link(
            leaf,
            TABLE * (FIRST_DIRECTORY + usize::from(place.space)) + place.page as usize / TABLE,
        );
    }
}
