// What concerns a frame: all of its leaf words at once, and its mark.
ghost use Rattle.std.specs.Prelude.{◌≡◌, ◌<◌, if◌then◌else◌, drop};
ghost use Rattle.std.specs.List.{list_any};
ghost use Rattle.x86_words.specs.Words.{maps as maps_to, dirty_in};
ghost use Rattle.x86_words.specs.State.{word_at, forgotten, dropped, modified_in, bits_off, mark_off, unmarked};
ghost use Rattle.x86.specs.Reads.{state};

use super::{Board, LEAVES, WORDS};
use pmap::frame::Frame;
use x86_words::word::{Bit, frame, has, maps, without};

// Whether a word has the frame with its dirty bit on.
fn is_dirty(word: u64, wanted: Frame) -> bool
    ensures { result ≡ dirty_in word wanted.number }
{
    has(word, Bit::Dirty) && frame(word) == wanted.number
}

impl Board {
    // Empties the word at a position if it maps the frame.
    fn drop_at(&mut self, at: usize, wanted: Frame)
        requires { at < 8192 }
        ensures { state self.new ≡ (if maps_to (word_at (state self.old) at) wanted.number then forgotten (state self.old) at else state self.old) }
    {
        if maps(self.word(at), wanted.number) {
            self.forget(at);
        }
    }

    // Empties every word that maps the frame.
    pub(super) fn drop_all(&mut self, wanted: Frame)
        ensures { state self.new ≡ dropped (state self.old) wanted.number }
    {
        // A `for` over positions: each turn writes a word and a mark.
        for at in LEAVES..WORDS {
            self.drop_at(at, wanted);
        }
    }

    // Whether a leaf word has the frame with its dirty bit on.
    fn holds_dirty(&self, wanted: Frame) -> bool
        ensures { result ≡ list_any (λ w. dirty_in w wanted.number) (drop 3072 (state self.now).words) }
    {
        self.words
            .iter()
            .skip(LEAVES)
            .any(|&word| is_dirty(word, wanted))
    }

    // Whether the mark of the frame is on, or a leaf word has the frame with its dirty bit on.
    pub(super) fn is_modified(&self, wanted: Frame) -> bool
        ensures { result ≡ modified_in (state self.now) wanted.number }
    {
        self.marks[wanted.index()] || self.holds_dirty(wanted)
    }

    // Puts the dirty bit of every word that maps the frame off.
    fn clean_all(&mut self, wanted: Frame)
        ensures { state self.new ≡ bits_off (state self.old) wanted.number }
    {
        let leaves = &mut self.words[LEAVES..];
        for word in leaves.iter_mut() {
            if maps(*word, wanted.number) {
                *word = without(*word, Bit::Dirty);
            }
        }
    }

    fn clear_mark(&mut self, wanted: Frame)
        ensures { state self.new ≡ mark_off (state self.old) wanted.number }
    {
        self.marks[wanted.index()] = false;
    }

    // Puts the mark of the frame off, and the dirty bit of every word that maps it.
    pub(super) fn unmark(&mut self, wanted: Frame)
        ensures { state self.new ≡ unmarked (state self.old) wanted.number }
    {
        self.clean_all(wanted);
        self.clear_mark(wanted);
    }
}
