// One word at a time: reading it, writing it, and emptying it without losing its dirty bit.
ghost use Rattle.std.specs.Prelude.{◌≡◌, ◌<◌};
ghost use Rattle.x86_words.specs.Words.{touched};
ghost use Rattle.x86_words.specs.State.{word_at, written, rewritten, merged, forgotten};
ghost use Rattle.x86.specs.Reads.{state};

use super::Board;
use x86_words::word::{Bit, frame, has, with};

// A position is a plain number: the loops count it, and a walk is made of such numbers.
impl Board {
    pub(super) fn word(&self, at: usize) -> u64
        requires { at < 8192 }
        ensures { result ≡ word_at (state self.now) at }
    {
        self.words[at]
    }

    pub(super) fn put_word(&mut self, at: usize, word: u64)
        requires { at < 8192 }
        ensures { state self.new ≡ written (state self.old) at word }
    {
        self.words[at] = word;
    }

    // Merges the dirty bit of a word into the mark of its frame.
    fn merge(&mut self, word: u64)
        ensures { state self.new ≡ merged (state self.old) word }
    {
        let at = usize::from(frame(word));
        self.marks[at] |= has(word, Bit::Dirty);
    }

    // Empties a word, its dirty bit first merged.
    pub(super) fn forget(&mut self, at: usize)
        requires { at < 8192 }
        ensures { state self.new ≡ forgotten (state self.old) at }
    {
        let word = self.word(at);
        self.merge(word);
        self.put_word(at, 0);
    }

    // Puts the accessed bit of a word on.
    pub(super) fn touch(&mut self, at: usize)
        requires { at < 8192 }
        ensures { state self.new ≡ rewritten (state self.old) at touched }
    {
        let word = self.word(at);
        self.put_word(at, with(word, Bit::Accessed));
    }
}
