// Making a board, and bringing it back to its starting state.
ghost use Rattle.std.specs.Prelude.{◌≡◌, length, MatchResult};
ghost use Rattle.powerpc_words.specs.State.{start};
ghost use Rattle.powerpc.specs.Reads.{state};
ghost use Rattle.powerpc.specs.Making.{Unmade};

use crate::board::{Board, SLOTS, WORDS};
use pmap::range::FRAMES;
use refusal::file::FileRefusal;
use refusal::making::NotMade;
use std::alloc::Global;

impl Board {
    // A board over the given table memory, in its starting state.
    pub fn new(heap: Global, mut words: Vec<u32>) -> Result<Board, NotMade<Vec<u32>>>
        ensures { MatchResult result (λ b. (length words.items ≡ 16384) × (state b ≡ start)) (λ e. Unmade words e) }
    {
        if words.len() != WORDS {
            return Err(NotMade::Refused(FileRefusal::Size, words));
        }
        let Ok(marks) = vec![in heap; false; usize::from(FRAMES)] else {
            return Err(NotMade::NoMemory(words));
        };
        let Ok(wired) = vec![in heap; false; SLOTS] else {
            return Err(NotMade::NoMemory(words));
        };
        words.fill(0);
        Ok(Board {
            words,
            marks,
            wired,
            next: 0,
        })
    }

    // Leaves no mapping and no modified frame.
    pub fn clear(&mut self)
        ensures { state self.new ≡ start }
    {
        self.words.fill(0);
        self.marks.fill(false);
        self.wired.fill(false);
        self.next = 0;
    }

    // The table words.
    pub fn words(&self) -> &[u32]
        ensures { result.now ≡ self.now.words.items }
    {
        self.words.as_slice()
    }
}
