// Making a board, and clearing it.
ghost use Rattle.std.specs.Prelude.{◌≡◌};
ghost use Rattle.x86_words.specs.State.{start_word, wiped, marks_off, started};
ghost use Rattle.x86.specs.Reads.{state};
ghost use Rattle.x86.specs.Making.{Made};

use super::{Board, FIRST_DIRECTORY, WORDS};
use pmap::range::FRAMES;
use refusal::file::FileRefusal;
use refusal::making::NotMade;
use std::alloc::Global;
use x86_words::leaves::{FIRST_LEAF, Leaf, TABLE};
use x86_words::word::pointer;

const FIRST: Leaf = Leaf { number: FIRST_LEAF };

// The word at a position of a cleared board.
#[tactic(auto, unfolding(x86_words::specs::State::start_word))]
fn start_word(at: usize) -> u64
    ensures { result ≡ start_word at }
{
    if at == 0 {
        pointer(1)
    } else if TABLE <= at && at < TABLE + 4 {
        pointer(at - TABLE + FIRST_DIRECTORY)
    } else {
        0
    }
}

impl Board {
    // Writes the words of a cleared board.
    fn start_words(&mut self)
        ensures { state self.new ≡ wiped (state self.old) }
    {
        for (at, word) in self.words.iter_mut().enumerate() {
            *word = start_word(at);
        }
    }

    // Puts every mark off.
    #[tactic(auto, unfolding(x86_words::specs::State::marks_off))]
    fn clear_marks(&mut self)
        ensures { state self.new ≡ marks_off (state self.old) }
    {
        self.marks.fill(false);
    }

    // No mapping and no modified frame is left.
    pub fn clear(&mut self)
        ensures { state self.new ≡ started }
    {
        self.start_words();
        self.clear_marks();
        self.next = FIRST;
    }

    // A board over the given table memory, cleared. Memory of another length is refused and comes back as it was.
    pub fn new(heap: Global, words: Vec<u64>) -> Result<Board, NotMade<Vec<u64>>>
        ensures { Made words result }
    {
        if words.len() != WORDS {
            return Err(NotMade::Refused(FileRefusal::Size, words));
        }
        let Ok(marks) = vec![in heap; false; usize::from(FRAMES)] else {
            return Err(NotMade::NoMemory(words));
        };
        let mut board = Board {
            words,
            marks,
            next: FIRST,
        };
        board.clear();
        Ok(board)
    }
}
