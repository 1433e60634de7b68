// The board: its table words, a modified mark for each frame, and the leaf to look at first when one is taken.
ghost use Rattle.std.specs.Prelude.{◌≡◌, vec_len};

use x86_words::leaves::{FIRST_LEAF, Leaf, TABLE};

mod calls;
mod cells;
mod frames;
mod leaves;
pub mod making;
mod places;
mod wirings;

pub const WORDS: usize = 8192;

// The table of space 0's page directory; those of the other spaces follow.
const FIRST_DIRECTORY: usize = 2;

// The first word of the page directories, and of the leaves.
const DIRECTORIES: usize = FIRST_DIRECTORY * TABLE;

const LEAVES: usize = FIRST_LEAF * TABLE;

#[derive(Drop)]
pub struct Board {
    words: Vec<u64>,
    marks: Vec<bool>,
    next: Leaf,
    ghost sized: { vec_len words ≡ 8192 },
    ghost marked: { vec_len marks ≡ 256 },
}
