// The board's memory.
ghost use Rattle.std.specs.Prelude.{◌≡◌, ◌<◌, vec_len};
ghost use Rattle.powerpc_words.specs.Framed.{Framed};

pub use powerpc_words::slot::SLOTS;

pub const WORDS: usize = 16_384;

// The table words, a modified mark for each frame, a wired mark for each slot, and the counter of slots to forget.
// The wired marks stand in a list of their own, since the board's rules put them beside the table.
#[derive(Drop)]
pub struct Board {
    pub(crate) words: Vec<u32>,
    pub(crate) marks: Vec<bool>,
    pub(crate) wired: Vec<bool>,
    pub(crate) next: usize,
    ghost sized: { vec_len words ≡ 16384 },
    ghost marked: { vec_len marks ≡ 256 },
    ghost pinned: { vec_len wired ≡ 8192 },
    ghost framed: { Framed words.items },
    ghost turns: { next < 8 },
}
