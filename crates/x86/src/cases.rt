// Worked cases of the board's words and positions.
ghost use Rattle.std.specs.Prelude.{◌≡◌};
ghost use Rattle.x86.specs.Cases.{BoardCases};

use x86_words::word::leaf;

// The fresh word of frame 5 and protection 3, with the promise that the definitions give every worked case.
pub fn worked_word() -> u64
    ensures cases { BoardCases }
    ensures word { result ≡ 0x5007 }
{
    leaf(5, 3, false)
}
