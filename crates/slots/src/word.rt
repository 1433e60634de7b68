// A word of a table.
ghost use Rattle.std.specs.Prelude.{◌≡◌, slice_index_or};

// The word at a position; past the table there is none, and what is as good stands for it.
pub fn word_or<W: Copy>(words: &[W], at: usize, none: W) -> W
    ensures { result ≡ slice_index_or words.now at none }
{
    words.get(at).copied().unwrap_or(none)
}
