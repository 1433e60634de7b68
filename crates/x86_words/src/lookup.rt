// The hardware's lookup, from the table words alone.
ghost use Rattle.std.specs.Prelude.{◌≡◌};
ghost use Rattle.x86_words.specs.Lookups.{translation as translation_of, lookup};

use crate::walk::walk_tables;
use crate::word::{Bit, has};
use slots::word::word_or;

// The physical page that a leaf word leads to, and whether it may be written.
fn translation(word: u64) -> Option<(u64, bool)>
    ensures { result ≡ translation_of word }
{
    has(word, Bit::Present).then(|| (word >> 12, has(word, Bit::Writable)))
}

// What the hardware finds for a linear page.
pub fn look_up(words: &[u64], linear: u64) -> Option<(u64, bool)>
    ensures { result ≡ lookup words.now linear }
{
    walk_tables(words, linear).and_then(|met| translation(word_or(words, met.leaf, 0)))
}
