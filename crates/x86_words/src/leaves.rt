// The leaves: which one to take.
ghost use Rattle.std.specs.Prelude.{◌≡◌, ◌≤◌, ◌*◌, take, drop};
ghost use Rattle.std.specs.List.{list_any};
ghost use Rattle.x86_words.specs.Words.{wired};
ghost use Rattle.x86_words.specs.State.{leaf_after, free_from};

use crate::word::{Bit, has};

// Words in a table.
pub const TABLE: usize = 512;

pub const FIRST_LEAF: usize = 6;

pub const LAST_LEAF: usize = 15;

// A leaf, by the number of its table.
#[derive(Clone, Copy, PartialEq, Eq, Debug)]
pub struct Leaf {
    pub number: usize,
    ghost low: { 6 ≤ number },
    ghost high: { number ≤ 15 },
}

impl Leaf {
    // The leaf that comes after this one; the first after the last.
    pub fn after(self) -> Leaf
        ensures { result.number ≡ leaf_after self.number }
    {
        let number = if self.number == LAST_LEAF {
            FIRST_LEAF
        } else {
            self.number + 1
        };
        Leaf { number }
    }
}

// Whether some mapping in a leaf is wired.
fn holds_wired(words: &[u64], leaf: Leaf) -> bool
    ensures { result ≡ list_any wired (take 512 (drop (512 * leaf.number) words.now)) }
{
    let from = TABLE * leaf.number;
    words
        .iter()
        .skip(from)
        .take(TABLE)
        .any(|&word| has(word, Bit::Wired))
}

// The first leaf, from the counter on, without a wired mapping.
// After nine leaves with one, the tenth is taken unseen: with at most eight mappings wired it is never come to.
pub fn free_leaf(words: &[u64], next: Leaf) -> Leaf
    ensures { result.number ≡ free_from words.now next.number 9 }
{
    // A loop and no search over a chain: the leaves go round, and the last is not looked at.
    let mut leaf = next;
    for _step in FIRST_LEAF..LAST_LEAF {
        if !holds_wired(words, leaf) {
            return leaf;
        }
        leaf = leaf.after();
    }
    leaf
}
