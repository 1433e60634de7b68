// How many places are wired.
ghost use Rattle.std.specs.Prelude.{◌≡◌, None};
ghost use Rattle.pmap.specs.Tally.{tally};
ghost use Rattle.x86_words.specs.State.{wired_beside, crowded};
ghost use Rattle.x86_words.specs.Within.{Within};
ghost use Rattle.x86.specs.Reads.{state};

use super::{Board, LEAVES};
use pmap::place::Place;
use pmap::range::WIRED_PLACES;
use slots::word::word_or;
use x86_words::walk::Walk;
use x86_words::word::{Bit, has};

impl Board {
    // How many leaf words are wired.
    // A `for` and no chain that is counted, which looks at the words one by one: a wired enter took four times its time that way.
    fn count_wired(&self) -> usize
        ensures { result ≡ tally (wired_beside (state self.now) None) 8192 }
    {
        let mut count = 0;
        let leaves = &self.words[LEAVES..];
        for word in leaves {
            if has(*word, Bit::Wired) {
                count += 1;
            }
        }
        count
    }

    // Whether the word at a position is one of a leaf and is wired.
    fn is_wired_leaf(&self, at: usize) -> bool
        ensures { result ≡ wired_beside (state self.now) None at }
    {
        LEAVES <= at && has(word_or(&self.words, at, 0), Bit::Wired)
    }

    // How many leaf words are wired beside that of the place itself.
    #[tactic(auto, using(crate::proofs::Wirings::beside_wired, crate::proofs::Wirings::beside_unwired))]
    fn count_beside(&self, own: Option<Walk>) -> usize
        requires { Within own }
        ensures { result ≡ tally (wired_beside (state self.now) own) 8192 }
    {
        let wired = self.count_wired();
        match own {
            Some(met) if self.is_wired_leaf(met.leaf) => wired - 1,
            _ => wired,
        }
    }

    // Whether as many other places are wired as may be.
    // Not inlined: the other half of an enter, the taking of a leaf, is slower with this beside it in one function.
    #[inline(never)]
    pub(super) fn is_crowded(&self, place: Place) -> bool
        ensures { result ≡ crowded (state self.now) place.space place.page }
    {
        self.count_beside(self.walk(place)) >= WIRED_PLACES
    }
}
