// The searches on a board's own words and marks.
ghost use Rattle.std.specs.Prelude.{◌≡◌};
ghost use Rattle.powerpc.specs.Reads.{state};
ghost use Rattle.powerpc_words.specs.Search.{lookup as looked_up, unused as unused_of, victim as victim_of};

use crate::board::Board;
use pmap::place::Place;
use powerpc_words::search::{lookup, unused, victim};
use powerpc_words::slot::Slot;

impl Board {
    // The hardware's lookup.
    pub(crate) fn lookup(&self, at: Place) -> Option<Slot>
        ensures { result ≡ looked_up self.now.words.items at.space at.page }
    {
        lookup(&self.words, at)
    }

    // The first invalid slot for a place.
    pub(crate) fn unused(&self, at: Place) -> Option<Slot>
        ensures { result ≡ unused_of self.now.words.items at.space at.page }
    {
        unused(&self.words, at)
    }

    // The slot to forget for a place.
    pub(crate) fn victim(&self, at: Place) -> Option<Slot>
        ensures { result ≡ victim_of (state self.now) at.space at.page }
    {
        victim(&self.wired, self.next, at)
    }
}
