// A memory over a pmap. Clauses see its parts, which keep what `Whole` says.
ghost use Rattle.std.specs.Prelude.{◌≡◌, ◌<◌};
ghost use Rattle.rules.specs.State.{is_modified as modified_in};
ghost use Rattle.memory_meaning.specs.Ready.{Bounded};
ghost use Rattle.memory.specs.Whole.{state};

use crate::parts::Parts;
use pmap::interface::Pmap;
use rules::counts::Counts;
use std::marker::Model;

#[derive(Drop)]
pub struct Memory<P: Pmap> {
    pub parts: Parts<P>,
}

impl<P: Pmap> Model for Memory<P> {
    ghost use Rattle.memory.specs.declared.parts.Parts.{Parts};

    ghost Value = { Parts P };

    ghost use Rattle.memory.specs.Whole.{Whole};

    ghost view = { λ m. m.parts };

    ghost invariant = { λ m. Whole P.view P.kept m.parts };
}

impl<P: Pmap> Memory<P> {
    // What it has counted.
    pub fn counts(&self) -> Counts
        ensures counts { result ≡ (state P.view self.now).counts }
        ensures bounded { Bounded result }
    {
        self.parts.counts
    }

    // Whether object page `x` is modified.
    pub fn is_modified(&self, x: usize) -> bool
        requires { x < 2048 }
        ensures { result ≡ modified_in (state P.view self.now) x }
    {
        let Some(frame) = self.parts.tables.frame_of(x) else {
            return false;
        };
        self.parts.pmap.modified(frame) == Ok(true)
    }
}
