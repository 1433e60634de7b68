// New tables.
ghost use Rattle.std.specs.Prelude.{◌≡◌, false, IfOk, vec_len};
ghost use Rattle.rules.specs.State.{fresh, no_counts, starting_words};
ghost use Rattle.tables.specs.Held.{state_of};

use crate::table::Tables;
use std::alloc::{AllocError, Global};

// The backing store of a new memory: each object page has its number.
fn starting_words(heap: Global) -> Result<Vec<u32>, AllocError>
    ensures items { IfOk result (λ v. v.items ≡ starting_words) }
    ensures len { IfOk result (λ v. vec_len v ≡ 2048) }
{
    (0..2048u32).collect(heap)
}

impl Tables {
    // All that later calls need is allocated here.
    pub fn new(heap: Global, frames: u16) -> Result<Tables, AllocError>
        ensures { IfOk result (λ t. state_of t (λ _. false) no_counts ≡ fresh frames) }
    {
        Ok(Tables {
            frames,
            regions: Vec::with_capacity(heap, 64)?,
            lies: vec![in heap; None; 2048]?,
            owners: vec![in heap; 0; 256]?,
            queue: Vec::with_capacity(heap, 256)?,
            words: vec![in heap; 0; 256]?,
            store: starting_words(heap)?,
            wired: Vec::with_capacity(heap, 8)?,
        })
    }
}
