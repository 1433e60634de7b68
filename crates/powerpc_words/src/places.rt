// Where the entry of a place may stand, for programs that show the table.
ghost use Rattle.std.specs.Prelude.{◌≡◌, ◌<◌, true, IfSome, IfOk};
ghost use Rattle.pmap.specs.Ranges.{fits_place};
ghost use Rattle.powerpc_words.specs.Answers.{or_range};
ghost use Rattle.powerpc_words.specs.Cases.{Cases as WorkedCases};
ghost use Rattle.powerpc_words.specs.Indices.{indices_of};
ghost use Rattle.powerpc_words.specs.Search.{lookup as looked_up};

use crate::hashing::{entry_word, group, vsid};
use crate::search::lookup;
use crate::slot::Slot;
use pmap::place::Place;
use refusal::pmap::PmapRefusal;

// The VSID of a place, its two groups, and the first word of its entry in each.
#[derive(Clone, Copy)]
pub struct Indices {
    pub vsid: u32,
    pub primary: usize,
    pub secondary: usize,
    pub first: u32,
    pub alternate: u32,
}

pub fn indices_of(space: u8, page: u32) -> Result<Indices, PmapRefusal>
    ensures { result ≡ or_range (fits_place space page) (indices_of space page) }
{
    let at = Place::new(space, page)?;
    Ok(Indices {
        vsid: vsid(at),
        primary: group(at, false).index(),
        secondary: group(at, true).index(),
        first: entry_word(at, false),
        alternate: entry_word(at, true),
    })
}

// The slot that the hardware's lookup finds for a place in the table words.
pub fn slot_of(words: &[u32], space: u8, page: u32) -> Result<Option<usize>, PmapRefusal>
    ensures value { result ≡ or_range (fits_place space page) (looked_up words.now space page) }
    ensures bound { IfOk result (λ found. IfSome found (λ k. k < 8192)) }
{
    let at = Place::new(space, page)?;
    Ok(lookup(words, at).map(Slot::index))
}

// The worked cases hold.
pub fn cases_hold() -> bool
    ensures answer { result ≡ true }
    ensures cases { WorkedCases }
{
    true
}
