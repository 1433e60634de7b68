// Runs of pmap calls over the pages of a region.
ghost use Rattle.std.specs.Prelude.{◌≡◌, ℕ, ◌+◌, ◌<◌, ◌≤◌, true, length, is_ok, Some, MatchResult, Option as Maybe};
ghost use Rattle.pmap.specs.Meaning.{Mapping, lowered};
ghost use Rattle.memory_meaning.specs.Ranges.{Over, EachChanges, nothing};
ghost use Rattle.memory_meaning.specs.Storing.{StoresOne, StoresBelow, OnePageEach};

use pmap::interface::Pmap;
use refusal::pmap::PmapRefusal;

// Changes the mappings of `count` pages from the first on, each by one call. Space, first page and count come apart, as the
// definition of what changes takes them.
fn change_pages<P: Pmap, F: Fn(&mut P, u8, u32) -> Result<(), PmapRefusal>>(
    pmap: &mut P,
    space: u8,
    first: u32,
    count: u16,
    change: F,
) -> Result<(), PmapRefusal>
    requires kept { P.kept pmap.old }
    requires range { (space < 4) × (first + count ≤ 262144) }
    requires takes { (y : _) (page : _) → P.kept y.now → F.pre change y space page }
    requires passes { (y z : _) (page : _) (r : _) → P.kept y.now → F.post change y space page r z → page < 262144 → (is_ok r ≡ true) × P.kept z.now }
    ensures passes { is_ok result ≡ true }
    ensures changed { (to : Maybe Mapping → Maybe Mapping) → EachChanges (F.post change) (λ y. P.kept y.now) (λ y. P.view y.now) to space → Over to (P.view pmap.old) (P.view pmap.new) space first count }
    ensures kept { P.kept pmap.new }
{
    for page in first..first + u32::from(count) {
        change(pmap, space, page)?;
    }
    Ok(())
}

// Removes the mappings of `count` pages from the first on.
pub fn remove_pages<P: Pmap>(
    pmap: &mut P,
    space: u8,
    first: u32,
    count: u16,
) -> Result<(), PmapRefusal>
    requires { (P.kept pmap.old) × ((space < 4) × (first + count ≤ 262144)) }
    ensures passes { is_ok result ≡ true }
    ensures removed { Over nothing (P.view pmap.old) (P.view pmap.new) space first count }
    ensures kept { P.kept pmap.new }
{
    change_pages(
        pmap,
        space,
        first,
        count,
        |pmap, space, page| pmap.remove(space, page),
    )
}

// Lowers the mappings of `count` pages from the first on.
pub fn lower_pages<P: Pmap>(
    pmap: &mut P,
    space: u8,
    first: u32,
    count: u16,
) -> Result<(), PmapRefusal>
    requires { (P.kept pmap.old) × ((space < 4) × (first + count ≤ 262144)) }
    ensures passes { is_ok result ≡ true }
    ensures lowered { Over lowered (P.view pmap.old) (P.view pmap.new) space first count }
    ensures kept { P.kept pmap.new }
{
    change_pages(
        pmap,
        space,
        first,
        count,
        |pmap, space, page| pmap.lower(space, page),
    )
}

// Stores the word of object page `x` if it is a modified page of the object, and says whether it was.
// A struct of the last five would be no plainer: they are borrowed apart, by one caller.
pub fn store_page<P: Pmap>(
    x: usize,
    page: Option<u16>,
    object: u8,
    pmap: &mut P,
    words: &[u32],
    store: &mut [u32],
) -> Result<bool, PmapRefusal>
    requires { (P.kept pmap.old) × ((x < length store.old) × ((length words.now ≡ 256) × (((f : ℕ) → page ≡ Some f → f < 256)))) }
    ensures stores { MatchResult result (λ b. StoresOne (P.view pmap.old) (P.view pmap.new) store.old store.new words.now object x page b) (λ _. ⊥) }
    ensures kept { P.kept pmap.new }
{
    if x / 256 != usize::from(object) {
        return Ok(false);
    }
    let Some(frame) = page else {
        return Ok(false);
    };
    if !pmap.modified(frame)? {
        return Ok(false);
    }
    store[x] = words[usize::from(frame)];
    pmap.clear_modified(frame)?;
    Ok(true)
}

// Stores the modified pages of an object by rising index, clears their frames' modified state, and says how many there were.
pub fn store_pages<P: Pmap>(
    records: &[Option<u16>],
    object: u8,
    pmap: &mut P,
    words: &[u32],
    store: &mut [u32],
) -> Result<u32, PmapRefusal>
    requires { (P.kept pmap.old) × ((length records.now ≡ 2048) × ((length store.old ≡ 2048) × ((length words.now ≡ 256) × (OnePageEach records.now)))) }
    ensures stores { MatchResult result (λ n. StoresBelow (P.view pmap.old) (P.view pmap.new) store.old store.new words.now records.now object 2048 n) (λ _. ⊥) }
    ensures kept { P.kept pmap.new }
{
    let mut stored: u32 = 0;
    for (x, page) in records.iter().enumerate() {
        stored += u32::from(store_page(x, *page, object, pmap, words, store)?);
    }
    Ok(stored)
}
