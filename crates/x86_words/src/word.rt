// The bits and fields of a table word.
ghost use Rattle.std.specs.Prelude.{◌≡◌, ◌<◌, ◌^◌, IfSome};
ghost use Rattle.x86_words.specs.Words.{place_of, is_on, put_on, put_off, frame_of, protection_of, leaf_word, pointer as pointer_to, table_of, points_to, serves as lets, maps as maps_to};

// A bit, by its place in the word.
#[derive(Clone, Copy, PartialEq, Eq, Debug)]
pub enum Bit {
    Present = 0,
    Writable = 1,
    User = 2,
    Accessed = 5,
    Dirty = 6,
    Wired = 9,
}

// The physical page of table 0; the others follow.
// A table is a plain number below 16: the definitions of walks reckon with it.
pub const FIRST_TABLE: u64 = 256;

pub const TABLES: u64 = 16;

impl Bit {
    // The word with this bit alone.
    fn mask(self) -> u64
        ensures { result ≡ 2 ^ place_of self }
    {
        1 << self as u64
    }
}

// Whether a bit of the word is on.
#[tactic(auto, using(crate::proofs::Bits::test_bit), unfolding(crate::specs::Words::is_on))]
pub fn has(word: u64, bit: Bit) -> bool
    ensures { result ≡ is_on bit word }
{
    word & bit.mask() != 0
}

// The word with a bit on.
#[tactic(auto, using(crate::proofs::Bits::or_bit), unfolding(crate::specs::Words::put_on))]
pub fn with(word: u64, bit: Bit) -> u64
    ensures { result ≡ put_on bit word }
{
    word | bit.mask()
}

// The word with a bit off.
#[tactic(auto, using(crate::proofs::Bits::and_not_bit), unfolding(crate::specs::Words::put_off))]
pub fn without(word: u64, bit: Bit) -> u64
    ensures { result ≡ put_off bit word }
{
    word & !bit.mask()
}

// The frame that a leaf word names.
#[tactic(auto, using(std::proofs::lemmas::Nat::and_mask), unfolding(crate::specs::Words::frame_of))]
pub fn frame(word: u64) -> u16
    ensures is { result ≡ frame_of word }
    ensures bound { result < 256 }
{
    (word >> 12 & 0xff) as u16
}

// The protection that a leaf word gives: 3 where it is writable, else 1.
pub fn protection(word: u64) -> u8
    ensures { result ≡ protection_of word }
{
    if has(word, Bit::Writable) { 3 } else { 1 }
}

// The fresh word of a mapping.
#[tactic(auto, unfolding(crate::specs::Words::leaf_word))]
pub fn leaf(frame: u16, protection: u8, wired: bool) -> u64
    ensures { result ≡ leaf_word frame protection wired }
{
    let right = if protection == 3 {
        Bit::Writable.mask()
    } else {
        0
    };
    let mark = if wired { Bit::Wired.mask() } else { 0 };
    u64::from(frame) * 4096 + Bit::Present.mask() + Bit::User.mask() + right + mark
}

// The word that points down to a table.
#[tactic(auto, unfolding(crate::specs::Words::pointer))]
pub fn pointer(table: usize) -> u64
    requires { table < 16 }
    ensures { result ≡ pointer_to table }
{
    (FIRST_TABLE + table as u64) * 4096
        + Bit::Present.mask()
        + Bit::Writable.mask()
        + Bit::User.mask()
}

// The table that a word points to, if it is present and names one.
#[tactic(auto, unfolding(crate::specs::Words::table_of))]
pub fn table_below(word: u64) -> Option<usize>
    ensures is { result ≡ table_of word }
    ensures bound { IfSome result (λ t. t < 16) }
{
    let page = word >> 12;
    if has(word, Bit::Present) && FIRST_TABLE <= page && page < FIRST_TABLE + TABLES {
        Some((page - FIRST_TABLE) as usize)
    } else {
        None
    }
}

#[tactic(auto, unfolding(crate::specs::Words::points_to))]
pub fn points_to(word: u64, table: usize) -> bool
    requires { table < 16 }
    ensures { result ≡ points_to word table }
{
    has(word, Bit::Present) && word >> 12 == FIRST_TABLE + table as u64
}

// Whether a leaf word lets a read or a write pass.
pub fn serves(word: u64, write: bool) -> bool
    ensures { result ≡ lets word write }
{
    has(word, Bit::Present) && (!write || has(word, Bit::Writable))
}

// Whether a leaf word maps the frame.
pub fn maps(word: u64, wanted: u16) -> bool
    ensures { result ≡ maps_to word wanted }
{
    has(word, Bit::Present) && frame(word) == wanted
}
