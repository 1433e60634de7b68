// Where a place may stand in the table.
ghost use Rattle.std.specs.Prelude.{◌≡◌, ◌<◌};
ghost use Rattle.powerpc_words.specs.Hashing.{vsid as virtual_segment, segment_of, hash as hash_of, group as group_of, entry_word};

use crate::fields::first_word;
use crate::slot::Group;
use pmap::place::Place;

// The virtual segment of a page's segment.
#[tactic(auto, unfolding(crate::specs::Hashing::vsid))]
pub fn vsid(at: Place) -> u32
    ensures value { result ≡ virtual_segment at.space (segment_of at.page) }
    ensures bound { result < 16777216 }
{
    16 * u32::from(at.space) + at.page / 65_536
}

#[tactic(auto, using(crate::proofs::HashLaws::hash_is))]
fn hash(at: Place) -> usize
    ensures value { result ≡ hash_of at.space at.page }
    ensures bound { result < 1024 }
{
    ((vsid(at) ^ at.page % 65_536) & 0x3ff) as usize
}

// The primary group of a place, or the secondary: its complement in ten bits.
#[tactic(auto, unfolding(crate::specs::Hashing::group))]
pub fn group(at: Place, secondary: bool) -> Group
    ensures { result ≡ group_of at.space at.page secondary }
{
    let hash = hash(at);
    Group::new(if secondary { 0x3ff - hash } else { hash })
}

// The first word of a place's entry in its primary or its secondary group.
#[tactic(auto, unfolding(crate::specs::Hashing::entry_word))]
pub fn entry_word(at: Place, secondary: bool) -> u32
    ensures { result ≡ entry_word at.space at.page secondary }
{
    first_word(vsid(at), u32::from(secondary), at.page % 65_536 / 1024)
}
