// The searches of a group, and the hardware's lookup, on the table words alone.
ghost use Rattle.std.specs.Prelude.{◌≡◌, ◌<◌, false, true, length, MatchOption};
ghost use Rattle.powerpc_words.specs.Search.{slot_in, lookup as looked_up, unused as unused_of, unwired_in, victim_of};

use crate::hashing::{entry_word, group};
use crate::slot::{Group, Slot};
use pmap::place::Place;
use slots::word::word_or;

// The lowest of the eight slots of a group whose first word is the given one.
fn slot_in(words: &[u32], group: Group, first: u32) -> Option<Slot>
    ensures { result ≡ slot_in words.now group first }
{
    (0..8)
        .map(|place| group.slot(place))
        .find(|slot| word_or(words, 2 * slot.index(), 0) == first)
}

// The search of a place's primary group, or else of its secondary.
fn in_groups<F: Fn(bool) -> Option<Slot>>(search: F) -> Option<Slot>
    requires { F.IsAlwaysCallable search }
    ensures { (primary : _) × F.post search false primary × MatchOption primary (F.post search true result) (λ slot. result ≡ Some slot) }
{
    search(false).or_else(|| search(true))
}

// The hardware's lookup: the primary group, then the secondary.
#[tactic(auto, unfolding(crate::specs::Search::lookup))]
pub fn lookup(words: &[u32], at: Place) -> Option<Slot>
    ensures { result ≡ looked_up words.now at.space at.page }
{
    in_groups(|secondary| slot_in(words, group(at, secondary), entry_word(at, secondary)))
}

// The first invalid slot for a place.
#[tactic(auto, unfolding(crate::specs::Search::unused))]
pub fn unused(words: &[u32], at: Place) -> Option<Slot>
    ensures { result ≡ unused_of words.now at.space at.page }
{
    in_groups(|secondary| slot_in(words, group(at, secondary), 0))
}

// The first unwired slot of a group from the counter on.
fn unwired_in(wired: &[bool], group: Group, next: usize) -> Option<Slot>
    requires { (length wired.now ≡ 8192) × (next < 8) }
    ensures { result ≡ unwired_in wired.now group next }
{
    (next..next + 8)
        .map(|turn| group.slot(turn % 8))
        .find(|slot| !wired[slot.index()])
}

// The slot to forget for a place.
#[tactic(auto, unfolding(crate::specs::Search::victim_of))]
pub fn victim(wired: &[bool], next: usize, at: Place) -> Option<Slot>
    requires { (length wired.now ≡ 8192) × (next < 8) }
    ensures { result ≡ victim_of wired.now next at.space at.page }
{
    in_groups(|secondary| unwired_in(wired, group(at, secondary), next))
}
