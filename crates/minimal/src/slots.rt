// The slots: eight for wired mappings and one for the latest entry; searches and changes of any list of slots.
ghost use Rattle.std.specs.Prelude.{◌≡◌, true, map, option_map, take, position, replicate, slice_set, Some as Just, None as Nothing, IfSome, IsNone, ◌↔◌};
ghost use Rattle.pmap.specs.Meaning.{Crowded};
ghost use Rattle.minimal.specs.Entries.{after, vacated, removed, lowered, dropped, changed, is_room, found, held_in, entry_of, Sound, Placed, Room};

use crate::entry::{Change, Entry, Held, change_slot, is_at};
use pmap::frame::Frame;
use pmap::place::Place;
use pmap::range::WIRED_PLACES;

// the slot of the latest entry; those before it are for wired mappings
pub const LATEST: usize = WIRED_PLACES;

#[derive(Clone, Copy)]
pub struct Slots {
    list: [Option<Entry>; 9],
    ghost sound: { Sound list },
    ghost placed: { Placed list },
}

impl Slots {
    pub fn new() -> Slots
        ensures { result.list ≡ replicate 9 Nothing }
    {
        Slots { list: [None; 9] }
    }

    // The entry of the place.
    #[tactic(auto, using(crate::proofs::Wired::found_frame, crate::proofs::Wired::found_place_of))]
    pub fn find(&self, place: Place) -> Option<Held>
        ensures { option_map entry_of result ≡ found self.now.list place.space place.page }
    {
        let entry = find_entry(&self.list, place.space, place.page)?;
        Some(Held {
            place,
            frame: Frame {
                number: entry.frame,
            },
            protection: entry.protection,
            wired: entry.wired,
        })
    }

    // The first of the slots for wired mappings that is empty or holds the place.
    fn find_room(&self, place: Place) -> Option<usize>
        ensures { result ≡ position (λ slot. is_room slot place.space place.page) (take 8 self.now.list) }
    {
        self.list[..WIRED_PLACES]
            .iter()
            .position(|slot| slot.is_none_or(|entry| entry.is_of(place)))
    }

    // The slot that an entry can go into; a wired one finds none where eight other places are wired.
    pub fn room_for(&self, entry: Held) -> Option<usize>
        ensures room { IfSome result (λ at. Room self.now.list at (entry_of entry)) }
        ensures full { IsNone result ↔ ((entry.wired ≡ true) × Crowded (held_in self.now.list) entry.place.space entry.place.page) }
    {
        if entry.wired {
            self.find_room(entry.place)
        } else {
            Some(LATEST)
        }
    }

    // The mapping of the place goes. Written slot by slot: an array's `map` and `filter` copy each one out and back.
    pub fn remove(self, place: Place) -> Slots
        ensures { result.list ≡ map (after (removed place.space place.page)) self.list }
    {
        let mut list = self.list;
        for slot in list.iter_mut() {
            if slot.is_some_and(|held| held.is_of(place)) {
                *slot = None;
            }
        }
        Slots { list }
    }

    // The mapping of the place is lowered to protection 1. Written slot by slot, as `remove`.
    pub fn lower(self, place: Place) -> Slots
        ensures { result.list ≡ map (after (lowered place.space place.page)) self.list }
    {
        let mut list = self.list;
        for slot in list.iter_mut() {
            if let Some(entry) = slot {
                if entry.is_of(place) {
                    entry.protection = 1;
                }
            }
        }
        Slots { list }
    }

    // The mappings of the frame go.
    pub fn drop_frame(self, frame: Frame) -> Slots
        ensures { result.list ≡ map (after (dropped frame.number)) self.list }
    {
        let list = self
            .list
            .map(|slot| slot.filter(|entry| entry.frame != frame.number));
        Slots { list }
    }

    // The mapping of an entry's place goes, and so does every unwired one; then the entry stands in a slot.
    pub fn put(self, at: usize, entry: Held) -> Slots
        requires { Room self.list at (entry_of entry) }
        ensures { result.list ≡ slice_set (map (after (vacated entry.place.space entry.place.page)) self.list) at (Just (entry_of entry)) }
    {
        let plain = entry.entry();
        let mut list = self.list;
        for slot in list.iter_mut() {
            if slot.is_some_and(|held| !held.wired || held.is_of(entry.place)) {
                *slot = None;
            }
        }
        list[at] = Some(plain);
        Slots { list }
    }
}

// Makes a change in every slot.
pub fn change_slots(slots: &mut [Option<Entry>], change: Change)
    ensures { slots.new ≡ map (changed change) slots.old }
{
    for slot in slots.iter_mut() {
        *slot = change_slot(*slot, change);
    }
}

// The entry of the place.
pub fn find_entry(slots: &[Option<Entry>], space: u8, page: u32) -> Option<Entry>
    ensures { result ≡ found slots.now space page }
{
    slots
        .iter()
        .find(|slot| is_at(**slot, space, page))
        .copied()
        .flatten()
}
