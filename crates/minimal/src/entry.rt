// What a slot holds, and how a change leaves it.
ghost use Rattle.std.specs.Prelude.{◌≡◌, Some as Just};
ghost use Rattle.minimal.specs.Entries.{is_at, is_room, changed, entry_of};

use pmap::frame::Frame;
use pmap::place::Place;

// An entry of any numbers.
#[derive(Clone, Copy)]
pub struct Entry {
    pub space: u8,
    pub page: u32,
    pub frame: u16,
    pub protection: u8,
    pub wired: bool,
}

impl Entry {
    // Whether it is the entry of the place.
    pub fn is_of(self, place: Place) -> bool
        ensures { result ≡ is_at (Just self) place.space place.page }
    {
        self.space == place.space && self.page == place.page
    }
}

// An entry that a pmap can hold: its place and its frame are in range.
#[derive(Clone, Copy)]
pub struct Held {
    pub place: Place,
    pub frame: Frame,
    pub protection: u8,
    pub wired: bool,
}

impl Held {
    // The same in plain numbers.
    pub fn entry(self) -> Entry
        ensures { result ≡ entry_of self }
    {
        Entry {
            space: self.place.space,
            page: self.place.page,
            frame: self.frame.number,
            protection: self.protection,
            wired: self.wired,
        }
    }
}

// A change of every slot.
#[derive(Clone, Copy)]
pub enum Change {
    // the mapping of a place goes, and so does every unwired one
    Vacate(u8, u32),
    // the mapping of a place goes
    Remove(u8, u32),
    // the mapping of a place is lowered to protection 1
    Lower(u8, u32),
    // the mappings of a frame go
    Drop(u16),
}

// Whether a slot holds the place.
pub fn is_at(slot: Option<Entry>, space: u8, page: u32) -> bool
    ensures { result ≡ is_at slot space page }
{
    slot.is_some_and(|entry| entry.space == space && entry.page == page)
}

// Whether a wired mapping of the place can go into a slot.
pub fn is_room(slot: Option<Entry>, space: u8, page: u32) -> bool
    ensures { result ≡ is_room slot space page }
{
    slot.is_none() || is_at(slot, space, page)
}

// A slot after a change.
pub fn change_slot(slot: Option<Entry>, change: Change) -> Option<Entry>
    ensures { result ≡ changed change slot }
{
    let entry = slot?;
    match change {
        Change::Vacate(space, page) if is_at(slot, space, page) || !entry.wired => None,
        Change::Remove(space, page) if is_at(slot, space, page) => None,
        Change::Lower(space, page) if is_at(slot, space, page) => {
            Some(Entry {
                protection: 1,
                ..entry
            })
        }
        Change::Drop(frame) if entry.frame == frame => None,
        _ => slot,
    }
}
