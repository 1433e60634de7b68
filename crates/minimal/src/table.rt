// The minimal pmap: eight slots for wired mappings, one for the latest entry, and a mark for each frame.
ghost use Rattle.std.specs.Prelude.{◌≡◌, Some as Just, OnOk};
ghost use Rattle.pmap.specs.Meaning.{Cleared, PutForgetting, Enters, Unwires, Accesses};
ghost use Rattle.minimal.specs.Entries.{mapping_of, found, entry_of, Room, OnlyWired};
ghost use Rattle.minimal.specs.Seen.{seen, UnwireForgets};

use crate::entry::Held;
use crate::slots::{LATEST, Slots};
use pmap::access::Access;
use pmap::frame::Frame;
use pmap::interface::Pmap;
use pmap::place::Place;
use pmap::range::{allows, fits_entry};
use refusal::pmap::PmapRefusal;

#[derive(Drop)]
pub struct Minimal {
    slots: Slots,
    marks: [bool; 256],
}

impl Minimal {
    pub fn new() -> Minimal
        ensures { Cleared (seen result) }
    {
        Minimal {
            slots: Slots::new(),
            marks: [false; 256],
        }
    }

    // Forgets what is held at an entry's place and every unwired mapping, and puts the entry into a slot.
    fn put(&mut self, at: usize, entry: Held)
        requires { Room self.old.slots.list at (entry_of entry) }
        ensures meaning { PutForgetting (seen self.old) (seen self.new) entry.place.space entry.place.page (mapping_of (Just (entry_of entry))) (seen self.old).modified }
        ensures only { OnlyWired (seen self.new) entry.place.space entry.place.page }
    {
        self.slots = self.slots.put(at, entry);
    }
}

impl Pmap for Minimal {
    ghost view = { seen };

    // the slots keep what they need by their type
    ghost kept = { λ _. Unit {0} };

    fn clear(&mut self) {
        self.slots = Slots::new();
        self.marks = [false; 256];
    }

    fn enter(
        &mut self,
        space: u8,
        page: u32,
        frame: u16,
        protection: u8,
        wired: bool,
    ) -> Result<(), PmapRefusal>
        ensures meaning { Enters (seen self.old) (seen self.new) space page frame protection wired result }
        ensures only { OnOk result (OnlyWired (seen self.new) space page) }
    {
        if !fits_entry(space, page, frame, protection) {
            return Err(PmapRefusal::Range);
        }
        let entry = Held {
            place: Place::new(space, page)?,
            frame: Frame::new(frame)?,
            protection,
            wired,
        };
        let at = self.slots.room_for(entry).ok_or(PmapRefusal::WiredFull)?;
        self.put(at, entry);
        Ok(())
    }

    fn remove(&mut self, space: u8, page: u32) -> Result<(), PmapRefusal> {
        self.slots = self.slots.remove(Place::new(space, page)?);
        Ok(())
    }

    fn lower(&mut self, space: u8, page: u32) -> Result<(), PmapRefusal> {
        self.slots = self.slots.lower(Place::new(space, page)?);
        Ok(())
    }

    fn drop_frame(&mut self, frame: u16) -> Result<(), PmapRefusal> {
        self.slots = self.slots.drop_frame(Frame::new(frame)?);
        Ok(())
    }

    fn unwire(&mut self, space: u8, page: u32) -> Result<(), PmapRefusal>
        ensures meaning { Unwires (seen self.old) (seen self.new) space page result }
        ensures only { OnOk result (UnwireForgets self.old self.new space page (found self.old.slots.list space page)) }
    {
        let place = Place::new(space, page)?;
        if let Some(entry) = self.slots.find(place) {
            self.put(
                LATEST,
                Held {
                    place,
                    wired: false,
                    ..entry
                },
            );
        }
        Ok(())
    }

    fn access(&mut self, space: u8, page: u32, write: bool) -> Result<Access, PmapRefusal>
        ensures meaning { Accesses (seen self.old) (seen self.new) space page write result }
        ensures slots { self.new.slots ≡ self.old.slots }
    {
        let Some(entry) = self.slots.find(Place::new(space, page)?) else {
            return Ok(Access::Miss);
        };
        if !allows(entry.protection, write) {
            return Ok(Access::Miss);
        }
        if write {
            self.marks[entry.frame.index()] = true;
        }
        Ok(Access::Hit(entry.frame.number))
    }

    fn find(&self, space: u8, page: u32) -> Result<Option<(u16, u8, bool)>, PmapRefusal> {
        let entry = self.slots.find(Place::new(space, page)?);
        Ok(entry.map(|entry| (entry.frame.number, entry.protection, entry.wired)))
    }

    fn modified(&self, frame: u16) -> Result<bool, PmapRefusal> {
        let frame = Frame::new(frame)?;
        Ok(self.marks[frame.index()])
    }

    fn clear_modified(&mut self, frame: u16) -> Result<(), PmapRefusal> {
        let frame = Frame::new(frame)?;
        self.marks[frame.index()] = false;
        Ok(())
    }
}
