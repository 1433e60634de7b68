// The calls of a pmap, each with its meaning.
ghost use Rattle.pmap.specs.Meaning.{View, Cleared, Enters, Removes, Lowers, Drops, Unwires, Accesses, Finds, Tells, Unmarks};

use crate::access::Access;
use refusal::pmap::PmapRefusal;

// The calls take plain numbers, since they refuse those out of range by number; `find` answers a tuple, as the project asks.
pub trait Pmap {
    // what is held, and which frames are modified
    ghost view: { Self → View };

    // what the calls keep from `clear` on
    ghost kept: { Self → Type 0 };

    fn clear(&mut self)
        ensures meaning { Cleared (view self.new) }
        ensures kept { kept self.new };

    // Holds exactly the given mapping at the place.
    fn enter(
        &mut self,
        space: u8,
        page: u32,
        frame: u16,
        protection: u8,
        wired: bool,
    ) -> Result<(), PmapRefusal>
        requires { kept self.old }
        ensures meaning { Enters (view self.old) (view self.new) space page frame protection wired result }
        ensures kept { kept self.new };

    // Takes away the mapping at the place.
    fn remove(&mut self, space: u8, page: u32) -> Result<(), PmapRefusal>
        requires { kept self.old }
        ensures meaning { Removes (view self.old) (view self.new) space page result }
        ensures kept { kept self.new };

    // Turns protection 3 at the place into 1.
    fn lower(&mut self, space: u8, page: u32) -> Result<(), PmapRefusal>
        requires { kept self.old }
        ensures meaning { Lowers (view self.old) (view self.new) space page result }
        ensures kept { kept self.new };

    // Removes every mapping of the frame.
    fn drop_frame(&mut self, frame: u16) -> Result<(), PmapRefusal>
        requires { kept self.old }
        ensures meaning { Drops (view self.old) (view self.new) frame result }
        ensures kept { kept self.new };

    // Takes the wired mark off at the place.
    fn unwire(&mut self, space: u8, page: u32) -> Result<(), PmapRefusal>
        requires { kept self.old }
        ensures meaning { Unwires (view self.old) (view self.new) space page result }
        ensures kept { kept self.new };

    // A read or a write: a hit with its frame, or a miss.
    fn access(&mut self, space: u8, page: u32, write: bool) -> Result<Access, PmapRefusal>
        requires { kept self.old }
        ensures meaning { Accesses (view self.old) (view self.new) space page write result }
        ensures kept { kept self.new };

    // The frame, the protection and the wired mark held at the place, or none.
    fn find(&self, space: u8, page: u32) -> Result<Option<(u16, u8, bool)>, PmapRefusal>
        requires { kept self.now }
        ensures { Finds (view self.now) space page result };

    // Whether the frame is modified.
    fn modified(&self, frame: u16) -> Result<bool, PmapRefusal>
        requires { kept self.now }
        ensures { Tells (view self.now) frame result };

    // Takes the frame out of the modified ones.
    fn clear_modified(&mut self, frame: u16) -> Result<(), PmapRefusal>
        requires { kept self.old }
        ensures meaning { Unmarks (view self.old) (view self.new) frame result }
        ensures kept { kept self.new };
}
