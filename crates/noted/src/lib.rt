// A layer that keeps beside any pmap which frames are modified, so that the question goes no further. It is a pmap itself.

#![tactic(auto)]

ghost use Rattle.std.specs.Prelude.{◌≡◌, true, slice_set};
ghost use Rattle.pmap.specs.Meaning.{Cleared, Enters, Removes, Lowers, Drops, Unwires, Accesses, Unmarks};
ghost use Rattle.noted.specs.Flags.{Tell, written, cleaned};

use pmap::access::Access;
use pmap::frame::Frame;
use pmap::interface::Pmap;
use pmap::range::fits_frame;
use refusal::pmap::PmapRefusal;

#[derive(Drop)]
pub struct Noted<P: Pmap> {
    below: P,
    flags: [bool; 256],
    ghost told: { Tell flags (P.view below).modified },
}

impl<P: Pmap> Noted<P> {
    // Clears the pmap and owns it.
    pub fn new(mut below: P) -> Noted<P>
        ensures meaning { Cleared (P.view result.below) }
        ensures kept { P.kept result.below }
    {
        below.clear();
        Noted {
            below,
            flags: [false; 256],
        }
    }

    pub fn below(&self) -> &P
        ensures { result.now ≡ self.now.below }
    {
        &self.below
    }
}

// Puts the flag of a frame on. A number that is no frame has none.
fn note(flags: &mut [bool; 256], frame: u16)
    ensures { flags.new ≡ slice_set flags.old frame true }
{
    if fits_frame(frame) {
        flags[usize::from(frame)] = true;
    }
}

impl<P: Pmap> Pmap for Noted<P> {
    ghost view = { λ s. P.view s.below };

    ghost kept = { λ s. P.kept s.below };

    fn clear(&mut self)
        ensures meaning { Cleared (P.view self.new.below) }
        ensures kept { P.kept self.new.below }
    {
        self.below.clear();
        self.flags = [false; 256];
    }

    fn enter(
        &mut self,
        space: u8,
        page: u32,
        frame: u16,
        protection: u8,
        wired: bool,
    ) -> Result<(), PmapRefusal>
        requires { P.kept self.old.below }
        ensures meaning { Enters (P.view self.old.below) (P.view self.new.below) space page frame protection wired result }
        ensures kept { P.kept self.new.below }
        ensures flags { self.new.flags ≡ self.old.flags }
    {
        self.below.enter(space, page, frame, protection, wired)
    }

    fn remove(&mut self, space: u8, page: u32) -> Result<(), PmapRefusal>
        requires { P.kept self.old.below }
        ensures meaning { Removes (P.view self.old.below) (P.view self.new.below) space page result }
        ensures kept { P.kept self.new.below }
        ensures flags { self.new.flags ≡ self.old.flags }
    {
        self.below.remove(space, page)
    }

    fn lower(&mut self, space: u8, page: u32) -> Result<(), PmapRefusal>
        requires { P.kept self.old.below }
        ensures meaning { Lowers (P.view self.old.below) (P.view self.new.below) space page result }
        ensures kept { P.kept self.new.below }
        ensures flags { self.new.flags ≡ self.old.flags }
    {
        self.below.lower(space, page)
    }

    fn drop_frame(&mut self, frame: u16) -> Result<(), PmapRefusal>
        requires { P.kept self.old.below }
        ensures meaning { Drops (P.view self.old.below) (P.view self.new.below) frame result }
        ensures kept { P.kept self.new.below }
        ensures flags { self.new.flags ≡ self.old.flags }
    {
        self.below.drop_frame(frame)
    }

    fn unwire(&mut self, space: u8, page: u32) -> Result<(), PmapRefusal>
        requires { P.kept self.old.below }
        ensures meaning { Unwires (P.view self.old.below) (P.view self.new.below) space page result }
        ensures kept { P.kept self.new.below }
        ensures flags { self.new.flags ≡ self.old.flags }
    {
        self.below.unwire(space, page)
    }

    fn access(&mut self, space: u8, page: u32, write: bool) -> Result<Access, PmapRefusal>
        requires { P.kept self.old.below }
        ensures meaning { Accesses (P.view self.old.below) (P.view self.new.below) space page write result }
        ensures kept { P.kept self.new.below }
        ensures flags { self.new.flags ≡ written self.old.flags write result }
    {
        let access = self.below.access(space, page, write)?;
        if let Access::Hit(frame) = access {
            if write {
                note(&mut self.flags, frame);
            }
        }
        Ok(access)
    }

    fn find(&self, space: u8, page: u32) -> Result<Option<(u16, u8, bool)>, PmapRefusal> {
        self.below.find(space, page)
    }

    // The answer is the flag's; the pmap below is not asked.
    fn modified(&self, frame: u16) -> Result<bool, PmapRefusal> {
        Ok(self.flags[Frame::new(frame)?.index()])
    }

    fn clear_modified(&mut self, frame: u16) -> Result<(), PmapRefusal>
        requires { P.kept self.old.below }
        ensures meaning { Unmarks (P.view self.old.below) (P.view self.new.below) frame result }
        ensures kept { P.kept self.new.below }
        ensures flags { self.new.flags ≡ cleaned self.old.flags frame result }
    {
        self.below.clear_modified(frame)?;
        self.flags[usize::from(frame)] = false;
        Ok(())
    }
}
