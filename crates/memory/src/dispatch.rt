// The eight calls, each carried out or refused.
ghost use Rattle.std.specs.Prelude.{◌≡◌};
ghost use Rattle.memory.specs.Whole.{Serving};

use crate::memory::Memory;
use calls::Call;
use pmap::interface::Pmap;
use rules::answer::{Answer, Reply};
use rules::region::Region;

impl<P: Pmap> Memory<P> {
    // One call, not counted.
    pub(crate) fn serve(&mut self, call: Call) -> Reply
        ensures { Serving P.view self.old self.new call result }
    {
        match call {
            Call::Map {
                space,
                page,
                count,
                object,
                offset,
                protection,
            } => {
                self.map_region(Region {
                    space,
                    first: page,
                    count,
                    object,
                    offset,
                    protection,
                })?;
                Ok(Answer::Done)
            }
            Call::Unmap { space, page } => {
                self.unmap_region(space, page)?;
                Ok(Answer::Done)
            }
            Call::Protect {
                space,
                page,
                protection,
            } => {
                self.protect_region_at(space, page, protection)?;
                Ok(Answer::Done)
            }
            Call::Read { space, page } => Ok(Answer::Read(self.read_page(space, page)?)),
            Call::Write { space, page, word } => Ok(Answer::Wrote(self.write_page(
                space, page, word,
            )?)),
            Call::Wire { space, page } => Ok(Answer::Wired(self.wire_place(space, page)?)),
            Call::Unwire { space, page } => {
                self.unwire_place(space, page)?;
                Ok(Answer::Done)
            }
            Call::Sync { object } => Ok(Answer::Synced(self.sync_object(object)?)),
        }
    }
}
