// Reads and writes.
ghost use Rattle.std.specs.Prelude.{◌≡◌};
ghost use Rattle.calls.specs.declared.Call.TheVariants.{Read as ReadCall, Write as WriteCall};
ghost use Rattle.memory_meaning.specs.Replies.{read_reply, wrote_reply};
ghost use Rattle.memory.specs.Whole.{Serving, Whole};

use crate::memory::Memory;
use pmap::interface::Pmap;
use refusal::memory::MemoryRefusal;
use rules::answer::{Reading, Report};

impl<P: Pmap> Memory<P> {
    // The word of the place's object page.
    pub fn read_page(&mut self, space: u8, page: u32) -> Result<Reading, MemoryRefusal>
        ensures serves { Serving P.view self.old self.new (ReadCall space page) (read_reply result) }
        ensures whole { Whole P.view P.kept self.new }
    {
        let reached = self.parts.reach(space, page, false)?;
        let word = self.parts.tables.word(reached.frame);
        Ok(Reading {
            report: reached.report,
            word,
        })
    }

    // Writes a word to the place's object page.
    pub fn write_page(&mut self, space: u8, page: u32, word: u32) -> Result<Report, MemoryRefusal>
        ensures serves { Serving P.view self.old self.new (WriteCall space page word) (wrote_reply result) }
        ensures whole { Whole P.view P.kept self.new }
    {
        let reached = self.parts.reach(space, page, true)?;
        self.parts.tables.write_word(reached.frame, word);
        Ok(reached.report)
    }
}
