// Sync: the modified pages of an object go to the backing store.
ghost use Rattle.std.specs.Prelude.{MatchResult};
ghost use Rattle.calls.specs.declared.Call.TheVariants.{Sync};
ghost use Rattle.memory_meaning.specs.Storing.{OnePageEach};
ghost use Rattle.memory_meaning.specs.Replies.{synced_reply, StoresObject};
ghost use Rattle.memory.specs.Whole.{Serving};

use crate::memory::Memory;
use memory_meaning::pages::store_pages;
use pmap::interface::Pmap;
use refusal::memory::MemoryRefusal;
use refusal::pmap::PmapRefusal;
use tables::table::Tables;

// The same at the tables of a memory.
fn store_object<P: Pmap>(object: u8, pmap: &mut P, tables: &mut Tables) -> Result<u32, PmapRefusal>
    requires { (P.kept pmap.old) × (OnePageEach tables.old.lies.items) }
    ensures stores { MatchResult result (λ n. StoresObject (P.view pmap.old) (P.view pmap.new) tables.old tables.new object n) (λ _. ⊥) }
    ensures kept { P.kept pmap.new }
{
    store_pages(&tables.lies, object, pmap, &tables.words, &mut tables.store)
}

impl<P: Pmap> Memory<P> {
    // Stores the modified pages of an object, and says how many there were.
    pub(crate) fn sync_object(&mut self, object: u8) -> Result<u32, MemoryRefusal>
        ensures { Serving P.view self.old self.new (Sync object) (synced_reply result) }
    {
        if object >= 8 {
            return Err(MemoryRefusal::Range);
        }
        let stored = store_object(object, &mut self.parts.pmap, &mut self.parts.tables)?;
        Ok(stored)
    }
}
