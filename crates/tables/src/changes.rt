// What changes the tables. Nothing here allocates.
// Frames come as numbers: the queue holds numbers, which the state keeps below 256, and a pmap takes numbers. So do object pages:
// they are places in the lists, as the rules have them.
ghost use Rattle.std.specs.Prelude.{◌≡◌, ℕ, ◌<◌, Bool, [], ◌∷◌, ◌++◌, vec_len, slice_index, slice_index_or, slice_set};
ghost use Rattle.std.specs.List.{remove};
ghost use Rattle.rules.specs.declared.counts.Counts.{Counts};
ghost use Rattle.rules.specs.declared.region.Region.{Region as RegionRecord};
ghost use Rattle.rules.specs.Lists.{without};
ghost use Rattle.rules.specs.Refusals.{is_place};
ghost use Rattle.rules.specs.Paging.{load as loaded};
ghost use Rattle.rules.specs.Rules.{with_regions, with_wired, with_protection};
ghost use Rattle.tables.specs.Held.{state_of, saved_to, released, word_written};

use crate::table::Tables;
use rules::region::{Region, WiredPlace};

impl Tables {
    pub fn add_region(&mut self, region: Region)
        requires { vec_len self.old.regions < 64 }
        ensures { (d : ℕ → Bool) (n : Counts) → state_of self.new d n ≡ with_regions (state_of self.old d n) (self.old.regions.items ++ (region ∷ [])) }
    {
        self.regions.push_reserved(region);
    }

    pub fn remove_region(&mut self, at: usize)
        requires { at < vec_len self.old.regions }
        ensures { (d : ℕ → Bool) (n : Counts) → state_of self.new d n ≡ with_regions (state_of self.old d n) (remove self.old.regions.items at) }
    {
        self.regions.remove(at);
    }

    pub fn protect_region(&mut self, at: usize, protection: u8)
        requires { at < vec_len self.old.regions }
        ensures { (d : ℕ → Bool) (n : Counts) (r : RegionRecord) → state_of self.new d n ≡ with_regions (state_of self.old d n) (slice_set self.old.regions.items at (with_protection protection (slice_index_or self.old.regions.items at r))) }
    {
        let region = self.regions[at];
        self.regions[at] = Region {
            protection,
            ..region
        };
    }

    // Stores the word of a frame.
    pub fn save(&mut self, frame: u16)
        requires { (frame < 256) × (slice_index self.old.owners.items frame < 2048) }
        ensures { (d : ℕ → Bool) (n : Counts) → state_of self.new d n ≡ saved_to (state_of self.old d n) frame }
    {
        let x = usize::from(self.owners[usize::from(frame)]);
        self.store[x] = self.words[usize::from(frame)];
    }

    // The page of the frame at a position of the queue is resident no more.
    pub fn release(&mut self, at: usize)
        requires { (at < vec_len self.old.queue) × ((slice_index self.old.queue.items at < 256) × (slice_index self.old.owners.items (slice_index self.old.queue.items at) < 2048)) }
        ensures { (d : ℕ → Bool) (n : Counts) → state_of self.new d n ≡ released (state_of self.old d n) at }
    {
        let frame = self.queue.remove(at);
        let x = usize::from(self.owners[usize::from(frame)]);
        self.lies[x] = None;
    }

    // Loads object page x into a frame.
    pub fn load(&mut self, x: usize, frame: u16)
        requires { (x < 2048) × ((frame < 256) × (vec_len self.old.queue < 256)) }
        ensures { (d : ℕ → Bool) (n : Counts) → state_of self.new d n ≡ loaded (state_of self.old d n) x frame }
    {
        self.words[usize::from(frame)] = self.store[x];
        self.lies[x] = Some(frame);
        self.owners[usize::from(frame)] = x as u16;
        self.queue.push_reserved(frame);
    }

    pub fn write_word(&mut self, frame: u16, word: u32)
        requires { frame < 256 }
        ensures { (d : ℕ → Bool) (n : Counts) → state_of self.new d n ≡ word_written (state_of self.old d n) frame word }
    {
        self.words[usize::from(frame)] = word;
    }

    pub fn add_wired(&mut self, place: WiredPlace)
        requires { vec_len self.old.wired < 8 }
        ensures { (d : ℕ → Bool) (n : Counts) → state_of self.new d n ≡ with_wired (state_of self.old d n) (self.old.wired.items ++ (place ∷ [])) }
    {
        self.wired.push_reserved(place);
    }

    // Takes a place out of the wired ones, if it is one.
    pub fn remove_wired(&mut self, space: u8, page: u32)
        ensures { (d : ℕ → Bool) (n : Counts) → state_of self.new d n ≡ with_wired (state_of self.old d n) (without (is_place space page) self.old.wired.items) }
    {
        if let Some(at) = self.wired_at(space, page) {
            self.wired.remove(at);
        }
    }
}
