// The ranges of the numbers that a pmap call takes.
ghost use Rattle.std.specs.Prelude.{◌≡◌};
ghost use Rattle.pmap.specs.Meaning.{allows as permits};
ghost use Rattle.pmap.specs.Ranges.{fits_place, fits_frame, fits_entry};

pub const SPACES: u8 = 4;

pub const PAGES: u32 = 262_144;

pub const FRAMES: u16 = 256;

// How many places may be wired at once.
pub const WIRED_PLACES: usize = 8;

// Whether a space and a page name a place.
pub fn fits_place(space: u8, page: u32) -> bool
    ensures { result ≡ fits_place space page }
{
    space < SPACES && page < PAGES
}

// Whether a number names a frame.
pub fn fits_frame(frame: u16) -> bool
    ensures { result ≡ fits_frame frame }
{
    frame < FRAMES
}

// Whether the numbers of an enter are all in range.
pub fn fits_entry(space: u8, page: u32, frame: u16, protection: u8) -> bool
    ensures { result ≡ fits_entry space page frame protection }
{
    fits_place(space, page) && fits_frame(frame) && (protection == 1 || protection == 3)
}

// Whether a protection allows a read or a write.
pub fn allows(protection: u8, write: bool) -> bool
    ensures { result ≡ permits protection write }
{
    !write || protection == 3
}
