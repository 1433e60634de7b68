// The tables of a memory. Each field means what the field of its name means in the state of the rules.
// Lists side by side and no list of records: the rules' state has these lists, and a sync borrows words and store apart.
ghost use Rattle.std.specs.Prelude.{◌≡◌, ◌≤◌, vec_len, vec_capacity};

use rules::region::{Region, WiredPlace};

#[derive(Drop)]
pub struct Tables {
    pub frames: u16,
    pub regions: Vec<Region>,
    // for each object page the frame that it lies in
    pub lies: Vec<Option<u16>>,
    // for each frame the object page that was loaded into it last
    pub owners: Vec<u16>,
    // the frames in use, the one loaded longest ago first
    pub queue: Vec<u16>,
    pub words: Vec<u32>,
    pub store: Vec<u32>,
    pub wired: Vec<WiredPlace>,
    ghost all_pages: { vec_len lies ≡ 2048 },
    ghost all_owners: { vec_len owners ≡ 256 },
    ghost all_words: { vec_len words ≡ 256 },
    ghost all_stored: { vec_len store ≡ 2048 },
    ghost room_for_regions: { 64 ≤ vec_capacity regions },
    ghost room_for_frames: { 256 ≤ vec_capacity queue },
    ghost room_for_wired: { 8 ≤ vec_capacity wired },
}
