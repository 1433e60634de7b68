// What the inner steps of a call come to.
use rules::answer::{Evicted, Report};

// An object page brought in: its frame, whether it was loaded, and what made room.
#[derive(Clone, Copy)]
pub struct Brought {
    pub frame: u16,
    pub loaded: bool,
    pub evicted: Option<Evicted>,
}

// The frame that an access came to, and how it went.
#[derive(Clone, Copy)]
pub struct Reached {
    pub frame: u16,
    pub report: Report,
}
