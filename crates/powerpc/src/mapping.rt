// What an enter gives.
ghost use Rattle.std.specs.Prelude.{◌≡◌, ◌&&◌, true, false, MatchResult};
ghost use Rattle.refusal.specs.declared.pmap.PmapRefusal.TheVariants.{Range};
ghost use Rattle.pmap.specs.Ranges.{fits_frame, fits_protection};

use pmap::frame::Frame;
use refusal::pmap::PmapRefusal;

#[derive(Clone, Copy)]
pub(crate) struct Mapping {
    pub(crate) frame: Frame,
    pub(crate) protection: u8,
    pub(crate) wired: bool,
}

impl Mapping {
    // The mapping that a call names, or the refusal of its numbers.
    pub(crate) fn new(frame: u16, protection: u8, wired: bool) -> Result<Mapping, PmapRefusal>
        ensures { MatchResult result (λ m. ((fits_frame frame && fits_protection protection) ≡ true) × (m.frame.number ≡ frame) × (m.protection ≡ protection) × (m.wired ≡ wired)) (λ e. ((fits_frame frame && fits_protection protection) ≡ false) × (e ≡ Range)) }
    {
        let frame = Frame::new(frame)?;
        if protection != 1 && protection != 3 {
            return Err(PmapRefusal::Range);
        }
        Ok(Mapping {
            frame,
            protection,
            wired,
        })
    }
}
