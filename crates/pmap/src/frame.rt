// A frame: a number in range.
ghost use Rattle.std.specs.Prelude.{◌≡◌, ◌<◌, true, false, MatchResult};
ghost use Rattle.refusal.specs.declared.pmap.PmapRefusal.TheVariants.{Range};
ghost use Rattle.pmap.specs.Ranges.{fits_frame};

use crate::range::fits_frame;
use refusal::pmap::PmapRefusal;

#[derive(Clone, Copy, PartialEq, Eq, Debug)]
pub struct Frame {
    pub number: u16,
    ghost fits: { number < 256 },
}

impl Frame {
    // The frame that a call names, or the refusal of its number.
    pub fn new(number: u16) -> Result<Frame, PmapRefusal>
        ensures { MatchResult result (λ frame. (fits_frame number ≡ true) × (frame.number ≡ number)) (λ e. (fits_frame number ≡ false) × (e ≡ Range)) }
    {
        if !fits_frame(number) {
            return Err(PmapRefusal::Range);
        }
        Ok(Frame { number })
    }

    // The frame's place in a list of all frames.
    pub fn index(self) -> usize
        ensures { result ≡ self.number }
    {
        usize::from(self.number)
    }
}
