// A place: a space and a page, both in range.
ghost use Rattle.std.specs.Prelude.{◌≡◌, ◌<◌, true, false, MatchResult};
ghost use Rattle.refusal.specs.declared.pmap.PmapRefusal.TheVariants.{Range};
ghost use Rattle.pmap.specs.Ranges.{fits_place};

use crate::range::fits_place;
use refusal::pmap::PmapRefusal;

#[derive(Clone, Copy, PartialEq, Eq, Debug)]
pub struct Place {
    pub space: u8,
    pub page: u32,
    ghost space_fits: { space < 4 },
    ghost page_fits: { page < 262144 },
}

impl Place {
    // The place that a call names, or the refusal of its numbers.
    pub fn new(space: u8, page: u32) -> Result<Place, PmapRefusal>
        ensures { MatchResult result (λ at. (fits_place space page ≡ true) × (at.space ≡ space) × (at.page ≡ page)) (λ e. (fits_place space page ≡ false) × (e ≡ Range)) }
    {
        if !fits_place(space, page) {
            return Err(PmapRefusal::Range);
        }
        Ok(Place { space, page })
    }
}
