// The mapping that is asked for.
ghost use Rattle.std.specs.Prelude.{◌≡◌, true, IfErr, MatchResult};
ghost use Rattle.pmap.specs.Ranges.{fits_entry};
ghost use Rattle.refusal.specs.declared.pmap.PmapRefusal.TheVariants.{Range};

use pmap::range::fits_entry;
use refusal::pmap::PmapRefusal;
use std::str::FromStr;

#[derive(Clone, Copy, PartialEq, Eq, Debug)]
pub struct Request {
    pub space: u8,
    pub page: u32,
    pub frame: u16,
    pub protection: u8,
}

// The number that a word spells in decimal.
fn number<N: FromStr>(word: Option<&str>) -> Result<N, PmapRefusal>
where
    N: Drop,
    N::Err: Drop,
    ensures { IfErr result (λ e. e ≡ Range) }
{
    word.and_then(|word| word.parse().ok())
        .ok_or(PmapRefusal::Range)
}

// Four words: space, page, frame and protection, in decimal.
impl FromStr for Request {
    type Err = PmapRefusal;

    ghost from_str_gives = { λ _ r. MatchResult r (λ q. fits_entry q.space q.page q.frame q.protection ≡ true) (λ e. e ≡ Range) };

    fn from_str(line: &str) -> Result<Request, PmapRefusal> {
        let mut words = line.split_whitespace();
        let space = number(words.next())?;
        let page = number(words.next())?;
        let frame = number(words.next())?;
        let protection = number(words.next())?;
        if words.next().is_some() {
            return Err(PmapRefusal::Range);
        }
        if !fits_entry(space, page, frame, protection) {
            return Err(PmapRefusal::Range);
        }
        Ok(Request {
            space,
            page,
            frame,
            protection,
        })
    }
}

impl Request {
    // The request that a line spells.
    pub fn parse(line: &str) -> Result<Request, PmapRefusal>
        ensures { MatchResult result (λ q. fits_entry q.space q.page q.frame q.protection ≡ true) (λ e. e ≡ Range) }
    {
        line.parse()
    }
}
