// A refusal met in a replay: the inner refusal whole, and the number of its record.
ghost use Rattle.std.specs.Prelude.{◌≡◌, Some};
ghost use Rattle.replays.specs.declared.refused.Inner.TheVariants.{File, Memory};
ghost use Rattle.replays.specs.Blocks.{outcome_of, replay_code, refusal_words};

use refusal::code::{Code, Refusal};
use refusal::file::FileRefusal;
use refusal::memory::MemoryRefusal;
use rules::answer::{Answer, Reply};
use std::fmt;
use trace::record::Entry;

#[derive(Clone, Copy, PartialEq, Eq, Debug)]
pub enum Inner {
    File(FileRefusal),
    Memory(MemoryRefusal),
}

#[derive(Clone, Copy, PartialEq, Eq, Debug)]
pub struct ReplayRefusal {
    pub number: u32,
    pub inner: Inner,
}

impl From<(u32, FileRefusal)> for ReplayRefusal {
    ghost from_gives = { λ e r. (r.number ≡ e.0) × (r.inner ≡ File e.1) };

    fn from(e: (u32, FileRefusal)) -> ReplayRefusal {
        ReplayRefusal {
            number: e.0,
            inner: Inner::File(e.1),
        }
    }
}

impl From<(u32, MemoryRefusal)> for ReplayRefusal {
    ghost from_gives = { λ e r. (r.number ≡ e.0) × (r.inner ≡ Memory e.1) };

    fn from(e: (u32, MemoryRefusal)) -> ReplayRefusal {
        ReplayRefusal {
            number: e.0,
            inner: Inner::Memory(e.1),
        }
    }
}

impl Refusal for ReplayRefusal {
    ghost known = { replay_code };

    fn code(&self) -> Code {
        match self.inner {
            Inner::File(refusal) => refusal.code(),
            Inner::Memory(refusal) => refusal.code(),
        }
    }
}

// The number of its record, and what it is known by.
impl fmt::Display for ReplayRefusal {
    ghost output = { λ refusal. Some (refusal_words refusal) };

    fn fmt<W: fmt::Write>(&self, f: &mut fmt::Formatter<W>) -> fmt::Result {
        write!(f, "{} {}", self.number, self.code())
    }
}

// What became of a record that the memory answered with `reply`.
pub fn outcome(item: &Entry, reply: Reply) -> Result<Answer, ReplayRefusal>
    ensures { result ≡ outcome_of item.now reply }
{
    let number = item.number;
    item.content.map_err(|refusal| (number, refusal))?;
    let answer = reply.map_err(|refusal| (number, refusal))?;
    Ok(answer)
}
