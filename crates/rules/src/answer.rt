// What the calls of the memory answer.
ghost use Rattle.std.specs.Prelude.{Some};
ghost use Rattle.rules.specs.Kinds.{kind_words};

use refusal::memory::MemoryRefusal;
use std::fmt;

// How an accepted read or write went.
#[derive(Clone, Copy, PartialEq, Eq, Debug)]
pub enum Kind {
    // the pmap served it
    Hit,
    // the object page was resident, and its mapping was entered anew
    Soft,
    // the object page was loaded
    Hard,
}

impl fmt::Display for Kind {
    ghost output = { λ kind. Some (kind_words kind) };

    fn fmt<W: fmt::Write>(&self, f: &mut fmt::Formatter<W>) -> fmt::Result {
        f.write_str(match self {
            Kind::Hit => "hit",
            Kind::Soft => "soft fault",
            Kind::Hard => "hard fault",
        })
    }
}

// The object page that made room, and whether its word went to the backing store.
#[derive(Clone, Copy, PartialEq, Eq, Debug)]
pub struct Evicted {
    pub object: u8,
    pub index: u8,
    pub stored: bool,
}

// What an accepted read or write did.
#[derive(Clone, Copy, PartialEq, Eq, Debug)]
pub struct Report {
    pub kind: Kind,
    pub evicted: Option<Evicted>,
}

// A read's report and its word.
#[derive(Clone, Copy, PartialEq, Eq, Debug)]
pub struct Reading {
    pub report: Report,
    pub word: u32,
}

// What an accepted wire did.
#[derive(Clone, Copy, PartialEq, Eq, Debug)]
pub struct Wiring {
    pub loaded: bool,
    pub evicted: Option<Evicted>,
}

#[derive(Clone, Copy, PartialEq, Eq, Debug)]
pub enum Answer {
    Done,
    Read(Reading),
    Wrote(Report),
    Wired(Wiring),
    // how many words were stored
    Synced(u32),
}

pub type Reply = Result<Answer, MemoryRefusal>;
