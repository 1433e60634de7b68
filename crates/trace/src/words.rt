// Entries in plain words: the call, or why its record is turned away.
ghost use Rattle.std.specs.Prelude.{Some};
ghost use Rattle.trace.specs.Words.{entry_words};

use crate::record::Entry;
use refusal::code::Refusal;
use std::fmt;

impl fmt::Display for Entry {
    ghost output = { λ e. Some (entry_words e) };

    fn fmt<W: fmt::Write>(&self, f: &mut fmt::Formatter<W>) -> fmt::Result {
        let number = self.number;
        match self.content {
            Ok(call) => write!(f, "{number} {call}"),
            Err(refusal) => write!(f, "{number} refused {}", refusal.code()),
        }
    }
}
