// The fields of the two words of an entry.
ghost use Rattle.std.specs.Prelude.{◌≡◌, ℕ, ◌<◌};
ghost use Rattle.powerpc_words.specs.Fields.{first_word, second_word, frame_of, changed as is_changed, protection_of, touched, lowered, cleaned};

use pmap::frame::Frame;
use std::marker::Model;

const R: u32 = 1 << 8;

const C: u32 = 1 << 7;

pub fn first_word(vsid: u32, h: u32, api: u32) -> u32
    requires { (vsid < 16777216) × ((h < 2) × (api < 64)) }
    ensures { result ≡ first_word vsid h api }
{
    0x8000_0000 + vsid * 128 + h * 64 + api
}

#[tactic(auto, using(crate::proofs::FieldLaws::changed_is))]
pub fn changed(second: u32) -> bool
    ensures { result ≡ is_changed second }
{
    second & C != 0
}

pub fn protection_of(second: u32) -> u8
    ensures { result ≡ protection_of second }
{
    if second % 4 == 2 { 3 } else { 1 }
}

// A second word whose frame is in range.
#[derive(Clone, Copy)]
pub struct Second {
    pub word: u32,
}

impl Model for Second {
    ghost Value = { ℕ };

    ghost view = { λ s. s.word };

    ghost invariant = { λ s. s.word < 1048576 };

    ghost inverse = { λ n. record { word = n } };
}

impl Second {
    // The second word of a new entry.
    pub fn new(frame: Frame, protection: u8) -> Second
        ensures { result ≡ second_word frame.number protection }
    {
        let pp = if protection == 3 { 2 } else { 3 };
        Second {
            word: u32::from(frame.number) << 12 | pp,
        }
    }

    pub fn frame(self) -> Frame
        ensures { result.number ≡ frame_of self }
    {
        Frame {
            number: (self.word >> 12) as u16,
        }
    }

    // The second word after a read or a write.
    #[tactic(auto, using(crate::proofs::FieldLaws::touched_read, crate::proofs::FieldLaws::touched_write, crate::proofs::FieldLaws::or_below))]
    pub fn touched(self, write: bool) -> Second
        ensures { result ≡ touched write self }
    {
        let referenced = self.word | R;
        Second {
            word: if write { referenced | C } else { referenced },
        }
    }

    // The second word with protection 1.
    #[tactic(auto, using(crate::proofs::FieldLaws::lowered_is, crate::proofs::FieldLaws::or_below))]
    pub fn lowered(self) -> Second
        ensures { result ≡ lowered self }
    {
        Second {
            word: self.word | 3,
        }
    }

    // The second word with C off.
    #[tactic(auto, using(crate::proofs::FieldLaws::cleaned_is))]
    pub fn cleaned(self) -> Second
        ensures { result ≡ cleaned self }
    {
        Second {
            word: self.word & !C,
        }
    }
}
