// The groups and the slots of the table.
ghost use Rattle.std.specs.Prelude.{◌≡◌, ℕ, ◌+◌, ◌*◌, ◌/◌, ◌<◌};

use std::marker::Model;

pub const SLOTS: usize = 8_192;

// The number of a group of eight slots, in range.
#[derive(Clone, Copy, PartialEq, Eq, Debug)]
pub struct Group {
    rank: usize,
}

impl Model for Group {
    ghost Value = { ℕ };

    ghost view = { λ g. g.rank };

    ghost invariant = { λ g. g.rank < 1024 };

    ghost inverse = { λ n. record { rank = n } };
}

impl Group {
    pub(crate) fn new(rank: usize) -> Group
        requires { rank < 1024 }
        ensures { result ≡ rank }
    {
        Group { rank }
    }

    // The group's number.
    pub fn index(self) -> usize
        ensures value { result ≡ self }
        ensures bound { result < 1024 }
    {
        self.rank
    }

    // One of the group's slots.
    pub(crate) fn slot(self, place: usize) -> Slot
        requires { place < 8 }
        ensures { result ≡ 8 * self + place }
    {
        Slot::new(8 * self.index() + place)
    }
}

// The number of a slot, in range.
#[derive(Clone, Copy, PartialEq, Eq, Debug)]
pub struct Slot {
    number: usize,
}

impl Model for Slot {
    ghost Value = { ℕ };

    ghost view = { λ s. s.number };

    ghost invariant = { λ s. s.number < 8192 };

    ghost inverse = { λ n. record { number = n } };
}

impl Slot {
    pub fn new(number: usize) -> Slot
        requires { number < 8192 }
        ensures { result ≡ number }
    {
        Slot { number }
    }

    // The slot's place in a list of all slots.
    pub fn index(self) -> usize
        ensures value { result ≡ self }
        ensures bound { result < 8192 }
    {
        self.number
    }

    // The group that the slot stands in.
    pub fn group(self) -> Group
        ensures { result ≡ self / 8 }
    {
        Group::new(self.index() / 8)
    }
}
