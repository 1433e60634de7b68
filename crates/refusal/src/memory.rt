// What is wrong with a call of the memory.
ghost use Rattle.std.specs.Prelude.{◌≡◌};
ghost use Rattle.refusal.specs.Codes.{memory_code};
ghost use Rattle.refusal.specs.declared.memory.MemoryRefusal.TheVariants.{Pmap};

use crate::code::{Code, Layer, Refusal};
use crate::pmap::PmapRefusal;

#[derive(Clone, Copy, PartialEq, Eq, Debug)]
pub enum MemoryRefusal {
    // the memory has taken 1,000,000 calls
    CallLimit,
    // a number is outside its range, or a region would be empty or pass the end of its space or object
    Range,
    // a map overlaps a region of its space
    Overlap,
    // a map finds 64 regions held
    RegionsFull,
    // no region begins at the page of an unmap or protect, or covers the page of a read, write or wire
    NoRegion,
    // a write meets a region of protection 1
    ReadOnly,
    // the region of an unmap or protect has a wired place, or a wire names one
    Wired,
    // an unwire names a place that is not wired
    NotWired,
    // a wire finds eight places wired
    WiredFull,
    // a frame is needed, and every frame has a wired mapping
    NoFrame,
    // the pmap refused a call of the memory
    Pmap(PmapRefusal),
}

impl Refusal for MemoryRefusal {
    ghost known = { memory_code };

    // The numbers stand here and not at the variants, since one variant has a value of its own.
    fn code(&self) -> Code {
        let number = match self {
            MemoryRefusal::CallLimit => 5,
            MemoryRefusal::Range => 6,
            MemoryRefusal::Overlap => 7,
            MemoryRefusal::RegionsFull => 8,
            MemoryRefusal::NoRegion => 9,
            MemoryRefusal::ReadOnly => 10,
            MemoryRefusal::Wired => 11,
            MemoryRefusal::NotWired => 12,
            MemoryRefusal::WiredFull => 13,
            MemoryRefusal::NoFrame => 14,
            MemoryRefusal::Pmap(inner) => return inner.code(),
        };
        Code {
            number,
            layer: Layer::Memory,
        }
    }
}

impl From<PmapRefusal> for MemoryRefusal {
    ghost from_gives = { λ e r. r ≡ Pmap e };

    fn from(e: PmapRefusal) -> MemoryRefusal {
        MemoryRefusal::Pmap(e)
    }
}
