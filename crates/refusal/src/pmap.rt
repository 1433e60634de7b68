// What is wrong with a pmap call.
ghost use Rattle.std.specs.Prelude.{◌≡◌};
ghost use Rattle.refusal.specs.Codes.{pmap_code};

use crate::code::{Code, Layer, Refusal};

// Each has the number that it is known by.
#[derive(Clone, Copy, PartialEq, Eq, Debug)]
pub enum PmapRefusal {
    // a number of the call, or an offset's shift, is outside its range
    Range = 15,
    // a wired enter finds eight other places wired
    WiredFull = 16,
}

impl Refusal for PmapRefusal {
    ghost known = { pmap_code };

    fn code(&self) -> Code {
        Code {
            number: *self as u8,
            layer: Layer::Pmap,
        }
    }
}
