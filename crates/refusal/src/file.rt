// What is wrong with a trace file or a record of it, or with a size that a making is given.
ghost use Rattle.std.specs.Prelude.{◌≡◌};
ghost use Rattle.refusal.specs.Codes.{file_code};

use crate::code::{Code, Layer, Refusal};

// Each has the number that it is known by.
#[derive(Clone, Copy, PartialEq, Eq, Debug)]
pub enum FileRefusal {
    // a frame count outside 1 to 256, a board's memory of another length, or a file above 65,534 bytes
    Size = 1,
    // the file ends inside the frame count or a record
    Cut = 2,
    // the operation is 0 or above 8
    Operation = 3,
    // a field that the operation does not use, or the zero field, is not zero
    Field = 4,
}

impl Refusal for FileRefusal {
    ghost known = { file_code };

    fn code(&self) -> Code {
        Code {
            number: *self as u8,
            layer: Layer::File,
        }
    }
}
