// The fields of the text form: the frame count, and those that operations use.
ghost use Rattle.std.specs.Prelude.{◌≡◌, ◌≤◌, Some};
ghost use Rattle.script_line.specs.Names.{field_name, greatest};
ghost use Rattle.script_line.specs.Form.{fields_for, put_in};

use calls::operation::{Operation, Values};
use std::fmt;

#[derive(Clone, Copy, PartialEq, Eq, Debug)]
pub enum Field {
    Frames,
    Space,
    Page,
    Count,
    Object,
    Offset,
    Protection,
    Word,
}

impl Field {
    pub fn name(self) -> &'static str
        ensures { result.now ≡ field_name self }
    {
        match self {
            Field::Frames => "frames",
            Field::Space => "space",
            Field::Page => "page",
            Field::Count => "count",
            Field::Object => "object",
            Field::Offset => "offset",
            Field::Protection => "protection",
            Field::Word => "word",
        }
    }

    // The greatest value that fits: for all but the frame count, by the field's bits.
    pub fn max(self) -> u32
        ensures { result ≡ greatest self }
    {
        match self {
            Field::Frames => 256,
            Field::Space | Field::Object => 15,
            Field::Page => 262_143,
            Field::Count => 511,
            Field::Offset => 255,
            Field::Protection => 3,
            Field::Word => u32::MAX,
        }
    }

    // The fields that an operation uses, in their order.
    pub fn used_by(operation: Operation) -> &'static [Field]
        ensures { result.now ≡ fields_for operation }
    {
        match operation {
            Operation::Map => &[
                Field::Space,
                Field::Page,
                Field::Count,
                Field::Object,
                Field::Offset,
                Field::Protection,
            ],
            Operation::Protect => &[Field::Space, Field::Page, Field::Protection],
            Operation::Write => &[Field::Space, Field::Page, Field::Word],
            Operation::Sync => &[Field::Object],
            Operation::Unmap | Operation::Read | Operation::Wire | Operation::Unwire => {
                &[Field::Space, Field::Page]
            }
        }
    }

    // Puts the value of the field among others; a frame count is kept elsewhere.
    pub fn put(self, value: u32, values: &mut Values)
        requires { value ≤ greatest self }
        ensures { values.new ≡ put_in values.old self value }
    {
        match self {
            Field::Frames => {}
            Field::Space => values.space = value as u8,
            Field::Page => values.page = value,
            Field::Count => values.count = value as u16,
            Field::Object => values.object = value as u8,
            Field::Offset => values.offset = value as u8,
            Field::Protection => values.protection = value as u8,
            Field::Word => values.word = value,
        }
    }
}

impl fmt::Display for Field {
    ghost output = { λ field. Some (field_name field) };

    fn fmt<W: fmt::Write>(&self, f: &mut fmt::Formatter<W>) -> fmt::Result {
        f.write_str(self.name())
    }
}
