// The fields of a record, and the one number of 96 bits that holds them.
ghost use Rattle.std.specs.Prelude.{◌≡◌, ◌+◌, ◌*◌, ◌/◌, ◌%◌, ◌^◌, ◌<◌, if◌then◌else◌, Some, None, nat_lt};
ghost use Rattle.trace.specs.Format.{fields_of, unused_zero, content_of, fields_in, fit, packed};

use calls::Call;
use calls::operation::{Operation, Values};
use refusal::file::FileRefusal;

#[derive(Clone, Copy)]
pub struct Fields {
    pub operation: u8,
    pub values: Values,
    pub zero: u16,
}

// The `width` bits of a number that stand above its `low` lowest.
fn bits(number: u128, low: u32, width: u32) -> u128
    requires { (low < 128) × (width < 128) }
    ensures { result ≡ number / 2 ^ low % 2 ^ width }
{
    number >> low & ((1 << width) - 1)
}

// A number with the `width` bits of a value put below its own; none where the value has more bits.
// An `if` and no `then_some`: in that form the proof of the value did not close.
fn append(number: u128, width: u32, value: u128) -> Option<u128>
    requires { (width < 128) × (number * 2 ^ width < 2 ^ 128) }
    ensures { result ≡ (if nat_lt value (2 ^ width) then Some (number * 2 ^ width + value) else None) }
{
    if value < 1 << width {
        Some(number << width | value)
    } else {
        None
    }
}

impl Fields {
    // The fields that a number holds, the operation highest.
    pub fn of_number(number: u128) -> Fields
        ensures { result ≡ fields_of number }
    {
        Fields {
            operation: bits(number, 92, 4) as u8,
            values: Values {
                space: bits(number, 88, 4) as u8,
                page: bits(number, 70, 18) as u32,
                count: bits(number, 61, 9) as u16,
                object: bits(number, 57, 4) as u8,
                offset: bits(number, 49, 8) as u8,
                protection: bits(number, 47, 2) as u8,
                word: bits(number, 0, 32) as u32,
            },
            zero: bits(number, 32, 15) as u16,
        }
    }

    // The number of 96 bits that holds the fields, the operation highest; none where a field does not fit its bits.
    pub fn number(&self) -> Option<u128>
        ensures { result ≡ (if fit self.now then Some (packed self.now) else None) }
    {
        let values = self.values;
        let number = append(0, 4, u128::from(self.operation))?;
        let number = append(number, 4, u128::from(values.space))?;
        let number = append(number, 18, u128::from(values.page))?;
        let number = append(number, 9, u128::from(values.count))?;
        let number = append(number, 4, u128::from(values.object))?;
        let number = append(number, 8, u128::from(values.offset))?;
        let number = append(number, 2, u128::from(values.protection))?;
        let number = append(number, 15, u128::from(self.zero))?;
        append(number, 32, u128::from(values.word))
    }

    // Whether the zero field, and each field that the operation does not use, is zero.
    fn unused_zero(&self, operation: Operation) -> bool
        ensures { result ≡ unused_zero operation self.now }
    {
        self.zero == 0 && Values::from(operation.call(self.values)) == self.values
    }
}

// The fields of a call: those that its operation does not use are zero.
impl From<Call> for Fields {
    ghost from_gives = { λ call fields. fields ≡ fields_in call };

    fn from(call: Call) -> Fields {
        Fields {
            operation: call.operation().number(),
            values: Values::from(call),
            zero: 0,
        }
    }
}

// The call that the fields spell, or why they spell none.
impl TryFrom<Fields> for Call {
    type Error = FileRefusal;

    ghost try_from_gives = { λ fields r. r ≡ content_of fields };

    fn try_from(fields: Fields) -> Result<Call, FileRefusal> {
        let operation = Operation::try_from(fields.operation).map_err(|_| FileRefusal::Operation)?;
        if fields.unused_zero(operation) {
            Ok(operation.call(fields.values))
        } else {
            Err(FileRefusal::Field)
        }
    }
}
