// The eight operations: the number that a trace gives each, and the word that a text gives it;
// and the values of the fields that their calls have.
ghost use Rattle.std.specs.Prelude.{◌≡◌, Some};
ghost use Rattle.calls.specs.Operations.{number_of, name_of, operation_named, Numbered, operation_of, call_of, values_in};

use crate::Call;
use std::fmt;

// Each has the number that a trace gives it.
#[derive(Clone, Copy, PartialEq, Eq, Debug)]
pub enum Operation {
    Map = 1,
    Unmap = 2,
    Protect = 3,
    Read = 4,
    Write = 5,
    Wire = 6,
    Unwire = 7,
    Sync = 8,
}

// A value for each field that a call can have; zero where it has none.
#[derive(Clone, Copy, PartialEq, Eq, Debug, Default)]
pub struct Values {
    pub space: u8,
    pub page: u32,
    pub count: u16,
    pub object: u8,
    pub offset: u8,
    pub protection: u8,
    pub word: u32,
}

// A number that no operation has.
#[derive(Clone, Copy, PartialEq, Eq, Debug)]
pub struct UnknownOperation(pub u8);

impl Operation {
    pub fn number(self) -> u8
        ensures { result ≡ number_of self }
    {
        self as u8
    }

    pub fn name(self) -> &'static str
        ensures { result.now ≡ name_of self }
    {
        match self {
            Operation::Map => "map",
            Operation::Unmap => "unmap",
            Operation::Protect => "protect",
            Operation::Read => "read",
            Operation::Write => "write",
            Operation::Wire => "wire",
            Operation::Unwire => "unwire",
            Operation::Sync => "sync",
        }
    }

    // The operation that a word names.
    pub fn named(word: &[u8]) -> Option<Operation>
        ensures { result ≡ operation_named word.now }
    {
        Some(match word {
            b"map" => Operation::Map,
            b"unmap" => Operation::Unmap,
            b"protect" => Operation::Protect,
            b"read" => Operation::Read,
            b"write" => Operation::Write,
            b"wire" => Operation::Wire,
            b"unwire" => Operation::Unwire,
            b"sync" => Operation::Sync,
            _ => return None,
        })
    }
}

impl Operation {
    // The call with the values of the fields that the operation uses.
    pub fn call(self, values: Values) -> Call
        ensures { result ≡ call_of self values }
    {
        let Values {
            space,
            page,
            count,
            object,
            offset,
            protection,
            word,
        } = values;
        match self {
            Operation::Map => Call::Map {
                space,
                page,
                count,
                object,
                offset,
                protection,
            },
            Operation::Unmap => Call::Unmap { space, page },
            Operation::Protect => Call::Protect {
                space,
                page,
                protection,
            },
            Operation::Read => Call::Read { space, page },
            Operation::Write => Call::Write { space, page, word },
            Operation::Wire => Call::Wire { space, page },
            Operation::Unwire => Call::Unwire { space, page },
            Operation::Sync => Call::Sync { object },
        }
    }
}

impl Call {
    pub fn operation(&self) -> Operation
        ensures { result ≡ operation_of self.now }
    {
        match self {
            Call::Map { .. } => Operation::Map,
            Call::Unmap { .. } => Operation::Unmap,
            Call::Protect { .. } => Operation::Protect,
            Call::Read { .. } => Operation::Read,
            Call::Write { .. } => Operation::Write,
            Call::Wire { .. } => Operation::Wire,
            Call::Unwire { .. } => Operation::Unwire,
            Call::Sync { .. } => Operation::Sync,
        }
    }
}

// The values of a call's fields, with zero for each field that its operation does not use.
impl From<Call> for Values {
    ghost from_gives = { λ call values. values ≡ values_in call };

    fn from(call: Call) -> Values {
        match call {
            Call::Map {
                space,
                page,
                count,
                object,
                offset,
                protection,
            } => Values {
                space,
                page,
                count,
                object,
                offset,
                protection,
                word: 0,
            },
            Call::Protect {
                space,
                page,
                protection,
            } => Values {
                space,
                page,
                protection,
                ..Values::default()
            },
            Call::Write { space, page, word } => Values {
                space,
                page,
                word,
                ..Values::default()
            },
            Call::Unmap { space, page }
            | Call::Read { space, page }
            | Call::Wire { space, page }
            | Call::Unwire { space, page } => Values {
                space,
                page,
                ..Values::default()
            },
            Call::Sync { object } => Values {
                object,
                ..Values::default()
            },
        }
    }
}

impl TryFrom<u8> for Operation {
    type Error = UnknownOperation;

    ghost try_from_gives = { Numbered };

    fn try_from(number: u8) -> Result<Operation, UnknownOperation> {
        match number {
            1 => Ok(Operation::Map),
            2 => Ok(Operation::Unmap),
            3 => Ok(Operation::Protect),
            4 => Ok(Operation::Read),
            5 => Ok(Operation::Write),
            6 => Ok(Operation::Wire),
            7 => Ok(Operation::Unwire),
            8 => Ok(Operation::Sync),
            _ => Err(UnknownOperation(number)),
        }
    }
}

impl fmt::Display for Operation {
    ghost output = { λ operation. Some (name_of operation) };

    fn fmt<W: fmt::Write>(&self, f: &mut fmt::Formatter<W>) -> fmt::Result {
        f.write_str(self.name())
    }
}
