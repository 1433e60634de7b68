// What is wrong with a text, and in which line.
ghost use Rattle.std.specs.Prelude.{Some};
ghost use Rattle.script_line.specs.Messages.{reason_words, fault_words};

use crate::field::Field;
use std::fmt;

#[derive(Clone, Copy, PartialEq, Eq, Debug)]
pub enum Reason {
    // The line ends before a field.
    Missing(Field),
    // Another word stands where a field's name is due.
    Expected(Field),
    // A field's value is no decimal number.
    NoNumber(Field),
    // A field's value is above the greatest that fits.
    TooLarge(Field),
    NoFrames,
    UnknownOperation,
    RecordNumber,
    ExtraWord,
    TooManyRecords,
}

#[derive(Clone, Copy, PartialEq, Eq, Debug)]
pub struct Fault {
    pub line: usize,
    pub reason: Reason,
}

impl fmt::Display for Reason {
    ghost output = { λ reason. Some (reason_words reason) };

    fn fmt<W: fmt::Write>(&self, f: &mut fmt::Formatter<W>) -> fmt::Result {
        match *self {
            Reason::Missing(field) => write!(f, "the field {field} is missing"),
            Reason::Expected(field) => write!(f, "here the field {field} is due"),
            Reason::NoNumber(field) => write!(f, "the value of {field} is no number"),
            Reason::TooLarge(field) => {
                write!(f, "the value of {field} is above {}", field.max())
            }
            Reason::NoFrames => write!(f, "the value of frames is 0"),
            Reason::UnknownOperation => write!(f, "no such operation"),
            Reason::RecordNumber => write!(f, "this is not the record's number"),
            Reason::ExtraWord => write!(f, "there is a word too many"),
            Reason::TooManyRecords => write!(f, "a trace has at most 5461 records"),
        }
    }
}

impl fmt::Display for Fault {
    ghost output = { λ fault. Some (fault_words fault) };

    fn fmt<W: fmt::Write>(&self, f: &mut fmt::Formatter<W>) -> fmt::Result {
        let Fault { line, reason } = *self;
        write!(f, "line {line}: {reason}")
    }
}
