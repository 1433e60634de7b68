// A call in plain words: the operation and each field that it uses.
ghost use Rattle.std.specs.Prelude.{Some};
ghost use Rattle.calls.specs.Words.{call_words};

use crate::Call;
use std::fmt;

impl fmt::Display for Call {
    ghost output = { λ call. Some (call_words call) };

    fn fmt<W: fmt::Write>(&self, f: &mut fmt::Formatter<W>) -> fmt::Result {
        write!(f, "{}", self.operation())?;
        match *self {
            Call::Map {
                space,
                page,
                count,
                object,
                offset,
                protection,
            } => {
                write!(
                    f,
                    " space {space} page {page} count {count} object {object} offset {offset} protection {protection}"
                )
            }
            Call::Protect {
                space,
                page,
                protection,
            } => write!(f, " space {space} page {page} protection {protection}"),
            Call::Write { space, page, word } => write!(
                f,
                " space {space} page {page} word {word}"
            ),
            Call::Unmap { space, page }
            | Call::Read { space, page }
            | Call::Wire { space, page }
            | Call::Unwire { space, page } => write!(f, " space {space} page {page}"),
            Call::Sync { object } => write!(f, " object {object}"),
        }
    }
}
