// One line of the text form: the frame count, or a record.
ghost use Rattle.std.specs.Prelude.{◌≡◌, ◌≤◌, ◌∷◌, IfOk, Ok, Err, MatchResult};
ghost use Rattle.pieces.specs.Cuts.{words_at};
ghost use Rattle.pieces.specs.Numerals.{number_in};
ghost use Rattle.script_line.specs.Names.{greatest};
ghost use Rattle.calls.specs.Operations.{no_values};
ghost use Rattle.script_line.specs.Form.{value_of, field_in, filled, call_in, numbered, record_in, frames_in, silent};

use crate::fault::Reason;
use crate::field::Field;
use calls::Call;
use calls::operation::{Operation, Values};
use pieces::cut::Pieces;
use pieces::numeral::{Misread, number};

// The value that a word gives a field.
fn value(word: &[u8], field: Field) -> Result<u32, Reason>
    ensures value { result ≡ value_of field word.now }
    ensures bound { IfOk result (λ n. n ≤ greatest field) }
{
    number(word, field.max()).map_err(|misread| match misread {
        Misread::NoNumber => Reason::NoNumber(field),
        Misread::TooLarge => Reason::TooLarge(field),
    })
}

// A field at the front of the words: its value.
fn field_value(words: &mut Pieces<'_>, field: Field) -> Result<u32, Reason>
    ensures value { MatchResult result (λ n. field_in field (words_at words.old.text.now words.old.at) ≡ Ok (n, words_at words.old.text.now words.new.at)) (λ e. field_in field (words_at words.old.text.now words.old.at) ≡ Err e) }
    ensures bound { IfOk result (λ n. n ≤ greatest field) }
    ensures text { words.new.text.now ≡ words.old.text.now }
{
    let name = words.next_word().ok_or(Reason::Missing(field))?;
    if name != field.name().as_bytes() {
        return Err(Reason::Expected(field));
    }
    let word = words.next_word().ok_or(Reason::NoNumber(field))?;
    value(word, field)
}

// The values of some fields one after another, where no word is left after them.
fn values(words: &mut Pieces<'_>, fields: &[Field]) -> Result<Values, Reason>
    ensures { result ≡ filled fields.now no_values (words_at words.old.text.now words.old.at) }
{
    let mut values = Values::default();
    for field in fields {
        let value = field_value(words, *field)?;
        field.put(value, &mut values);
    }
    match words.next_word() {
        Some(_) => Err(Reason::ExtraWord),
        None => Ok(values),
    }
}

// The call of an operation's word and the words after it.
fn call(word: &[u8], words: &mut Pieces<'_>) -> Result<Call, Reason>
    ensures { result ≡ call_in (word.now ∷ words_at words.old.text.now words.old.at) }
{
    let operation = Operation::named(word).ok_or(Reason::UnknownOperation)?;
    let values = values(words, Field::used_by(operation))?;
    Ok(operation.call(values))
}

// Whether a line says nothing: it has no word, or is a comment.
pub fn is_silent(line: &[u8]) -> bool
    ensures { result ≡ silent (words_at line.now 0) }
{
    Pieces::new(line)
        .next_word()
        .is_none_or(|word| word[0] == b'#')
}

// The frame count of its line.
pub fn frames(line: &[u8]) -> Result<u16, Reason>
    ensures { result ≡ frames_in (words_at line.now 0) }
{
    let mut words = Pieces::new(line);
    let frames = field_value(&mut words, Field::Frames)?;
    if words.next_word().is_some() {
        return Err(Reason::ExtraWord);
    }
    if frames == 0 {
        return Err(Reason::NoFrames);
    }
    Ok(frames as u16)
}

// Whether a word is the number of a record.
fn is_number(word: &[u8], record_number: u32) -> bool
    ensures { result ≡ numbered record_number (number_in 4294967295 word.now) }
{
    number(word, u32::MAX).is_ok_and(|read| read == record_number)
}

// The call of a record's line; where a number stands before it, it has to be the record's.
pub fn record_call(line: &[u8], record_number: u32) -> Result<Call, Reason>
    ensures { result ≡ record_in record_number (words_at line.now 0) }
{
    let mut words = Pieces::new(line);
    let first = words.next_word().ok_or(Reason::UnknownOperation)?;
    if !first[0].is_ascii_digit() {
        return call(first, &mut words);
    }
    if !is_number(first, record_number) {
        return Err(Reason::RecordNumber);
    }
    let word = words.next_word().ok_or(Reason::UnknownOperation)?;
    call(word, &mut words)
}
