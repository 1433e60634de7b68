// A whole text, read line by line.
ghost use Rattle.std.specs.Prelude.{◌≡◌, ◌+◌, ◌<◌, ◌≤◌, [], ◌∷◌, length, Ok, Err, MatchOption, MatchResult, OnSome, alloc_error};
ghost use Rattle.pieces.specs.declared.cut.Cut.TheVariants.{Lines};
ghost use Rattle.pieces.specs.Cuts.{pieces_at};
ghost use Rattle.script.specs.Whole.{spoken, faulted, record_at, records_in, script_of};
ghost use Rattle.script.specs.declared.parse.ParseError.TheVariants.{Text, Memory};

use crate::bytes::MAX_RECORDS;
use calls::Call;
use pieces::cut::{Cut, Pieces};
use script_line::fault::{Fault, Reason};
use script_line::field::Field;
use script_line::line;
use std::alloc::{AllocError, AllocFailed, Global};

// What a text says: a frame count and the calls of the records.
#[derive(Drop)]
pub struct Script {
    pub frames: u16,
    pub calls: Vec<Call>,
}

// Why a text is not read: what is wrong with it, or want of memory.
#[derive(Clone, Copy, PartialEq, Eq, Debug)]
pub enum ParseError {
    Text(Fault),
    Memory(AllocError),
}

impl From<Fault> for ParseError {
    ghost from_gives = { λ e r. r ≡ Text e };

    fn from(e: Fault) -> ParseError {
        ParseError::Text(e)
    }
}

impl<T: Drop> From<AllocFailed<T>> for ParseError {
    ghost from_gives = { λ _ r. r ≡ Memory alloc_error };

    fn from(e: AllocFailed<T>) -> ParseError {
        ParseError::Memory(AllocError::from(e))
    }
}

// The lines that are left of a text, and the number of the next one.
#[derive(Clone, Copy)]
struct Rest<'a> {
    lines: Pieces<'a>,
    number: usize,
}

// A line and its number.
#[derive(Clone, Copy)]
struct Line<'a> {
    number: usize,
    text: &'a [u8],
}

impl<'a> Rest<'a> {
    // The next line that says something. A loop and no chain: each turn moves the place in the text, and the proof follows it.
    fn next_line(&mut self) -> Option<Line<'a>>
        requires { self.old.number ≤ self.old.lines.at + 1 }
        ensures split { MatchOption result (spoken self.old.number (pieces_at Lines self.old.lines.text.now self.old.lines.at) ≡ []) (λ l. spoken self.old.number (pieces_at Lines self.old.lines.text.now self.old.lines.at) ≡ (l.number, l.text.now) ∷ spoken self.new.number (pieces_at Lines self.old.lines.text.now self.new.lines.at)) }
        ensures text { self.new.lines.text.now ≡ self.old.lines.text.now }
        ensures moved { OnSome result ((self.old.lines.at < self.new.lines.at) × (self.new.lines.at ≤ length self.old.lines.text.now + 1)) }
        ensures counted { self.new.number ≤ self.new.lines.at + 1 }
    {
        while let Some(text) = self.lines.next_piece(Cut::Lines) {
            let number = self.number;
            self.number += 1;
            if !line::is_silent(text) {
                return Some(Line { number, text });
            }
        }
        None
    }
}

// An answer about a line, with the line's number where it tells what is wrong.
fn at<T>(number: usize, answer: Result<T, Reason>) -> Result<T, Fault>
    ensures { result ≡ faulted number answer }
{
    answer.map_err(|reason| Fault {
        line: number,
        reason,
    })
}

// The call of a line, where the trace has so many records before it.
fn record_at(line: Line<'_>, before: usize) -> Result<Call, Fault>
    ensures { result ≡ record_at before line.entry.number line.entry.text.now }
{
    if before >= MAX_RECORDS {
        return at(line.number, Err(Reason::TooManyRecords));
    }
    at(line.number, line::record_call(line.text, before as u32))
}

// The calls of the lines that are left.
fn records(heap: Global, rest: &mut Rest<'_>) -> Result<Vec<Call>, ParseError>
    requires { rest.old.number ≤ rest.old.lines.at + 1 }
    ensures { MatchResult result (λ v. records_in [] (spoken rest.old.number (pieces_at Lines rest.old.lines.text.now rest.old.lines.at)) ≡ Ok v.items) (λ e. elim e [ Text f ↦ records_in [] (spoken rest.old.number (pieces_at Lines rest.old.lines.text.now rest.old.lines.at)) ≡ Err f | Memory _ ↦ Unit {0} ]) }
{
    let mut calls = Vec::new(heap);
    while let Some(line) = rest.next_line() {
        let before = calls.len();
        let call = record_at(line, before)?;
        calls.push(call)?;
    }
    Ok(calls)
}

// The frame count and the calls that a text says, or what is wrong with it.
pub fn parse(heap: Global, text: &[u8]) -> Result<Script, ParseError>
    ensures { MatchResult result (λ s. script_of text.now ≡ Ok (s.frames, s.calls.items)) (λ e. elim e [ Text f ↦ script_of text.now ≡ Err f | Memory _ ↦ Unit {0} ]) }
{
    let mut rest = Rest {
        lines: Pieces::new(text),
        number: 1,
    };
    let first = rest.next_line().ok_or(Fault {
        line: 1,
        reason: Reason::Missing(Field::Frames),
    })?;
    let frames = at(first.number, line::frames(first.text))?;
    let calls = records(heap, &mut rest)?;
    Ok(Script { frames, calls })
}
