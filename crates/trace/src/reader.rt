// The records of a trace file, handed out one after another.
ghost use Rattle.std.specs.Prelude.{◌≡◌, ◌+◌, ◌-◌, ◌/◌, ◌%◌, ◌<◌, ◌≤◌, true, length, IfSome, is_ok, if◌then◌else◌, ◌&&◌, Some, None, Ok, Err, nat_le, nat_lt};
ghost use Rattle.trace.specs.Format.{number as number_at, content_at, entry_at, frame_count, checked, Own};

use crate::fields::Fields;
use crate::record::Entry;
use calls::Call;
use refusal::file::FileRefusal;

// The most bytes that a trace file may have.
pub const MAX_BYTES: usize = 65_534;

// One byte more: a program that reads so many can tell whether a file is too long.
pub const ENOUGH: u64 = 65_535;

// The most frames that a memory may have; the pmap's limit stands in its own crate, which traces do without.
pub const MAX_FRAMES: u16 = 256;

// The bytes of the frame count, and of a record.
const COUNT_BYTES: usize = 2;

const RECORD_BYTES: usize = 12;

// The bytes of a file that no refusal turns away, and the place where the next record begins: the form that the project asks for.
#[derive(Drop)]
pub struct Reader<'a> {
    bytes: &'a [u8],
    at: usize,
    ghost sized: { length bytes.now ≤ 65534 },
    ghost whole: { (length bytes.now - 2) % 12 ≡ 0 },
    ghost begun: { 2 ≤ at },
    ghost within: { at ≤ length bytes.now },
    ghost aligned: { (at - 2) % 12 ≡ 0 },
}

// The number that the twelve bytes from a place on spell, most significant byte first.
fn number_at(bytes: &[u8], at: usize) -> u128
    requires { at + 12 ≤ length bytes.now }
    ensures { result ≡ number_at bytes.now at 12 }
{
    let mut number = [0; 16];
    number[4..].copy_from_slice(&bytes[at..at + RECORD_BYTES]);
    u128::from_be_bytes(number)
}

// What the twelve bytes from a place on spell.
fn content_at(bytes: &[u8], at: usize) -> Result<Call, FileRefusal>
    requires { at + 12 ≤ length bytes.now }
    ensures value { result ≡ content_at bytes.now at }
    ensures own { Own result bytes.now at }
{
    Call::try_from(Fields::of_number(number_at(bytes, at)))
}

// The frame count that a file begins with, where it has one.
fn frame_count(bytes: &[u8]) -> Option<u16>
    ensures { result ≡ (if nat_lt (length bytes.now) 2 then None else Some (frame_count bytes.now)) }
{
    bytes.first_chunk().copied().map(u16::from_be_bytes)
}

// Turns a frame count outside 1 to 256 away.
pub(crate) fn check_frames(frames: u16) -> Result<(), FileRefusal>
    ensures { result ≡ (if nat_le 1 frames && nat_le frames 256 then Ok tt else Err FileRefusal.Size) }
{
    if frames < 1 || frames > MAX_FRAMES {
        return Err(FileRefusal::Size);
    }
    Ok(())
}

// The frame count of a file, or what turns the whole file away.
pub fn check_file(bytes: &[u8]) -> Result<u16, FileRefusal>
    ensures { result ≡ checked bytes.now }
{
    if bytes.len() > MAX_BYTES {
        return Err(FileRefusal::Size);
    }
    let frames = frame_count(bytes).ok_or(FileRefusal::Cut)?;
    check_frames(frames)?;
    if (bytes.len() - COUNT_BYTES) % RECORD_BYTES != 0 {
        return Err(FileRefusal::Cut);
    }
    Ok(frames)
}

impl<'a> Reader<'a> {
    // A reader at the first record of a file that `check_file` lets pass.
    pub fn new(bytes: &'a [u8]) -> Reader<'a>
        requires { is_ok (checked bytes.now) ≡ true }
        ensures bytes { result.bytes.now ≡ bytes.now }
        ensures start { result.at ≡ 2 }
    {
        Reader {
            bytes,
            at: COUNT_BYTES,
        }
    }

    // The entry at the position, which moves past it; none at the end, where the position stays.
    pub fn next_entry(&mut self) -> Option<Entry>
        ensures answer { result ≡ (if nat_lt self.old.at (length self.old.bytes.now) then Some (entry_at self.old.bytes.now self.old.at) else None) }
        ensures moved { self.new.at ≡ (if nat_lt self.old.at (length self.old.bytes.now) then self.old.at + 12 else self.old.at) }
        ensures bytes { self.new.bytes.now ≡ self.old.bytes.now }
        ensures own { IfSome result (λ e. Own e.content self.old.bytes.now self.old.at) }
    {
        if self.at == self.bytes.len() {
            return None;
        }
        let number = ((self.at - COUNT_BYTES) / RECORD_BYTES) as u32;
        let content = content_at(self.bytes, self.at);
        self.at += RECORD_BYTES;
        Some(Entry { number, content })
    }
}

impl<'a> Iterator for Reader<'a> {
    type Item = Entry;

    ghost use Rattle.std.specs.Iterator.{YieldsFirst, item_count};
    ghost use Rattle.trace.specs.Left.{entries_left};

    ghost next_gives = { YieldsFirst entries_left };

    ghost remaining = { item_count entries_left };

    fn next(&mut self) -> Option<Entry> {
        self.next_entry()
    }
}
