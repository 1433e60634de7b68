// A whole trace file at once: its frame count and every entry in its place.
ghost use Rattle.std.specs.Prelude.{◌≡◌, true, is_ok, Err, MatchResult, IfOk, IfErr, string_bytes, alloc_error};
ghost use Rattle.std.specs.Fn.{FnOnceReturnsAt};
ghost use Rattle.trace.specs.Format.{checked};
ghost use Rattle.trace.specs.Listed.{Listed};
ghost use Rattle.trace.specs.Words.{refused_text};
ghost use Rattle.trace.specs.declared.listed.Trace.{Trace as TheTrace};
ghost use Rattle.trace.specs.declared.listed.ReadError.TheVariants.{File, Memory};

use crate::reader::{Reader, check_file};
use crate::record::Entry;
use refusal::code::Refusal;
use refusal::file::FileRefusal;
use std::alloc::{AllocError, AllocFailed, Global};

// What stands in a trace file.
#[derive(Drop)]
pub struct Trace {
    pub frames: u16,
    pub entries: Vec<Entry>,
}

// Why a trace file is not listed: a refusal of the whole file, or want of memory.
#[derive(Clone, Copy)]
pub enum ReadError {
    File(FileRefusal),
    Memory(AllocError),
}

impl From<FileRefusal> for ReadError {
    ghost from_gives = { λ e r. r ≡ File e };

    fn from(e: FileRefusal) -> ReadError {
        ReadError::File(e)
    }
}

impl From<AllocError> for ReadError {
    ghost from_gives = { λ e r. r ≡ Memory e };

    fn from(e: AllocError) -> ReadError {
        ReadError::Memory(e)
    }
}

impl<T: Drop> From<AllocFailed<T>> for ReadError {
    ghost from_gives = { λ _ r. r ≡ Memory alloc_error };

    fn from(e: AllocFailed<T>) -> ReadError {
        ReadError::Memory(AllocError::from(e))
    }
}

// Everything that a file hands out, from the first record to the last.
pub fn read_all(heap: Global, bytes: &[u8]) -> Result<Trace, ReadError>
    ensures { MatchResult result (λ t. Listed bytes.now t.frames t.entries.items) (λ e. elim e [ File f ↦ checked bytes.now ≡ Err f | Memory _ ↦ is_ok (checked bytes.now) ≡ true ]) }
{
    let frames = check_file(bytes)?;
    let entries = Reader::new(bytes).collect(heap)?;
    Ok(Trace { frames, entries })
}

// The text of a file: what is made of its trace, or the number of what turns the whole file away.
pub fn file_text<F: FnOnce(&Trace) -> Result<String, AllocError>>(
    heap: Global,
    bytes: &[u8],
    trace_text: F,
) -> Result<String, AllocError>
    requires { F.IsAlwaysCallable trace_text }
    ensures listed { IfOk (checked bytes.now) (λ _. IfOk result (λ _. (t : TheTrace) × Listed bytes.now t.frames t.entries.items × FnOnceReturnsAt F.FnOnce trace_text t result)) }
    ensures refused { IfErr (checked bytes.now) (λ e. IfOk result (λ text. string_bytes text ≡ refused_text e)) }
{
    match read_all(heap, bytes) {
        Ok(trace) => trace_text(&trace),
        Err(ReadError::File(refusal)) => {
            let number = refusal.code().number;
            format!(in heap; "file {number}\n")
        }
        Err(ReadError::Memory(e)) => Err(e),
    }
}
