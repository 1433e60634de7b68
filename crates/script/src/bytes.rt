// The bytes of a trace.
ghost use Rattle.std.specs.Prelude.{◌≡◌, Ok, MatchResult};
ghost use Rattle.script.specs.Made.{bytes_from, trace_of, Refuses};
ghost use Rattle.script.specs.declared.bytes.Unmade.TheVariants.{File, Memory};

use calls::Call;
use refusal::file::FileRefusal;
use std::alloc::{AllocError, Global};
use trace::encode::{encode, encode_frames};

// The most records of a trace.
pub(crate) const MAX_RECORDS: usize = 5_461;

// Why there is no trace: a refusal of the whole file, a call with a field that does not fit its bits, or want of memory.
#[derive(Clone, Copy, PartialEq, Eq, Debug)]
pub enum Unmade {
    File(FileRefusal),
    Misfit(Call),
    Memory(AllocError),
}

impl From<FileRefusal> for Unmade {
    ghost from_gives = { λ e r. r ≡ File e };

    fn from(e: FileRefusal) -> Unmade {
        Unmade::File(e)
    }
}

impl From<AllocError> for Unmade {
    ghost from_gives = { λ e r. r ≡ Memory e };

    fn from(e: AllocError) -> Unmade {
        Unmade::Memory(e)
    }
}

// Puts the bytes of one call after another behind some bytes.
fn push_records(bytes: &mut Vec<u8>, calls: &[Call]) -> Result<(), Unmade>
    ensures { MatchResult result (λ _. bytes_from bytes.old.items calls.now ≡ Ok bytes.new.items) (Refuses (bytes_from bytes.old.items calls.now)) }
{
    for call in calls {
        let spelled = encode(*call).ok_or(Unmade::Misfit(*call))?;
        bytes.extend_from_slice(&spelled)?;
    }
    Ok(())
}

// The bytes of the trace that has a frame count and calls.
pub fn trace_bytes(heap: Global, frames: u16, calls: &[Call]) -> Result<Vec<u8>, Unmade>
    ensures { MatchResult result (λ v. trace_of frames calls.now ≡ Ok v.items) (Refuses (trace_of frames calls.now)) }
{
    let head = encode_frames(frames)?;
    if calls.len() > MAX_RECORDS {
        return Err(Unmade::File(FileRefusal::Size));
    }
    let mut bytes = Vec::from_slice(heap, &head)?;
    push_records(&mut bytes, calls)?;
    Ok(bytes)
}
