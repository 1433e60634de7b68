// The whole text of a replay.
ghost use Rattle.std.specs.Prelude.{◌≡◌, ◌++◌, IfOk, string_bytes, codes};
ghost use Rattle.trace.specs.Format.{checked, entries_of};
ghost use Rattle.machines.specs.Replays.{Blocks, ReplayText};

use crate::machine::{Machine, pile, powerpc, x86};
use replays::block::replay_on;
use std::alloc::{AllocError, Global};
use trace::listed::{Trace, file_text};

// The blocks of a trace, one behind another.
fn blocks(heap: Global, trace: &Trace) -> Result<String, AllocError>
    ensures { IfOk result (λ t. Blocks trace.now.frames trace.now.entries.items (string_bytes t)) }
{
    let mut text = replay_on(heap, Machine::X86.name(), x86(heap)?, trace)?;
    let second = replay_on(heap, Machine::PowerPc.name(), powerpc(heap)?, trace)?;
    let third = replay_on(heap, Machine::Pile.name(), pile(heap)?, trace)?;
    text.push_str(second.as_str())?;
    text.push_str(third.as_str())?;
    Ok(text)
}

// What is printed of a file: the blocks of its trace, or the number of what turns the whole file away.
pub fn replay_all(heap: Global, bytes: &[u8]) -> Result<String, AllocError>
    ensures { IfOk result (λ t. ReplayText (checked bytes.now) (entries_of bytes.now) (string_bytes t)) }
{
    file_text(heap, bytes, |trace| blocks(heap, trace))
}
