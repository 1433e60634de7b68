// The block of one machine: a trace replayed on a pmap.
ghost use Rattle.std.specs.Prelude.{◌≡◌, ◌++◌, IfOk, string_bytes, codes, OnOk};
ghost use Rattle.memory.specs.Whole.{state};
ghost use Rattle.replays.specs.Blocks.{tail_of, block_of};
ghost use Rattle.replays.specs.Replayed.{Replayed};

use crate::dirty::push_dirty_pages;
use crate::lines::{push_accesses, push_lines, push_moves};
use crate::selected::calls_in;
use memory::memory::Memory;
use pmap::interface::Pmap;
use runs::run::{Ran, run};
use std::alloc::{AllocError, Global};
use std::fmt::Write;
use trace::listed::Trace;
use trace::record::Entry;

// Puts the counts and the modified pages behind a text.
fn push_tail<P: Pmap>(text: &mut String, memory: &Memory<P>) -> Result<(), AllocError>
    ensures { OnOk result (string_bytes text.new ≡ string_bytes text.old ++ tail_of (state P.view memory.now)) }
{
    let counts = memory.counts();
    push_accesses(text, &counts)?;
    push_moves(text, &counts)?;
    push_dirty_pages(text, memory)
}

// The text of a run: the machine's name, a line for each read and refusal, the counts, the modified pages.
fn block<P: Pmap>(
    heap: Global,
    name: &str,
    entries: &[Entry],
    ran: &Ran<P>,
) -> Result<String, AllocError>
    ensures { IfOk result (λ t. string_bytes t ≡ block_of name.now entries.now ran.now.replies.items (state P.view ran.now.memory)) }
{
    let mut text = String::new(heap);
    writeln!(text, "machine {name}")?;
    push_lines(&mut text, entries, &ran.replies)?;
    push_tail(&mut text, &ran.memory)?;
    Ok(text)
}

// Replays a trace on a pmap and gives the text of its block.
pub fn replay_on<P: Pmap + Drop>(
    heap: Global,
    name: &str,
    pmap: P,
    trace: &Trace,
) -> Result<String, AllocError>
    ensures { IfOk result (λ t. Replayed trace.now.frames trace.now.entries.items name.now (string_bytes t)) }
{
    let calls = calls_in(heap, &trace.entries)?;
    // of a trace that was read the frame count fits, so that what is wanting is memory
    let ran = run(heap, pmap, trace.frames, &calls).map_err(|_| AllocError)?;
    block(heap, name, &trace.entries, &ran)
}
