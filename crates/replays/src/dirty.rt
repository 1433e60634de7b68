// The modified pages of a memory.
ghost use Rattle.std.specs.Prelude.{◌≡◌, ◌++◌, string_bytes, OnOk};
ghost use Rattle.rules.specs.State.{is_modified as modified_in};
ghost use Rattle.memory.specs.Whole.{state};
ghost use Rattle.replays.specs.Blocks.{dirty_line_if, dirty_lines};

use memory::memory::Memory;
use pmap::interface::Pmap;
use std::alloc::AllocError;
use std::fmt::Write;

// Puts the line of object page x behind a text, if the page is modified.
fn push_dirty(text: &mut String, modified: bool, x: usize) -> Result<(), AllocError>
    ensures { OnOk result (string_bytes text.new ≡ string_bytes text.old ++ dirty_line_if modified x) }
{
    if !modified {
        return Ok(());
    }
    let object = x / 256;
    let index = x % 256;
    writeln!(text, "dirty {object} {index}")
}

// Puts a line for each modified page behind a text, by rising object and index.
pub fn push_dirty_pages<P: Pmap>(text: &mut String, memory: &Memory<P>) -> Result<(), AllocError>
    ensures { OnOk result (string_bytes text.new ≡ string_bytes text.old ++ dirty_lines (modified_in (state P.view memory.now)) 2048) }
{
    for x in 0..2048usize {
        push_dirty(text, memory.is_modified(x), x)?;
    }
    Ok(())
}
