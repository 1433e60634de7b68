// The text of a trace.
ghost use Rattle.std.specs.Prelude.{◌≡◌, ◌++◌, IfOk, string_bytes, OnOk};
ghost use Rattle.script.specs.Made.{call_lines, script_text};

use calls::Call;
use std::alloc::{AllocError, Global};
use std::fmt::Write;

// Puts a line for each call behind a text, as the listing does for entries.
fn push_calls(text: &mut String, calls: &[Call]) -> Result<(), AllocError>
    ensures { OnOk result (string_bytes text.new ≡ string_bytes text.old ++ call_lines calls.now) }
{
    for call in calls {
        writeln!(text, "{call}")?;
    }
    Ok(())
}

// A line with the frame count, and one for each call.
pub fn script_text(heap: Global, frames: u16, calls: &[Call]) -> Result<String, AllocError>
    ensures { IfOk result (λ t. string_bytes t ≡ script_text frames calls.now) }
{
    let mut text = format!(in heap; "frames {frames}\n")?;
    push_calls(&mut text, calls)?;
    Ok(text)
}
