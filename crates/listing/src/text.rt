// The whole text of a listing.
ghost use Rattle.std.specs.Prelude.{◌≡◌, ◌++◌, IfOk, string_bytes, OnOk};
ghost use Rattle.listing.specs.Text.{lines, turned_away, trace_text, listing_text};

use std::alloc::{AllocError, Global};
use std::fmt::Write;
use trace::listed::{Trace, file_text};
use trace::record::Entry;

// Puts a line for each entry behind a text.
// The crate of scripts has the same three lines over calls: one function for both would have to say what any `Display` writes.
fn push_lines(text: &mut String, entries: &[Entry]) -> Result<(), AllocError>
    ensures { OnOk result (string_bytes text.new ≡ string_bytes text.old ++ lines entries.now) }
{
    for item in entries {
        writeln!(text, "{item}")?;
    }
    Ok(())
}

// How many entries are turned away.
fn turned_away(entries: &[Entry]) -> usize
    ensures { result ≡ turned_away entries.now }
{
    entries.iter().filter(|item| item.content.is_err()).count()
}

// A line for each entry of a trace, and a last one with the counts.
fn trace_text(heap: Global, trace: &Trace) -> Result<String, AllocError>
    ensures { IfOk result (λ t. string_bytes t ≡ trace_text trace.now.frames trace.now.entries.items) }
{
    let (frames, entries) = (trace.frames, trace.entries.as_slice());
    let mut text = String::new(heap);
    push_lines(&mut text, entries)?;
    let records = entries.len();
    let refused = turned_away(entries);
    writeln!(
        text,
        "listed: frame count {frames}, records {records}, turned away {refused}"
    )?;
    Ok(text)
}

// The listing of a file: the text of its trace, or the number of what turns the whole file away.
pub fn listing(heap: Global, bytes: &[u8]) -> Result<String, AllocError>
    ensures { IfOk result (λ t. string_bytes t ≡ listing_text bytes.now) }
{
    file_text(heap, bytes, |trace| trace_text(heap, trace))
}
